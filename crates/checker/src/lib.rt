// Definitions and theorems only, in specs/: the owner's demands, as theorems.
#![tactic(auto)]
