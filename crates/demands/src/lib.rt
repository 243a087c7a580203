// Definitions and theorems only, in specs/: the owner's demands, on bytes.
#![tactic(auto)]
