// Definitions and theorems only, in specs/: the arithmetic of the counting step.
#![tactic(auto)]
