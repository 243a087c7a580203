// Definitions and theorems only, in specs/: refutations (closing lists), their rules, and that they are sound.
#![tactic(auto)]
