// Definitions and theorems only, in specs/: the papers' trials, each with what is told of it, on bytes.
#![tactic(auto)]
