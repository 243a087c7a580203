// Theorems only, in specs/: exactly one of a graph and a refutation exists.
#![tactic(auto)]
