// Definitions and theorems only, in specs/: graphs, their rules, and the interpretation that a graph stands for.
#![tactic(auto)]
