// Definitions and laws only, in specs/: descriptions, their roles, and when one is accepted.
#![tactic(auto)]
