// Definitions and laws only, in specs/: tests, bounded quantifiers, sums, sets as numbers, closure, the order of refusals.
#![tactic(auto)]
