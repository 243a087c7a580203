// The refutation that evidence is: definitions alone.
#![tactic(auto)]
