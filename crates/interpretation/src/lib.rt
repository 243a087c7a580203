// Definitions and laws only, in specs/: finite interpretations, what is true in them, and models.
#![tactic(auto)]
