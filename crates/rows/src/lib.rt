// Rows 11 to 15 and 0: definitions and laws only.
#![tactic(auto)]
