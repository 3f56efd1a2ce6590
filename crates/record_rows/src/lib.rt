// Rows of Request 9, computed through the definitions of `records`; no code.

#![tactic(auto)]
