// Worked examples, computed through the definitions of the crates below; no code: see specs/.
// Promises that 01's sheets P1 to P10, and sheets for each refusal and their order, come out as written there.
// Called by nothing: it would show a slip in a definition.

#![tactic(auto)]
