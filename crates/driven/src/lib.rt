// Histories of the bench station, computed through its definitions; no code: see specs/.
// Promises that P2 is driven to its verdicts as 02 says, and that each refusal comes where it is due.
// Called by nothing: it would show a slip in a definition.

#![tactic(auto)]
