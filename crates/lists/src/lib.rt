// Words about options, lists and tests that the definitions share, their laws, and the library's words that proofs use (`Proving`); no code.
// Promises nothing of its own: what stands in `specs` is cited by the other crates.
// For every crate.

#![tactic(auto)]
