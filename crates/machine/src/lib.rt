// A mutant's machine: whether bytes are a mutant, what it does, and what tells it from the specification.
// Promises the refusals 13 and 14, the mutant's tables, and the shortest, then smallest, distinguishing sequence.
// Called by `mutation`, `search` and `clearing`, which show what its functions require.

#![tactic(auto)]

mod fitting;
mod laying;
mod product;

pub use fitting::fits;
pub use laying::{Machine, blank, lay, machine_of};
pub use product::{Difference, bound, distinguish};
