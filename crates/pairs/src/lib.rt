// Steering by pairs of states (specification's, mutant's): which wide cube may conform, and how far a settled part is known to.
// Promises that what it proposes is a cube, which others check, and that a suspect it meets is not settled.
// Called by `nodes` and `refutation`.

#![tactic(auto)]

mod cells;
mod proposal;
mod reach;
mod witness;

pub use proposal::{Proposal, propose};
pub use reach::meet;
