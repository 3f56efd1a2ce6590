// What clears mutants: a look at one, or a cube without survivor; and which mutant comes after those, in dictionary order.
// Promises that no mutant that it clears or goes past is a survivor.
// Called by `sweep`, which shows what its functions require.

#![tactic(auto)]

mod ask;
mod looks;
mod order;

pub use ask::cleared_by;
pub use looks::{Looked, by_conforming, look};
pub use order::{Clearing, advance, choices_at};
