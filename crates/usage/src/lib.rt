// Which slots a mutant uses (02: which open pairs a test touches), as a set: bit i for slot i.
// Promises the set of a step, of a run's start and of the tests up to the first wrong output, by definition.
// Called by `mutation`, which shows what its functions require.

#![tactic(auto)]

mod marks;
mod tried;

pub use marks::{marked, start_set};
pub use tried::use_tried;
