// Cubes in which no mutant is sought, kept in a lent slice of entries (specs/Store.antt says how).
// Promises that a right store stays one, and that no mutant is sought in a cube that it hands out.
// Called by `nodes` and `refutation`, which show what its functions require.

#![tactic(auto)]

mod entries;
mod live;
mod scan;

pub use entries::{Entry, FEW, MANY, fresh_store, learn};
pub use live::admit_all;
pub use scan::{find, look_up};
