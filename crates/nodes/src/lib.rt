// Nodes of the search for refutations: settled parts of mutants, and what is known of one, by a test, by the store or by pairs of states.
// Promises that no mutant is sought in a cube that is told, that the store stays right, and whether a cube has all mutants of a prefix.
// Called by `refutation`, which shows what its functions require.

#![tactic(auto)]

mod node;
mod prefix;
mod tell;

pub use node::{Node, UNHINTED};
pub use prefix::has_prefix;
pub use tell::Question;
