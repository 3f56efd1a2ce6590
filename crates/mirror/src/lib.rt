// Two states that the mutants of a block do not tell apart can be exchanged in what is known of a cube.
// Promises that the states it finds can be exchanged, and that no mutant with a transition it adds is sought.
// Called by `refutation`, which shows what its functions require.

#![tactic(auto)]

mod exchange;
mod reflection;

pub use exchange::exchange_all;
pub use reflection::reflect;
