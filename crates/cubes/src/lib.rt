// Cubes: sets of mutants that say for each suspect which transitions are meant.
// Promises that a cube is refuted where it says so: no mutant in it gives the log (`fails`), or every one conforms (`closed`).
// Called by the crates above as far as `mutation`, which show what its functions require.

#![tactic(auto)]

pub mod conform;
pub mod failing;
pub mod gather;
pub mod goal;
pub mod literals;
pub mod starts;
pub mod tables;
pub mod words;
