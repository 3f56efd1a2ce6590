// The test suite of a sheet as a log (resets, and inputs with the specified output), and a tabulated mutant along a log.
// Promises that the log is the suite's, and which output of a log is the first that the mutant does not give.
// Called by `mutation`, `making`, `search`, `clearing` and `usage`, which show what its functions require.

#![tactic(auto)]

mod suite;
mod walk;

pub use suite::{log_suite, record_test};
pub use walk::{Wrong, first_wrong};
