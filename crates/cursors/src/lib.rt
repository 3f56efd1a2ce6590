// Steering by the tests of a log: how far each has come, what it refutes, which suspect is next, how wide a cube fails a test.
// Promises which cursors, notes and facts change, which suspects a proposal speaks of and which may be picked; the proposal itself is checked
// by others.
// Called by `store`, `nodes`, `refutation` and `clearing`.

#![tactic(auto)]

mod observed;
mod progress;
mod proposal;
mod wanted;

pub use observed::{add_test, find_tests, test_at, tests_of};
pub use progress::{Cursor, Cursors, Wait, advance_all, start_cursors};
pub use proposal::propose_fail;
pub use wanted::{FROM_TEST, mark, mark_wants, pick};
