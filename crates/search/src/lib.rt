// The first mutant in dictionary order that gives a log and meets a goal; whether there is one that gives it.
// Promises that it is the first, or that there is none, and what stands in both buffers. Asks nothing of the log.
// Called by `mutation`, which shows what its functions require.

#![tactic(auto)]

mod attempts;
mod check;
mod rooms;
mod settle;

pub use attempts::{exists, first};
pub use rooms::room;
pub use settle::{Beginning, GaveUp};
