// The quick first attempt: the log is walked with the settled suspects, and split at the first unsettled one that the walk meets.
// Promises, where it says so, that no mutant with the choices of a prefix is sought; it fills no tables and may give up.
// Called by `search`, `clearing` and `pool`, which show what it requires.

#![tactic(auto)]

mod blame;
mod effort;
mod reach;
mod refute;
mod steps;
mod walk;

ghost use Rattle.std.specs.Prelude.{◌≡◌, true};
ghost use Rattle.block.specs.Tabulated.{Wf};
ghost use Rattle.cubes.specs.Cube.{NoneIf};
ghost use Rattle.walks.specs.Walks.{Begins};

pub use blame::{by_log, by_reach, gives_from};
use block::*;
use cubes::goal::Goal;
pub use effort::spent;
use leaves::*;
use refute::refute;
use walk::Place;

// Whether a log has nothing before its first reset: then any state will do to begin with.
pub fn begins(log: &[u8]) -> bool
    ensures { result ≡ true → Begins log.now }
{
    if log.is_empty() {
        return true;
    }
    log[0] == PULSE
}

// Whether no mutant with all the choices of the prefix is sought; false promises nothing.
pub fn none_from(
    block: &Block,
    log: &[u8],
    goal: Goal,
    notes: &mut [u16],
    prefix: &[u16; 32],
) -> bool
    requires { Wf block.now }
    ensures { NoneIf goal block.now log.now prefix.now result }
{
    if spent(notes) || witnessed(notes, prefix) {
        return false;
    }
    if !begins(log) {
        return false;
    }
    let start = Place {
        at: 0,
        state: 0,
        used: 0,
    };
    refute(block, log, goal, notes, prefix, start, 33).is_some()
}
