// By the choices at which suspects a mutant is not sought.
ghost use Rattle.std.specs.Prelude.{List, ◌≡◌, true, ℕ, ◌<◌, length, get_or};
ghost use Rattle.block.specs.Tabulated.{Wf};
ghost use Rattle.cubes.specs.declared.goal.Goal.{Goal};
ghost use Rattle.cubes.specs.declared.goal.Goal.TheVariants.{Nonconforming};
ghost use Rattle.walks.specs.Walks.{Halts, Starts, ToldOk};

use crate::reach::{Stop, spread};
use crate::refute::told_of;
use crate::walk::{Halt, Place, walk};
use block::*;

// Where a walk from the reset at a place of the log halts; it is lost where no reset stands there.
fn walk_from(block: &Block, log: &[u8], p: &[u16; 32], at: usize) -> Halt
    requires { Wf block.now }
    ensures { ((goal : Goal) → Halts goal block.now log.now p.now result) × Starts log.now at result }
{
    if at >= log.len() {
        return Halt::Lost;
    }
    if log[at] != PULSE {
        return Halt::Lost;
    }
    let start = Place {
        at,
        state: 0,
        used: 0,
    };
    walk(block, log, p, start)
}

// By a wrong output in the log from the reset at a place on: the suspects used; none where there is no wrong output.
pub fn by_log(block: &Block, log: &[u8], p: &[u16; 32], at: usize) -> Option<u32>
    requires { Wf block.now }
    ensures { (goal : Goal) → ToldOk goal block.now log.now p.now result }
{
    told_of(walk_from(block, log, p, at))
}

// As it conforms: the suspects used; none where it does not.
pub fn by_reach(block: &Block, p: &[u16; 32]) -> Option<u32>
    requires { Wf block.now }
    ensures { (log : List ℕ) → ToldOk Nonconforming block.now log p.now result }
{
    let reach = spread(block, p);
    match reach.stop {
        Stop::Closed => Some(reach.used),
        _ => None,
    }
}

// Whether the log from the reset at a place on is given by a mutant with the settled choices, which it does not leave.
pub fn gives_from(block: &Block, log: &[u8], p: &[u16; 32], at: usize) -> bool
    requires { Wf block.now }
    ensures { result ≡ true → (at < length log.now) × (get_or log.now at 0 ≡ 16) }
{
    match walk_from(block, log, p, at) {
        Halt::Ends(_) => true,
        _ => false,
    }
}
