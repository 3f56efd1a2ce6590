// A settled part refuted by the walk of the log and the pairs of states in reach, split at the suspects that they wait for.
ghost use Rattle.std.specs.Prelude.{List, ℕ, IfSome};
ghost use Rattle.block.specs.Tabulated.{Wf};
ghost use Rattle.cubes.specs.declared.goal.Goal.{Goal as Sort};
ghost use Rattle.cubes.specs.declared.goal.Goal.TheVariants.{Nonconforming};
ghost use Rattle.walks.specs.Walks.{Stands, Halts, ToldOk, SplitOk};

use crate::effort::{enter_node, spend};
use crate::reach::{Stop, spread};
use crate::walk::{Halt, Place, walk};
use block::*;
use cubes::goal::Goal;
use leaves::*;

// By the pairs of states, at the end of the log.
fn by_pairs(block: &Block, notes: &mut [u16], p: &[u16; 32], place: Place) -> Halt
    requires { Wf block.now }
    ensures { (log : List ℕ) → Stands block.now log p.now place → Halts Nonconforming block.now log p.now result }
{
    let reach = spread(block, p);
    spend(notes, reach.count);
    match reach.stop {
        Stop::Closed => Halt::Fails(reach.used),
        Stop::Wrong => {
            keep_witness(notes, p);
            Halt::Lost
        }
        Stop::Waits(i) => Halt::Waits(i, place),
        Stop::Lost => Halt::Lost,
    }
}

// By the log and then, where a nonconforming mutant is sought, by the pairs; nothing where the budget is spent.
fn look(
    block: &Block,
    log: &[u8],
    goal: Goal,
    notes: &mut [u16],
    p: &[u16; 32],
    from: Place,
) -> Halt
    requires { Wf block.now × Stands block.now log.now p.now from }
    ensures { Halts goal block.now log.now p.now result }
{
    if !enter_node(notes) {
        return Halt::Lost;
    }
    let halt = walk(block, log, p, from);
    let Halt::Ends(place) = halt else {
        return halt;
    };
    match goal {
        Goal::Any => {
            keep_witness(notes, p);
            Halt::Lost
        }
        Goal::Nonconforming => by_pairs(block, notes, p, place),
    }
}

// The suspects whose settled choices are those of no mutant that is sought, where nothing is to be settled.
pub(crate) fn told_of(halt: Halt) -> Option<u32>
    ensures { (goal : Sort) (m log p : List ℕ) → Halts goal m log p halt → ToldOk goal m log p result }
{
    match halt {
        Halt::Fails(used) => Some(used),
        _ => None,
    }
}

// How many choices an unsettled suspect has; none for any other number, and where no more may be settled.
fn to_settle(block: &Block, p: &[u16; 32], i: u8, left: u8) -> Option<u16>
    ensures { IfSome result (λ n. SplitOk block.now p.now i left n) }
{
    if i >= 32 || left == 0 || p[usize::from(i)] != 256 {
        return None;
    }
    Some(choices(block, i))
}

// Refutes the settled part p, with the walk at a place: by which suspects. `left` falls: so many more may be settled.
pub(crate) fn refute(
    block: &Block,
    log: &[u8],
    goal: Goal,
    notes: &mut [u16],
    p: &[u16; 32],
    from: Place,
    left: u8,
) -> Option<u32>
    requires { Wf block.now × Stands block.now log.now p.now from }
    ensures { ToldOk goal block.now log.now p.now result }
{
    let halt = look(block, log, goal, notes, p, from);
    let Halt::Waits(i, place) = halt else {
        return told_of(halt);
    };
    let end = to_settle(block, p, i, left)?;
    let mut q = *p;
    let mut used: u32 = 0;
    for c in 0..end {
        q[usize::from(i)] = c;
        let by = refute(block, log, goal, notes, &q, place, left - 1)?;
        if !holds(by, i) {
            return Some(by);
        }
        used = union(used, by);
    }
    Some(used)
}
