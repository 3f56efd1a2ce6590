// The walk of the log with the settled choices.
ghost use Rattle.std.specs.Prelude.{◌≡◌, IfSome};
ghost use Rattle.block.specs.Tabulated.{Wf};
ghost use Rattle.cubes.specs.declared.goal.Goal.{Goal};
ghost use Rattle.walks.specs.Walks.{PairAt, Stands, Halts};

use crate::steps::{settled_choice, used_with};
use block::*;

// Where a walk stands: before which observation, in which state, and by which suspects since the reset.
#[derive(Clone, Copy)]
pub(crate) struct Place {
    pub at: usize,
    pub state: u8,
    pub used: u32,
}

// Where it halts: at a wrong output, by the suspects used; at an unsettled suspect; at the end; or at what it can't take.
#[derive(Clone, Copy)]
pub(crate) enum Halt {
    Fails(u32),
    Waits(u8, Place),
    Ends(Place),
    Lost,
}

// The pair of an observation in a state, if it can be taken; at a reset, the one that leads to the waking state.
fn pair_at(block: &Block, state: u8, v: u16) -> Option<usize>
    ensures { IfSome result (λ k. PairAt block.now state v k) }
{
    if v == 256 {
        return Some(WAKING);
    }
    let x = input_of(v);
    if v > 256 || x >= inputs(block) {
        return None;
    }
    Some(some_place(state, x))
}

// The suspects used before an observation; after a reset what was before does not matter.
fn since_reset(v: u16, used: u32) -> u32
    ensures { (v ≡ 256 → ⊥) → result ≡ used }
{
    if v == 256 { 0 } else { used }
}

// Walks the log from a place on. A reset is the transition into the waking state, with the output 0.
pub(crate) fn walk(block: &Block, log: &[u8], p: &[u16; 32], from: Place) -> Halt
    requires { Wf block.now × Stands block.now log.now p.now from }
    ensures { (goal : Goal) → Halts goal block.now log.now p.now result }
{
    let mut here = from;
    while here.at < log.len() {
        let seen = observe(log, here.at);
        let Some(k) = pair_at(block, here.state, seen.code) else {
            return Halt::Lost;
        };
        let i = site(block, k);
        let Some(c) = settled_choice(p, i) else {
            return Halt::Waits(i, here);
        };
        let step = transition(block, k, c);
        let used = used_with(since_reset(seen.code, here.used), i);
        if step.output != output_of(seen.code) {
            return Halt::Fails(used);
        }
        here = Place {
            at: seen.next,
            state: step.target,
            used,
        };
    }
    Halt::Ends(here)
}
