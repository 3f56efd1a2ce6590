// Whether no mutant in a cube gives a part of a log.
ghost use Rattle.std.specs.Prelude.{◌≡◌, true, ◌<◌};
ghost use Rattle.block.specs.Layout.{site_at, states_of, inputs_of};
ghost use Rattle.block.specs.Tabulated.{Wf};
ghost use Rattle.cubes.specs.Cube.{Given, NoneIn};
ghost use Rattle.cubes.specs.declared.goal.Goal.{Goal};
ghost use Rattle.cubes.specs.Walk.{LoneLead, LeadOk, OnwardOk};

use crate::literals::{Cube, going};
use crate::starts::starts;
use crate::tables::Facts;
use crate::words::{holds, one, union};
use block::*;

// The next state of a pair that is no suspect, if its output is o.
fn lone_lead(block: &Block, k: usize, o: u8) -> u16
    requires { Wf block.now × (k < 256) × (site_at block.now k ≡ 255) }
    ensures { LoneLead block.now k o result }
{
    let step = transition(block, k, 0);
    if step.output != o {
        return 0;
    }
    one(step.target)
}

// The next states on an input from a state, if it is in the set and the output is o.
fn leads(block: &Block, facts: &Facts, cube: &Cube, set: u16, q: u8, x: u8, o: u8) -> u16
    requires { Given block.now facts.now × (q < states_of block.now) × (x < inputs_of block.now) × (o < 16) }
    ensures { LeadOk block.now cube.now set q x o result }
{
    if !holds(set, q) {
        return 0;
    }
    let at = place(q, x);
    let i = site(block, at);
    if i == 255 {
        return lone_lead(block, at, o);
    }
    let l = cube[wide(i)];
    going(facts, l, i, o)
}

// The states in which a mutant of the cube can be after an input in one of the set, if its output was o.
fn onward(block: &Block, facts: &Facts, cube: &Cube, set: u16, x: u8, o: u8) -> u16
    requires { Given block.now facts.now × (x < inputs_of block.now) × (o < 16) }
    ensures { OnwardOk block.now cube.now set x o result }
{
    let end = states(block);
    let mut next: u16 = 0;
    for q in 0..end {
        next = union(next, leads(block, facts, cube, set, q, x, o));
    }
    next
}

// Whether no mutant in the cube gives the part of the log from a reset at `from` to the next.
pub fn fails(block: &Block, facts: &Facts, cube: &Cube, log: &[u8], from: usize) -> bool
    requires { Given block.now facts.now }
    ensures { result ≡ true → (goal : Goal) → NoneIn goal block.now log.now cube.now }
{
    if from >= log.len() {
        return false;
    }
    if log[from] != PULSE {
        return false;
    }
    let mut at = from + 1;
    let mut set = starts(block, facts, cube);
    while at < log.len() {
        let seen = observe(log, at);
        let v = seen.code;
        if v >= 256 {
            return false;
        }
        let x = input_of(v);
        if x >= inputs(block) {
            return false;
        }
        set = onward(block, facts, cube, set, x, output_of(v));
        if set == 0 {
            return true;
        }
        at = seen.next;
    }
    false
}
