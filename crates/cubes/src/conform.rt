// Whether a set of pairs of states is closed under a cube without a wrong output: then every mutant in the cube conforms.
ghost use Rattle.std.specs.Prelude.{◌≡◌, true, ◌<◌};
ghost use Rattle.block.specs.Layout.{site_at, states_of, inputs_of};
ghost use Rattle.block.specs.Tabulated.{Wf};
ghost use Rattle.cubes.specs.Cube.{In, Given, LoneOk, FreedOk, CellOk, RowOk, LineOk, AllConform};

use crate::literals::{Cube, going, sounds};
use crate::starts::starts;
use crate::tables::Facts;
use crate::words::{Sets, holds, within};
use block::*;

// A pair that is no suspect: its output is o, and its next state is in the row.
fn lone(block: &Block, k: usize, o: u8, row: u16) -> bool
    requires { Wf block.now × (k < 256) × (site_at block.now k ≡ 255) }
    ensures { result ≡ true → LoneOk block.now k o row }
{
    let step = transition(block, k, 0);
    if step.output != o {
        return false;
    }
    holds(row, step.target)
}

// A suspect: every choice that the literal means has the output o, and its next state is in the row.
fn freed(facts: &Facts, l: u32, i: u8, o: u8, row: u16) -> bool
    requires { i < 32 }
    ensures { result ≡ true → FreedOk facts.now l i o row }
{
    if o >= 16 {
        return false;
    }
    if !sounds(facts, l, i, o) {
        return false;
    }
    within(going(facts, l, i, o), row)
}

// One input at a pair of states.
fn cell_closed(block: &Block, facts: &Facts, cube: &Cube, pairs: &Sets, a: u8, b: u8, x: u8) -> bool
    requires { Given block.now facts.now × (a < 16) × (b < states_of block.now) × (x < inputs_of block.now) }
    ensures { result ≡ true → CellOk block.now (In block.now cube.now) pairs.now a b x }
{
    let k = place(a, x);
    let next = rule_target(block, k);
    if next == 255 {
        return true;
    }
    let o = rule_output(block, k);
    let row = pairs[wide(next)];
    let at = place(b, x);
    let i = site(block, at);
    if i == 255 {
        return lone(block, at, o, row);
    }
    let l = cube[wide(i)];
    freed(facts, l, i, o, row)
}

// Every input at a pair of states, if it is in the set.
fn row_closed(block: &Block, facts: &Facts, cube: &Cube, pairs: &Sets, a: u8, b: u8) -> bool
    requires { Given block.now facts.now × (a < 16) × (b < states_of block.now) }
    ensures { result ≡ true → RowOk block.now (In block.now cube.now) pairs.now a b }
{
    let row = pairs[wide(a)];
    if !holds(row, b) {
        return true;
    }
    let end = inputs(block);
    for x in 0..end {
        if !cell_closed(block, facts, cube, pairs, a, b, x) {
            return false;
        }
    }
    true
}

// Every state of the mutant beside a state of the specification.
fn line_closed(block: &Block, facts: &Facts, cube: &Cube, pairs: &Sets, a: u8) -> bool
    requires { Given block.now facts.now × (a < 16) }
    ensures { result ≡ true → LineOk block.now (In block.now cube.now) pairs.now a }
{
    let end = states(block);
    for b in 0..end {
        if !row_closed(block, facts, cube, pairs, a, b) {
            return false;
        }
    }
    true
}

// Whether the pairs of states have every start and are closed under the cube without a wrong output.
pub fn closed(block: &Block, facts: &Facts, cube: &Cube, pairs: &Sets) -> bool
    requires { Given block.now facts.now }
    ensures { result ≡ true → AllConform block.now cube.now }
{
    if !within(starts(block, facts, cube), pairs[0]) {
        return false;
    }
    let end = states(block);
    for a in 0..end {
        if !line_closed(block, facts, cube, pairs, a) {
            return false;
        }
    }
    true
}
