// A mutant with all its choices: by which of them it is cleared, or what tells it from the specification.
ghost use Rattle.std.specs.Prelude.{List, ℕ, ◌*◌, ◌≤◌, length};
ghost use Rattle.sheet.specs.Sheet.{Sheet};
ghost use Rattle.block.specs.Layout.{states_of};
ghost use Rattle.block.specs.Tabulated.{Wf};
ghost use Rattle.search.specs.Search.{ForSheet};
ghost use Rattle.clearing.specs.Sweep.{Full};
ghost use Rattle.clearing.specs.Looking.{BySome, LookedOk};

use block::{Block, initial};
use cubes::tables::Facts;
use cursors::{test_at, tests_of};
use logs::first_wrong;
use machine::{blank, distinguish, lay};
use walks::{by_log, by_reach};

// By the choices at a set of slots a mutant fails a test; it conforms; or it survives, and a sequence of this length tells it from the
// specification.
#[derive(Clone, Copy)]
pub enum Looked {
    Fails(u32),
    Conforms,
    Survives(usize),
}

// The slots by which it fails a test; these are all slots if the facts have its place wrong.
fn by_test(block: &Block, facts: &Facts, log: &[u8], p: &[u16; 32], test: usize) -> u32
    requires { Wf block.now }
    ensures { BySome block.now log.now p.now result }
{
    by_log(block, log, p, test_at(facts, test)).unwrap_or(u32::MAX)
}

// The slots by which it conforms; all of them where it does not.
pub fn by_conforming(block: &Block, p: &[u16; 32]) -> u32
    requires { Wf block.now }
    ensures { (log : List ℕ) → BySome block.now log p.now result }
{
    by_reach(block, p).unwrap_or(u32::MAX)
}

// A mutant along the whole log, and held against the specification. Its distinguishing sequence is written at the buffer's front.
fn look_through(
    block: &Block,
    facts: &Facts,
    log: &[u8],
    p: &[u16; 32],
    sequence: &mut [u8],
) -> Looked
    requires full { ((sh : Sheet) × ForSheet sh block.now log.now) × Full block.now p.now }
    requires block_in_bounds { states_of block.now * states_of block.now ≤ length sequence.old }
    ensures { (sh : Sheet) → ForSheet sh block.now log.now → LookedOk sh p.now result sequence.new }
{
    let mut outputs = blank();
    let mut targets = blank();
    lay(block, p, &mut outputs, &mut targets);
    let start = initial(block, p);
    match first_wrong(log, &outputs, &targets, start) {
        Some(wrong) => Looked::Fails(by_test(block, facts, log, p, wrong.test)),
        None => match distinguish(block, &outputs, &targets, start, sequence) {
            None => Looked::Conforms,
            Some(d) => Looked::Survives(d),
        },
    }
}

// The last test of the log.
fn newest(facts: &Facts) -> usize {
    tests_of(facts).saturating_sub(1)
}

// The same; first by the last test, which the mutant before fails.
pub fn look(block: &Block, facts: &Facts, log: &[u8], p: &[u16; 32], sequence: &mut [u8]) -> Looked
    requires full { ((sh : Sheet) × ForSheet sh block.now log.now) × Full block.now p.now }
    requires block_in_bounds { states_of block.now * states_of block.now ≤ length sequence.old }
    ensures { (sh : Sheet) → ForSheet sh block.now log.now → LookedOk sh p.now result sequence.new }
{
    match by_log(block, log, p, test_at(facts, newest(facts))) {
        Some(used) => Looked::Fails(used),
        None => look_through(block, facts, log, p, sequence),
    }
}
