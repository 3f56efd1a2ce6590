// The facts of a block: by suspect and output the next states, by suspect the outputs.
ghost use Rattle.std.specs.Prelude.{◌≡◌, true, ◌<◌, length};
ghost use Rattle.block.specs.Layout.{site_at, choices_of};
ghost use Rattle.block.specs.Tabulated.{Wf};
ghost use Rattle.cubes.specs.Sets.{Put};
ghost use Rattle.cubes.specs.Facts.{Entered, PairEntered, AllEntered};

use crate::words::with;
use block::*;

// By suspect and output, then by suspect; the rest is for others (which states can be exchanged, where tests begin).
pub type Facts = [u16; FACTS];

// How many numbers the facts of a block are, and where in them are: by suspect, its outputs; by state, those that can be exchanged with
// it; where each test begins, the low half of its place; how many tests there are; the high half. Before them, by suspect and output, the
// next states.
pub const FACTS: usize = 1088;

pub const OUTPUTS: usize = 512;

pub const EXCHANGES: usize = 544;

pub const TESTS: usize = 560;

pub const TEST_COUNT: usize = 816;

pub const TESTS_HIGH: usize = 832;

fn put(facts: &mut Facts, at: usize, s: u8)
    requires { (length facts.old ≡ 1088) × (at < 1088) × (s < 16) }
    ensures { Put facts.old facts.new at s }
{
    facts[at] = with(facts[at], s);
}

// One choice of a suspect; false where its output is none of the sheet's.
fn enter(block: &Block, facts: &mut Facts, k: usize, i: u8, c: u16) -> bool
    requires { Wf block.now × (k < 257) × (i ≡ site_at block.now k) × (i < 32) × (c < choices_of block.now i) × (length facts.old ≡ 1088) }
    ensures { Entered block.now facts.old facts.new k c result }
{
    let step = transition(block, k, c);
    let o = step.output;
    if o >= 16 {
        return false;
    }
    let at = wide(i) * 16 + wide(o);
    put(facts, at, step.target);
    put(facts, OUTPUTS + wide(i), o);
    true
}

// Every choice of a pair.
fn enter_pair(block: &Block, facts: &mut Facts, k: usize) -> bool
    requires { Wf block.now × (k < 257) × (length facts.old ≡ 1088) }
    ensures { PairEntered block.now facts.old facts.new k result }
{
    let i = site(block, k);
    if i == 255 {
        return true;
    }
    let end = choices(block, i);
    for c in 0..end {
        if !enter(block, facts, k, i, c) {
            return false;
        }
    }
    true
}

// Every choice of every suspect; false where an output is none of the sheet's.
pub fn enter_all(block: &Block, facts: &mut Facts) -> bool
    requires { Wf block.now × (length facts.old ≡ 1088) }
    ensures { AllEntered block.now facts.new result }
{
    for k in 0..257 {
        if !enter_pair(block, facts, k) {
            return false;
        }
    }
    true
}
