// What the waiting tests refute, and which suspect is settled next.
ghost use Rattle.std.specs.Prelude.{◌≡◌, ◌⊎◌, ◌+◌, ◌*◌, ◌%◌, ◌<◌};
ghost use Rattle.leaves.specs.Noted.{Changed};
ghost use Rattle.cursors.specs.Steering.{Marked, Picked};

use crate::observed::{observed, tests_of};
use crate::progress::{Cursor, Cursors, Wait};
use block::*;
use cubes::tables::{Facts, OUTPUTS};
use leaves::*;

// From here on a hint names a test, and below an entry of the store.
pub const FROM_TEST: u16 = 32768;

// Notes what refutes the transitions to some states, those of one suspect and output.
fn set_hints(notes: &mut [u16], k: usize, next: u16, h: u16)
    requires { k < 512 }
    ensures { Changed 576 8768 notes.old notes.new }
{
    for s in members(next) {
        set_note(notes, HINTS + k * 16 + usize::from(s), h);
    }
}

// Notes next states of a suspect as refuted.
pub fn mark(notes: &mut [u16], j: u8, o: u8, next: u16, h: u16)
    ensures { Marked (j % 32 * 16 + o % 16) next notes.old notes.new }
{
    let k = cell(j, o);
    let old = note(notes, DEAD + k);
    let new = less(next, old);
    if new == 0 {
        return;
    }
    set_hints(notes, k, new, h);
    set_note(notes, DEAD + k, union(old, next));
}

// The outputs that a suspect has.
fn outputs_of(facts: &Facts, j: u8) -> u16 {
    facts[OUTPUTS + wide(j % 32)]
}

// Notes the choices of a suspect with another output than a test wants.
fn mark_test(facts: &Facts, notes: &mut [u16], j: u8, want: u8, h: u16)
    ensures { Changed 64 8768 notes.old notes.new }
{
    for o in members(less(outputs_of(facts, j), with(0, want))) {
        mark(notes, j, o, facts[cell(j, o)], h);
    }
}

fn one_more(waiting: &mut [u16; 32], j: u8) {
    let i = wide(j % 32);
    if waiting[i] < 256 {
        waiting[i] += 1;
    }
}

// Notes the choices that a test refutes, if it waits, and counts it. One that waits at its reset refutes none: a reset reads as the
// output 0, which every choice of the waking state has.
fn mark_want(
    facts: &Facts,
    log: &[u8],
    c: Cursor,
    notes: &mut [u16],
    waiting: &mut [u16; 32],
    h: u16,
)
    ensures { Changed 64 8768 notes.old notes.new }
{
    let Wait::Suspect(j) = c.wait else {
        return;
    };
    one_more(waiting, j);
    mark_test(facts, notes, j, output_of(observed(log, c.at as usize)), h);
}

// Notes the choices that waiting tests refute, and counts the tests that wait for each suspect.
pub fn mark_wants(
    facts: &Facts,
    log: &[u8],
    cursors: &Cursors,
    notes: &mut [u16],
    waiting: &mut [u16; 32],
)
    ensures { Changed 64 8768 notes.old notes.new }
{
    let end = tests_of(facts);
    for t in 0..256 {
        if wide16(t) >= end {
            return;
        }
        let c = cursors[wide16(t)];
        mark_want(facts, log, c, notes, waiting, FROM_TEST + t);
    }
}

// How many choices of a suspect are not known to be refuted.
fn alive(facts: &Facts, notes: &[u16], j: u8) -> u32
    ensures { result < 512 }
{
    let mut sum: u32 = 0;
    let mut left = outputs_of(facts, j);
    for n in 0..16u8 {
        if left == 0 {
            return sum;
        }
        let k = cell(j, least(left));
        sum += size(less(facts[k], note(notes, DEAD + k)));
        left = without_least(left);
    }
    sum
}

fn times(a: u32, b: u16) -> u64
    requires { a < 512 }
{
    u64::from(a) * u64::from(b)
}

// The suspect that is best so far: its choices left and the tests that wait for it.
#[derive(Clone, Copy)]
struct Best {
    at: u8,
    left: u32,
    tests: u16,
}

// The better one: fewer choices left for each test that waits for it.
fn better(facts: &Facts, notes: &[u16], best: Best, j: u8, tests: u16) -> Best
    ensures { (result.at ≡ best.at) ⊎ ((result.at ≡ j) × (tests ≡ 0 → ⊥)) }
{
    if tests == 0 {
        return best;
    }
    let left = alive(facts, notes, j);
    if best.at != 255 {
        if times(left, best.tests) >= times(best.left % 512, tests) {
            return best;
        }
    }
    Best { at: j, left, tests }
}

// The suspect with the fewest choices left for each test that waits for it, or 255.
pub fn pick(block: &Block, facts: &Facts, notes: &[u16], waiting: &[u16; 32]) -> u8
    ensures { Picked block.now waiting.now result }
{
    let end = slots(block);
    let mut best = Best {
        at: 255,
        left: 0,
        tests: 0,
    };
    for j in 0..32 {
        if j >= end {
            return best.at;
        }
        best = better(facts, notes, best, j, waiting[wide(j)]);
    }
    best.at
}
