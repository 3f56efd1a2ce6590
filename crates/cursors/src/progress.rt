// How far each test has come under a settled part.
ghost use Rattle.std.specs.Prelude.{◌≡◌, ◌%◌, ◌<◌, get_or, IfSome};
ghost use Rattle.cubes.specs.Sets.{HasAll};
ghost use Rattle.cursors.specs.Steering.{begin, waited, Begun, Advanced};

use crate::observed::{test_at, tests_of};
use block::*;
use cubes::tables::Facts;
use leaves::*;

// What a test waits for: its reset, a suspect that is not settled, or nothing, as it is through or has failed.
#[derive(Clone, Copy, PartialEq, Eq)]
pub enum Wait {
    Reset,
    Suspect(u8),
    Through,
    Failed,
}

// How far a test has come: the index in the log of its next observation, the mutant's state, none before its reset, and what it waits for.
#[derive(Clone, Copy)]
pub struct Cursor {
    pub at: u32,
    pub state: Option<u8>,
    pub wait: Wait,
}

// By test how far it has come.
pub type Cursors = [Cursor; 256];

fn standing(at: usize, state: Option<u8>, wait: Wait) -> Cursor
    ensures { result ≡ record { at = at % 4294967296; state = state; wait = wait } }
{
    Cursor {
        at: (at % 4294967296) as u32,
        state,
        wait,
    }
}

// A test before its reset.
pub fn begun(facts: &Facts, t: usize) -> Cursor
    ensures { result ≡ begin facts.now (t % 256) }
{
    standing(test_at(facts, t), None, Wait::Reset)
}

// Every test before its reset.
pub fn start_cursors(facts: &Facts) -> Cursors
    ensures { Begun 256 facts.now result }
{
    let mut cursors = [begun(facts, 0); 256];
    for t in 0..256 {
        cursors[t] = begun(facts, t);
    }
    cursors
}

// The next state by a transition, unless it has another output than the one observed.
fn go(step: u8, o: u8) -> Result<u8, Wait> {
    if step / 16 != o {
        return Err(Wait::Failed);
    }
    Ok(step % 16)
}

// The same at a pair, unless its suspect is not settled.
fn go_at(block: &Block, p: &[u8; 32], settled: u32, k: usize, o: u8) -> Result<u8, Wait>
    requires { k < 257 }
{
    let i = site(block, k);
    if i >= 32 {
        return go(lone(block, k), o);
    }
    if !holds(settled, i) {
        return Err(Wait::Suspect(i));
    }
    go(p[usize::from(i)], o)
}

// The waking state at a test's own reset; through at the next one.
fn wake(block: &Block, p: &[u8; 32], settled: u32, state: Option<u8>) -> Result<u8, Wait> {
    if state.is_some() {
        return Err(Wait::Through);
    }
    go_at(block, p, settled, WAKING, 0)
}

// The next state on an observation, or what the test waits for where it does not go on.
fn go_on(block: &Block, p: &[u8; 32], settled: u32, state: Option<u8>, v: u16) -> Result<u8, Wait> {
    if v >= 256 {
        return wake(block, p, settled, state);
    }
    let k = some_place(state.unwrap_or(0), input_of(v));
    go_at(block, p, settled, k, output_of(v))
}

// A test as far as the settled part goes.
fn advance(block: &Block, log: &[u8], p: &[u8; 32], settled: u32, from: Cursor) -> Cursor {
    let mut state = from.state;
    let mut at = from.at as usize;
    while at < log.len() {
        let seen = observe(log, at);
        match go_on(block, p, settled, state, seen.code) {
            Ok(next) => {
                state = Some(next);
                at = seen.next;
            }
            Err(wait) => return standing(at, state, wait),
        }
    }
    standing(at, state, Wait::Through)
}

// The same if it waits for `last`.
fn advance_if(
    block: &Block,
    log: &[u8],
    p: &[u8; 32],
    settled: u32,
    from: Cursor,
    last: Wait,
) -> Cursor
    ensures { (from.wait ≡ last → ⊥) → result ≡ from }
{
    if from.wait != last {
        return from;
    }
    advance(block, log, p, settled, from)
}

// What a test waits for, from a number: the suspect settled last, or 254 at the root of a question, their resets; those that have failed
// (253) or are through (255) have numbers too.
fn waited(last: u8) -> Wait
    ensures { result ≡ waited last }
{
    match last {
        253 => Wait::Failed,
        254 => Wait::Reset,
        255 => Wait::Through,
        suspect => Wait::Suspect(suspect),
    }
}

// Takes the tests on that wait for `last`, and no others; the first that fails.
pub fn advance_all(
    block: &Block,
    facts: &Facts,
    log: &[u8],
    p: &[u8; 32],
    settled: u32,
    cursors: &mut Cursors,
    last: u8,
) -> Option<usize>
    ensures advanced { Advanced (waited last) cursors.old cursors.new }
    ensures failed { IfSome result (λ t. (t < 256) × (t < get_or facts.now 816 0)) }
{
    let end = tests_of(facts);
    let wait = waited(last);
    for t in 0..256 {
        if t >= end {
            return None;
        }
        let c = advance_if(block, log, p, settled, cursors[t], wait);
        if let Wait::Failed = c.wait {
            return Some(t);
        }
        cursors[t] = c;
    }
    None
}

// The settled suspects that a test meets, up to its wrong output.
pub fn met(block: &Block, log: &[u8], p: &[u8; 32], settled: u32, from: Cursor) -> u32
    ensures { HasAll result settled }
{
    let mut used: u32 = 0;
    let mut c = from;
    for n in 0..33u8 {
        c = advance(block, log, p, used, c);
        let Wait::Suspect(i) = c.wait else {
            return used;
        };
        if !holds(settled, i) {
            return used;
        }
        used = with(used, i);
    }
    used
}
