// The pairs of states, the specification's and the mutant's, that are in reach with the settled choices.
ghost use Rattle.std.specs.Prelude.{◌≡◌, true, ◌<◌, ◌≤◌, ◌/◌, ◌%◌, length};
ghost use Rattle.block.specs.Layout.{inputs_of};
ghost use Rattle.block.specs.Tabulated.{Wf};
ghost use Rattle.cubes.specs.Cube.{Conform};
ghost use Rattle.walks.specs.Walks.{Agrees};
ghost use Rattle.walks.specs.declared.reach.Stop.TheVariants.{Closed};
ghost use Rattle.walks.specs.Reaching.{Met, StartReached, CellReached, RowReached, AllWithin};

use crate::steps::{settled_choice, used_with};
use block::*;
use cubes::words::{Sets, holds, with, within};

// What stops the pairs: nothing so far; a wrong output in reach; the first unsettled suspect; that not every pair was looked at.
#[derive(Clone, Copy)]
pub(crate) enum Stop {
    Closed,
    Wrong,
    Waits(u8),
    Lost,
}

// By which suspects, how many pairs were met, and what stops them.
#[derive(Clone, Copy)]
pub(crate) struct Reach {
    pub used: u32,
    pub count: u16,
    pub stop: Stop,
}

// Adds a pair to the rows, by state of the specification a set of states, and to the queue.
fn meet(rows: &mut Sets, queue: &mut [u8; 256], s: u8, q: u8, count: u16) -> u16
    requires { (length rows.old ≡ 16) × (s < 16) }
    ensures { Met rows.old rows.new s q × (count ≤ 256 → result ≤ 256) }
{
    if q >= 16 {
        return count;
    }
    let at = usize::from(s);
    let row = rows[at];
    if holds(row, q) {
        return count;
    }
    rows[at] = with(row, q);
    if count >= 256 {
        return count;
    }
    queue[usize::from(count)] = s * 16 + q;
    count + 1
}

// The first unsettled suspect stops the pairs, unless something stops them already.
fn stopped(mut reach: Reach, i: u8) -> Reach
    ensures { (result.used ≡ reach.used) × (result.count ≡ reach.count) × (result.stop ≡ Closed → ⊥) }
{
    match reach.stop {
        Stop::Closed => {
            reach.stop = Stop::Waits(i);
            reach
        }
        _ => reach,
    }
}

// One input at the pair of states k / 16 and k % 16.
fn cell(
    block: &Block,
    p: &[u16; 32],
    k: u8,
    x: u8,
    rows: &mut Sets,
    queue: &mut [u8; 256],
    reach: Reach,
) -> Reach
    requires { Wf block.now × (x < inputs_of block.now) × (length rows.old ≡ 16) }
    ensures { CellReached block.now p.now rows.old rows.new reach result k x }
{
    let at = place(k / 16, x);
    let next = rule_target(block, at);
    if next == 255 {
        return reach;
    }
    let pair = place(k % 16, x);
    let i = site(block, pair);
    let Some(c) = settled_choice(p, i) else {
        return stopped(reach, i);
    };
    let step = transition(block, pair, c);
    let used = used_with(reach.used, i);
    if step.output != rule_output(block, at) {
        return Reach {
            used,
            count: reach.count,
            stop: Stop::Wrong,
        };
    }
    let count = meet(rows, queue, next, step.target, reach.count);
    let stop = reach.stop;
    Reach { used, count, stop }
}

// The pair of the states after a reset, or the unsettled suspect that stops it.
fn start(block: &Block, p: &[u16; 32], rows: &mut Sets, queue: &mut [u8; 256]) -> Reach
    requires { Wf block.now × (length rows.old ≡ 16) }
    ensures { StartReached block.now p.now rows.old rows.new result }
{
    let none = Reach {
        used: 0,
        count: 0,
        stop: Stop::Closed,
    };
    let i = site(block, WAKING);
    let Some(c) = settled_choice(p, i) else {
        return stopped(none, i);
    };
    let step = transition(block, WAKING, c);
    Reach {
        used: used_with(0, i),
        count: meet(rows, queue, 0, step.target, 0),
        stop: Stop::Closed,
    }
}

// Every input at a pair of states, up to a wrong output.
fn row(
    block: &Block,
    p: &[u16; 32],
    k: u8,
    rows: &mut Sets,
    queue: &mut [u8; 256],
    from: Reach,
) -> Reach
    requires { Wf block.now × (length rows.old ≡ 16) }
    ensures { RowReached block.now p.now rows.old rows.new from result k (inputs_of block.now) }
{
    let end = inputs(block);
    let mut reach = from;
    for x in 0..end {
        reach = cell(block, p, k, x, rows, queue, reach);
        if let Stop::Wrong = reach.stop {
            return reach;
        }
    }
    reach
}

// Whether each row is within the other of its state.
fn all_within(block: &Block, rows: &Sets, done: &Sets) -> bool
    requires { Wf block.now }
    ensures { result ≡ true → AllWithin block.now rows.now done.now }
{
    let end = states(block);
    for s in 0..end {
        if !within(rows[usize::from(s)], done[usize::from(s)]) {
            return false;
        }
    }
    true
}

// The row of a pair.
fn row_of(k: u8) -> usize
    ensures { (result ≡ k / 16) × (result < 16) }
{
    usize::from(k / 16)
}

// The pairs in reach, breadth first. Where nothing stops them, every mutant that has the choices of the suspects used conforms.
pub(crate) fn spread(block: &Block, p: &[u16; 32]) -> Reach
    requires { Wf block.now }
    ensures { result.stop ≡ Closed → Conform block.now (Agrees p.now result.used) }
{
    let mut rows = [0u16; 16];
    let mut done = [0u16; 16];
    let mut queue = [0u8; 256];
    let mut reach = start(block, p, &mut rows, &mut queue);
    let mut n: usize = 0;
    // stays: the queue grows while it is read
    while n < usize::from(reach.count) {
        let k = queue[n];
        reach = row(block, p, k, &mut rows, &mut queue, reach);
        if let Stop::Wrong = reach.stop {
            return reach;
        }
        let s = row_of(k);
        done[s] = with(done[s], k % 16);
        n += 1;
    }
    if !all_within(block, &rows, &done) {
        reach.stop = Stop::Lost;
    }
    reach
}
