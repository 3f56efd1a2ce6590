// A wide cube that may conform, and the pairs of states that may be closed under it.
ghost use Rattle.std.specs.Prelude.{IfSome};
ghost use Rattle.leaves.specs.Members.{Literals};

use crate::cells::{Cell, look};
use block::*;
use cubes::literals::Cube;
use cubes::tables::Facts;
use cubes::words::{Sets, shared};
use leaves::*;

// Whether no wrong output and only safe pairs follow a pair on an input.
fn cell_safe(block: &Block, facts: &Facts, cube: &Cube, safe: &Sets, z: u8, x: u8) -> bool {
    match look(block, facts, cube, z, x) {
        Some(cell) => cell.sound && less(cell.go, safe[usize::from(low(cell.next))]) == 0,
        None => true,
    }
}

// The same on every input.
fn pair_safe(block: &Block, facts: &Facts, cube: &Cube, safe: &Sets, z: u8) -> bool {
    (0..inputs(block)).all(|x| cell_safe(block, facts, cube, safe, z, x))
}

// Takes a pair of states that is not safe away; whether it did.
fn sift_pair(block: &Block, facts: &Facts, cube: &Cube, safe: &mut Sets, z: u8) -> bool {
    let row = usize::from(z / 16);
    if !holds(safe[row], z) || pair_safe(block, facts, cube, safe, z) {
        return false;
    }
    safe[row] = less(safe[row], with(0, z));
    true
}

// Takes pairs that are not safe away, each looked at once; whether there was one.
fn sift(block: &Block, facts: &Facts, cube: &Cube, safe: &mut Sets) -> bool {
    let mut changed = false;
    for a in 0..states(block) {
        for b in 0..states(block) {
            changed |= sift_pair(block, facts, cube, safe, packed(a, b));
        }
    }
    changed
}

// Of some pairs of states the most that are closed under the cube without a wrong output.
fn safe_pairs(block: &Block, facts: &Facts, cube: &Cube, safe: &mut Sets) {
    for _ in 0..300u16 {
        if !sift(block, facts, cube, safe) {
            return;
        }
    }
}

// What a walk over pairs stands on: the machine and its facts, the pairs that are safe, and whether it ends at a wrong output, as a
// strict one does.
#[derive(Clone, Copy)]
struct Ground<'a> {
    block: &'a Block,
    facts: &'a Facts,
    safe: &'a Sets,
    strict: bool,
}

// How far a walk is: the rows in which there may be new pairs, and whether the cube stayed as it was.
#[derive(Clone, Copy)]
struct Rows {
    rows: u16,
    good: bool,
}

// A cube and the pairs of states reachable under it.
#[derive(Clone, Copy)]
pub struct Proposal {
    pub cube: Cube,
    pub pairs: Sets,
}

impl Proposal {
    // Narrows the cube at a suspect that goes to other than some states, or with a wrong output; whether it stayed as it was.
    fn narrow_cell(&mut self, cell: Cell, go: u16) -> bool
        ensures { Literals self.old.cube → Literals self.new.cube }
    {
        let Some(i) = cell.site else {
            return true;
        };
        if cell.go == go && cell.sound {
            return true;
        }
        self.cube[usize::from(i % 32)] = literal(cell.output, go);
        false
    }

    // Spreads over one input, and narrows the cube where it would leave the safe pairs; nothing where a strict walk ends.
    fn spread_cell(&mut self, on: Ground, w: Rows, z: u8, x: u8) -> Option<Rows>
        ensures { Literals self.old.cube → Literals self.new.cube }
    {
        let Some(cell) = look(on.block, on.facts, &self.cube, z, x) else {
            return Some(w);
        };
        if on.strict && !cell.sound {
            return None;
        }
        let next = low(cell.next);
        let row = usize::from(next);
        let go = shared(cell.go, on.safe[row]);
        let stayed = self.narrow_cell(cell, go);
        self.pairs[row] = union(self.pairs[row], go);
        Some(Rows {
            rows: with(w.rows, next),
            good: w.good && stayed,
        })
    }

    // Spreads over the inputs at a pair.
    fn spread_pair(&mut self, on: Ground, from: Rows, z: u8) -> Option<Rows>
        ensures { Literals self.old.cube → Literals self.new.cube }
    {
        let mut w = from;
        for x in 0..inputs(on.block) {
            w = self.spread_cell(on, w, z, x)?;
        }
        Some(w)
    }

    // Spreads over the next pair that is new; a row without one is done with.
    fn spread_next(&mut self, on: Ground, done: &mut Sets, w: Rows) -> Option<Rows>
        ensures { Literals self.old.cube → Literals self.new.cube }
    {
        let a = least(w.rows);
        let row = usize::from(a);
        let new = less(self.pairs[row], done[row]);
        if new == 0 {
            return Some(Rows {
                rows: without_least(w.rows),
                good: w.good,
            });
        }
        let b = least(new);
        done[row] = with(done[row], b);
        self.spread_pair(on, w, packed(a, b))
    }

    // Begins with the pairs after a reset, and narrows the literal of the waking state where these would not be safe; whether the
    // cube stayed as it was.
    fn start(&mut self, on: Ground) -> bool
        ensures { Literals self.old.cube → Literals self.new.cube }
    {
        self.pairs = [0; 16];
        let all = cubes::starts::starts(on.block, on.facts, &self.cube);
        self.pairs[0] = all;
        let i = site(on.block, WAKING);
        let go = shared(all, on.safe[0]);
        if i >= 32 || go == all {
            return true;
        }
        self.pairs[0] = go;
        self.cube[usize::from(i)] = literal(0, go);
        false
    }

    // Spreads over the pairs of states reachable under the cube, and narrows it where they would leave the safe ones; whether it
    // stayed as it was and a strict walk did not end.
    fn spread(&mut self, on: Ground) -> bool
        ensures { Literals self.old.cube → Literals self.new.cube }
    {
        let mut done = [0u16; 16];
        let mut w = Rows {
            rows: with(0, 0),
            good: self.start(on),
        };
        for _ in 0..5000u16 {
            if w.rows == 0 {
                return w.good;
            }
            let Some(next) = self.spread_next(on, &mut done, w) else {
                return false;
            };
            w = next;
        }
        w.good
    }

    // Narrows the cube until the pairs reachable under it are safe.
    fn narrow(&mut self, on: Ground)
        ensures { Literals self.old.cube → Literals self.new.cube }
    {
        for _ in 0..600u16 {
            if self.spread(on) {
                return;
            }
        }
    }
}

// A wide cube that has the settled part, and its pairs, if the settled part conforms whatever the unsettled suspects do.
pub fn propose(block: &Block, facts: &Facts, p: &[u8; 32], settled: u32) -> Option<Proposal>
    ensures { IfSome result (λ proposal. Literals proposal.cube) }
{
    let mut safe = [65535u16; 16];
    let mut proposal = Proposal {
        cube: [ANY; 32],
        pairs: [0; 16],
    };
    exact(p, settled, &mut proposal.cube);
    let strict = Ground {
        block,
        facts,
        safe: &safe,
        strict: true,
    };
    if !proposal.spread(strict) {
        return None;
    }
    safe_pairs(block, facts, &proposal.cube, &mut safe);
    exact(p, 0, &mut proposal.cube);
    proposal.narrow(Ground {
        block,
        facts,
        safe: &safe,
        strict: false,
    });
    Some(proposal)
}
