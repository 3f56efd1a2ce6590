// What steers a sweep: what may be spent on looks, how much is asked, some survivors that were met.
// Promises with what a sweep begins, and what each step leaves as it is; no answer rests on it.
// Called by `sweep` and `making`.

#![tactic(auto)]

ghost use Rattle.std.specs.Prelude.{◌≡◌, ◌+◌, ◌-◌, ◌<◌, ◌≤◌, ltb, length, slice_index};
ghost use Rattle.block.specs.Tabulated.{Wf};
ghost use Rattle.leaves.specs.Noted.{Changed};
ghost use Rattle.pool.specs.Steers.{begun, with_effort, earned, Remembers, Forgets};

use block::Block;
use leaves::{KEPT, WITNESS, note, set_note};
use walks::gives_from;

// What may be spent to begin with, and how much more after a test was appended and after a question in vain.
const ENOUGH: u16 = 128;

const MORE: u16 = 8;

const RETRY: u16 = 4;

// What may be spent; how many first choices a question has at least; whether a mutant conformed; the choices of some survivors, 256 where
// any will do, and which of them is overwritten next.
#[derive(Clone, Copy)]
pub struct Steering {
    effort: u16,
    floor: u16,
    conformed: bool,
    survivors: [Option<[u16; 32]>; 8],
    next: usize,
}

// Whether two choices of a slot differ, the first of which may be any.
fn clash(c: u16, d: u16) -> bool {
    c != 256 && c != d
}

// One more than how many first choices of p, of n, a survivor can have.
fn agreement(survivor: &[u16; 32], p: &[u16; 32], n: usize) -> usize
    ensures { result ≤ n + 1 }
{
    for (j, choice) in survivor.iter().enumerate() {
        if j >= n {
            return n + 1;
        }
        if clash(*choice, p[j]) {
            return j + 1;
        }
    }
    33
}

impl Steering {
    // That of a sweep that begins.
    pub fn new() -> Steering
        ensures { result ≡ begun }
    {
        Steering {
            effort: ENOUGH,
            floor: 0,
            conformed: false,
            survivors: [None; 8],
            next: 0,
        }
    }

    // Whether there is something to spend.
    pub fn affords(&self) -> bool
        ensures { result ≡ ltb 0 self.now.effort }
    {
        self.effort > 0
    }

    // Spends n, or what there is.
    pub fn spend(&mut self, n: u16)
        ensures { self.new ≡ with_effort self.old (self.old.effort - n) }
    {
        self.effort = self.effort.saturating_sub(n);
    }

    fn earn(&mut self, n: u16)
        requires { n < 32768 }
        ensures { self.new ≡ with_effort self.old (earned self.old.effort n) }
    {
        if self.effort < 32768 {
            self.effort += n;
        }
    }

    // Whether a mutant conformed before; now one does.
    pub fn again(&mut self) -> bool
        ensures { (result ≡ self.old.conformed) × Remembers self.old self.new }
    {
        let before = self.conformed;
        self.conformed = true;
        before
    }

    // How many first choices of n a question has: not those of a survivor alone, and as many as were needed of late.
    pub fn depth(&self, known: usize, n: usize) -> usize
        ensures { known ≤ n → (known ≤ result) × (result ≤ n) }
    {
        known.max(n.min(usize::from(self.floor)))
    }

    // After a question of so many first choices that was answered: the next has fewer, and comes soon.
    pub fn answered(&mut self, at: usize)
        ensures { Remembers self.old self.new }
    {
        self.floor = (at.saturating_sub(2) % 64) as u16;
        self.earn(1);
    }

    // After one that was not: the next has more, and looks come first.
    pub fn unanswered(&mut self, at: usize)
        ensures { Remembers self.old self.new }
    {
        self.floor = (at % 64) as u16 + 3;
        self.earn(RETRY);
    }

    // Keeps the witness of the search, if its notes have one, among the survivors.
    pub fn keep(&mut self, notes: &mut [u16])
        ensures { length notes.new ≡ length notes.old }
    {
        if note(notes, KEPT) == 0 {
            return;
        }
        set_note(notes, KEPT, 0);
        let mut witness = [0u16; 32];
        for (j, choice) in witness.iter_mut().enumerate() {
            *choice = note(notes, WITNESS + j);
        }
        let w = self.next % 8;
        self.survivors[w] = Some(witness);
        self.next = w + 1;
    }

    // The most that p agrees with a survivor; 0 where there is none.
    pub fn most_agreed(&self, p: &[u16; 32], n: usize) -> usize
        ensures { result ≤ n + 1 }
    {
        let mut most = 0;
        for survivor in &self.survivors {
            if let Some(choices) = survivor {
                most = most.max(agreement(choices, p, n));
            }
        }
        most
    }

    // After a test was appended whose reset stands at a place of the log: more may be spent, and survivors are forgotten that it tells from
    // the specification, or may.
    pub fn test_survivors(&mut self, block: &Block, log: &[u8], at: usize)
        requires { Wf block.now }
        ensures { Forgets self.old self.new }
    {
        self.earn(MORE);
        for w in 0..8 {
            if let Some(choices) = self.survivors[w] {
                if !gives_from(block, log, &choices, at) {
                    self.survivors[w] = None;
                }
            }
        }
    }
}
