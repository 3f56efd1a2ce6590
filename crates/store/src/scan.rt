// Which entry of the store refutes a settled part. This steers only: the entry that is named is read as any other.
ghost use Rattle.std.specs.Prelude.{◌<◌, ◌≤◌, length, IfSome};
ghost use Rattle.store.specs.Store.{Kept, Tells};

use crate::entries::Entry;
use crate::live::{level, noted_at};
use block::*;
use cubes::literals::Cube;
use cubes::words::shared;
use leaves::*;

// What an entry is to a settled part: it disagrees, it agrees as far as that goes, or it has the part.
#[derive(Clone, Copy)]
enum Fit {
    Disagrees,
    Agrees,
    Has,
}

impl Entry {
    // Those of the suspects of which it speaks that are not settled.
    fn open(&self, settled: u32) -> u32 {
        less(self.speaks, settled)
    }

    // Whether it means the transition of a suspect.
    fn means(&self, j: u8, step: u8) -> bool
        requires { j < 32 }
    {
        cubes::literals::means(self.cube[usize::from(j)], step / 16, low(step))
    }

    // Whether the settled part has all that it says of it.
    fn agrees(&self, p: &[u8; 32], settled: u32) -> bool {
        for j in members(shared(self.speaks, settled)) {
            if !self.means(j, p[usize::from(j)]) {
                return false;
            }
        }
        true
    }

    // Whether the settled part has it.
    fn has(&self, p: &[u8; 32], settled: u32) -> bool {
        self.open(settled) == 0 && self.agrees(p, settled)
    }

    // Whether it agrees, if it is noted: all but the suspect settled last is known, unless that is 32 or more.
    fn still_agrees(&self, p: &[u8; 32], settled: u32, last: u8) -> bool {
        if last >= 32 {
            return self.agrees(p, settled);
        }
        self.means(last, p[usize::from(last)])
    }

    // Notes that what it means of a suspect is refuted, by the entry e.
    fn mark(&self, notes: &mut [u16], e: usize, j: u8)
        requires { j < 32 }
    {
        let l = self.cube[usize::from(j)];
        let o = (cubes::literals::lit_out(l) % 16) as u8;
        let next = cubes::literals::lit_next(l);
        cursors::mark(notes, j, o, next, (e % 32768) as u16);
    }

    // What the entry e is to a settled part. If it agrees and lacks a single suspect, the meaning there is noted.
    fn weigh(&self, notes: &mut [u16], p: &[u8; 32], settled: u32, last: u8, e: usize) -> Fit {
        if !self.still_agrees(p, settled, last) {
            return Fit::Disagrees;
        }
        let open = self.open(settled);
        if open == 0 {
            return Fit::Has;
        }
        if without_least(open) == 0 {
            self.mark(notes, e, least(open));
        }
        Fit::Agrees
    }
}

// How many entries are filled.
fn filled(store: &[Entry], notes: &[u16]) -> usize
    ensures { result ≤ length store.now }
{
    usize::from(note(notes, FILLED)).min(store.len())
}

// Of the entries from 16 * w on, one that has the settled part. Those that agree are noted for the parts with one more suspect.
fn scan_word(
    filled: &[Entry],
    notes: &mut [u16],
    p: &[u8; 32],
    settled: u32,
    last: u8,
    w: usize,
) -> Option<usize>
    requires { w < 32 }
    ensures { IfSome result (λ e. e < length filled.now) }
{
    let n = level(settled);
    let mut live: u16 = 0;
    for i in members(note(notes, noted_at(n, w))) {
        let e = w * 16 + usize::from(i);
        if e >= filled.len() {
            break;
        }
        match filled[e].weigh(notes, p, settled, last, e) {
            Fit::Has => return Some(e),
            Fit::Agrees => live = with(live, i),
            Fit::Disagrees => {}
        }
    }
    set_note(notes, noted_at(n + 1, w), live);
    None
}

// An entry that has the settled part.
fn scan(filled: &[Entry], notes: &mut [u16], p: &[u8; 32], settled: u32, last: u8) -> Option<usize>
    ensures { IfSome result (λ e. e < length filled.now) }
{
    for w in 0..32 {
        if w * 16 >= filled.len() {
            return None;
        }
        let found = scan_word(filled, notes, p, settled, last, w);
        if found.is_some() {
            return found;
        }
    }
    None
}

// Forgets which choices are said to be refuted.
fn forget(notes: &mut [u16]) {
    if notes.len() < HINTS {
        return;
    }
    for dead in notes[DEAD..HINTS].iter_mut() {
        *dead = 0;
    }
}

// The cube of an entry that has the settled part, to which `last` was settled last (32 and more: it is the root of a question).
// Meanwhile it is noted which choices the entries refute.
pub fn find(
    store: &mut [Entry],
    notes: &mut [u16],
    p: &[u8; 32],
    settled: u32,
    last: u8,
) -> Option<Cube>
    ensures { Kept store.old store.new × Tells store.new result }
{
    forget(notes);
    let end = filled(store, notes);
    let e = scan(&store[..end], notes, p, settled, last)?;
    store[e].hand_out()
}

// The cube of an entry, if it has the settled part.
pub fn look_up(store: &mut [Entry], e: usize, p: &[u8; 32], settled: u32) -> Option<Cube>
    ensures { Kept store.old store.new × Tells store.new result }
{
    if e >= store.len() || !store[e].has(p, settled) {
        return None;
    }
    store[e].hand_out()
}
