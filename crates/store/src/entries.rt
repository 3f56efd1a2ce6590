// Entries of the store, read and written. Which entry is written, and what is noted of its age and of the suspects it speaks of,
// steers only.
ghost use Rattle.std.specs.Prelude.{◌≡◌, List, ℕ, ◌≤◌, IfSome};
ghost use Rattle.cubes.specs.declared.goal.Goal.{Goal as Sort};
ghost use Rattle.store.specs.Store.{StoreOk, Aged, Kept, Learns};

use crate::live::admit;
use block::*;
use cubes::literals::Cube;
use leaves::*;

// A cube in which no mutant is sought, the suspects it speaks of, and its age: 0 says that the entry is not in use.
#[derive(Clone, Copy)]
pub struct Entry {
    pub cube: Cube,
    pub speaks: u32,
    pub age: u32,
}

fn unused() -> Entry
    ensures { result.age ≡ 0 }
{
    Entry {
        cube: [0; 32],
        speaks: 0,
        age: 0,
    }
}

impl Entry {
    // Notes that it was of use.
    fn used_well(&mut self)
        ensures { Aged self.old self.new }
    {
        if self.age > 0 && self.age <= 3 {
            self.age += 1;
        }
    }

    // Whether it was of no use lately; if it was, less is left of that.
    fn tire(&mut self) -> bool
        ensures { Aged self.old self.new }
    {
        if self.age < 2 {
            return true;
        }
        self.age -= 1;
        false
    }

    // Its cube, if it is in use; then it was of use once more.
    pub(crate) fn hand_out(&mut self) -> Option<Cube>
        ensures { Aged self.old self.new × IfSome result (λ cube. (1 ≤ self.new.age) × (cube ≡ self.new.cube)) }
    {
        if self.age == 0 {
            return None;
        }
        self.used_well();
        Some(self.cube)
    }
}

// How many entries a store has with which a search is quick to begin, and one that keeps more.
pub const FEW: usize = 128;

pub const MANY: usize = 512;

// A store of which no entry is in use; with room for none it is no store.
pub fn fresh_store<const N: usize>() -> [Entry; N]
    ensures { (goal : Sort) (m log : List ℕ) → StoreOk goal m log result }
{
    [unused(); N]
}

// The next of n entries, in a circle.
fn after(e: usize, n: usize) -> usize {
    if e < n && e + 1 < n {
        return e + 1;
    }
    0
}

// From the entry `hand` on the first that was of no use lately.
fn idle(store: &mut [Entry], hand: usize) -> usize
    ensures { Kept store.old store.new }
{
    let n = store.len();
    let mut h = hand;
    for _ in 0..2048usize {
        if h >= n || store[h].tire() {
            return h;
        }
        h = after(h, n);
    }
    h
}

fn narrow(e: usize) -> u16 {
    (e % 65536) as u16
}

// The first of n entries that was never filled.
fn unfilled(notes: &mut [u16], n: usize) -> Option<usize> {
    let e = usize::from(note(notes, FILLED));
    if e >= n {
        return None;
    }
    set_note(notes, FILLED, narrow(e + 1));
    Some(e)
}

// The entry to write: a free one, else the next that was of no use lately.
fn place(store: &mut [Entry], notes: &mut [u16]) -> usize
    ensures { Kept store.old store.new }
{
    let n = store.len();
    if let Some(e) = unfilled(notes, n) {
        return e;
    }
    let h = idle(store, usize::from(note(notes, HAND)));
    set_note(notes, HAND, narrow(after(h, n)));
    h
}

// The suspects of which a cube speaks.
fn speaks(cube: &Cube) -> u32 {
    let mut set: u32 = 0;
    for j in 0..32 {
        if cube[usize::from(j)] != ANY {
            set = with(set, j);
        }
    }
    set
}

// Keeps a cube in which no mutant is sought, if there is room.
pub fn learn(store: &mut [Entry], notes: &mut [u16], cube: &Cube)
    ensures { Learns store.old store.new cube.now }
{
    let e = place(store, notes);
    if e >= store.len() {
        return;
    }
    store[e] = Entry {
        cube: *cube,
        speaks: speaks(cube),
        age: 1,
    };
    admit(notes, e);
}
