// Notes that steer a search, in a lent slice of numbers. How many nodes were looked at (low and
// high half), how many entries of the store are filled, which entry is next to go, whether there is a witness (choices of a
// mutant that is sought), how much a quick attempt has spent.
ghost use Rattle.std.specs.Prelude.{◌≡◌, ◌+◌, ◌%◌, ◌<◌, true, false, length, slice_index, slice_set};
ghost use Rattle.leaves.specs.Noted.{Changed, Clash, Keeps, Witnessed, nodes_of};

use block::*;

pub const NODES: usize = 0;

pub const FILLED: usize = 2;

pub const HAND: usize = 3;

pub const KEPT: usize = 4;

pub const SPENT: usize = 5;

// From here on the choices of the witness, by slot; 256 where any will do.
pub const WITNESS: usize = 8;

// The notes of a quick attempt end here.
pub const SHORT: usize = 40;

// From here on, by suspect and output, the next states known to be refuted at this node.
pub const DEAD: usize = 64;

// From here on, by suspect and transition, what refutes it: an entry of the store, or a test.
pub const HINTS: usize = 576;

// From here on, by how many suspects are settled, which entries of the store may agree with such a part, 16 to a number.
pub const LIVE: usize = 8768;

pub const LONG: usize = 9856;

// A note; 0 where there is no room for it.
pub fn note(notes: &[u16], at: usize) -> u16
    ensures { result ≡ slice_index notes.now at }
{
    if at >= notes.len() {
        return 0;
    }
    notes[at]
}

// Changes one note, where there is room for it.
pub fn set_note(notes: &mut [u16], at: usize, v: u16)
    ensures { notes.new ≡ slice_set notes.old at v }
{
    if at >= notes.len() {
        return;
    }
    notes[at] = v;
}

// How many nodes were looked at.
pub fn nodes(notes: &[u16]) -> u32
    ensures { result ≡ nodes_of notes.now }
{
    wide32(note(notes, NODES + 1)) * 65536 + wide32(note(notes, NODES))
}

// Counts a node.
pub fn count_node(notes: &mut [u16])
    ensures { Changed 0 2 notes.old notes.new × (1 < length notes.old → nodes_of notes.new ≡ (nodes_of notes.old + 1) % 4294967296) }
{
    if notes.len() < 2 {
        return;
    }
    let n = notes[NODES];
    if n < 65535 {
        notes[NODES] = n + 1;
        return;
    }
    notes[NODES] = 0;
    notes[NODES + 1] = std::num::wrapping_add_u16(notes[NODES + 1], 1);
}

// Whether two choices of a slot differ, neither of them 256.
fn clash(c: u16, d: u16) -> bool
    ensures { (result ≡ true → Clash c d) × (result ≡ false → Clash c d → ⊥) }
{
    if c == 256 {
        return false;
    }
    if d == 256 {
        return false;
    }
    c != d
}

// Whether a witness is kept that can have the choices of a prefix (256: unsettled).
pub fn witnessed(notes: &[u16], prefix: &[u16; 32]) -> bool
    ensures { (result ≡ true → Witnessed notes.now prefix.now) × (result ≡ false → Witnessed notes.now prefix.now → ⊥) }
{
    if note(notes, KEPT) == 0 {
        return false;
    }
    for j in 0..32 {
        if clash(note(notes, WITNESS + j), prefix[j]) {
            return false;
        }
    }
    true
}

// Keeps choices of a mutant that is sought, 256 where any will do, to spare questions.
pub fn keep_witness(notes: &mut [u16], choices: &[u16; 32])
    ensures { Keeps choices.now notes.old notes.new }
{
    for j in 0..32 {
        set_note(notes, WITNESS + j, choices[j]);
    }
    set_note(notes, KEPT, 1);
}
