// Which entries may agree with a settled part: those that agreed with the part from which it came by one more suspect, and those
// written since. Noted by how many suspects are settled. This steers only.
ghost use Rattle.std.specs.Prelude.{◌≡◌, ◌+◌, ◌*◌, ◌%◌, ◌<◌};
ghost use Rattle.std.specs.Int.Count.{ones};
ghost use Rattle.leaves.specs.Noted.{Changed};
ghost use Rattle.store.specs.Live.{Admitted};

use leaves::*;

// How many suspects are settled.
pub(crate) fn level(settled: u32) -> usize
    ensures { (result ≡ ones settled % 64) × (result < 64) }
{
    (u32::count_ones(settled) % 64) as usize
}

// Where it is noted of the entries from 16 * w on.
pub(crate) fn noted_at(level: usize, w: usize) -> usize
    ensures { result ≡ 8768 + level % 34 * 32 + w % 32 }
{
    LIVE + (level % 34) * 32 + w % 32
}

// Every entry may agree with a part in which so many are settled.
pub fn admit_all(notes: &mut [u16], settled: u32)
    ensures { Admitted 32 (ones settled % 64 % 34) notes.old notes.new }
{
    let n = level(settled);
    for w in 0..32 {
        set_note(notes, noted_at(n, w), 65535);
    }
}

// An entry that was written may agree with any part.
pub(crate) fn admit(notes: &mut [u16], e: usize)
    ensures { Changed 8768 9856 notes.old notes.new }
{
    for n in 0..34 {
        let at = noted_at(n, e / 16);
        let set = note(notes, at);
        set_note(notes, at, with(set, (e % 16) as u8));
    }
}
