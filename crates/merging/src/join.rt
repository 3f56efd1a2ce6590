// Two accepted sheets become one: the machine, the united faults and STARTs, the tests of both, within the limits.
ghost use Rattle.std.specs.Prelude.{◌≡◌, [], ◌∷◌, ◌++◌, ◌+◌, ◌*◌, ◌≤◌, length};
ghost use Rattle.sheet.specs.Sheet.{Sheet, open_pairs, open_slots};
ghost use Rattle.writing.specs.words.Spelled.{Spelled};
ghost use Rattle.renaming.specs.Merging.{SameMachine, merged, limited, merge_on};
ghost use Rattle.merging.specs.words.Outlined.{Laid, limit_answer, Short, parts_length, Pieces, Joins};

use crate::outline::Outline;
use crate::union::unite;
use sheet::Refusal;
use writing::spell::{byte, bytes};

// The parts of a sheet; its tests are those of two sheets.
#[derive(Clone, Copy)]
struct Parts<'a> {
    head: &'a [u8],
    faults: &'a [u8],
    starts: &'a [u8],
    tests: &'a [u8],
    more: &'a [u8],
}

impl Parts<'_> {
    // How many bytes they are, with END.
    fn len(self) -> usize
        requires { Short self }
        ensures { result ≡ parts_length self.entry }
    {
        self.head.len()
            + self.faults.len()
            + self.starts.len()
            + self.tests.len()
            + self.more.len()
            + 1
    }

    // One part after another, then END; gives the sheet's length.
    fn assemble(self, buffer: &mut [u8]) -> usize
        requires { parts_length self ≤ length buffer.old }
        ensures { Spelled buffer.old buffer.new 0 result (self.entry.head.now ++ (self.entry.faults.now ++ (self.entry.starts.now ++ (self.entry.tests.now ++ (self.entry.more.now ++ 6 ∷ []))))) }
    {
        let ruled = bytes(self.head, buffer, 0);
        let faulted = bytes(self.faults, buffer, ruled);
        let started = bytes(self.starts, buffer, faulted);
        let tested = bytes(self.tests, buffer, started);
        let ended = bytes(self.more, buffer, tested);
        byte(6, buffer, ended)
    }
}

// Whether so many FAULTs, tests, open pairs and bytes are within the limits.
fn limit(faults: usize, tests: usize, slots: usize, long: usize) -> Result<(), Refusal>
    ensures { result ≡ limit_answer faults tests slots long }
{
    if faults > 256 || tests > 256 {
        return Err(Refusal::new(8, 0));
    }
    if slots > 32 {
        return Err(Refusal::new(12, 0));
    }
    if long > 16384 {
        return Err(Refusal::new(1, 0));
    }
    Ok(())
}

// The open pairs, and one more if a mutant may wake in another state.
fn slots_of(pairs: usize, starts: usize) -> usize
    requires { pairs ≤ 256 }
    ensures { (m : Sheet) → pairs ≡ open_pairs m → starts ≡ 2 * length m.starts → result ≡ open_slots m }
{
    if starts == 0 { pairs } else { pairs + 1 }
}

// The sheet of these parts, if it is within the limits.
fn close(parts: Parts, count: usize, pairs: usize, buffer: &mut [u8]) -> Result<usize, Refusal>
    requires { (16384 ≤ length buffer.old) × (pairs ≤ 256) × Short parts }
    ensures { (m : Sheet) → Pieces m parts.entry count pairs → Joins (limited m) result buffer.old buffer.new }
{
    let slots = slots_of(pairs, parts.starts.len());
    limit(parts.faults.len() / 5, count, slots, parts.len())?;
    Ok(parts.assemble(buffer))
}

// What becomes of two accepted sheets; `pairs` is the number of open pairs if they have one machine.
pub(crate) fn join(
    first: Outline,
    second: Outline,
    pairs: usize,
    buffer: &mut [u8],
) -> Result<usize, Refusal>
    requires { (pairs ≤ 256) × ((x y : Sheet) × Laid x first × Laid y second) }
    ensures { (x y : Sheet) → Laid x first.entry → Laid y second.entry
        → (SameMachine x y → pairs ≡ open_pairs (merged x y)) → Joins (merge_on x y (length buffer.old)) result buffer.old buffer.new }
{
    if buffer.len() < 16384 {
        return Err(Refusal::new(16, 0));
    }
    if first.head() != second.head() {
        return Err(Refusal::new(21, 0));
    }
    let mut faults = [0u8; 2560];
    let f = unite(first.faults(), second.faults(), 5, &mut faults);
    let mut starts = [0u8; 64];
    let t = unite(first.starts(), second.starts(), 2, &mut starts);
    let parts = Parts {
        head: first.head(),
        faults: &faults[..f],
        starts: &starts[..t],
        tests: first.tests(),
        more: second.tests(),
    };
    close(parts, first.count + second.count, pairs, buffer)
}
