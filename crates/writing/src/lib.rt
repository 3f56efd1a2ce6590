// Sheets written from tables (02's Point 1).
// Promises the sheet's bytes and length, or the refusal, and that a written sheet reads as the very tables it was made from.
// Called by users, by `generator` and by `ranthelo`; `making` and `report` spell with it, and show what that requires.

#![tactic(auto)]

ghost use Rattle.std.specs.Prelude.{◌≡◌, ◌+◌, ◌≤◌, eqb, ltb, length};
ghost use Rattle.lists.specs.Lists.{overlay};
ghost use Rattle.sheet.specs.Reading.{reading};
ghost use Rattle.sheet.specs.Encode.{quiet_bytes, encode};
ghost use Rattle.writing.specs.Drawing.{total, is_cut, sheet_of};
ghost use Rattle.writing.specs.words.Spelled.{length_of, Spelled};
ghost use Rattle.writing.specs.Writing.{drawn, placed, writing, written_answer, sheet_writes, ToldWritten};

pub mod spell;

use sheet::{Refusal, Size};

// The tables of a drawing program: whether the sheet is quiet, rules and faults four bytes a row (s x o t), the STARTs' states, the
// lengths of the tests, and their presses end to end.
// stays: rows are bytes, and lengths stand beside the presses: `ranthelo_write` lends C's own tables, and there is no heap to lay them out anew.
#[derive(Clone, Copy, Debug, PartialEq, Eq)]
pub struct Drawing<'a> {
    pub size: Size,
    pub quiet: bool,
    pub rules: &'a [u8],
    pub faults: &'a [u8],
    pub starts: &'a [u8],
    pub lengths: &'a [u16],
    pub presses: &'a [u8],
}

// Whether lengths add up to a number of presses: what is left of it after each, so that no sum overflows.
fn adds_up(lengths: &[u16], presses: usize) -> bool
    ensures { result ≡ eqb (total lengths.now) presses }
{
    let mut left = presses;
    for n in lengths {
        let Some(rest) = left.checked_sub(usize::from(*n)) else {
            return false;
        };
        left = rest;
    }
    left == 0
}

// The bytes of SIZE, of QUIET if it stands, and of END.
fn frame(quiet: bool) -> usize
    ensures few { result ≤ 6 }
    ensures counted { result ≡ 5 + length (quiet_bytes quiet) }
{
    if quiet { 6 } else { 5 }
}

impl Drawing<'_> {
    fn is_cut(&self) -> bool
        ensures { result ≡ is_cut (drawn self.now) }
    {
        self.rules.len() % 4 != 0
            || self.faults.len() % 4 != 0
            || !adds_up(self.lengths, self.presses.len())
    }

    // Whether its sheet has over 16,384 bytes.
    fn is_long(&self) -> bool
        ensures { result ≡ ltb 16384 (length_of self.now.quiet (length self.now.rules.now) (length self.now.faults.now) (length self.now.starts.now) (length self.now.lengths.now) (length self.now.presses.now)) }
    {
        let rules = self.rules.len();
        let faults = self.faults.len();
        let starts = self.starts.len();
        let tests = self.lengths.len();
        let presses = self.presses.len();
        let most = rules.max(faults).max(starts).max(tests).max(presses);
        most > 16384
            || frame(self.quiet)
                + 5 * (rules / 4)
                + 5 * (faults / 4)
                + 2 * starts
                + tests
                + 2 * presses
                > 16384
    }

    // Its sheet, if its lengths add up to no more than its presses.
    fn spell(&self, sheet: &mut [u8]) -> usize
        requires lengths_in_bounds { total self.now.lengths.now ≤ length self.now.presses.now }
        requires inputs_in_bounds { length (encode (sheet_of (drawn self.now))) ≤ length sheet.old }
        ensures { Spelled sheet.old sheet.new 0 result (encode (sheet_of (drawn self.now))) }
    {
        let sizes = [self.size.states, self.size.inputs, self.size.outputs];
        let sized = spell::command(spell::SIZE, &sizes, sheet, 0);
        let ruled = spell::quieted(self.quiet, sheet, sized);
        let faulted = spell::rows(spell::RULE, self.rules, sheet, ruled);
        let started = spell::rows(spell::FAULT, self.faults, sheet, faulted);
        let tested = spell::operands(spell::START, self.starts, sheet, started);
        let ended = spell::tests(self.lengths, self.presses, sheet, tested);
        spell::byte(spell::END, sheet, ended)
    }
}

// A sheet to a buffer's front, where reading accepts it and there is room.
fn put(sheet: &[u8], buffer: &mut [u8]) -> Result<usize, Refusal>
    ensures value { result ≡ written_answer (placed (reading sheet.now) sheet.now (length buffer.old)) }
    ensures buffer_after { buffer.new ≡ overlay (sheet_writes (placed (reading sheet.now) sheet.now (length buffer.old))) buffer.old }
{
    reading::read(sheet).map_err(|why| Refusal::new(why.number, 0))?;
    if buffer.len() < sheet.len() {
        return Err(Refusal::new(16, 0));
    }
    Ok(spell::bytes(sheet, buffer, 0))
}

// The sheet of the tables at the buffer's front; gives its length.
pub fn write(drawing: &Drawing, buffer: &mut [u8]) -> Result<usize, Refusal>
    ensures answer { result ≡ written_answer (writing (drawn drawing.now) (length buffer.old)) }
    ensures bytes { buffer.new ≡ overlay (sheet_writes (writing (drawn drawing.now) (length buffer.old))) buffer.old }
    ensures told { ToldWritten (drawn drawing.now) result buffer.old buffer.new }
{
    if drawing.is_cut() {
        return Err(Refusal::new(2, 0));
    }
    if drawing.is_long() {
        return Err(Refusal::new(1, 0));
    }
    let mut sheet = [0u8; 16384];
    let end = drawing.spell(&mut sheet);
    put(&sheet[..end], buffer)
}
