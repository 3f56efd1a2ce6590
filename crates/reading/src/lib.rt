// Reading a sheet: Read, the part of one test, all tables of an accepted sheet, and where its parts stand.
// Promises 01's answers of Read and One test's part for every string of bytes, every entry of the tables that it fills, and each place.
// Called by users, and by `block`, `writing`, `numbering`, `merging`, `station`, `report` and `ranthelo`.

#![tactic(auto)]

ghost use Rattle.std.specs.Prelude.{◌≡◌};
ghost use Rattle.sheet.specs.Reading as reading;
ghost use Rattle.sheet.specs.Part.{parting, part_of, LiesIn};
ghost use Rattle.sheet.specs.Tables.{read_answer, part_answer, loaded_of};

pub use commands::read;
use sheet::{Refusal, Span, Summary, Tables};

mod filling;
pub mod layout;
mod part;

pub use filling::load_noughts;
pub use layout::layout_of;

// 01's One test's part, as a place and a length: refused as Read refuses, then 17 if there is no such test.
pub fn test_span(sheet: &[u8], i: usize) -> Result<Span, Refusal>
    ensures { result ≡ part_answer (parting sheet.now i) }
{
    let summary = read(sheet)?;
    if i >= summary.tests {
        return Err(Refusal::new(17, 0));
    }
    let layout = layout_of(sheet, summary);
    Ok(part::test_from(sheet, layout.tests, i))
}

// The part itself: the very part of the sheet, not only the same bytes; none on any refusal. Where in memory the empty part of a
// refusal lies is free (here it is at the sheet's front).
pub fn test_part(sheet: &[u8], i: usize) -> &[u8]
    ensures bytes { result.now ≡ part_of sheet.now (parting sheet.now i) }
    ensures place { LiesIn (parting sheet.now i) sheet.entry.ref_ptr result.ref_ptr }
{
    let Ok(span) = test_span(sheet, i) else {
        return &sheet[..0];
    };
    let start = span.start;
    let end = start + span.length;
    &sheet[start..end]
}

// The sheet read into tables, blank ones where it is refused.
pub fn load(sheet: &[u8], tables: &mut Tables) -> Result<Summary, Refusal>
    ensures reading { result ≡ read_answer (reading.reading sheet.now) }
    ensures tables { tables.new ≡ loaded_of (reading.reading sheet.now) }
{
    *tables = Tables::noughts();
    let read = load_noughts(sheet, tables);
    if read.is_err() {
        *tables = Tables::blank();
    }
    read
}
