// Whether two sheets agree in SIZE, QUIET, the RULEs and their first tests, byte by byte.
ghost use Rattle.std.specs.Prelude.{ℕ, ◌+◌, ◌≡◌, take, Ok};
ghost use Rattle.sheet.specs.Sheet.{Sheet};
ghost use Rattle.sheet.specs.Reading as reading;
ghost use Rattle.sheet.specs.Tables.{read_answer};
ghost use Rattle.sheet.specs.Part.{span_of};
ghost use Rattle.sheet.specs.Encode.{test_bytes};
ghost use Rattle.station.specs.Station.{same, head_bytes, agrees_with};
ghost use Rattle.station.specs.words.Parts.{TestsOf, TestsIn};

use reading::{layout_of, read, test_span};
use sheet::{Span, Summary};

fn heads_agree(sheet: &[u8], old: Summary, changed: &[u8], new: Summary) -> bool
    requires old_told { Ok old ≡ read_answer (reading.reading sheet.now) }
    requires new_told { Ok new ≡ read_answer (reading.reading changed.now) }
    ensures { (a b : Sheet) → reading.reading sheet.now ≡ reading.accepted a → reading.reading changed.now ≡ reading.accepted b → result ≡ same (head_bytes a) (head_bytes b) }
{
    let h = layout_of(sheet, old).faults;
    let k = layout_of(changed, new).faults;
    sheet[..h] == changed[..k]
}

// Where the PRESS commands of a test stand.
fn span_of(sheet: &[u8], i: usize) -> Span
    ensures { (sh : Sheet) → TestsOf sh sheet.now (i + 1) → result ≡ span_of sh i }
{
    let Ok(span) = test_span(sheet, i) else {
        return Span {
            start: 0,
            length: 0,
        };
    };
    span
}

// Where the first tests stand, so many.
fn tests_of(sheet: &[u8], tests: usize) -> Span
    requires { (sh : Sheet) × TestsOf sh sheet.now tests }
    ensures { (sh : Sheet) → TestsOf sh sheet.now tests → TestsIn sh sheet.now tests result }
{
    if tests == 0 {
        return Span {
            start: 0,
            length: 0,
        };
    }
    let first = span_of(sheet, 0);
    let last = span_of(sheet, tests - 1);
    let start = first.start - 1;
    Span {
        start,
        length: last.start + last.length - start,
    }
}

fn tests_agree(sheet: &[u8], old: usize, changed: &[u8], new: usize) -> bool
    requires tests_of { (sh : Sheet) × TestsOf sh sheet.now old }
    requires tests_of_2 { (sh : Sheet) × TestsOf sh changed.now new }
    ensures { (a b : Sheet) → TestsOf a sheet.now old → TestsOf b changed.now new → result ≡ same (test_bytes (take old a.tests)) (test_bytes (take new b.tests)) }
{
    let p = tests_of(sheet, old);
    let q = tests_of(changed, new);
    let a = p.start;
    let b = a + p.length;
    let c = q.start;
    let d = c + q.length;
    sheet[a..b] == changed[c..d]
}

// Do they agree, with so many tests begun? A sheet that is none agrees with nothing.
pub(crate) fn agree(sheet: &[u8], changed: &[u8], begun: usize) -> bool
    ensures { (new : Sheet) → reading.reading changed.now ≡ reading.accepted new → result ≡ agrees_with (reading.reading sheet.now) new begun }
{
    let Ok(old) = read(sheet) else {
        return false;
    };
    let Ok(new) = read(changed) else {
        return false;
    };
    heads_agree(sheet, old, changed, new)
        && tests_agree(sheet, begun.min(old.tests), changed, begun.min(new.tests))
}
