// The PRESS commands of a test.
ghost use Rattle.std.specs.Prelude.{◌≡◌, List, ℕ, [], ◌∷◌, ◌++◌, ◌<◌, length, drop};
ghost use Rattle.sheet.specs.Encode.{test_bytes};
ghost use Rattle.reading.specs.words.Places.{TestAt, span_from};

use crate::layout::operands_end;
use sheet::Span;

// The PRESS commands of the test whose TEST stands at a place.
pub(crate) fn test_at(sheet: &[u8], at: usize) -> Span
    requires { at < length sheet.now }
    ensures { TestAt sheet.now at result }
{
    let start = at + 1;
    Span {
        start,
        length: operands_end(sheet, start) - start,
    }
}

// The PRESS commands of the test i, of tests that stand from a place on.
pub(crate) fn test_from(sheet: &[u8], place: usize, i: usize) -> Span
    requires { (l : List (List ℕ)) × (drop place sheet.now ≡ test_bytes l ++ 6 ∷ []) × (i < length l) }
    ensures { (l : List (List ℕ)) → drop place sheet.now ≡ test_bytes l ++ 6 ∷ [] → i < length l → result ≡ span_from place l i }
{
    let mut at = place;
    for j in 0..i {
        let span = test_at(sheet, at);
        at = span.start + span.length;
    }
    test_at(sheet, at)
}
