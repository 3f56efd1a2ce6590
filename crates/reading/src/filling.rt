// The tables of a sheet that was read before: one pass over its FAULTs, one over its STARTs, one over its tests, one over all pairs.
ghost use Rattle.std.specs.Prelude.{◌≡◌, List, [], ◌∷◌, ◌++◌, ℕ, ◌/◌, ◌%◌, ◌<◌, length, get_or};
ghost use Rattle.sheet.specs.Sheet.{Sheet, choices_at};
ghost use Rattle.sheet.specs.Reading.{reading};
ghost use Rattle.sheet.specs.Tables.{tables_of, read_answer, nought_tables, read_into};
ghost use Rattle.commands.specs.words.Fetch.{command_at};
ghost use Rattle.sheet.specs.words.Tabled.{Digits};
ghost use Rattle.reading.specs.words.Places.{FaultsFrom, StartsFrom, TestsFrom, Table, FaultTables, TestTables, Countable, Fillable, Cleared};

use crate::layout::layout_of;
use crate::part::test_at;
use commands::fetch::Command;
use commands::read_rules;
use ending::unruled_choices;
use sheet::{Refusal, Row, Size, Summary, Tables};

// The FAULT at a place.
fn fault_at(sheet: &[u8], at: usize) -> Option<Row>
    ensures { (row : Row) → command_at sheet.now at ≡ Some (Command.Fault row) → result ≡ Some row }
{
    match Command::at(sheet, at)? {
        Command::Fault(row) => Some(row),
        _ => None,
    }
}

// The state of the START at a place.
fn start_at(sheet: &[u8], at: usize) -> Option<u8>
    ensures { (state : ℕ) → command_at sheet.now at ≡ Some (Command.Start state) → result ≡ Some state }
{
    match Command::at(sheet, at)? {
        Command::Start(state) => Some(state),
        _ => None,
    }
}

// One fault more, at the index i.
fn note_fault(row: Row, i: usize, tables: &mut Tables)
    requires { Digits row × (i < 256) × ((l : List Row) × (i ≡ length l) × FaultTables tables.old l) }
    ensures noted { (l : List Row) → i ≡ length l → FaultTables tables.old l → FaultTables tables.new (l ++ row ∷ []) }
    ensures others { tables.new ≡ record tables.old { choices = tables.new.choices; first = tables.new.first; mutated = tables.new.mutated; diverted = tables.new.diverted } }
{
    let pair = row.place();
    if tables.choices[pair] == 0 {
        tables.first[pair] = i as u16;
    }
    tables.choices[pair] += 1;
    tables.mutated[i] = row.output;
    tables.diverted[i] = row.target;
}

// All faults: they stand from a place on.
fn fill_faults(sheet: &[u8], place: usize, faults: usize, tables: &mut Tables)
    requires { ((l : List Row) × FaultsFrom sheet.now place l × (faults ≡ length l)) × FaultTables tables.old [] }
    ensures noted { (l : List Row) → FaultsFrom sheet.now place l → faults ≡ length l → FaultTables tables.new l }
    ensures others { tables.new ≡ record tables.old { choices = tables.new.choices; first = tables.new.first; mutated = tables.new.mutated; diverted = tables.new.diverted } }
{
    for i in 0..faults {
        if let Some(row) = fault_at(sheet, place + 5 * i) {
            note_fault(row, i, &mut *tables);
        }
    }
}

// From the number of faults of each pair to its number of choices; `unruled` is that of a pair without a rule.
fn count_choices(unruled: u16, target: &[u8; 256], choices: &mut [u16; 256])
    requires { (sh : Sheet) × Countable unruled target.now choices.old sh }
    ensures { (sh : Sheet) → Countable unruled target.now choices.old sh
        → Table 256 choices.new (λ i. choices_at sh (i / 16) (i % 16)) }
{
    for p in 0..256 {
        // read before the test, so that the loop goes several pairs at a time
        let faults = choices[p];
        choices[p] = if target[p] < 16 { faults + 1 } else { unruled };
    }
}

// The waking states: state 0, then those of the STARTs, which stand from a place on.
fn wakings_from(sheet: &[u8], place: usize, starts: usize) -> [u8; 16]
    requires { (l : List ℕ) × StartsFrom sheet.now place l × (starts ≡ length l) }
    ensures { (l : List ℕ) → StartsFrom sheet.now place l → starts ≡ length l → Table 16 result (λ i. get_or (0 ∷ l) i 0) }
{
    let mut wakings = [0u8; 16];
    for i in 0..starts {
        if let Some(state) = start_at(sheet, place + 2 * i) {
            wakings[i + 1] = state;
        }
    }
    wakings
}

// All tests: they stand from a place on.
fn fill_tests(sheet: &[u8], place: usize, tests: usize, tables: &mut Tables)
    requires { (l : List (List ℕ)) × TestsFrom sheet.now place l × (tests ≡ length l) × TestTables tables.old place l 0 }
    ensures noted { (l : List (List ℕ)) → TestsFrom sheet.now place l → tests ≡ length l
        → TestTables tables.old place l 0
        → TestTables tables.new place l tests }
    ensures others { tables.new ≡ record tables.old { starts = tables.new.starts; lengths = tables.new.lengths } }
{
    let mut at = place;
    for i in 0..tests {
        let span = test_at(sheet, at);
        tables.starts[i] = span.start as u16;
        tables.lengths[i] = (span.length / 2) as u16;
        at = span.start + span.length;
    }
}

// All tables of an accepted sheet, beside those of its rules, from cleared ones.
pub(crate) fn fill(sheet: &[u8], summary: Summary, tables: &mut Tables)
    requires fillable { (sh : Sheet) × Fillable sheet.now summary tables.old sh }
    requires cleared { Cleared tables.old }
    ensures { (sh : Sheet) → Fillable sheet.now summary tables.old sh → tables.new ≡ tables_of sh }
{
    let layout = layout_of(sheet, summary);
    fill_faults(sheet, layout.faults, summary.faults, &mut *tables);
    let size = Size {
        states: summary.states,
        inputs: summary.inputs,
        outputs: summary.outputs,
    };
    let unruled = unruled_choices(size, layout.quiet);
    count_choices(unruled, &tables.target, &mut tables.choices);
    let starts = (layout.tests - layout.starts) / 2;
    tables.wakings = wakings_from(sheet, layout.starts, starts);
    tables.waking = (starts + 1) as u8;
    tables.quiet = layout.quiet;
    fill_tests(sheet, layout.tests, summary.tests, tables);
}

// The sheet read into tables of noughts, which stay so where it is refused. Not inlined, so that the tables of a caller stay in one piece
// and are not copied one by one.
#[inline(never)]
pub fn load_noughts(sheet: &[u8], tables: &mut Tables) -> Result<Summary, Refusal>
    requires { tables.old ≡ nought_tables }
    ensures reading { result ≡ read_answer (reading sheet.now) }
    ensures tables { tables.new ≡ read_into (reading sheet.now) tables.old }
{
    let summary = read_rules(sheet, &mut tables.output, &mut tables.target)?;
    fill(sheet, summary, tables);
    Ok(summary)
}
