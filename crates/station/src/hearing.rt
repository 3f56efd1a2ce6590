// The specified output of the input that is due.
ghost use Rattle.lists.specs.Options.{coded};
ghost use Rattle.std.specs.Prelude.{ℕ, ◌<◌, ◌≡◌, List, eqb};
ghost use Rattle.sheet.specs.Sheet.{Sheet};
ghost use Rattle.station.specs.Station.{current, element_at, expected, due_by, heard_as};
ghost use Rattle.station.specs.Answers.{heard_of};
ghost use Rattle.station.specs.words.Parts.{Ruled, Walk};

use crate::{Heard, Phase, State, test_of};
use logs::Wrong;
use reading::test_part;
use sheet::Tables;

// The specified output at a position of a test, given its PRESS commands.
fn output_in(part: &[u8], tables: &Tables, position: usize) -> Option<u8>
    requires { (sh : Sheet) × (t : List ℕ) × Walk sh t part.now tables.now }
    ensures { (sh : Sheet) (t : List ℕ) → Walk sh t part.now tables.now → result ≡ coded (element_at (expected sh t) position) }
{
    if part.len() / 2 <= position {
        return None;
    }
    let mut s: u8 = 0;
    for j in 0..position {
        s = tables.target[usize::from(s) * 16 + usize::from(part[2 * j + 1])];
    }
    Some(tables.output[usize::from(s) * 16 + usize::from(part[2 * position + 1])])
}

// The same in the test begun last.
fn output_at(sheet: &[u8], tables: &Tables, begun: usize, position: usize) -> Option<u8>
    requires { (sh : Sheet) × Ruled sh sheet.now tables.now }
    ensures { (sh : Sheet) → Ruled sh sheet.now tables.now → result ≡ coded (element_at (expected sh (current sh.tests begun)) position) }
{
    if begun == 0 {
        return None;
    }
    let part = test_part(sheet, begun - 1);
    output_in(part, tables, position)
}

// The specified output of the input that is due; nothing where none is.
pub(crate) fn due_output(sheet: &[u8], tables: &Tables, state: State) -> Option<u8>
    requires { (sh : Sheet) × Ruled sh sheet.now tables.now }
    ensures { (sh : Sheet) → Ruled sh sheet.now tables.now → result ≡ coded (due_by state.phase sh state) }
{
    match state.phase {
        Phase::Due => output_at(sheet, tables, state.begun, state.position),
        Phase::Ready | Phase::Passed | Phase::Failed => None,
    }
}

// As specified, or the first wrong output.
pub(crate) fn heard(state: State, output: u8, right: u8) -> Heard
    requires { state.position < 256 }
    ensures { result ≡ heard_of (heard_as (eqb output right) state) }
{
    let begun = state.begun;
    let position = state.position;
    if output == right {
        Heard {
            wrong: None,
            state: State {
                begun,
                position: position + 1,
                phase: Phase::Ready,
            },
        }
    } else {
        Heard {
            wrong: Some(Wrong {
                test: test_of(begun),
                position,
            }),
            state: State {
                begun,
                position,
                phase: Phase::Failed,
            },
        }
    }
}
