// The next step of a sheet's suite.
ghost use Rattle.lists.specs.Options.{coded};
ghost use Rattle.std.specs.Prelude.{ℕ, ◌≡◌, List, length, ltb};
ghost use Rattle.sheet.specs.Sheet.{Sheet};
ghost use Rattle.sheet.specs.Reading.{accepted, reading};
ghost use Rattle.sheet.specs.Encode.{press_bytes};
ghost use Rattle.station.specs.Station.{current, element_at, input_at, onward as onward_of, along as along_of, next_by};
ghost use Rattle.station.specs.Answers.{advanced_of};

use crate::{Advanced, Phase, State, Step, test_of};
use reading::test_part;

// The input at a position of a test, given its PRESS commands.
fn input_in(part: &[u8], position: usize) -> Option<u8>
    ensures { (t : List ℕ) → part.now ≡ press_bytes t → result ≡ coded (element_at t position) }
{
    if position < part.len() / 2 {
        Some(part[2 * position + 1])
    } else {
        None
    }
}

// The input at a position of the test begun last.
fn input_at(sheet: &[u8], begun: usize, position: usize) -> Option<u8>
    ensures { (sh : Sheet) → reading sheet.now ≡ accepted sh → result ≡ coded (element_at (current sh.tests begun) position) }
{
    if begun == 0 {
        return None;
    }
    let part = test_part(sheet, begun - 1);
    input_in(part, position)
}

// The next test's reset, or pass.
fn onward(tests: usize, state: State) -> Advanced
    ensures { result ≡ advanced_of (onward_of (ltb state.begun tests) state) }
{
    if state.begun < tests {
        Advanced {
            step: Step::Reset,
            state: State {
                begun: state.begun + 1,
                position: 0,
                phase: Phase::Ready,
            },
        }
    } else {
        Advanced {
            step: Step::Pass,
            state: State {
                begun: state.begun,
                position: state.position,
                phase: Phase::Passed,
            },
        }
    }
}

// The input that is due or the next, or onward.
fn along(sheet: &[u8], tests: usize, state: State) -> Advanced
    requires { (sh : Sheet) × (reading sheet.now ≡ accepted sh) × (tests ≡ length sh.tests) }
    ensures { (sh : Sheet) → reading sheet.now ≡ accepted sh → result ≡ advanced_of (along_of sh state (input_at sh state)) }
{
    match input_at(sheet, state.begun, state.position) {
        Some(x) => Advanced {
            step: Step::Input(x),
            state: State {
                begun: state.begun,
                position: state.position,
                phase: Phase::Due,
            },
        },
        None => onward(tests, state),
    }
}

// The next step: a verdict again, or along the test begun last.
pub(crate) fn step(sheet: &[u8], tests: usize, state: State) -> Advanced
    requires { (sh : Sheet) × (reading sheet.now ≡ accepted sh) × (tests ≡ length sh.tests) }
    ensures { (sh : Sheet) → reading sheet.now ≡ accepted sh → result ≡ advanced_of (next_by state.phase sh state) }
{
    match state.phase {
        Phase::Ready | Phase::Due => along(sheet, tests, state),
        Phase::Passed => Advanced {
            step: Step::Pass,
            state,
        },
        Phase::Failed => Advanced {
            step: Step::Failure(test_of(state.begun), state.position),
            state,
        },
    }
}
