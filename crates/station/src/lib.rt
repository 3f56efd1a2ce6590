// The bench station (02's Point 13): it drives one implementation (01: lock) through a sheet's suite.
// Promises for every sheet and state the answer and the state that it leaves, by the definitions here, and the guarantee of a pass.
// Called by users, and by `ranthelo`.

#![tactic(auto)]

ghost use Rattle.std.specs.Prelude.{◌-◌, ◌≡◌};
ghost use Rattle.station.specs.Station.{beginning, nexting, taking, changing, is_open};
ghost use Rattle.station.specs.Answers.{begun_answer, next_answer, taken_answer, changed_answer};
ghost use Rattle.station.specs.Told.{ToldBegun, ToldNext, ToldTaken, ToldChanged};

mod agree;
mod hearing;
mod steps;
mod suit;

use logs::Wrong;
use reading::{load_noughts, read};
use sheet::{Refusal, Tables};

// No input is due; one is; or a verdict was given.
#[derive(Clone, Copy, Debug, PartialEq, Eq)]
pub enum Phase {
    Ready,
    Due,
    Passed,
    Failed,
}

// How many tests have begun, how many outputs of the last of them were taken, and the phase.
#[derive(Clone, Copy, Debug, PartialEq, Eq)]
pub struct State {
    pub begun: usize,
    pub position: usize,
    pub phase: Phase,
}

// A next step: a reset (01: pulse), an input (01: press), or a verdict: pass, or the test and position of the first wrong output.
#[derive(Clone, Copy, Debug, PartialEq, Eq)]
pub enum Step {
    Reset,
    Input(u8),
    Pass,
    Failure(usize, usize),
}

// What next gives: the step, and the state that it leaves.
#[derive(Clone, Copy, Debug, PartialEq, Eq)]
pub struct Advanced {
    pub step: Step,
    pub state: State,
}

// What an output comes to: as specified, or the test and position of the first wrong one; and the state that it leaves.
#[derive(Clone, Copy, Debug, PartialEq, Eq)]
pub struct Heard {
    pub wrong: Option<Wrong>,
    pub state: State,
}

// The number of the test begun last, of so many.
pub fn test_of(begun: usize) -> usize
    ensures { result ≡ begun - 1 }
{
    begun.saturating_sub(1)
}

// Begin: the sheet is accepted and its suite is complete; no test has begun. Gives the first state.
pub fn begin(sheet: &[u8]) -> Result<State, Refusal>
    ensures answer { result ≡ begun_answer (beginning sheet.now) }
    ensures told { ToldBegun sheet.now result }
{
    suit::suit(sheet)?;
    Ok(State {
        begun: 0,
        position: 0,
        phase: Phase::Ready,
    })
}

// Next: a verdict is given again, and so is an input that is due; else the next input of the test begun last, the next test's reset, or
// pass.
pub fn next(sheet: &[u8], state: State) -> Result<Advanced, Refusal>
    ensures answer { result ≡ next_answer (nexting sheet.now state) }
    ensures told { ToldNext sheet.now state result }
{
    let summary = read(sheet)?;
    Ok(steps::step(sheet, summary.tests, state))
}

// Take an output: of the input that is due, as specified, or the first wrong one.
pub fn take_output(sheet: &[u8], state: State, output: u8) -> Result<Heard, Refusal>
    ensures answer { result ≡ taken_answer (taking sheet.now state output) }
    ensures told { ToldTaken sheet.now state output result }
{
    let mut tables = Tables::noughts();
    let summary = load_noughts(sheet, &mut tables)?;
    let Some(right) = hearing::due_output(sheet, &tables, state) else {
        return Err(Refusal::new(24, 0));
    };
    if summary.outputs <= output {
        return Err(Refusal::new(24, 0));
    }
    Ok(hearing::heard(state, output, right))
}

// Was no verdict given?
fn is_open(phase: Phase) -> bool
    ensures { result ≡ is_open phase }
{
    match phase {
        Phase::Ready | Phase::Due => true,
        Phase::Passed | Phase::Failed => false,
    }
}

// Change: the station goes on at the same input with the changed sheet, the state as it was, if that is complete and equal in SIZE, QUIET,
// RULEs and each test up to the last begun.
pub fn change(sheet: &[u8], changed: &[u8], state: State) -> Result<(), Refusal>
    ensures answer { result ≡ changed_answer (changing sheet.now state changed.now) }
    ensures told { ToldChanged sheet.now state changed.now result }
{
    // in place of `?`: an edit tells another refusal here.
    if let Err(why) = suit::suit(changed) {
        return Err(why);
    }
    if is_open(state.phase) && agree::agree(sheet, changed, state.begun) {
        return Ok(());
    }
    Err(Refusal::new(23, 0))
}
