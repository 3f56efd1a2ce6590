// The bench station for C: its state is four numbers of the caller's.
ghost use Rattle.std.specs.Prelude.{◌≡◌, ◌∷◌};
ghost use Rattle.station.specs.Station.{beginning, nexting, taking, changing};
ghost use Rattle.station.specs.Answers.{begun_answer, next_answer, taken_answer, changed_answer};
ghost use Rattle.ranthelo.specs.Driving.{phase_of, state_of, state_numbers, begun_numbers, begun_state, step_numbers, advanced_numbers, advanced_state, wrong_numbers, taken_numbers, taken_state, changed_numbers};

use crate::numbers::{done_numbers, refused};
use logs::Wrong;
use station::{Advanced, Phase, State, Step};

fn phase_of(due: usize, verdict: usize) -> Phase
    ensures { result ≡ phase_of due verdict }
{
    match (verdict, due) {
        (0, 0) => Phase::Ready,
        (0, _) => Phase::Due,
        (1, _) => Phase::Passed,
        _ => Phase::Failed,
    }
}

fn state_of(numbers: &[usize; 4]) -> State
    ensures { result ≡ state_of numbers.now }
{
    State {
        begun: numbers[0],
        position: numbers[1],
        phase: phase_of(numbers[2], numbers[3]),
    }
}

fn state_numbers(state: State) -> [usize; 4]
    ensures { result ≡ state_numbers state }
{
    let (due, verdict) = match state.phase {
        Phase::Ready => (0, 0),
        Phase::Due => (1, 0),
        Phase::Passed => (0, 1),
        Phase::Failed => (0, 2),
    };
    [state.begun, state.position, due, verdict]
}

// Begin.
#[unsafe(no_mangle)]
pub extern "C" fn ranthelo_station_begin(
    sheet: &[u8],
    state: &mut [usize; 4],
    answer: &mut [usize; 2],
)
    ensures answer_after { answer.new ≡ begun_numbers (begun_answer (beginning sheet.now)) }
    ensures state_after { state.new ≡ begun_state (begun_answer (beginning sheet.now)) state.old }
{
    match station::begin(sheet) {
        Ok(left) => {
            *state = state_numbers(left);
            *answer = [0, 0];
        }
        Err(why) => *answer = refused(why),
    }
}

// A step as numbers, with the state that it leaves.
fn step_numbers(given: Advanced) -> [usize; 5]
    ensures { result ≡ 0 ∷ 0 ∷ step_numbers given.step given.state }
{
    let left = given.state;
    match given.step {
        Step::Reset => [0, 0, 0, station::test_of(left.begun), 0],
        Step::Input(x) => [0, 0, 1, usize::from(x), left.position],
        Step::Pass => [0, 0, 2, 0, 0],
        Step::Failure(test, position) => [0, 0, 3, test, position],
    }
}

// Next.
#[unsafe(no_mangle)]
pub extern "C" fn ranthelo_station_next(
    sheet: &[u8],
    state: &mut [usize; 4],
    answer: &mut [usize; 5],
)
    ensures answer_after { answer.new ≡ advanced_numbers (next_answer (nexting sheet.now (state_of state.old))) }
    ensures state_after { state.new ≡ advanced_state (next_answer (nexting sheet.now (state_of state.old))) state.old }
{
    match station::next(sheet, state_of(state)) {
        Ok(given) => {
            *state = state_numbers(given.state);
            *answer = step_numbers(given);
        }
        Err(why) => *answer = refused(why),
    }
}

// What came of an output, as numbers.
fn wrong_numbers(wrong: Option<Wrong>) -> [usize; 5]
    ensures { result ≡ 0 ∷ 0 ∷ wrong_numbers wrong }
{
    match wrong {
        None => [0, 0, 0, 0, 0],
        Some(found) => [0, 0, 3, found.test, found.position],
    }
}

// Take a sound.
#[unsafe(no_mangle)]
pub extern "C" fn ranthelo_station_sound(
    sheet: &[u8],
    state: &mut [usize; 4],
    sound: u8,
    answer: &mut [usize; 5],
)
    ensures answer_after { answer.new ≡ taken_numbers (taken_answer (taking sheet.now (state_of state.old) sound)) }
    ensures state_after { state.new ≡ taken_state (taken_answer (taking sheet.now (state_of state.old) sound)) state.old }
{
    match station::take_output(sheet, state_of(state), sound) {
        Ok(heard) => {
            *state = state_numbers(heard.state);
            *answer = wrong_numbers(heard.wrong);
        }
        Err(why) => *answer = refused(why),
    }
}

// Change the sheet.
#[unsafe(no_mangle)]
pub extern "C" fn ranthelo_station_change(
    sheet: &[u8],
    changed: &[u8],
    state: &[usize; 4],
    answer: &mut [usize; 2],
)
    ensures { answer.new ≡ changed_numbers (changed_answer (changing sheet.now (state_of state.now) changed.now)) }
{
    *answer = done_numbers(station::change(sheet, changed, state_of(state)));
}
