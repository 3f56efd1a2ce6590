// Answers as numbers (specs/Numbers.antt says which).
ghost use Rattle.std.specs.Prelude.{◌≡◌, ◌≤◌, ◌-◌};
ghost use Rattle.ranthelo.specs.Numbers.{refused_numbers, read_numbers, part_numbers, written_numbers, ran_numbers, tested_numbers, failed_numbers, compared_numbers, made_numbers, tried_numbers, differs_numbers, recorded_numbers, concern, merged_numbers, taken_numbers};

use machine::Difference;
use making::Made;
use merging::{Concerns, Unmerged};
use mutation::{Tested, Used};
use records::Recorded;
use sheet::{Refusal, Span, Summary};

// A refusal as numbers, noughts behind its number and place.
pub(crate) fn refused<const N: usize>(why: Refusal) -> [usize; N]
    requires { 2 ≤ N }
    ensures { result ≡ refused_numbers (N - 2) why }
{
    let mut answer = [0usize; N];
    answer[0] = usize::from(why.number);
    answer[1] = why.place;
    answer
}

// The answer of read.
pub(crate) fn read_numbers(read: Result<Summary, Refusal>) -> [usize; 9]
    ensures { result ≡ read_numbers read }
{
    match read {
        Ok(z) => [
            0,
            0,
            usize::from(z.states),
            usize::from(z.inputs),
            usize::from(z.outputs),
            z.rules,
            z.faults,
            z.tests,
            z.suspects,
        ],
        Err(why) => refused(why),
    }
}

// The answer of one test's part.
pub(crate) fn part_numbers(part: Result<Span, Refusal>) -> [usize; 4]
    ensures { result ≡ part_numbers part }
{
    match part {
        Ok(span) => [0, 0, span.start, span.length],
        Err(why) => refused(why),
    }
}

// The answer of an operation that writes a sheet.
pub(crate) fn written_numbers(written: Result<usize, Refusal>) -> [usize; 3]
    ensures { result ≡ written_numbers written }
{
    match written {
        Ok(length) => [0, 0, length],
        Err(why) => refused(why),
    }
}

// The answer of run.
pub(crate) fn ran_numbers(ran: Result<Used, Refusal>) -> [usize; 4]
    ensures { result ≡ ran_numbers ran }
{
    match ran {
        Ok(used) => [0, 0, used.number as usize, used.set as usize],
        Err(why) => refused(why),
    }
}

// What first failed test finds.
fn tested_numbers(tested: Tested) -> [usize; 7]
    ensures { result ≡ tested_numbers tested.failed tested.used }
{
    let number = tested.used.number as usize;
    let set = tested.used.set as usize;
    match tested.failed {
        None => [0, 0, 0, 0, 0, number, set],
        Some(wrong) => [0, 0, 1, wrong.test, wrong.position, number, set],
    }
}

// The answer of first failed test.
pub(crate) fn failed_numbers(failed: Result<Tested, Refusal>) -> [usize; 7]
    ensures { result ≡ failed_numbers failed }
{
    match failed {
        Ok(tested) => tested_numbers(tested),
        Err(why) => refused(why),
    }
}

// The answer of compare, or of judge.
pub(crate) fn difference_numbers(found: Result<Option<usize>, Refusal>) -> [usize; 4]
    ensures { result ≡ compared_numbers found }
{
    match found {
        Ok(None) => [0, 0, 0, 0],
        Ok(Some(length)) => [0, 0, 1, length],
        Err(why) => refused(why),
    }
}

// A mutant that was taken, or that gives a record.
pub(crate) fn mutant_numbers(found: Result<Option<Difference>, Refusal>) -> [usize; 5]
    ensures { result ≡ taken_numbers found }
{
    match found {
        Ok(None) => [0, 0, 0, 0, 0],
        Ok(Some(None)) => [0, 0, 1, 0, 0],
        Ok(Some(Some(length))) => [0, 0, 1, 1, length],
        Err(why) => refused(why),
    }
}

// The answer of make.
pub(crate) fn made_numbers(made: Result<Made, Refusal>) -> [usize; 4]
    ensures { result ≡ made_numbers made }
{
    match made {
        Ok(whole) => [0, 0, whole.length, whole.appended],
        Err(why) => refused(why),
    }
}

// The answer of an operation that gives no value.
pub(crate) fn done_numbers(done: Result<(), Refusal>) -> [usize; 2]
    ensures { result ≡ tried_numbers done }
{
    match done {
        Ok(()) => [0, 0],
        Err(why) => refused(why),
    }
}

// What checking a record finds.
fn differs_numbers(recorded: Recorded) -> [usize; 5]
    ensures { result ≡ differs_numbers recorded.differs recorded.given }
{
    let given = usize::from(recorded.given);
    match recorded.differs {
        None => [0, 0, 0, 0, given],
        Some(place) => [0, 0, 1, place, given],
    }
}

// The answer of checking a record.
pub(crate) fn recorded_numbers(checked: Result<Recorded, Refusal>) -> [usize; 5]
    ensures { result ≡ recorded_numbers checked }
{
    match checked {
        Ok(recorded) => differs_numbers(recorded),
        Err(why) => refused(why),
    }
}

// The sheet that a refusal to merge concerns, as a number.
fn concern(concerns: Concerns) -> usize
    ensures { result ≡ concern concerns }
{
    match concerns {
        Concerns::Merged => 0,
        Concerns::First => 1,
        Concerns::Second => 2,
    }
}

// The answer of merging.
pub(crate) fn merged_numbers(merged: Result<usize, Unmerged>) -> [usize; 4]
    ensures { result ≡ merged_numbers merged }
{
    match merged {
        Ok(length) => [0, 0, 0, length],
        Err(unmerged) => {
            let why = unmerged.why;
            let number = usize::from(why.number);
            [number, why.place, concern(unmerged.concerns), 0]
        }
    }
}
