// The operations on the mutants of a sheet (01: boards): run, first failed test, compare; and judge, on its test suite (01: list).
// Promises for every input the answer and every lent byte, by the definitions of `model`, and what the answer means.
// Called by users, and by `ranthelo` and `report`.

#![tactic(auto)]

ghost use Rattle.std.specs.Prelude.{◌≡◌, length};
ghost use Rattle.lists.specs.Lists.{overlay};
ghost use Rattle.model.specs.Used.{counted as usage};
ghost use Rattle.model.specs.Operations.{running, failing, comparing};
ghost use Rattle.mutation.specs.Answers.{used_of, ran_answer, ran_writes, failed_answer, compared_answer, compared_writes};
ghost use Rattle.mutation.specs.Operate.{ToldRan, ToldFailed, ToldCompared};

mod conform;
mod respond;
mod suite;
mod verdict;

use block::load;
use logs::Wrong;
use machine::Difference;
use sheet::Refusal;
pub use verdict::{judge, judge_counting};

// The slots that were used (02: open pairs): how many, and the set of them, bit i for slot i.
#[derive(Clone, Copy, Debug, PartialEq, Eq)]
pub struct Used {
    pub number: u32,
    pub set: u32,
}

// What First failed test answers: the first wrong output, by its test and the position in it, both from 0, if there is one; and the
// slots used until then.
#[derive(Clone, Copy, Debug, PartialEq, Eq)]
pub struct Tested {
    pub failed: Option<Wrong>,
    pub used: Used,
}

// The number of slots is the count of ones.
fn counted(set: u32) -> Used
    ensures { result ≡ used_of (usage set) }
{
    Used {
        number: u32::count_ones(set),
        set,
    }
}

// Run: one output for each input at the buffer's front, and the slots used.
pub fn run(sheet: &[u8], mutant: &[u8], inputs: &[u8], buffer: &mut [u8]) -> Result<Used, Refusal>
    ensures answer { result ≡ ran_answer (running sheet.now mutant.now inputs.now (length buffer.old)) }
    ensures bytes { buffer.new ≡ overlay (ran_writes (running sheet.now mutant.now inputs.now (length buffer.old))) buffer.old }
    ensures told { ToldRan sheet.now mutant.now inputs.now (length buffer.old) result buffer.new }
{
    match &load(sheet) {
        Ok(loaded) => respond::run_loaded(loaded, mutant, inputs, buffer),
        Err(why) => Err(*why),
    }
}

// First failed test: the lowest number of a test that the mutant fails, the position in it of its first wrong output, and the slots
// used by the tests up to and including that output's step.
pub fn first_failed(sheet: &[u8], mutant: &[u8]) -> Result<Tested, Refusal>
    ensures answer { result ≡ failed_answer (failing sheet.now mutant.now) }
    ensures told { ToldFailed sheet.now mutant.now result }
{
    match &load(sheet) {
        Ok(loaded) => suite::first_failed_loaded(loaded, mutant),
        Err(why) => Err(*why),
    }
}

// Compare: conforms, or the shortest, then smallest, distinguishing sequence (01: departing sequence) at the buffer's front.
pub fn compare(sheet: &[u8], mutant: &[u8], buffer: &mut [u8]) -> Result<Difference, Refusal>
    ensures answer { result ≡ compared_answer (comparing sheet.now mutant.now (length buffer.old)) }
    ensures bytes { buffer.new ≡ overlay (compared_writes (comparing sheet.now mutant.now (length buffer.old))) buffer.old }
    ensures told { ToldCompared sheet.now mutant.now (length buffer.old) result buffer.new }
{
    match &load(sheet) {
        Ok(loaded) => conform::compare_loaded(loaded, mutant, buffer),
        Err(unread) => Err(*unread),
    }
}
