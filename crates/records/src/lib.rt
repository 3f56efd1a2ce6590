// A lock's own record (02, Point 9): where it first differs from the specification, and which board gives it.
// Promises for every sheet and every record, of any length, the answer and every lent byte, and what the answer means.
// Called by users, and by `ranthelo`.

#![tactic(auto)]

mod differ;
mod scan;

ghost use Rattle.std.specs.Prelude.{◌≡◌, length};
ghost use Rattle.lists.specs.Lists.{overlay};
ghost use Rattle.sheet.specs.Sheet.{Sheet};
ghost use Rattle.sheet.specs.Reading.{accepted};
ghost use Rattle.records.specs.Record.{broken_in, with_record, outcome_of, checking, explain_on, explaining};
ghost use Rattle.records.specs.Answers.{recorded_answer, ToldRecorded, explained_answer, explained_board, explained_sequence, Explains, ToldExplained, Sized};

use block::{Loaded, load};
use cubes::goal::Goal;
use differ::first_difference;
use machine::Difference;
use scan::whole;
use search::{Beginning, exists, first, room};
use sheet::Refusal;

// What is told of a record: the offset of the first SEEN whose output differs from the specification's, if one does; and whether some mutant
// gives every output.
#[derive(Clone, Copy, Debug, PartialEq, Eq)]
pub struct Recorded {
    pub differs: Option<usize>,
    pub given: bool,
}

// A record beside the specification, and beside the mutants of an accepted sheet.
fn check_loaded(loaded: &Loaded, log: &[u8]) -> Result<Recorded, Refusal>
    requires { (sh : Sheet) × Sized sh loaded.now }
    ensures { (sh : Sheet) → Sized sh loaded.now → result ≡ recorded_answer (with_record (broken_in sh log.now) (accepted (outcome_of sh log.now))) }
{
    whole(log, loaded.size.inputs, loaded.size.outputs)?;
    let mut nodes: u32 = 0;
    let given = exists(&loaded.block, log, &mut nodes);
    let differs = first_difference(&loaded.block, log);
    Ok(Recorded { differs, given })
}

// Check a record: the first SEEN whose output differs from the specification's, and whether some single mutant gives every output.
pub fn check_record(sheet: &[u8], log: &[u8]) -> Result<Recorded, Refusal>
    ensures answer { result ≡ recorded_answer (checking sheet.now log.now) }
    ensures told { ToldRecorded sheet.now log.now result }
{
    let loaded = load(sheet)?;
    check_loaded(&loaded, log)
}

// The first mutant of an accepted sheet that gives a record.
fn explain_loaded(
    loaded: &Loaded,
    log: &[u8],
    board: &mut [u8],
    sequence: &mut [u8],
) -> Result<Option<Difference>, Refusal>
    requires { (sh : Sheet) × Sized sh loaded.now }
    ensures { (sh : Sheet) → Sized sh loaded.now → Explains (explain_on sh log.now (length board.old) (length sequence.old)) result board.old board.new sequence.old sequence.new }
{
    whole(log, loaded.size.inputs, loaded.size.outputs)?;
    // in place of `?`: an edit tells another refusal here.
    if let Err(why) = room(&loaded.block, board.len(), sequence.len()) {
        return Err(why);
    }
    let mut nodes: u32 = 0;
    Ok(first(
        &loaded.block,
        log,
        Goal::Any,
        Beginning::Front,
        board,
        sequence,
        &mut nodes,
    ))
}

// Explain a record: the first mutant in dictionary order that gives it, at the board buffer's front, and its shortest, then smallest,
// distinguishing sequence, if it is nonconforming, at the sequence buffer's, with its length; or none, with nothing written.
pub fn explain_record(
    sheet: &[u8],
    log: &[u8],
    board: &mut [u8],
    sequence: &mut [u8],
) -> Result<Option<Difference>, Refusal>
    ensures answer { result ≡ explained_answer (explaining sheet.now log.now (length board.old) (length sequence.old)) }
    ensures board { board.new ≡ overlay (explained_board (explaining sheet.now log.now (length board.old) (length sequence.old))) board.old }
    ensures sequence { sequence.new ≡ overlay (explained_sequence (explaining sheet.now log.now (length board.old) (length sequence.old))) sequence.old }
    ensures told { ToldExplained sheet.now log.now (length board.old) (length sequence.old) result board.new sequence.new }
{
    let loaded = load(sheet)?;
    explain_loaded(&loaded, log, board, sequence)
}
