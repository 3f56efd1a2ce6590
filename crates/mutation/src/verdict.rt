// 01's Judge.
ghost use Rattle.std.specs.Prelude.{◌≤◌, ◌≡◌, length};
ghost use Rattle.lists.specs.Lists.{overlay};
ghost use Rattle.sheet.specs.Sheet.{Sheet};
ghost use Rattle.sheet.specs.Reading.{accepted};
ghost use Rattle.model.specs.Suite.{judge_of};
ghost use Rattle.model.specs.Operations.{judging, judge_on};
ghost use Rattle.search.specs.Shown.{Room};
ghost use Rattle.block.specs.Tabled.{LoadedFrom};
ghost use Rattle.logs.specs.Suites.{SuiteOf};
ghost use Rattle.mutation.specs.Judging.{judged_answer, board_writes, sequence_writes, Judges, Measured, ToldJudged};

use block::{Loaded, load};
use cubes::goal::Goal;
use logs::log_suite;
use search::{Beginning, first, room};
use sheet::Refusal;

// The judgement of an accepted sheet with room for its suite's log, and in both buffers: complete, or the length of the first
// survivor's shortest distinguishing sequence. And how many nodes the search looked at.
fn judge_logged<const ROOM: usize>(
    loaded: &Loaded,
    board: &mut [u8],
    sequence: &mut [u8],
    nodes: &mut u32,
) -> Option<usize>
    requires room { ROOM ≤ 24576 }
    requires loaded { ((sh : Sheet) × SuiteOf sh loaded.now ROOM) × Room loaded.now.block board.old sequence.old }
    ensures { (sh : Sheet) → SuiteOf sh loaded.now ROOM → Judges (accepted (judge_of sh)) (Ok result) board.old board.new sequence.old sequence.new }
{
    let mut log = [0u8; ROOM];
    let n = log_suite(loaded, &mut log);
    let survivor = first(
        &loaded.block,
        &log[..n],
        Goal::Nonconforming,
        Beginning::Front,
        board,
        sequence,
        nodes,
    )
    .flatten();
    survivor
}

// The judgement of an accepted sheet: a short array for the log of a short one, a long one for any other.
fn judge_loaded(
    loaded: &Loaded,
    board: &mut [u8],
    sequence: &mut [u8],
    nodes: &mut u32,
) -> Result<Option<usize>, Refusal>
    requires { (sh : Sheet) × LoadedFrom sh loaded.now }
    ensures judges { (sh : Sheet) → LoadedFrom sh loaded.now → Judges (judge_on sh (length board.old) (length sequence.old)) result board.old board.new sequence.old sequence.new }
    ensures measured { Measured result nodes.old nodes.new }
{
    // in place of `?`: an edit tells another refusal here.
    if let Err(why) = room(&loaded.block, board.len(), sequence.len()) {
        return Err(why);
    }
    if loaded.sheet.len() <= 1024 {
        Ok(judge_logged::<1536>(loaded, board, sequence, nodes))
    } else {
        Ok(judge_logged::<24576>(loaded, board, sequence, nodes))
    }
}

// Judge, with the number of nodes that the engine looked at: a measurement. It is as it was on a refusal; which number it is
// otherwise is free.
pub fn judge_counting(
    sheet: &[u8],
    board: &mut [u8],
    sequence: &mut [u8],
    nodes: &mut u32,
) -> Result<Option<usize>, Refusal>
    ensures answer { result ≡ judged_answer (judging sheet.now (length board.old) (length sequence.old)) }
    ensures board { board.new ≡ overlay (board_writes (judging sheet.now (length board.old) (length sequence.old))) board.old }
    ensures sequence { sequence.new ≡ overlay (sequence_writes (judging sheet.now (length board.old) (length sequence.old))) sequence.old }
    ensures told { ToldJudged sheet.now (length board.old) (length sequence.old) result board.new sequence.new }
    ensures nodes { Measured result nodes.old nodes.new }
{
    let loaded = load(sheet)?;
    judge_loaded(&loaded, board, sequence, nodes)
}

// Complete with nothing written; or the first nonconforming mutant that passes the tests, at the board buffer's front, and its
// shortest, then smallest, distinguishing sequence, at the sequence buffer's front, with its length.
pub fn judge(sheet: &[u8], board: &mut [u8], sequence: &mut [u8]) -> Result<Option<usize>, Refusal>
    ensures answer { result ≡ judged_answer (judging sheet.now (length board.old) (length sequence.old)) }
    ensures board { board.new ≡ overlay (board_writes (judging sheet.now (length board.old) (length sequence.old))) board.old }
    ensures sequence { sequence.new ≡ overlay (sequence_writes (judging sheet.now (length board.old) (length sequence.old))) sequence.old }
    ensures told { ToldJudged sheet.now (length board.old) (length sequence.old) result board.new sequence.new }
{
    let mut nodes: u32 = 0;
    judge_counting(sheet, board, sequence, &mut nodes)
}
