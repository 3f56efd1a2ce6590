// Walks over the mutants that pass a sheet's test suite (02's Point 8).
// Promises of a take the next passing mutant after a place, with compare's answer, or the end; and of whole walks, with tests added, what 02
// says of them (specs/laws/WalkedLaw.antt). Called by users, and by `ranthelo`.

#![tactic(auto)]

ghost use Rattle.std.specs.Prelude.{◌≤◌, ◌≡◌, length};
ghost use Rattle.lists.specs.Lists.{overlay};
ghost use Rattle.sheet.specs.Sheet.{Sheet};
ghost use Rattle.sheet.specs.Reading.{accepted};
ghost use Rattle.model.specs.Walk.{take_of, take_on, taking};
ghost use Rattle.block.specs.Tabled.{Tabled, LoadedFrom};
ghost use Rattle.logs.specs.Suites.{SuiteOf};
ghost use Rattle.search.specs.Search.{LastOk};
ghost use Rattle.search.specs.Shown.{Room};
ghost use Rattle.walking.specs.Taking.{standing, standing_from, Begins, taken_answer, taken_board, taken_sequence, Takes, ToldTaken};

use block::{Block, Loaded, load};
use cubes::goal::Goal;
use logs::log_suite;
use machine::{Difference, fits};
use search::{Beginning, first, room};
use sheet::Refusal;

// A walk's place: its start, the last mutant taken, which stands beside it, or its end. The mutant stays beside it: so C hands both over.
#[derive(Clone, Copy, Debug, PartialEq, Eq)]
pub enum Place {
    Start,
    Last,
    End,
}

// The next mutant from a beginning on, if there is one, with what tells it from the specification, on an accepted sheet with room for its
// suite's log, and in both buffers.
fn next_logged<const ROOM: usize>(
    loaded: &Loaded,
    from: Beginning,
    board: &mut [u8],
    sequence: &mut [u8],
) -> Option<Difference>
    requires room { ROOM ≤ 24576 }
    requires loaded { ((sh : Sheet) × SuiteOf sh loaded.now ROOM × LastOk from sh) × Room loaded.now.block board.old sequence.old }
    ensures { (sh : Sheet) → SuiteOf sh loaded.now ROOM → LastOk from.entry sh → Takes (accepted (take_of sh (standing_from from.entry))) (Ok result) board.old board.new sequence.old sequence.new }
{
    let mut log = [0u8; ROOM];
    let n = log_suite(loaded, &mut log);
    let mut nodes: u32 = 0;
    first(
        &loaded.block,
        &log[..n],
        Goal::Any,
        from,
        board,
        sequence,
        &mut nodes,
    )
}

// Where a take from a place begins, nowhere at the walk's end; 13 and 14 of the last mutant taken.
fn beginning<'a>(
    block: &Block,
    place: Place,
    last: &'a [u8],
) -> Result<Option<Beginning<'a>>, Refusal>
    requires { (sh : Sheet) × Tabled sh block.now }
    ensures { (sh : Sheet) → Tabled sh block.now → Begins sh (standing place last.now) result }
{
    match place {
        Place::Start => Ok(Some(Beginning::Front)),
        Place::Last => {
            // in place of `?`: an edit tells another refusal here.
            if let Err(why) = fits(block, last) {
                return Err(why);
            }
            Ok(Some(Beginning::After(last)))
        }
        Place::End => Ok(None),
    }
}

// The take from a place on an accepted sheet: a short array for the log of a short one, a long one for any other.
fn take_loaded(
    loaded: &Loaded,
    place: Place,
    last: &[u8],
    board: &mut [u8],
    sequence: &mut [u8],
) -> Result<Option<Difference>, Refusal>
    requires { (sh : Sheet) × LoadedFrom sh loaded.now }
    ensures { (sh : Sheet) → LoadedFrom sh loaded.now → Takes (take_on sh (standing place last.now) (length board.old) (length sequence.old)) result board.old board.new sequence.old sequence.new }
{
    let begins = beginning(&loaded.block, place, last)?;
    room(&loaded.block, board.len(), sequence.len())?;
    let Some(from) = begins else {
        return Ok(None);
    };
    if loaded.sheet.len() <= 1024 {
        Ok(next_logged::<1536>(loaded, from, board, sequence))
    } else {
        Ok(next_logged::<24576>(loaded, from, board, sequence))
    }
}

// The next mutant in dictionary order that passes the tests, at the board buffer's front, and its shortest, then smallest,
// distinguishing sequence, if it is nonconforming, at the sequence buffer's, with its length; or none at the walk's end, with nothing
// written.
pub fn take(
    sheet: &[u8],
    place: Place,
    last: &[u8],
    board: &mut [u8],
    sequence: &mut [u8],
) -> Result<Option<Difference>, Refusal>
    ensures answer { result ≡ taken_answer (taking sheet.now (standing place last.now) (length board.old) (length sequence.old)) }
    ensures board { board.new ≡ overlay (taken_board (taking sheet.now (standing place last.now) (length board.old) (length sequence.old))) board.old }
    ensures sequence { sequence.new ≡ overlay (taken_sequence (taking sheet.now (standing place last.now) (length board.old) (length sequence.old))) sequence.old }
    ensures told { ToldTaken sheet.now (standing place last.now) (length board.old) (length sequence.old) result board.new sequence.new }
{
    let loaded = load(sheet)?;
    take_loaded(&loaded, place, last, board, sequence)
}
