// An accepted sheet made complete, in scratch of its own until it is known that all fits.
ghost use Rattle.std.specs.Prelude.{length};
ghost use Rattle.sheet.specs.Sheet.{Sheet};
ghost use Rattle.sheet.specs.Reading.{Result};
ghost use Rattle.model.specs.Making.{Grown, make_on};
ghost use Rattle.block.specs.Tabled.{LoadedFrom};
ghost use Rattle.making.specs.Answers.{Makes};
ghost use Rattle.making.specs.words.Growing.{GrowingIn, Grows};

use crate::Made;
use crate::grow::{Growth, grow};
use block::{Block, Loaded};
use cubes::tables::FACTS;
use logs::log_suite;
use refutation::{FEW, fresh_store, prepare};
use sheet::Refusal;
use writing::spell::{byte, bytes};

// With questions, where the block has facts for them; with a store in either case, so that no sweep gives up.
fn grow_whole(
    block: &Block,
    bytes: &mut [u8],
    log: &mut [u8],
    from: Growth,
) -> Result<Growth, Refusal>
    requires { (result : Result Grown) × (sh : Sheet) × GrowingIn result sh block.now bytes.old log.old from }
    ensures { (r : Result Grown) (sh : Sheet) → GrowingIn r sh block.now bytes.old log.old from → Grows r bytes.new result }
{
    let mut facts = [0u16; FACTS];
    let ready = prepare(block, &log[..from.observed], &mut facts);
    let mut store = fresh_store::<FEW>();
    grow(block, &mut facts, ready, &mut store, bytes, log, from)
}

// What becomes of an accepted sheet that was loaded: the made sheet at the buffer's front; nothing where it does not fit.
pub(crate) fn make(loaded: &Loaded, buffer: &mut [u8]) -> Result<Made, Refusal>
    requires { (sh : Sheet) × LoadedFrom sh loaded.now }
    ensures { (sh : Sheet) → LoadedFrom sh loaded.now → Makes (make_on sh (length buffer.old)) result buffer.old buffer.new }
{
    if buffer.len() < 16384 {
        return Err(Refusal::new(16, 0));
    }
    let mut log = [0u8; 24576];
    let observed = log_suite(loaded, &mut log);
    let mut made = [0u8; 16384];
    let length = bytes(loaded.sheet, &mut made, 0);
    let from = Growth {
        end: length - 1,
        observed,
        room: 256 - loaded.size.tests,
        appended: 0,
    };
    let grown = grow_whole(&loaded.block, &mut made, &mut log, from)?;
    let end = bytes(&made[..grown.end], buffer, 0);
    let length = byte(6, buffer, end);
    let appended = grown.appended;
    Ok(Made { length, appended })
}
