// Complete test suites (02's Point 6): to an incomplete one the sequence of its first survivor is appended, until none is left.
// Promises the made sheet, byte for byte, by the definition of `model`, and that its suite is complete and each appended test was needed.
// Called by users, and by `ranthelo`.

#![tactic(auto)]

mod append;
mod grow;
mod room;

ghost use Rattle.std.specs.Prelude.{◌≡◌, length};
ghost use Rattle.lists.specs.Lists.{overlay};
ghost use Rattle.model.specs.Making.{making};
ghost use Rattle.making.specs.Answers.{made_answer, made_writes, ToldMade};

use block::load;
use room::make;
use sheet::Refusal;

// What was made: the sheet's length, and how many tests were appended.
#[derive(Clone, Copy, Debug, PartialEq, Eq)]
pub struct Made {
    pub length: usize,
    pub appended: usize,
}

// The sheet with its suite made complete at the buffer's front.
pub fn complete_suite(sheet: &[u8], buffer: &mut [u8]) -> Result<Made, Refusal>
    ensures answer { result ≡ made_answer (making sheet.now (length buffer.old)) }
    ensures bytes { buffer.new ≡ overlay (made_writes (making sheet.now (length buffer.old))) buffer.old }
    ensures told { ToldMade sheet.now (length buffer.old) result buffer.new }
{
    let loaded = load(sheet)?;
    make(&loaded, buffer)
}
