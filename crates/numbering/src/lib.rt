// State numbers in first-reached form (02's Point 12): states are numbered as breadth-first search meets them, and the commands put in order again.
// Promises the converted sheet, byte for byte, by the definition of `renaming`, and what it tells of the sheet it was made from.
// Called by users, and by `ranthelo`.

#![tactic(auto)]

mod first_reached;
mod keys;
mod ordered;

ghost use Rattle.std.specs.Prelude.{◌≡◌, length};
ghost use Rattle.lists.specs.Lists.{overlay};
ghost use Rattle.writing.specs.Writing.{written_answer, sheet_writes};
ghost use Rattle.renaming.specs.Renaming.{numbering};
ghost use Rattle.numbering.specs.Told.{ToldNumbered};

use first_reached::numbers_of;
use ordered::rewrite;
use reading::layout_of;
use sheet::{Refusal, Tables};

// The sheet in first-reached form at the buffer's front; gives its length.
pub fn renumber(sheet: &[u8], buffer: &mut [u8]) -> Result<usize, Refusal>
    ensures answer { result ≡ written_answer (numbering sheet.now (length buffer.old)) }
    ensures bytes { buffer.new ≡ overlay (sheet_writes (numbering sheet.now (length buffer.old))) buffer.old }
    ensures told { ToldNumbered sheet.now result buffer.old buffer.new }
{
    let mut tables = Tables::noughts();
    let size = reading::load_noughts(sheet, &mut tables)?;
    if buffer.len() < sheet.len() {
        return Err(Refusal::new(16, 0));
    }
    let number = numbers_of(&tables.target, size.states, size.inputs);
    Ok(rewrite(sheet, layout_of(sheet, size), &number, buffer))
}
