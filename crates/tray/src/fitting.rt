// Whether bytes are a tray of mutants of the sheet in the block.
ghost use Rattle.std.specs.Prelude.{ℕ, ◌*◌, ◌≡◌, eqb, length};
ghost use Rattle.lists.specs.Options.{coded};
ghost use Rattle.sheet.specs.Sheet.{Sheet};
ghost use Rattle.model.specs.Mutant.{slots};
ghost use Rattle.model.specs.Operations.{first_high};
ghost use Rattle.model.specs.Tray.{slots_for};
ghost use Rattle.block.specs.Tabled.{Tabled};

use block::{BLOCK, slots};
use machine::fits;

// Whether the length is that of so many mutants.
pub(crate) fn is_tray(boards: usize, slots: usize, length: usize) -> bool
    ensures { result ≡ eqb length (boards * slots) }
{
    boards.checked_mul(slots) == Some(length)
}

// The lowest index in the tray of a choice that is not below its number of choices, if there is one.
pub(crate) fn first_high(block: &[u8; BLOCK], tray: &[u8]) -> Option<usize>
    requires { (sh : Sheet) × Tabled sh block.now × ((boards : ℕ) × (length tray.now ≡ boards * length (slots sh))) }
    ensures { (sh : Sheet) → Tabled sh block.now → (boards : ℕ) → length tray.now ≡ boards * length (slots sh) → result ≡ coded (first_high (slots_for boards (slots sh)) tray.now) }
{
    let count = usize::from(slots(block));
    let mut at = 0;
    // stays: goes from board to board; of a sheet without slots a board has no bytes, and `chunks_exact` asks for some
    while at < tray.len() {
        let end = at + count;
        if let Err(why) = fits(block, &tray[at..end]) {
            return Some(at + why.place);
        }
        at = end;
    }
    None
}
