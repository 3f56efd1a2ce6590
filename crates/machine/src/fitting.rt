// Whether bytes are a mutant of the sheet in the block.
ghost use Rattle.std.specs.Prelude.{◌≤◌, ◌≡◌, length};
ghost use Rattle.sheet.specs.Sheet.{Sheet};
ghost use Rattle.block.specs.Tabled.{Tabled};
ghost use Rattle.machine.specs.Fits.{FirstHigh, fit_of};

use block::{BLOCK, choices, slots};
use sheet::Refusal;

// The lowest index of a choice that is not below its number of choices.
fn first_high(block: &[u8; BLOCK], mutant: &[u8]) -> Option<usize>
    requires { length mutant.now ≤ 32 }
    ensures { FirstHigh block.now mutant.now result }
{
    for (i, &c) in mutant.iter().enumerate() {
        if choices(block, i as u8) <= u16::from(c) {
            return Some(i);
        }
    }
    None
}

// Whether the bytes are a mutant of the sheet: refused with 13 for another length than that of the slots, 14 for a choice that is not
// below its number of choices.
pub fn fits(block: &[u8; BLOCK], mutant: &[u8]) -> Result<(), Refusal>
    requires { (sh : Sheet) × Tabled sh block.now }
    ensures { (sh : Sheet) → Tabled sh block.now → result ≡ fit_of sh mutant.now }
{
    if mutant.len() != usize::from(slots(block)) {
        return Err(Refusal::new(13, 0));
    }
    match first_high(block, mutant) {
        Some(high) => Err(Refusal::new(14, high)),
        None => Ok(()),
    }
}
