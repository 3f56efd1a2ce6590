// Sheets from a seed (02, Point 4).
// Promises every byte of the sheet that a seed and sizes make, and that reading accepts it.
// Called by users, and by `ranthelo`.

#![tactic(auto)]

ghost use Rattle.std.specs.Prelude.{◌≡◌, ◌≤◌, length};
ghost use Rattle.lists.specs.Lists.{overlay};
ghost use Rattle.sheet.specs.WellFormed.{SizeIn};
ghost use Rattle.writing.specs.Writing.{written_answer, sheet_writes};
ghost use Rattle.generator.specs.Generating.{generating};
ghost use Rattle.generator.specs.Generated.{ToldGenerated};

mod draw;
mod pairs;

use pairs::{pairs_of, put_pairs};
use sheet::{Refusal, Size};
use writing::Drawing;

// The sheet of a size in range, from the tables of its rules and faults, no QUIET, no STARTs and no tests.
fn spell(seed: u32, size: Size, buffer: &mut [u8]) -> Result<usize, Refusal>
    requires size_in { SizeIn size }
    requires in_bounds { 16384 ≤ length buffer.old }
    ensures value { result ≡ written_answer (generating seed size (length buffer.old)) }
    ensures buffer_after { buffer.new ≡ overlay (sheet_writes (generating seed size (length buffer.old))) buffer.old }
{
    let mut rules = [0u8; 1024];
    let mut faults = [0u8; 128];
    let faulted = 4 * put_pairs(seed, size, &mut rules, &mut faults);
    let ruled = 4 * pairs_of(size);
    let drawing = Drawing {
        size,
        quiet: false,
        rules: &rules[..ruled],
        faults: &faults[..faulted],
        starts: &[],
        lengths: &[],
        presses: &[],
    };
    writing::write(&drawing, buffer)
}

// The sheet of a seed and a size at the buffer's front.
pub fn generate(seed: u32, size: Size, buffer: &mut [u8]) -> Result<usize, Refusal>
    ensures answer { result ≡ written_answer (generating seed size (length buffer.old)) }
    ensures bytes { buffer.new ≡ overlay (sheet_writes (generating seed size (length buffer.old))) buffer.old }
    ensures told { ToldGenerated size result buffer.old buffer.new }
{
    if !size.is_in_range() {
        return Err(Refusal::new(4, 0));
    }
    if buffer.len() < 16384 {
        return Err(Refusal::new(16, 0));
    }
    spell(seed, size, buffer)
}
