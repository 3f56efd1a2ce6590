// Whether both buffers have room.
ghost use Rattle.std.specs.Prelude.{◌≡◌};
ghost use Rattle.sheet.specs.Sheet.{Sheet};
ghost use Rattle.block.specs.Tabled.{Tabled};
ghost use Rattle.search.specs.Rooms.{room_of};

use block::{Block, slots, states};
use machine::bound;
use sheet::Refusal;

// Refused with 16: at 0 for a board buffer that is shorter than a mutant, at 1 for a sequence buffer that any shortest distinguishing
// sequence may exceed.
pub fn room(block: &Block, board: usize, sequence: usize) -> Result<(), Refusal>
    requires { (sh : Sheet) × Tabled sh block.now }
    ensures { (sh : Sheet) → Tabled sh block.now → result ≡ room_of sh board sequence }
{
    if board < usize::from(slots(block)) {
        return Err(Refusal::new(16, 0));
    }
    if sequence < usize::from(bound(usize::from(states(block)))) {
        return Err(Refusal::new(16, 1));
    }
    Ok(())
}
