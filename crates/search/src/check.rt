// A mutant with all its choices: whether it is wanted, and what is shown of it.
ghost use Rattle.std.specs.Prelude.{◌≡◌, ℕ, ◌<◌, ◌≤◌, length, take, slice_index};
ghost use Rattle.lists.specs.Lists.{overlay};
ghost use Rattle.sheet.specs.Sheet.{Sheet};
ghost use Rattle.model.specs.Compare.{compare_pair};
ghost use Rattle.model.specs.Mutant.{slots as slots_of};
ghost use Rattle.block.specs.Layout.{states_of};
ghost use Rattle.block.specs.Logged.{observations};
ghost use Rattle.machine.specs.Product.{tables, Valid};
ghost use Rattle.search.specs.Search.{Meets, Wanted, Searching, mutant_in, Decides};
ghost use Rattle.search.specs.Shown.{Room, Showing, Written};

use block::*;
use cubes::goal::Goal;
use machine::{Difference, blank, distinguish};

// Whether the machine in the tables meets the goal.
fn meets(block: &Block, goal: Goal, outputs: &[u8; 256], targets: &[u8; 256], start: u8) -> bool
    requires { Valid block.now targets.now × (start < states_of block.now) }
    ensures { Decides (Meets goal (compare_pair (tables block.now start outputs.now targets.now))) result }
{
    match goal {
        Goal::Any => true,
        Goal::Nonconforming => {
            let mut sequence = blank();
            distinguish(block, outputs, targets, start, &mut sequence).is_some()
        }
    }
}

// Whether the mutant with the choices p gives the log and meets the goal.
pub(crate) fn wanted(block: &Block, log: &[u8], goal: Goal, p: &[u16; 32]) -> bool
    requires { (sh : Sheet) × Searching sh block.now p.now (length (slots_of sh)) }
    ensures { (sh : Sheet) → Searching sh block.now p.now (length (slots_of sh)) → Decides (Wanted goal sh (observations log.now) (mutant_in sh p.now)) result }
{
    let mut outputs = blank();
    let mut targets = blank();
    machine::lay(block, p, &mut outputs, &mut targets);
    let start = initial(block, p);
    match logs::first_wrong(log, &outputs, &targets, start) {
        None => meets(block, goal, &outputs, &targets, start),
        Some(_) => false,
    }
}

// Writes the first n choices at the buffer's front.
fn write_choices(p: &[u16; 32], n: usize, board: &mut [u8])
    requires { (n ≤ 32) × (length p.now ≡ 32) × (n ≤ length board.old) × ((j : ℕ) → j < n → slice_index p.now j < 256) }
    ensures { board.new ≡ overlay (take n p.now) board.old }
{
    for (j, choice) in p[..n].iter().enumerate() {
        board[j] = *choice as u8;
    }
}

// Writes the mutant with the choices p, and what tells it from the specification, at the buffers' fronts.
pub(crate) fn show(
    block: &Block,
    p: &[u16; 32],
    board: &mut [u8],
    sequence: &mut [u8],
) -> Difference
    requires { ((sh : Sheet) × Showing sh block.now p.now) × Room block.now board.old sequence.old }
    ensures { (sh : Sheet) → Showing sh block.now p.now → Written sh (mutant_in sh p.now) result board.old board.new sequence.old sequence.new }
{
    let n = usize::from(slots(block));
    write_choices(p, n, board);
    let machine = machine::machine_of(block, &board[..n]).unwrap();
    let start = machine.start;
    distinguish(block, &machine.output, &machine.target, start, sequence)
}
