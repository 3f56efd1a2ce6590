// Compare, over tables.
ghost use Rattle.std.specs.Prelude.{◌≡◌, length};
ghost use Rattle.sheet.specs.Sheet.{Sheet};
ghost use Rattle.model.specs.Operations.{compare_on};
ghost use Rattle.block.specs.Tabled.{LoadedFrom};
ghost use Rattle.mutation.specs.Answers.{Compares};

use block::{Loaded, states};
use machine::{Difference, bound, distinguish, machine_of};
use sheet::Refusal;

// Compare, on an accepted sheet.
pub(crate) fn compare_loaded(
    loaded: &Loaded,
    mutant: &[u8],
    buffer: &mut [u8],
) -> Result<Difference, Refusal>
    requires { (sh : Sheet) × LoadedFrom sh loaded.now }
    ensures { (sh : Sheet) → LoadedFrom sh loaded.now → Compares (compare_on sh mutant.now (length buffer.old)) result buffer.old buffer.new }
{
    let block = &loaded.block;
    let machine = machine_of(block, mutant)?;
    if buffer.len() < usize::from(bound(usize::from(states(block)))) {
        return Err(Refusal::new(16, 0));
    }
    Ok(distinguish(
        block,
        &machine.output,
        &machine.target,
        machine.start,
        buffer,
    ))
}
