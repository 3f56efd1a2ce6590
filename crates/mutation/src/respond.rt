// A machine's outputs on inputs, and the slots it uses.
ghost use Rattle.std.specs.Prelude.{◌≤◌, ◌≡◌, length};
ghost use Rattle.model.specs.Machine.{outputs_from};
ghost use Rattle.model.specs.Used.{mark, mark_from};
ghost use Rattle.model.specs.Operations.{first_over, run_on};
ghost use Rattle.lists.specs.Lists.{overlay};
ghost use Rattle.lists.specs.Options.{coded};
ghost use Rattle.sheet.specs.Sheet.{Sheet};
ghost use Rattle.block.specs.Tabled.{LoadedFrom};
ghost use Rattle.machine.specs.Product.{moves_in};
ghost use Rattle.usage.specs.Marks.{start_slot_of, acts_in};
ghost use Rattle.mutation.specs.Answers.{Runs};
ghost use Rattle.mutation.specs.Operate.{Runnable};

use crate::{Used, counted};
use block::{BLOCK, Loaded, place};
use machine::{Machine, machine_of};
use sheet::Refusal;
use usage::{marked, start_set};

// The lowest index of an input that is not below k, if there is one.
fn first_over(k: u8, inputs: &[u8]) -> Option<usize>
    ensures { result ≡ coded (first_over k inputs.now) }
{
    for (i, x) in inputs.iter().enumerate() {
        if k <= *x {
            return Some(i);
        }
    }
    None
}

// Writes one output for each input at the buffer's front; gives the set of the slots used.
fn respond(block: &[u8; BLOCK], machine: &Machine, inputs: &[u8], buffer: &mut [u8]) -> u32
    requires runnable { Runnable block.now machine.now.target machine.now.start inputs.now }
    requires inputs_in_bounds { length inputs.now ≤ length buffer.old }
    ensures buffer_after { buffer.new ≡ overlay (outputs_from (moves_in block.now machine.now.output machine.now.target) machine.now.start inputs.now) buffer.old }
    ensures value { result ≡ mark_from (acts_in block.now machine.now.target) (mark 0 (start_slot_of block.now)) machine.now.start inputs.now }
{
    let mut used = start_set(block);
    let mut s = machine.start;
    for (i, x) in inputs.iter().enumerate() {
        let at = place(s, *x);
        buffer[i] = machine.output[at];
        used = marked(block, used, at);
        s = machine.target[at];
    }
    used
}

// Run, on an accepted sheet.
pub(crate) fn run_loaded(
    loaded: &Loaded,
    mutant: &[u8],
    inputs: &[u8],
    buffer: &mut [u8],
) -> Result<Used, Refusal>
    requires { (sh : Sheet) × LoadedFrom sh loaded.now }
    ensures { (sh : Sheet) → LoadedFrom sh loaded.now → Runs (run_on sh mutant.now inputs.now (length buffer.old)) result buffer.old buffer.new }
{
    let block = &loaded.block;
    let machine = machine_of(block, mutant)?;
    if let Some(over) = first_over(block::inputs(block), inputs) {
        return Err(Refusal::new(15, over));
    }
    if buffer.len() < inputs.len() {
        return Err(Refusal::new(16, 0));
    }
    let set = respond(block, &machine, inputs, buffer);
    let used = counted(set);
    Ok(used)
}
