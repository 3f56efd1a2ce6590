// What a mutant does, laid out in tables: its output and next state at state * 16 + input.
ghost use Rattle.std.specs.Prelude.{◌*◌, ◌/◌, ◌%◌, ◌<◌, ◌≡◌, length, replicate};
ghost use Rattle.sheet.specs.Sheet.{Sheet};
ghost use Rattle.block.specs.Layout.{states_of};
ghost use Rattle.block.specs.Tabulated.{Wf, step_of};
ghost use Rattle.block.specs.Tabled.{Tabled};
ghost use Rattle.machine.specs.Laid.{Chosen, as_move, Moves};
ghost use Rattle.machine.specs.Fits.{Widened, MachinedBy};

use crate::fitting::fits;
use block::{BLOCK, Step, choice_at, initial, inputs, states, transition};
use sheet::Refusal;

// Where a mutant starts, and what it does at each state and input.
#[derive(Clone, Copy)]
pub struct Machine {
    pub start: u8,
    pub output: [u8; 256],
    pub target: [u8; 256],
}

// What the mutant p does at an index of one of the states: nothing outside the inputs.
fn act(block: &[u8; BLOCK], p: &[u16; 32], k: usize) -> Step
    requires { Wf block.now × Chosen block.now p.now × (k / 16 < states_of block.now) }
    ensures { as_move result ≡ step_of block.now p.now (k / 16) (k % 16) }
{
    if k % 16 >= usize::from(inputs(block)) {
        return Step {
            output: 0,
            target: 0,
        };
    }
    let c = choice_at(block, p, k);
    transition(block, k, c)
}

// Lays out what the mutant with the choices p does, at the indices of the states.
pub fn lay(block: &[u8; BLOCK], p: &[u16; 32], outputs: &mut [u8; 256], targets: &mut [u8; 256])
    requires wf { Wf block.now × Chosen block.now p.now }
    requires outputs_len { (length outputs.old ≡ 256) × (length targets.old ≡ 256) }
    ensures { Moves (step_of block.now p.now) outputs.new targets.new (16 * states_of block.now) }
{
    for k in 0..16 * usize::from(states(block)) {
        let r = act(block, p, k);
        outputs[k] = r.output;
        targets[k] = r.target;
    }
}

// A table of noughts.
pub fn blank() -> [u8; 256]
    ensures { result ≡ replicate 256 0 }
{
    [0u8; 256]
}

// The first 32 bytes as choices.
fn widened(bytes: &[u8]) -> [u16; 32]
    ensures { Widened bytes.now result }
{
    let mut p = [0u16; 32];
    for i in 0..bytes.len().min(32) {
        p[i] = u16::from(bytes[i]);
    }
    p
}

// The machine of the mutant with these bytes; or why they are no mutant of the sheet.
pub fn machine_of(block: &[u8; BLOCK], mutant: &[u8]) -> Result<Machine, Refusal>
    requires { (sh : Sheet) × Tabled sh block.now }
    ensures { (sh : Sheet) → Tabled sh block.now → MachinedBy sh mutant.now result }
{
    fits(block, mutant)?;
    let p = widened(mutant);
    let mut machine = Machine {
        start: initial(block, &p),
        output: blank(),
        target: blank(),
    };
    lay(block, &p, &mut machine.output, &mut machine.target);
    Ok(machine)
}
