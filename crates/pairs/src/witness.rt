// A witness: choices of a mutant that is sought, kept in the notes to spare questions.
ghost use Rattle.std.specs.Prelude.{◌<◌};
ghost use Rattle.leaves.specs.Noted.{Changed};

use block::*;
use leaves::*;

// Where an output can be wrong: at which suspect, and which is right.
#[derive(Clone, Copy)]
pub struct Wrong {
    pub at: Option<u8>,
    pub want: u8,
}

// The choice of a suspect that is a transition.
fn choice_of(block: &Block, j: u8, step: u8) -> Option<u16>
    requires { j < 32 }
{
    let k = pair_of(block, j);
    for c in 0..choices(block, j) {
        let s = transition(block, k, c);
        if packed(s.output, s.target) == step {
            return Some(c);
        }
    }
    None
}

// The last choice of a suspect with another output than o.
fn wrong_choice(block: &Block, j: u8, o: u8) -> Option<u16>
    requires { j < 32 }
{
    let k = pair_of(block, j);
    for c in (0..choices(block, j)).rev() {
        if transition(block, k, c).output != o {
            return Some(c);
        }
    }
    None
}

// What a witness says of a suspect: at one that can be wrong the last choice that is.
fn noted(block: &Block, p: &[u8; 32], settled: u32, wrong: Wrong, j: u8) -> Option<u16>
    requires { j < 32 }
{
    if holds(settled, j) {
        return choice_of(block, j, p[usize::from(j)]);
    }
    if wrong.at == Some(j) {
        return wrong_choice(block, j, wrong.want);
    }
    None
}

// Keeps the settled part, with a wrong output where it can be, as a witness.
pub fn keep(block: &Block, p: &[u8; 32], settled: u32, wrong: Wrong, notes: &mut [u16])
    ensures { Changed 4 40 notes.old notes.new }
{
    let mut kept = [256u16; 32];
    for j in 0..32 {
        if let Some(c) = noted(block, p, settled, wrong, j) {
            kept[usize::from(j)] = c;
        }
    }
    keep_witness(notes, &kept);
}
