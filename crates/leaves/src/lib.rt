// Words for functions that steer: transitions as numbers, the cube of a settled part, and notes in a lent slice; with them the sets
// and literals of `cubes`. Promises of a cube which transitions it means, of notes which one is read or changed.
// Called by `walks`, `cursors`, `pairs`, `store`, `nodes`, `refutation`, `search`, `clearing` and `pool`.

#![tactic(auto)]

mod notes;

ghost use Rattle.std.specs.Prelude.{◌≡◌, ◌+◌, ◌*◌, ◌%◌, ◌<◌, length};
ghost use Rattle.block.specs.Layout.{site_at};
ghost use Rattle.block.specs.Tabulated.{Wf, choice_of};
ghost use Rattle.leaves.specs.Members.{Settles, Exact};

use block::*;
use cubes::literals::Cube;
pub use cubes::literals::{ANY, literal};
pub use cubes::words::{holds, least, less, members, size, union, with, without_least};
pub use notes::{
    DEAD, FILLED, HAND, HINTS, KEPT, LIVE, LONG, NODES, SHORT, SPENT, WITNESS, count_node,
    keep_witness, nodes, note, set_note, witnessed,
};

pub fn low(x: u8) -> u8
    ensures { (result ≡ x % 16) × (result < 16) }
{
    x % 16
}

// A transition as one number: output * 16 + next state.
pub fn packed(output: u8, target: u8) -> u8
    ensures { result ≡ output % 16 * 16 + target % 16 }
{
    low(output) * 16 + low(target)
}

// The transition of a pair that is no suspect.
pub fn lone(block: &Block, k: usize) -> u8
    requires { k < 257 }
    ensures { Wf block.now → site_at block.now k ≡ 255 → result ≡ (choice_of block.now k 0).output % 16 * 16 + (choice_of block.now k 0).target % 16 }
{
    let step = transition(block, k, 0);
    packed(step.output, step.target)
}

// Where the facts of an output of a suspect are kept.
pub fn cell(i: u8, o: u8) -> usize
    ensures { (result ≡ i % 32 * 16 + o % 16) × (result < 512) }
{
    ((i % 32) as usize) * 16 + ((o % 16) as usize)
}

// What the settled part says of a suspect.
fn exactly(step: u8, settled: u32, j: u8) -> u32
    ensures { Settles settled (j % 32) step result }
{
    if !holds(settled, j) {
        return ANY;
    }
    literal(step / 16, with(0, step))
}

// The settled part as a cube.
pub fn exact(p: &[u8; 32], settled: u32, cube: &mut Cube)
    ensures { (length cube.new ≡ length cube.old) × Exact 32 p.now settled cube.new }
{
    for j in 0..32 {
        cube[wide(j)] = exactly(p[wide(j)], settled, j);
    }
}
