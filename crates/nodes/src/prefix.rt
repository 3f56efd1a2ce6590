// Whether a cube has every mutant with the choices of a prefix.
ghost use Rattle.std.specs.Prelude.{◌≡◌, true, ◌<◌};
ghost use Rattle.block.specs.Tabulated.{Wf};
ghost use Rattle.nodes.specs.Prefix.{SlotHas, PrefixIn};

use block::*;
use cubes::literals::Cube;
use leaves::*;

// One slot: the choice of the prefix there is one that the cube means.
fn slot_has(block: &Block, cube: &Cube, prefix: &[u16; 32], i: u8) -> bool
    requires { Wf block.now × (i < 32) }
    ensures { result ≡ true → SlotHas block.now cube.now prefix.now i }
{
    let l = cube[usize::from(i)];
    if l == ANY {
        return true;
    }
    let c = prefix[usize::from(i)];
    if c == 256 {
        return false;
    }
    let k = pair_of(block, i);
    if site(block, k) != i {
        return false;
    }
    let step = transition(block, k, c);
    step.target < 16 && cubes::literals::means(l, step.output, step.target)
}

// Slot by slot, as few of the 257 pairs are suspects; a cube says nothing of most slots.
pub fn has_prefix(block: &Block, cube: &Cube, prefix: &[u16; 32]) -> bool
    requires { Wf block.now }
    ensures { result ≡ true → PrefixIn block.now cube.now prefix.now }
{
    for i in 0..32 {
        if !slot_has(block, cube, prefix, i) {
            return false;
        }
    }
    true
}
