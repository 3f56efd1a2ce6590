// Where the mutants of a cube start.
ghost use Rattle.cubes.specs.Cube.{Given, StartsOk};

use crate::literals::{Cube, going};
use crate::tables::Facts;
use crate::words::one;
use block::*;

// The states in which a mutant of the cube can be after a reset.
pub fn starts(block: &Block, facts: &Facts, cube: &Cube) -> u16
    ensures { Given block.now facts.now → StartsOk block.now cube.now result }
{
    let i = site(block, WAKING);
    if i >= 32 {
        return one(transition(block, WAKING, 0).target % 16);
    }
    going(facts, cube[wide(i)], i, 0)
}
