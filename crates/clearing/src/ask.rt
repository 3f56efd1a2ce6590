// What a cube without survivor clears, from a mutant in it on.
ghost use Rattle.std.specs.Prelude.{◌≡◌, true, ◌<◌, ◌≤◌};
ghost use Rattle.block.specs.Tabulated.{Wf, choices_at, choice_of};
ghost use Rattle.cubes.specs.Cube.{Means};
ghost use Rattle.clearing.specs.Asking.{SpeaksTo, Speaks, Passed, CubeRefutes};
ghost use Rattle.clearing.specs.Sweep.{Full};

use crate::order::{Clearing, highest};
use block::{Block, choices, pair_of, site, transition};
use cubes::literals::{Cube, means};
use leaves::*;

// The set with a slot, if a cube speaks of it.
fn with_spoken(set: u32, l: u32, j: u8) -> u32
    requires { j < 32 }
    ensures { SpeaksTo set l j result }
{
    if l == ANY {
        return set;
    }
    with(set, j)
}

// The slots of which a cube speaks.
fn spoken(cube: &Cube) -> u32
    ensures { Speaks cube.now result 32 }
{
    let mut set: u32 = 0;
    for (j, literal) in cube.iter().enumerate() {
        set = with_spoken(set, *literal, j as u8);
    }
    set
}

// Whether a literal means choice c at a pair.
fn meant(block: &Block, l: u32, k: usize, c: u16) -> bool
    requires { Wf block.now × (k < 257) }
    ensures { result ≡ true → c < choices_at block.now k → Means l (choice_of block.now k c) }
{
    let step = transition(block, k, c);
    let t = step.target;
    if t >= 16 {
        return false;
    }
    means(l, step.output, t)
}

// The first choice of a slot after c that a literal does not mean, or an earlier one.
fn pass(block: &Block, l: u32, j: u8, c: u16) -> u16
    requires { Wf block.now × (j < 32) × (c ≤ 256) }
    ensures { Passed block.now l j c result }
{
    let next = c + 1;
    let k = pair_of(block, j);
    if site(block, k) != j {
        return next;
    }
    let end = choices(block, j);
    for d in next..end {
        if !meant(block, l, k, d) {
            return d;
        }
    }
    next.max(end)
}

// By the choices at which slots the cube clears a mutant in it.
pub fn cleared_by(block: &Block, cube: &Cube, p: &[u16; 32]) -> Clearing
    requires { Wf block.now × Full block.now p.now }
    ensures { CubeRefutes block.now cube.now p.now result }
{
    let by = spoken(cube);
    if by == 0 {
        return Clearing { by, next: 0 };
    }
    let j = highest(by);
    let i = usize::from(j);
    Clearing {
        by,
        next: pass(block, cube[i], j, p[i]),
    }
}
