// What the mutants of a cube do on an input at a pair of states: specification's * 16 + mutant's.
use block::*;
use cubes::literals::Cube;
use cubes::tables::Facts;
use leaves::*;

// The specification's next state and output, the suspect met, whether every output is right, and the next states after the right
// one.
#[derive(Clone, Copy)]
pub struct Cell {
    pub next: u8,
    pub output: u8,
    pub site: Option<u8>,
    pub sound: bool,
    pub go: u16,
}

// Nothing where the specification has no rule.
pub fn look(block: &Block, facts: &Facts, cube: &Cube, z: u8, x: u8) -> Option<Cell> {
    let k = some_place(z / 16, x);
    let next = rule_target(block, k);
    if next == 255 {
        return None;
    }
    let output = low(rule_output(block, k));
    let q = some_place(z, x);
    let i = site(block, q);
    if i >= 32 {
        let s = lone(block, q);
        return Some(Cell {
            next,
            output,
            site: None,
            sound: s / 16 == output,
            go: with(0, s),
        });
    }
    let l = cube[usize::from(i)];
    Some(Cell {
        next,
        output,
        site: Some(i),
        sound: cubes::literals::sounds(facts, l, i, output),
        go: cubes::literals::going(facts, l, i, output),
    })
}
