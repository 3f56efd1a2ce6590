// No test waits: the first unsettled suspect on the walk of the settled part, or a witness.
ghost use Rattle.std.specs.Prelude.{◌≡◌, IfSome, IfOk};
ghost use Rattle.pairs.specs.Meeting.{Free, Meets};

use crate::cells::look;
use crate::witness::{Wrong, keep};
use block::*;
use cubes::literals::Cube;
use cubes::tables::Facts;
use cubes::words::Sets;
use leaves::*;

// The suspect, if all its transitions are meant by the cube.
fn unsettled(cube: &Cube, i: u8) -> Option<u8>
    ensures { Free cube.now result }
{
    (i < 32 && cube[usize::from(i)] == ANY).then_some(i)
}

// The pairs of states in reach, in the order in which they are met, and the first unsettled suspect met.
#[derive(Drop)]
struct Reach {
    seen: Sets,
    list: [u8; 256],
    end: usize,
    first: Option<u8>,
}

impl Reach {
    // Lists a pair of states, if it is not listed.
    fn list_pair(&mut self, a: u8, b: u8)
        ensures { self.new.first ≡ self.old.first }
    {
        let row = usize::from(low(a));
        if holds(self.seen[row], b) || self.end >= 256 {
            return;
        }
        self.seen[row] = with(self.seen[row], b);
        self.list[self.end] = packed(a, b);
        self.end += 1;
    }

    // One input at a pair of states.
    fn walk_cell(
        &mut self,
        block: &Block,
        facts: &Facts,
        cube: &Cube,
        z: u8,
        x: u8,
    ) -> Result<(), Wrong>
        ensures { Free cube.now self.old.first → Free cube.now self.new.first }
    {
        let Some(cell) = look(block, facts, cube, z, x) else {
            return Ok(());
        };
        if !cell.sound {
            return Err(Wrong {
                at: cell.site,
                want: cell.output,
            });
        }
        if let Some(i) = cell.site {
            let waits = unsettled(cube, i);
            if waits.is_some() {
                if self.first.is_none() {
                    self.first = waits;
                }
                return Ok(());
            }
        }
        self.list_pair(cell.next, least(cell.go));
        Ok(())
    }

    // Every input at a pair of states.
    fn walk_pair(&mut self, block: &Block, facts: &Facts, cube: &Cube, z: u8) -> Result<(), Wrong>
        ensures { Free cube.now self.old.first → Free cube.now self.new.first }
    {
        for x in 0..inputs(block) {
            self.walk_cell(block, facts, cube, z, x)?;
        }
        Ok(())
    }
}

// The first unsettled suspect that is met at a pair of states in reach, if no output there can be wrong.
fn walk(block: &Block, facts: &Facts, cube: &Cube) -> Result<Option<u8>, Wrong>
    ensures { IfOk result (λ first. Free cube.now first) }
{
    let mut reach = Reach {
        seen: [0; 16],
        list: [0; 256],
        end: 0,
        first: None,
    };
    reach.list_pair(0, least(cubes::starts::starts(block, facts, cube)));
    for h in 0..256 {
        if h >= reach.end {
            break;
        }
        let z = reach.list[h];
        reach.walk_pair(block, facts, cube, z)?;
    }
    Ok(reach.first)
}

// The first unsettled suspect on the walk of the settled part, the waking state before all; nothing if there is none, or if a wrong
// output is in reach: then a witness is kept.
pub fn meet(
    block: &Block,
    facts: &Facts,
    p: &[u8; 32],
    settled: u32,
    notes: &mut [u16],
) -> Option<u8>
    ensures { Meets settled notes.old notes.new result }
{
    let mut cube = [ANY; 32];
    exact(p, settled, &mut cube);
    let waking = unsettled(&cube, site(block, WAKING));
    if waking.is_some() {
        return waking;
    }
    match walk(block, facts, &cube) {
        Ok(first) => first,
        Err(wrong) => {
            keep(block, p, settled, wrong, notes);
            None
        }
    }
}
