// The mutants in dictionary order, from one survivor to the next, while the test suite grows.
// Promises that the next survivor is the first, or that there is none.
// Called by `making`, which shows what its functions require.

#![tactic(auto)]

mod turn;

ghost use Rattle.std.specs.Prelude.{◌≡◌, true, ◌*◌, ◌≤◌, length, IsErr};
ghost use Rattle.sheet.specs.Sheet.{Sheet};
ghost use Rattle.block.specs.Layout.{states_of};
ghost use Rattle.cubes.specs.declared.goal.Goal.TheVariants.{Nonconforming};
ghost use Rattle.refutation.specs.Lent.{StoreOk};
ghost use Rattle.refutation.specs.Refuting.{Ready};
ghost use Rattle.search.specs.Search.{ForSheet};
ghost use Rattle.clearing.specs.Sweep.{Swept};
ghost use Rattle.sweep.specs.Outcomes.{OutcomeOk};

use block::Block;
use clearing::advance;
use cubes::tables::Facts;
use pool::Steering;
use refutation::Entry;
use search::GaveUp;
use turn::{Turned, turn};

// From the mutant p on to the first survivor, if one is left: the length of its distinguishing sequence, which is written at the buffer's
// front. With an empty store it may give up. Questions are asked if the facts are ready for them. Each turn leads to a later mutant.
pub fn next_survivor(
    block: &Block,
    facts: &Facts,
    ready: bool,
    log: &[u8],
    store: &mut [Entry],
    notes: &mut [u16],
    steering: &mut Steering,
    p: &mut [u16; 32],
    blame: &mut [u32; 32],
    sequence: &mut [u8],
) -> Result<Option<usize>, GaveUp>
    requires block_in_bounds { ((sh : Sheet) × ForSheet sh block.now log.now × Swept sh block.now p.old blame.old) × (states_of block.now * states_of block.now ≤ length sequence.old) }
    requires ready { (ready ≡ true → Ready block.now facts.now) × StoreOk Nonconforming block.now log.now store.old }
    ensures outcome_ok { (sh : Sheet) → ForSheet sh block.now log.now → Swept sh block.now p.old blame.old → OutcomeOk sh block.now result p.new blame.new sequence.new }
    ensures store_ok { StoreOk Nonconforming block.now log.now store.new × (IsErr result → length store.old ≡ 0) }
{
    loop {
        let Ok(turned) = turn(
            block, facts, ready, log, store, notes, steering, p, sequence,
        ) else {
            return Err(GaveUp);
        };
        match turned {
            Turned::Survives(d) => return Ok(Some(d)),
            Turned::Cleared(clearing) => {
                if !advance(block, p, blame, clearing) {
                    return Ok(None);
                }
            }
        }
    }
}
