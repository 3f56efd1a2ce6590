// The first wanted mutant of all, written to the buffers.
ghost use Rattle.std.specs.Prelude.{◌≡◌, replicate, if◌then◌else◌};
ghost use Rattle.sheet.specs.Sheet.{Sheet};
ghost use Rattle.block.specs.Logged.{observations};
ghost use Rattle.block.specs.Tabled.{Tabled};
ghost use Rattle.search.specs.Search.{Leaving, Finds, part_from, Decides, Given};
ghost use Rattle.search.specs.Shown.{Room, Leaves};

use crate::check::show;
use crate::settle::{Beginning, GaveUp, begin};
use block::*;
use cubes::goal::Goal;
use cubes::tables::{FACTS, Facts};
use leaves::*;
use machine::Difference;
use refutation::{MANY, fresh_store};

fn no_facts() -> Facts
    ensures { result ≡ replicate 1088 0 }
{
    [0u16; FACTS]
}

// How many tables of facts a thorough attempt has: none where they are not ready.
fn how_many(ready: bool) -> usize
    ensures { result ≡ (if ready then 1 else 0) }
{
    if ready { 1 } else { 0 }
}

// The notes of a quick attempt, and of a thorough one.
fn short_notes() -> [u16; SHORT] {
    [0u16; SHORT]
}

fn long_notes() -> [u16; LONG] {
    [0u16; LONG]
}

// The first wanted mutant by a search with a store of refutations, which never gives up.
fn find_thoroughly(
    block: &Block,
    log: &[u8],
    goal: Goal,
    from: Beginning,
    nodes: &mut u32,
) -> Option<[u16; 32]>
    requires { (sh : Sheet) × Leaving sh block.now from }
    ensures { (sh : Sheet) → Leaving sh block.now from.entry → Finds goal sh (observations log.now) (part_from from.entry) result }
{
    let mut facts = [no_facts()];
    let ready = refutation::prepare(block, log, &mut facts[0]);
    let n = how_many(ready);
    let mut store = fresh_store::<MANY>();
    let mut notes = long_notes();
    let found = begin(block, &facts[..n], log, goal, &mut store, &mut notes, from);
    *nodes = std::num::wrapping_add_u32(*nodes, leaves::nodes(&notes));
    found.unwrap()
}

// The same; first by a quick search, which needs no facts, keeps no refutations and may give up. It tells nothing of a log with something
// before its first reset.
fn find(
    block: &Block,
    log: &[u8],
    goal: Goal,
    from: Beginning,
    nodes: &mut u32,
) -> Option<[u16; 32]>
    requires { (sh : Sheet) × Leaving sh block.now from }
    ensures { (sh : Sheet) → Leaving sh block.now from.entry → Finds goal sh (observations log.now) (part_from from.entry) result }
{
    *nodes = 0;
    if !walks::begins(log) {
        return find_thoroughly(block, log, goal, from, nodes);
    }
    let facts: [Facts; 0] = [];
    let mut store = fresh_store::<0>();
    let mut notes = short_notes();
    let quick = begin(block, &facts, log, goal, &mut store, &mut notes, from);
    *nodes = leaves::nodes(&notes);
    match quick {
        Ok(found) => found,
        Err(GaveUp) => find_thoroughly(block, log, goal, from, nodes),
    }
}

// The first mutant in dictionary order, from a beginning on, that gives the log and meets the goal, if there is one, with what tells it from
// the specification, at the buffers' fronts; and how many nodes the engine looked at, which is free.
pub fn first(
    block: &Block,
    log: &[u8],
    goal: Goal,
    from: Beginning,
    board: &mut [u8],
    sequence: &mut [u8],
    nodes: &mut u32,
) -> Option<Difference>
    requires { ((sh : Sheet) × Leaving sh block.now from) × Room block.now board.old sequence.old }
    ensures { (sh : Sheet) → Leaving sh block.now from.entry → Leaves goal sh (observations log.now) (part_from from.entry) result board.old board.new sequence.old sequence.new }
{
    let choices = find(block, log, goal, from, nodes)?;
    Some(show(block, &choices, board, sequence))
}

// Whether some mutant gives the log; and how many nodes the engine looked at, which is free.
pub fn exists(block: &Block, log: &[u8], nodes: &mut u32) -> bool
    requires { (sh : Sheet) × Tabled sh block.now }
    ensures { (sh : Sheet) → Tabled sh block.now → Decides (Given sh (observations log.now)) result }
{
    find(block, log, Goal::Any, Beginning::Front, nodes).is_some()
}
