// The first wanted mutant in dictionary order: the slots are settled one after another.
ghost use Rattle.std.specs.Prelude.{◌≡◌, ◌<◌, ◌≤◌, length, IsErr};
ghost use Rattle.sheet.specs.Sheet.{Sheet};
ghost use Rattle.refutation.specs.Lent.{StoreOk};
ghost use Rattle.cubes.specs.Cube.{NoneIf};
ghost use Rattle.block.specs.Tabulated.{Wf};
ghost use Rattle.block.specs.Logged.{observations};
ghost use Rattle.block.specs.Layout.{slots_of};
ghost use Rattle.search.specs.Search.{FactsOk, next, after, Searching, Settled, Leaving, LeavingAfter, part_from, Answers};

use crate::check::wanted;
use block::*;
use cubes::goal::Goal;
use cubes::tables::Facts;
use refutation::{Entry, Question, none_from};

// Where a search begins: at the first mutant, or after one that is given.
#[derive(Clone, Copy)]
pub enum Beginning<'a> {
    Front,
    After(&'a [u8]),
}

// A quick search gave up: it is not known whether there is a wanted mutant.
#[derive(Clone, Copy, Debug)]
pub struct GaveUp;

// The choices of the first wanted mutant, if there is one.
type Attempt = Result<Option<[u16; 32]>, GaveUp>;

// Whether the prefix is refuted: without a store by walks along the log, with one by the facts, where there are any.
fn refuted(
    block: &Block,
    facts: &[Facts],
    log: &[u8],
    goal: Goal,
    store: &mut [Entry],
    notes: &mut [u16],
    p: &[u16; 32],
) -> bool
    requires { Wf block.now × FactsOk block.now facts.now × StoreOk goal block.now log.now store.old }
    ensures { NoneIf goal block.now log.now p.now result × StoreOk goal block.now log.now store.new }
{
    if store.len() == 0 {
        return walks::none_from(block, log, goal, notes, p);
    }
    if facts.len() == 0 {
        return false;
    }
    let question = Question {
        block,
        facts: &facts[0],
        log,
        goal,
    };
    none_from(&question, store, notes, p)
}

// The first wanted mutant of those that begin as p's first i choices. Without a store it gives up where its notes are spent.
#[cycle(search_search_from)]
pub(crate) fn search(
    block: &Block,
    facts: &[Facts],
    log: &[u8],
    goal: Goal,
    store: &mut [Entry],
    notes: &mut [u16],
    p: [u16; 32],
    i: usize,
) -> Attempt
    requires searching { (sh : Sheet) × Searching sh block.now p i }
    requires facts_ok { FactsOk block.now facts.now × StoreOk goal block.now log.now store.old }
    ensures answers { (sh : Sheet) → Searching sh block.now p i → Answers goal sh (observations log.now) (next p i 0) result }
    ensures store_ok { StoreOk goal block.now log.now store.new }
    ensures store_len { IsErr result → length store.old ≡ 0 }
{
    if refuted(block, facts, log, goal, store, notes, &p) {
        return Ok(None);
    }
    if i == usize::from(slots(block)) {
        return Ok(wanted(block, log, goal, &p).then_some(p));
    }
    if store.len() == 0 && walks::spent(notes) {
        return Err(GaveUp);
    }
    search_from(block, facts, log, goal, store, notes, p, i, 0)
}

// The first of those that have at least the choice `from` next. The number still unsettled falls from call to call.
#[cycle(search_search_from)]
fn search_from(
    block: &Block,
    facts: &[Facts],
    log: &[u8],
    goal: Goal,
    store: &mut [Entry],
    notes: &mut [u16],
    p: [u16; 32],
    i: usize,
    from: u16,
) -> Attempt
    requires i_bound { ((sh : Sheet) × Searching sh block.now p i) × (i < slots_of block.now) }
    requires facts_ok { FactsOk block.now facts.now × StoreOk goal block.now log.now store.old }
    ensures answers { (sh : Sheet) → Searching sh block.now p i → Answers goal sh (observations log.now) (next p i from) result }
    ensures store_ok { StoreOk goal block.now log.now store.new }
    ensures store_len { IsErr result → length store.old ≡ 0 }
{
    let end = choices(block, i as u8);
    for c in from..end {
        let mut q = p;
        q[i] = c;
        let tried = search(block, facts, log, goal, store, notes, q, i + 1)?;
        if tried.is_some() {
            return Ok(tried);
        }
    }
    Ok(None)
}

// The choices of a mutant, settled.
fn settled_as(last: &[u8]) -> [u16; 32]
    requires { length last.now ≤ 32 }
    ensures { Settled last.now result }
{
    let mut p = [256u16; 32];
    for (j, choice) in last.iter().enumerate() {
        p[j] = u16::from(*choice);
    }
    p
}

// The first wanted mutant after the one given: of those that have more and more of its choices no more.
fn search_after(
    block: &Block,
    facts: &[Facts],
    log: &[u8],
    goal: Goal,
    store: &mut [Entry],
    notes: &mut [u16],
    last: &[u8],
) -> Attempt
    requires leaving { (sh : Sheet) × LeavingAfter sh block.now last.now }
    requires facts_ok { FactsOk block.now facts.now × StoreOk goal block.now log.now store.old }
    ensures answers { (sh : Sheet) → LeavingAfter sh block.now last.now → Answers goal sh (observations log.now) (after last.now 0) result }
    ensures store_ok { StoreOk goal block.now log.now store.new }
    ensures store_len { IsErr result → length store.old ≡ 0 }
{
    let mut p = settled_as(last);
    for i in (0..last.len()).rev() {
        let c = p[i];
        p[i] = 256;
        let tried = search_from(block, facts, log, goal, store, notes, p, i, c + 1)?;
        if tried.is_some() {
            return Ok(tried);
        }
    }
    Ok(None)
}

// The first wanted mutant from a beginning on.
pub(crate) fn begin(
    block: &Block,
    facts: &[Facts],
    log: &[u8],
    goal: Goal,
    store: &mut [Entry],
    notes: &mut [u16],
    from: Beginning,
) -> Attempt
    requires leaving { (sh : Sheet) × Leaving sh block.now from }
    requires facts_ok { FactsOk block.now facts.now × StoreOk goal block.now log.now store.old }
    ensures answers { (sh : Sheet) → Leaving sh block.now from.entry → Answers goal sh (observations log.now) (part_from from.entry) result }
    ensures store_len { IsErr result → length store.old ≡ 0 }
{
    match from {
        Beginning::Front => search(block, facts, log, goal, store, notes, [256; 32], 0),
        Beginning::After(last) => search_after(block, facts, log, goal, store, notes, last),
    }
}
