// One turn of a sweep: what clears a mutant, and others like it.
ghost use Rattle.std.specs.Prelude.{◌≡◌, true, ◌*◌, ◌≤◌, length, IsErr};
ghost use Rattle.sheet.specs.Sheet.{Sheet};
ghost use Rattle.block.specs.Layout.{states_of};
ghost use Rattle.block.specs.Tabulated.{Wf};
ghost use Rattle.cubes.specs.Cube.{Extends};
ghost use Rattle.cubes.specs.declared.goal.Goal.TheVariants.{Nonconforming};
ghost use Rattle.refutation.specs.Lent.{StoreOk};
ghost use Rattle.refutation.specs.Refuting.{Ready};
ghost use Rattle.search.specs.Search.{ForSheet};
ghost use Rattle.clearing.specs.Sweep.{Full};
ghost use Rattle.sweep.specs.Turning.{AskedOk, ConformedOk, TurnedOk, TurnOk};

use block::{Block, slots};
use clearing::{Clearing, Looked, by_conforming, choices_at, cleared_by, look};
use cubes::goal::Goal;
use cubes::tables::Facts;
use pool::Steering;
use refutation::{Entry, Question, told_from};
use search::GaveUp;

// The first n choices of p, the others unsettled.
fn prefix(p: &[u16; 32], n: usize) -> [u16; 32]
    requires { length p.now ≡ 32 }
    ensures { Extends p.now result }
{
    let mut q = *p;
    q[n.min(32)..].fill(256);
    q
}

// Asks whether a mutant with the first n choices of p survives.
fn ask(
    block: &Block,
    facts: &Facts,
    log: &[u8],
    store: &mut [Entry],
    notes: &mut [u16],
    p: &[u16; 32],
    n: usize,
) -> Option<Clearing>
    requires { Ready block.now facts.now × StoreOk Nonconforming block.now log.now store.old × Full block.now p.now }
    ensures { StoreOk Nonconforming block.now log.now store.new × AskedOk block.now log.now p.now result }
{
    let q = prefix(p, n);
    let question = Question {
        block,
        facts,
        log,
        goal: Goal::Nonconforming,
    };
    let cube = told_from(&question, store, notes, &q)?;
    Some(cleared_by(block, &cube, p))
}

// Asks of p's first choices, more of them than a survivor has.
fn ask_on(
    block: &Block,
    facts: &Facts,
    log: &[u8],
    store: &mut [Entry],
    notes: &mut [u16],
    steering: &mut Steering,
    p: &[u16; 32],
) -> Option<Clearing>
    requires { Ready block.now facts.now × StoreOk Nonconforming block.now log.now store.old × Full block.now p.now }
    ensures { StoreOk Nonconforming block.now log.now store.new × AskedOk block.now log.now p.now result }
{
    let n = usize::from(slots(block) % 33);
    let known = steering.most_agreed(p, n);
    if known > n {
        return None;
    }
    let at = steering.depth(known, n);
    let asked = ask(block, facts, log, store, notes, p, at);
    if asked.is_some() {
        steering.answered(at);
    } else {
        steering.keep(notes);
        steering.unanswered(at);
    }
    asked
}

// A question of all choices of p, if the facts are ready for it and a mutant conformed before: its answer clears more than the
// slots by which p conforms.
fn ask_conforming(
    block: &Block,
    facts: &Facts,
    ready: bool,
    log: &[u8],
    store: &mut [Entry],
    notes: &mut [u16],
    steering: &mut Steering,
    p: &[u16; 32],
) -> Option<Clearing>
    requires { (ready ≡ true → Ready block.now facts.now) × StoreOk Nonconforming block.now log.now store.old × Full block.now p.now }
    ensures { StoreOk Nonconforming block.now log.now store.new × AskedOk block.now log.now p.now result }
{
    if !steering.again() || !ready {
        return None;
    }
    ask(block, facts, log, store, notes, p, 32)
}

// What clears p, which conforms, and others like it.
fn conformed(
    block: &Block,
    facts: &Facts,
    ready: bool,
    log: &[u8],
    store: &mut [Entry],
    notes: &mut [u16],
    steering: &mut Steering,
    p: &[u16; 32],
) -> Clearing
    requires { Wf block.now × (ready ≡ true → Ready block.now facts.now) × StoreOk Nonconforming block.now log.now store.old × Full block.now p.now }
    ensures { StoreOk Nonconforming block.now log.now store.new × ConformedOk block.now log.now p.now result }
{
    match ask_conforming(block, facts, ready, log, store, notes, steering, p) {
        Some(clearing) => clearing,
        None => choices_at(p, by_conforming(block, p)),
    }
}

// A turn clears p and others like it, or finds that p survives, told from the specification by a sequence of this length.
#[derive(Clone, Copy)]
pub(crate) enum Turned {
    Cleared(Clearing),
    Survives(usize),
}

// A look at p.
fn take_look(
    block: &Block,
    facts: &Facts,
    ready: bool,
    log: &[u8],
    store: &mut [Entry],
    notes: &mut [u16],
    steering: &mut Steering,
    p: &[u16; 32],
    sequence: &mut [u8],
) -> Turned
    requires full { ((sh : Sheet) × ForSheet sh block.now log.now) × Full block.now p.now }
    requires block_in_bounds { states_of block.now * states_of block.now ≤ length sequence.old }
    requires ready { (ready ≡ true → Ready block.now facts.now) × StoreOk Nonconforming block.now log.now store.old }
    ensures turned_ok { (sh : Sheet) → ForSheet sh block.now log.now → TurnedOk sh p.now result sequence.new }
    ensures store_ok { StoreOk Nonconforming block.now log.now store.new }
{
    match look(block, facts, log, p, sequence) {
        Looked::Survives(d) => Turned::Survives(d),
        Looked::Fails(by) => {
            steering.spend(1);
            Turned::Cleared(choices_at(p, by))
        }
        Looked::Conforms => {
            steering.spend(4);
            Turned::Cleared(conformed(block, facts, ready, log, store, notes, steering, p))
        }
    }
}

// While there is something to spend a look at p; else a question, if the facts are ready for it, and a look where it says nothing.
// With an empty store it gives up instead.
pub(crate) fn turn(
    block: &Block,
    facts: &Facts,
    ready: bool,
    log: &[u8],
    store: &mut [Entry],
    notes: &mut [u16],
    steering: &mut Steering,
    p: &[u16; 32],
    sequence: &mut [u8],
) -> Result<Turned, GaveUp>
    requires full { ((sh : Sheet) × ForSheet sh block.now log.now) × Full block.now p.now }
    requires block_in_bounds { states_of block.now * states_of block.now ≤ length sequence.old }
    requires ready { (ready ≡ true → Ready block.now facts.now) × StoreOk Nonconforming block.now log.now store.old }
    ensures turned_ok { (sh : Sheet) → ForSheet sh block.now log.now → TurnOk sh p.now result sequence.new }
    ensures store_ok { StoreOk Nonconforming block.now log.now store.new × (IsErr result → length store.old ≡ 0) }
{
    if !steering.affords() {
        if store.len() == 0 {
            return Err(GaveUp);
        }
        if ready {
            if let Some(clearing) = ask_on(block, facts, log, store, notes, steering, p) {
                return Ok(Turned::Cleared(clearing));
            }
        }
    }
    Ok(take_look(
        block, facts, ready, log, store, notes, steering, p, sequence,
    ))
}
