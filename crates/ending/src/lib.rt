// END: nothing may follow it, every state is reached, at most 32 pairs are open (where a mutant wakes counts as one).
// Promises, of what was read before, how the reading ends: the number of open pairs, or a refusal's number and place.
// Called by `commands`; `reading` counts the choices of a pair without a rule by it.

#![tactic(auto)]

ghost use Rattle.std.specs.Prelude.{◌≡◌, Bool, ◌||◌, ◌&&◌, cond, List, ℕ, ◌*◌, ◌<◌, ◌≤◌, length};
ghost use Rattle.lists.specs.Lists.{any, all, count};
ghost use Rattle.sheet.specs.Sheet.{Sheet, leads, all_reached, is_open, waking_slots, open_slots};
ghost use Rattle.sheet.specs.Reading.{finishing};
ghost use Rattle.sheet.specs.words.Tabled.{Within16, Leads, StartsHold};
ghost use Rattle.ending.specs.words.Ending.{Marks, Follows, Linked, Gathered, end_of};

use sheet::{Refusal, Row, Size};

// How many choices may make up a mutant.
const MOST: usize = 32;

// How many choices a pair without a rule has.
pub fn unruled_choices(size: Size, quiet: bool) -> u16
    requires { Within16 size }
    ensures { result ≡ cond quiet 1 (size.outputs * size.states) }
{
    if quiet {
        return 1;
    }
    u16::from(size.outputs) * u16::from(size.states)
}

// `unruled` says whether a pair without a rule is open.
fn is_open(unruled: bool, target: &[u8; 256], faulty: &[u8; 256], s: usize, x: usize) -> bool
    requires { (s < 16) × (x < 16) }
    ensures { (sh : Sheet) → Linked unruled target.now faulty.now sh → result ≡ is_open sh s x }
{
    let p = s * 16 + x;
    if target[p] < 16 {
        faulty[p] == 1
    } else {
        unruled
    }
}

// The number of open pairs at a state.
fn open_at(size: Size, unruled: bool, target: &[u8; 256], faulty: &[u8; 256], s: usize) -> usize
    requires { Within16 size × (s < 16) }
    ensures few { result ≤ 16 }
    ensures counted { (sh : Sheet) → size ≡ sh.size → Linked unruled target.now faulty.now sh
        → result ≡ count (is_open sh s) sh.size.inputs }
{
    let mut n = 0;
    for x in 0..usize::from(size.inputs) {
        if is_open(unruled, target, faulty, s, x) {
            n += 1;
        }
    }
    n
}

// Is there a choice where a mutant wakes? 1 if there is: it counts as an open pair.
fn waking_slots(starts: usize) -> usize
    ensures few { result ≤ 1 }
    ensures counted { (sh : Sheet) → StartsHold starts sh.starts → result ≡ waking_slots sh }
{
    if starts == 0 { 0 } else { 1 }
}

// How many choices make up a mutant: where it wakes, and the open pairs.
fn open_slots(
    size: Size,
    starts: usize,
    quiet: bool,
    target: &[u8; 256],
    faulty: &[u8; 256],
) -> usize
    requires { Within16 size }
    ensures { (sh : Sheet) → Gathered size starts quiet target.now faulty.now sh → result ≡ open_slots sh }
{
    let unruled = 1 < unruled_choices(size, quiet);
    let mut n = waking_slots(starts);
    for s in 0..usize::from(size.states) {
        n += open_at(size, unruled, target, faulty, s);
    }
    n
}

// Marks the states that a rule at s leads to.
fn spread(size: Size, target: &[u8; 256], s: usize, seen: &mut [bool; 16])
    requires { Within16 size × (s < 16) }
    ensures { (rules : List Row) (g : ℕ → Bool) → Leads target.now rules → Marks seen.old g
        → Marks seen.new (λ t. g t || any (λ x. leads rules s x t) size.inputs) }
{
    for x in 0..usize::from(size.inputs) {
        let t = target[s * 16 + x];
        if t < 16 {
            seen[usize::from(t)] = true;
        }
    }
}

// The states seen, and those that a rule at one of them leads to. States done are passed over: where their rules lead is seen.
fn round(size: Size, target: &[u8; 256], done: &[bool; 16], seen: &[bool; 16]) -> [bool; 16]
    requires { Within16 size }
    ensures { (rules : List Row) (f g : ℕ → Bool) → Leads target.now rules → Marks done.now f → Marks seen.now g
        → Follows size rules f g
        → Marks result (λ t. g t || any (λ s. g s && any (λ x. leads rules s x t) size.inputs) size.states) }
{
    let mut next = *seen;
    for s in 0..usize::from(size.states) {
        if seen[s] && !done[s] {
            spread(size, target, s, &mut next);
        }
    }
    next
}

// Are the first n marked?
fn all_marked(n: u8, seen: &[bool; 16]) -> bool
    requires { n ≤ 16 }
    ensures { (g : ℕ → Bool) → Marks seen.now g → result ≡ all g n }
{
    seen[..usize::from(n)].iter().all(|mark| *mark)
}

// Is every state reached from 0? One round for each state at most: they end once all are seen.
fn all_reached(size: Size, target: &[u8; 256]) -> bool
    requires { Within16 size }
    ensures { (sh : Sheet) → size ≡ sh.size → Leads target.now sh.rules → result ≡ all_reached sh }
{
    let mut done = [false; 16];
    let mut seen = [false; 16];
    seen[0] = true;
    for _ in 0..size.states {
        if all_marked(size.states, &seen) {
            return true;
        }
        let more = round(size, target, &done, &seen);
        done = seen;
        seen = more;
    }
    all_marked(size.states, &seen)
}

// END at a place: how many choices make up a mutant; refused with 10 a byte follows, 11 a state is not reached, 12 over 32 open pairs. `starts` is 0 where there is no START.
// stays: `starts` a number and `faulty` bytes, 1 where there is a fault: a parameter of `finish`, which docs/ARCHITECTURE.md names, takes no narrower type.
pub fn finish(
    sheet: &[u8],
    at: usize,
    size: Size,
    starts: usize,
    quiet: bool,
    target: &[u8; 256],
    faulty: &[u8; 256],
) -> Result<usize, Refusal>
    requires { (at < length sheet.now) × Within16 size }
    ensures { (sh : Sheet) → Gathered size starts quiet target.now faulty.now sh
        → result ≡ end_of (finishing sh sheet.now at) }
{
    if at + 1 < sheet.len() {
        return Err(Refusal::new(10, at + 1));
    }
    if !all_reached(size, target) {
        return Err(Refusal::new(11, at));
    }
    let slots = open_slots(size, starts, quiet, target, faulty);
    if slots > MOST {
        return Err(Refusal::new(12, at));
    }
    Ok(slots)
}
