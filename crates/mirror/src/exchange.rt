// Which states can be exchanged: with them exchanged every mutant is another mutant, with the same outputs.
ghost use Rattle.std.specs.Prelude.{◌≡◌, true, List, ℕ, ◌<◌, ◌%◌, length};
ghost use Rattle.block.specs.Layout.{rule_target, site_at, states_of};
ghost use Rattle.block.specs.Tabulated.{Wf, choices_at};
ghost use Rattle.cubes.specs.Cube.{Given};
ghost use Rattle.mirror.specs.Mirror.{other, Each, Below, OffersStep, Answered, Exchanges, RowExchanges, Movable, FixedOk, Exchangeable, Partnered, Exchanged};

use block::*;
use cubes::literals::ANY;
use cubes::tables::{EXCHANGES, Facts};
use cubes::words::{holds, one, union};

// The state s, with a and b exchanged.
fn other(s: u8, a: u8, b: u8) -> u8
    ensures { result ≡ other a b s }
{
    if s == a {
        return b;
    }
    if s == b {
        return a;
    }
    s
}

// How many choices a pair has.
fn choices_at(block: &Block, k: usize) -> u16
    requires { Wf block.now × (k < 257) }
    ensures { result ≡ choices_at block.now k }
{
    let i = site(block, k);
    if i == 255 {
        return 1;
    }
    choices(block, i)
}

// Whether choice d of the pair j is the transition.
fn is_choice(block: &Block, j: usize, d: u16, o: u8, t: u8) -> bool
    requires { Wf block.now × (j < 256) × (d < choices_at block.now j) }
    ensures { result ≡ true → OffersStep block.now j o t }
{
    let step = transition(block, j, d);
    if step.output != o {
        return false;
    }
    step.target == t
}

// A choice of `end`: d, or the first where there is no such one.
fn clipped(d: u16, end: u16) -> u16
    ensures { 0 < end → result < end }
{
    if d < end { d } else { 0 }
}

// Whether a choice of the pair j is the transition. They are tried in a circle from `first` on.
fn offered(block: &Block, j: usize, o: u8, t: u8, first: u16) -> bool
    requires { Wf block.now × (j < 256) }
    ensures { result ≡ true → OffersStep block.now j o t }
{
    let end = choices_at(block, j);
    let mut d = clipped(first, end);
    for tries in 0..end {
        if is_choice(block, j, d, o, t) {
            return true;
        }
        d = clipped(d + 1, end);
    }
    false
}

// Shortly before the choice that differs from choice c in its next state alone, where choices stand in their order.
fn near(c: u16, target: u8, image: u8) -> u16 {
    if c >= 1024 {
        return 0;
    }
    (c + u16::from(image)).saturating_sub(u16::from(target) + 1)
}

// Whether choice c of the pair k, exchanged, is one of the pair j.
fn answered(block: &Block, k: usize, j: usize, a: u8, b: u8, c: u16) -> bool
    requires { Wf block.now × (k < 256) × (j < 256) × (c < choices_at block.now k) }
    ensures { result ≡ true → Answered block.now a b k j c }
{
    let step = transition(block, k, c);
    let image = other(step.target, a, b);
    offered(block, j, step.output, image, near(c, step.target, image))
}

// Whether this holds of every choice of the pair k.
fn all_answered(block: &Block, k: usize, j: usize, a: u8, b: u8) -> bool
    requires { Wf block.now × (k < 256) × (j < 256) }
    ensures { result ≡ true → Exchanges block.now a b k j }
{
    let end = choices_at(block, k);
    for c in 0..end {
        if !answered(block, k, j, a, b, c) {
            return false;
        }
    }
    true
}

// The same of two suspects without a rule, which have every next state with each output.
fn unruled_alike(block: &Block, k: usize, j: usize) -> bool
    requires { Wf block.now × (k < 256) × (j < 256) }
    ensures { result ≡ true → (choices_at block.now k ≡ choices_at block.now j) × (choices_at block.now k % states_of block.now ≡ 0) }
{
    let c = choices_at(block, k);
    if c != choices_at(block, j) {
        return false;
    }
    c % u16::from(states(block)) == 0
}

// Whether a pair is a suspect without a rule.
fn is_free(block: &Block, k: usize) -> bool
    requires { k < 256 }
    ensures { result ≡ true → (rule_target block.now k ≡ 255) × (site_at block.now k ≡ 255 → ⊥) }
{
    if site(block, k) == 255 {
        return false;
    }
    rule_target(block, k) == 255
}

fn pair_exchanges(block: &Block, k: usize, j: usize, a: u8, b: u8) -> bool
    requires { Wf block.now × (k < 256) × (j < 256) × (a < states_of block.now) × (b < states_of block.now) }
    ensures { result ≡ true → Exchanges block.now a b k j }
{
    if !is_free(block, k) {
        return all_answered(block, k, j, a, b);
    }
    if !is_free(block, j) {
        return false;
    }
    unruled_alike(block, k, j)
}

// Every pair of the state s and its image.
fn row_exchanges(block: &Block, s: u8, a: u8, b: u8) -> bool
    requires { Wf block.now × (s < states_of block.now) × (a < states_of block.now) × (b < states_of block.now) }
    ensures { result ≡ true → RowExchanges block.now a b s }
{
    let q = other(s, a, b);
    let end = inputs(block);
    for x in 0..end {
        if !pair_exchanges(block, place(s, x), place(q, x), a, b) {
            return false;
        }
    }
    true
}

// Every pair and its image; those of a first, as most states differ there.
fn all_exchange(block: &Block, a: u8, b: u8) -> bool
    requires { Wf block.now × (a < states_of block.now) × (b < states_of block.now) }
    ensures { result ≡ true → Below (λ s. RowExchanges block.now a b s) (states_of block.now) }
{
    if !row_exchanges(block, a, a, b) {
        return false;
    }
    let end = states(block);
    for s in 0..end {
        if !row_exchanges(block, s, a, b) {
            return false;
        }
    }
    true
}

// The states that no exchange may move: where mutants start, and 0.
fn fixed(block: &Block, facts: &Facts) -> u16
    requires { Given block.now facts.now }
    ensures { FixedOk block.now result }
{
    let all = [ANY; 32];
    union(one(0), cubes::starts::starts(block, facts, &all))
}

// The state b, if it can be exchanged with a.
fn partner(block: &Block, fixed: u16, a: u8, b: u8) -> u16
    requires { Wf block.now × FixedOk block.now fixed × (a < states_of block.now) × (b < states_of block.now) × Movable block.now a }
    ensures { Each (λ t. Exchangeable block.now a t) result }
{
    if a == b {
        return 0;
    }
    if holds(fixed, b) {
        return 0;
    }
    if !all_exchange(block, a, b) {
        return 0;
    }
    one(b)
}

// The same of a state below a, as it stands in the facts.
fn known_partner(facts: &Facts, a: u8, b: u8) -> u16
    requires { (length facts.now ≡ 1088) × (a < 16) × (b < a) }
    ensures { (m : List ℕ) → Partnered m facts.now a → Each (λ t. Exchangeable m a t) result }
{
    let set = facts[EXCHANGES + wide(b)];
    if !holds(set, a) {
        return 0;
    }
    one(b)
}

// The same of any state.
fn partner_of(block: &Block, facts: &Facts, fixed: u16, a: u8, b: u8) -> u16
    requires wf { Wf block.now × FixedOk block.now fixed × (a < states_of block.now) × (b < states_of block.now) × Movable block.now a }
    requires facts_len { (length facts.now ≡ 1088) × Partnered block.now facts.now a }
    ensures { Each (λ t. Exchangeable block.now a t) result }
{
    if b < a {
        return known_partner(facts, a, b);
    }
    partner(block, fixed, a, b)
}

// The states that can be exchanged with a.
fn partners(block: &Block, facts: &Facts, fixed: u16, a: u8) -> u16
    requires wf { Wf block.now × FixedOk block.now fixed × (a < 16) }
    requires facts_len { (length facts.now ≡ 1088) × Partnered block.now facts.now a }
    ensures { Each (λ t. Exchangeable block.now a t) result }
{
    let end = states(block);
    if a >= end {
        return 0;
    }
    if holds(fixed, a) {
        return 0;
    }
    let mut set: u16 = 0;
    for b in 0..end {
        set = union(set, partner_of(block, facts, fixed, a, b));
    }
    set
}

// Fills in, by state a at 544 + a of the facts, the states that can be exchanged with it.
pub fn exchange_all(block: &Block, facts: &mut Facts)
    requires { Given block.now facts.old × (length facts.old ≡ 1088) }
    ensures { Exchanged block.now facts.old facts.new }
{
    let keep = fixed(block, facts);
    for a in 0..16 {
        let set = partners(block, facts, keep, a);
        facts[EXCHANGES + wide(a)] = set;
    }
}
