// The pairs in ascending order: each draws its rule and perhaps a fault, which go into tables of four bytes a row.
ghost use Rattle.std.specs.Prelude.{◌≡◌, ◌+◌, ◌*◌, ◌/◌, ◌%◌, ◌<◌, ◌≤◌, length, if◌then◌else◌, nat_eq};
ghost use Rattle.lists.specs.Lists.{joined};
ghost use Rattle.sheet.specs.Sheet.{row_of};
ghost use Rattle.sheet.specs.WellFormed.{SizeIn};
ghost use Rattle.writing.specs.words.Spelled.{Spelled};
ghost use Rattle.generator.specs.Generating.{third, drafted};
ghost use Rattle.generator.specs.words.Standing.{pair_from, faults_of, Ready, PairPut, Standing};

use crate::draw::Draws;
use sheet::{Row, Size};
use writing::spell;

// What a pair draws: its rule, and a number below 8.
#[derive(Clone, Copy)]
struct Pair {
    rule: Row,
    lot: u8,
}

// How many pairs there are.
pub(crate) fn pairs_of(size: Size) -> usize
    requires { SizeIn size }
    ensures { result ≡ size.states * size.inputs }
{
    usize::from(size.states) * usize::from(size.inputs)
}

// Where the rule of s and x leads: for input 0 to the next state, in place of the one drawn.
fn target_of(size: Size, s: u8, x: u8, number: u8) -> u8
    requires size_in { SizeIn size }
    requires s_lt_states { s < size.states }
    ensures { result ≡ (if nat_eq x 0 then (s + 1) % size.states else number) }
{
    if x == 0 {
        (s + 1) % size.states
    } else {
        number
    }
}

fn draw_pair(draws: &mut Draws, size: Size, s: u8, x: u8) -> Pair
    requires size_in { SizeIn size }
    requires s_lt_states { s < size.states }
    ensures pair { result ≡ pair_from size draws.old.seed s x }
    ensures seed { draws.new.seed ≡ third draws.old.seed }
{
    let output = draws.below(size.outputs);
    let state = draws.below(size.states);
    let lot = draws.below(8);
    let rule = Row {
        source: s,
        input: x,
        output,
        target: target_of(size, s, x, state),
    };
    Pair { rule, lot }
}

fn put(row: Row, table: &mut [u8], at: usize)
    requires { at + 4 ≤ length table.old }
    ensures { Spelled table.old table.new at (at + 4) (row_of row) }
{
    let bytes = [row.source, row.input, row.output, row.target];
    spell::bytes(&bytes, table, at);
}

// The fault of the pair's rule, where it gets one; how many stand then.
fn put_fault(size: Size, pair: Pair, table: &mut [u8], standing: usize) -> usize
    requires size_in { SizeIn size }
    requires output_lt_outputs { pair.rule.output < size.outputs }
    requires in_bounds { 128 ≤ length table.old }
    requires standing_bound { standing ≤ 32 }
    ensures { Spelled table.old table.new (4 * standing) (4 * result) (joined row_of (faults_of size pair.rule pair.lot standing)) }
{
    if pair.lot != 0 {
        return standing;
    }
    if size.outputs < 2 {
        return standing;
    }
    if standing >= 32 {
        return standing;
    }
    let fault = Row {
        output: (pair.rule.output + 1) % size.outputs,
        ..pair.rule
    };
    put(fault, table, 4 * standing);
    standing + 1
}

// Pair i: its rule, and its fault if it gets one; how many faults stand then.
fn put_pair(
    size: Size,
    i: usize,
    draws: &mut Draws,
    rules: &mut [u8],
    faults: &mut [u8],
    standing: usize,
) -> usize
    requires ready { Ready size rules.old faults.old }
    requires i_bound { i < size.states * size.inputs }
    requires faults_bound { standing ≤ 32 }
    ensures seed { draws.new.seed ≡ third draws.old.seed }
    ensures put { PairPut size i draws.old.seed standing result rules.old rules.new faults.old faults.new }
{
    let inputs = usize::from(size.inputs);
    let s = (i / inputs) as u8;
    let x = (i % inputs) as u8;
    let pair = draw_pair(draws, size, s, x);
    put(pair.rule, rules, 4 * i);
    put_fault(size, pair, faults, standing)
}

// All pairs; how many faults stand.
pub(crate) fn put_pairs(seed: u32, size: Size, rules: &mut [u8], faults: &mut [u8]) -> usize
    requires { Ready size rules.old faults.old }
    ensures { Standing (drafted size seed (size.states * size.inputs)) (size.states * size.inputs) result rules.old rules.new faults.old faults.new }
{
    let mut draws = Draws { seed };
    let mut standing = 0;
    for i in 0..pairs_of(size) {
        standing = put_pair(size, i, &mut draws, rules, faults, standing);
    }
    standing
}
