// A wide cube all of whose mutants may fail a test.
ghost use Rattle.std.specs.Prelude.{◌<◌, ◌≤◌};
ghost use Rattle.leaves.specs.Members.{Literals};
ghost use Rattle.cursors.specs.Steering.{SpeaksOf, Narrowed};

use crate::observed::{observed, test_at};
use crate::progress::{begun, met};
use block::*;
use cubes::literals::Cube;
use cubes::tables::Facts;
use cubes::words::shared;
use leaves::*;

// How many inputs follow a reset.
fn length_of(log: &[u8], from: usize) -> usize
    requires { from ≤ 4294967296 }
    ensures { result ≤ 256 }
{
    for l in 0..256 {
        if observed(log, from + 3 * l) >= 256 {
            return l;
        }
    }
    256
}

// The states to which a mutant of the cube can go at a pair, or after a reset, if it gives the output o.
fn arrive(block: &Block, facts: &Facts, cube: &Cube, k: usize, o: u8) -> u16
    requires { (k < 257) × (o < 16) }
{
    let i = site(block, k);
    if i < 32 {
        return cubes::literals::going(facts, cube[wide(i)], i, o);
    }
    let step = lone(block, k);
    if step / 16 != o {
        return 0;
    }
    with(0, step)
}

// The states in which an observation fails every mutant of the cube at once, or leads into `bad` only.
fn backward(block: &Block, facts: &Facts, cube: &Cube, bad: u16, v: u16) -> u16 {
    let end = states(block);
    let mut set: u16 = 0;
    for s in 0..end {
        let go = arrive(block, facts, cube, some_place(s, input_of(v)), output_of(v));
        if less(go, bad) == 0 {
            set = with(set, s);
        }
    }
    set
}

// By place of a test the states from which every mutant of the cube fails it, the last place first.
fn fill_bad(
    block: &Block,
    facts: &Facts,
    cube: &Cube,
    log: &[u8],
    from: usize,
    length: usize,
    bad: &mut [u16; 257],
)
    requires { (from ≤ 4294967296) × (length ≤ 256) }
{
    for l in (0..length).rev() {
        bad[l] = backward(block, facts, cube, bad[l + 1], observed(log, from + 3 * l));
    }
}

// What a suspect is narrowed to, so that it gives its own wrong output, or leads where it may.
fn narrowed(facts: &Facts, own: u8, i: u8, o: u8, into: u16) -> u32
    ensures { result < 1048576 }
{
    if own == o {
        return literal(o, into);
    }
    literal(own, facts[cell(i, own)])
}

// The output that a literal means.
fn own_output(l: u32) -> u8 {
    (l / 65536 % 16) as u8
}

// A pair with an observed output: where the cube leads; 65536 where it left the states that are bad after it, and was narrowed. Only
// what the base settles is narrowed.
fn narrow_step(
    block: &Block,
    facts: &Facts,
    base: &Cube,
    cube: &mut Cube,
    k: usize,
    o: u8,
    bad: u16,
) -> u32
    requires { (k < 257) × (o < 16) }
    ensures { Narrowed base.now cube.old cube.new }
{
    let go = arrive(block, facts, cube, k, o);
    let i = site(block, k);
    if i >= 32 {
        return wide32(go);
    }
    let l = base[wide(i)];
    if l == ANY {
        return wide32(go);
    }
    if less(go, bad) == 0 {
        return wide32(go);
    }
    cube[wide(i)] = narrowed(facts, own_output(l), i, o, shared(go, bad));
    65536
}

// The same from each of a set of states.
fn narrow_states(
    block: &Block,
    facts: &Facts,
    base: &Cube,
    cube: &mut Cube,
    set: u16,
    v: u16,
    bad: u16,
) -> u32
    ensures { Narrowed base.now cube.old cube.new }
{
    let mut next: u32 = 0;
    for s in members(set) {
        let k = some_place(s, input_of(v));
        next |= narrow_step(block, facts, base, cube, k, output_of(v), bad);
    }
    next
}

// The test from its reset up to where the cube is narrowed. True if it was.
fn narrow_once(
    block: &Block,
    facts: &Facts,
    base: &Cube,
    cube: &mut Cube,
    log: &[u8],
    from: usize,
    bad: &[u16; 257],
    length: usize,
) -> bool
    requires { (from ≤ 4294967296) × (length ≤ 256) }
    ensures { Narrowed base.now cube.old cube.new }
{
    let mut next = narrow_step(block, facts, base, cube, WAKING, 0, bad[0]);
    for l in 0..length {
        if next >= 65536 {
            return true;
        }
        if next == 0 {
            return false;
        }
        let v = observed(log, from + 3 * l);
        next = narrow_states(block, facts, base, cube, next as u16, v, bad[l + 1]);
    }
    next >= 65536
}

// Narrows the cube until nothing is left to narrow.
fn narrow_all(
    block: &Block,
    facts: &Facts,
    base: &Cube,
    cube: &mut Cube,
    log: &[u8],
    from: usize,
    bad: &[u16; 257],
    length: usize,
)
    requires { (from ≤ 4294967296) × (length ≤ 256) }
    ensures { Narrowed base.now cube.old cube.new }
{
    for rounds in 0..600u16 {
        if !narrow_once(block, facts, base, cube, log, from, bad, length) {
            return;
        }
    }
}

// A wide cube around the settled part all of whose mutants fail a test: it speaks only of suspects that the test meets.
pub fn propose_fail(
    block: &Block,
    facts: &Facts,
    log: &[u8],
    p: &[u8; 32],
    settled: u32,
    t: usize,
    cube: &mut Cube,
)
    ensures { Literals cube.new × SpeaksOf settled cube.new }
{
    let mut base = [0u32; 32];
    let mut bad = [0u16; 257];
    let used = met(block, log, p, settled, begun(facts, t));
    exact(p, used, &mut base);
    let from = test_at(facts, t) + 1;
    let length = length_of(log, from);
    fill_bad(block, facts, &base, log, from, length, &mut bad);
    exact(p, 0, cube);
    narrow_all(block, facts, &base, cube, log, from, &bad, length);
}
