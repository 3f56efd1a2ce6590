// What a cube without a mutant sought tells of the states that can be exchanged with the one in hand.
ghost use Rattle.std.specs.Prelude.{◌≡◌, true, ◌<◌, ◌/◌, ◌%◌, length, get_or};
ghost use Rattle.block.specs.Layout.{site_at};
ghost use Rattle.block.specs.Tabulated.{Wf};
ghost use Rattle.mirror.specs.Mirror.{Each, Exchangeable, SwapsOk};
ghost use Rattle.mirror.specs.Reflect.{Quiet, Silent, Blind, BlindBut, Mirrors, ReflectedOk};

use block::*;
use cubes::literals::{ANY, Cube, lit_next, literal, means};
use cubes::tables::{EXCHANGES, Facts};
use cubes::words::{Sets, holds, one, union};

// Whether the cube does not speak of the pair k.
fn quiet(block: &Block, cube: &Cube, k: usize) -> bool
    requires { Wf block.now × (k < 257) }
    ensures { result ≡ true → Quiet block.now cube.now k }
{
    let i = site(block, k);
    if i == 255 {
        return true;
    }
    cube[wide(i)] == ANY
}

// Nor of any pair of the state s.
fn silent(block: &Block, cube: &Cube, s: u8) -> bool
    requires { Wf block.now × (s < 16) }
    ensures { result ≡ true → Silent block.now cube.now s }
{
    let end = inputs(block);
    for x in 0..end {
        if !quiet(block, cube, place(s, x)) {
            return false;
        }
    }
    true
}

// Whether the literal does not tell the next states a and b apart.
fn blind(l: u32, a: u8, b: u8) -> bool
    requires { (a < 16) × (b < 16) }
    ensures { result ≡ true → Blind a b l }
{
    if l == ANY {
        return true;
    }
    let set = lit_next(l);
    holds(set, a) == holds(set, b)
}

// The same of the literal of j, unless it is i.
fn blind_at(cube: &Cube, i: u8, a: u8, b: u8, j: usize) -> bool
    requires { (a < 16) × (b < 16) × (j < 32) }
    ensures { result ≡ true → (j ≡ i → ⊥) → Blind a b (get_or cube.now j 0) }
{
    if j == wide(i) {
        return true;
    }
    blind(cube[j], a, b)
}

// Every literal but that of i.
fn blind_but(cube: &Cube, i: u8, a: u8, b: u8) -> bool
    requires { (a < 16) × (b < 16) }
    ensures { result ≡ true → BlindBut cube.now i a b }
{
    for j in 0..32 {
        if !blind_at(cube, i, a, b, j) {
            return false;
        }
    }
    true
}

// The state b, if it is in the set and the cube does not tell it from a.
fn image(block: &Block, cube: &Cube, i: u8, set: u16, a: u8, b: u8) -> u16
    requires { Wf block.now × Each (λ t. Exchangeable block.now a t) set × (a < 16) × (b < 16) }
    ensures { Each (λ t. Mirrors block.now cube.now i a t) result }
{
    if !holds(set, b) {
        return 0;
    }
    if !silent(block, cube, b) {
        return 0;
    }
    if !blind_but(cube, i, a, b) {
        return 0;
    }
    one(b)
}

// The states of the set that the cube does not tell from a.
fn images(block: &Block, cube: &Cube, i: u8, set: u16, a: u8) -> u16
    requires { Wf block.now × Each (λ t. Exchangeable block.now a t) set × (a < 16) }
    ensures { Each (λ t. Mirrors block.now cube.now i a t) result }
{
    let mut found: u16 = 0;
    for b in 0..16 {
        found = union(found, image(block, cube, i, set, a, b));
    }
    found
}

// Adds to `done` the transitions of the pair k with the output o to states that the cube, in which no mutant is sought and which
// means the transition to a, does not tell from a.
pub fn reflect(block: &Block, facts: &Facts, cube: &Cube, k: usize, a: u8, o: u8, done: &mut Sets)
    requires { Wf block.now × SwapsOk block.now facts.now × (k < 257) × (site_at block.now k ≡ 255 → ⊥) × (length done.old ≡ 16) }
    ensures { ReflectedOk block.now cube.now done.old done.new k }
{
    if a >= 16 || o >= 16 {
        return;
    }
    let set = facts[EXCHANGES + wide(a)];
    if set == 0 {
        return;
    }
    let i = site(block, k);
    if !means(cube[wide(i)], o, a) {
        return;
    }
    if !silent(block, cube, a) {
        return;
    }
    cubes::gather::note(done, literal(o, images(block, cube, i, set, a)));
}
