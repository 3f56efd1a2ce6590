// Literals: which transitions of a suspect are meant. ANY: every one; else an output and a set of next states, output * 65536 + set.
// stays: a number, no enum; `Means` and the laws of specs/laws (LiteralLaw, JoinLaw, SuspectedLaw) speak of the number.
ghost use Rattle.std.specs.Prelude.{◌≡◌, true, ◌<◌, ◌+◌, ◌*◌, ◌/◌, ◌%◌};
ghost use Rattle.cubes.specs.Cube.{MeansStep, GoingOk, SoundsOk, BothOk};

use crate::tables::{Facts, OUTPUTS};
use crate::words::{holds, one, shared};
use block::*;

// A literal that means every transition.
pub const ANY: u32 = u32::MAX;

// By suspect its literal.
pub type Cube = [u32; 32];

pub fn lit_out(l: u32) -> usize
    ensures { result ≡ l / 65536 }
{
    (l / 65536) as usize
}

pub fn lit_next(l: u32) -> u16
    ensures { result ≡ l % 65536 }
{
    (l % 65536) as u16
}

// The literal of an output, taken modulo 16, and a set of next states.
pub fn literal(o: u8, next: u16) -> u32
    ensures { (result ≡ o % 16 * 65536 + next) × (result < 1048576) }
{
    u32::from(o % 16) * 65536 + u32::from(next)
}

// Whether the literal means the transition.
pub fn means(l: u32, o: u8, t: u8) -> bool
    requires { t < 16 }
    ensures { result ≡ true → MeansStep l o t }
{
    if l == ANY {
        return true;
    }
    if lit_out(l) != wide(o) {
        return false;
    }
    holds(lit_next(l), t)
}

// Where the choices of suspect i that the literal means and that have the output o lead.
pub fn going(facts: &Facts, l: u32, i: u8, o: u8) -> u16
    requires { (i < 32) × (o < 16) }
    ensures { GoingOk facts.now l i o result }
{
    let at = wide(i) * 16 + wide(o);
    let f = facts[at];
    if l == ANY {
        return f;
    }
    if lit_out(l) != wide(o) {
        return 0;
    }
    shared(f, lit_next(l))
}

// Whether every choice of suspect i that the literal means has the output o.
pub fn sounds(facts: &Facts, l: u32, i: u8, o: u8) -> bool
    requires { (i < 32) × (o < 16) }
    ensures { result ≡ true → SoundsOk facts.now l i o }
{
    if l == ANY {
        let s = facts[OUTPUTS + wide(i)];
        return s == one(o);
    }
    lit_out(l) == wide(o)
}

// What both literals mean.
pub fn both(a: u32, b: u32) -> u32
    ensures { BothOk a b result }
{
    if a == ANY {
        return b;
    }
    if b == ANY {
        return a;
    }
    if lit_out(a) != lit_out(b) {
        return 0;
    }
    a & b
}
