// The place of a sweep: a mutant, and for each slot the slots before it that are blamed for its choice there.
ghost use Rattle.std.specs.Prelude.{◌≡◌, true, ℕ, ◌+◌, ◌<◌, ◌≤◌, ◌%◌, ◌^◌, length, get_or};
ghost use Rattle.sheet.specs.Sheet.{Sheet};
ghost use Rattle.block.specs.Tabled.{Tabled};
ghost use Rattle.clearing.specs.Sweep.{Top, Reset, Swept, Clears, Advanced};

use block::{Block, choices};
use leaves::union;

// The highest slot of a set that has one.
pub(crate) fn highest(set: u32) -> u8
    requires { 0 < set }
    ensures { Top set result }
{
    (31 - u32::leading_zeros(set)) as u8
}

// The slots of a set before one.
fn before(set: u32, j: u8) -> u32
    requires { j < 32 }
    ensures { result ≡ set % 2 ^ j }
{
    set % (1 << j)
}

// What clears a mutant: its choices at a set of slots, and at the highest of them each later choice before `next` too.
#[derive(Clone, Copy)]
pub struct Clearing {
    pub by: u32,
    pub next: u16,
}

// The choices of p at a set of slots, and no others: the next choice is the one after p's at the highest; for the empty set any number.
pub fn choices_at(p: &[u16; 32], by: u32) -> Clearing
    requires { (length p.now ≡ 32) × ((i : ℕ) → i < 32 → get_or p.now i 0 ≤ 256) }
    ensures { (result.by ≡ by) × ((j : ℕ) → Top by j → result.next ≡ get_or p.now j 0 + 1) }
{
    if by == 0 {
        return Clearing { by, next: 0 };
    }
    Clearing {
        by,
        next: p[usize::from(highest(by))] + 1,
    }
}

// Gives a slot another choice and other slots to blame, and each later slot its first choice and none.
fn settle(p: &mut [u16; 32], blame: &mut [u32; 32], j: usize, c: u16, set: u32)
    requires { (j < 32) × (length p.old ≡ 32) × (length blame.old ≡ 32) }
    ensures { Reset p.old p.new j c × Reset blame.old blame.new j set }
{
    p[j] = c;
    p[j + 1..].fill(0);
    blame[j] = set;
    blame[j + 1..].fill(0);
}

// Goes on to a later mutant: the highest slot of those by which p is cleared gets the next choice. False if there is none. The set falls as
// a number.
pub fn advance(block: &Block, p: &mut [u16; 32], blame: &mut [u32; 32], cleared: Clearing) -> bool
    requires { (sh : Sheet) × Tabled sh block.now × Swept sh block.now p.old blame.old × Clears sh p.old cleared }
    ensures { (sh : Sheet) → Tabled sh block.now → Swept sh block.now p.old blame.old → Clears sh p.old cleared → Advanced sh block.now p.old result p.new blame.new }
{
    let mut clearing = cleared;
    while clearing.by != 0 {
        let j = highest(clearing.by);
        let i = usize::from(j);
        let others = union(blame[i], before(clearing.by, j));
        if clearing.next < choices(block, j) {
            settle(p, blame, i, clearing.next, others);
            return true;
        }
        blame[i] = others;
        clearing = choices_at(p, others);
    }
    false
}
