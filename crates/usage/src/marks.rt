// Sets of slots.
ghost use Rattle.std.specs.Prelude.{◌≡◌, ◌<◌, ◌^◌};
ghost use Rattle.std.specs.Int.Bits.{bit_or};
ghost use Rattle.model.specs.Used.{mark};
ghost use Rattle.usage.specs.Marks.{slot_at, start_slot_of};

use block::{BLOCK, WAKING, site};

fn with(set: u32, i: u8) -> u32
    requires { i < 32 }
    ensures { result ≡ bit_or set (2 ^ i) }
{
    set | (1 << i)
}

// The set with the slot that the pair k uses, if it uses one.
pub fn marked(block: &[u8; BLOCK], set: u32, k: usize) -> u32
    requires { k < 257 }
    ensures { result ≡ mark set (slot_at block.now k) }
{
    let i = site(block, k);
    if i < 32 {
        return with(set, i);
    }
    set
}

// What is used before the first step: the slot that says where a mutant starts, if there is one.
pub fn start_set(block: &[u8; BLOCK]) -> u32
    ensures { result ≡ mark 0 (start_slot_of block.now) }
{
    marked(block, 0, WAKING)
}
