// The slots of a sheet, numbered: that of the waking state, if there is one, then the suspects (01: open pairs) in 01's order.
ghost use Rattle.std.specs.Prelude.{ℕ, ◌/◌, ◌≤◌, ◌<◌, ◌≡◌, length, replicate};
ghost use Rattle.lists.specs.Lists.{overlay};
ghost use Rattle.block.specs.Sites.{open_at, waking_first, open_choices, Numbered};

// By pair, at state * 16 + input: which slot it uses, 255 for none. By slot: how many choices it has, 1 past the last, and its pair, of
// which nothing is promised. And how many slots there are.
#[derive(Clone, Copy)]
pub struct Sites {
    pub site: [u8; 256],
    pub slots: [u16; 32],
    pub pairs: [u8; 32],
    pub count: u8,
}

// Whether the pair at an index, of any of the states, has two choices or more.
fn is_open(choices: &[u16; 256], k: usize, i: usize) -> bool
    requires { i < 256 }
    ensures { (n : ℕ) → i / 16 < n → result ≡ open_at n k choices.now i }
{
    i % 16 < k && 1 < choices[i]
}

// By slot how many choices it has, and how many slots there are.
#[derive(Clone, Copy)]
struct Slots {
    sizes: [u16; 32],
    count: usize,
}

// The slot of the waking state, if there is a choice.
fn waking_slot(waking: u8) -> Slots
    ensures { (result.sizes ≡ overlay (waking_first waking) (replicate 32 1)) × (result.count ≡ length (waking_first waking)) }
{
    let mut sizes = [1u16; 32];
    if waking <= 1 {
        return Slots { sizes, count: 0 };
    }
    sizes[0] = waking as u16;
    Slots { sizes, count: 1 }
}

// Numbers the slots of n states, k inputs and so many waking states: past the last state there is none.
pub(crate) fn number(choices: &[u16; 256], n: usize, k: usize, waking: u8) -> Sites
    requires { (n ≤ 16) × (length (open_choices (waking_first waking) n k choices.now 256) ≤ 32) }
    ensures { Numbered (waking_first waking) n k choices.now result }
{
    let first = waking_slot(waking);
    let mut site = [255u8; 256];
    let mut slots = first.sizes;
    let mut pairs = [0u8; 32];
    let mut count = first.count;
    for i in 0..16 * n {
        if is_open(choices, k, i) {
            site[i] = count as u8;
            slots[count] = choices[i];
            pairs[count] = i as u8;
            count += 1;
        }
    }
    Sites {
        site,
        slots,
        pairs,
        count: count as u8,
    }
}
