// What the settled choices do at a pair of a state and an input, or into the waking state.
ghost use Rattle.std.specs.Prelude.{◌≡◌, ◌<◌, IfSome};
ghost use Rattle.walks.specs.Walks.{ChoiceIs, UsedWith};

use leaves::*;

// The choice settled at a suspect, none where it is not settled (256); 0 where there is no suspect (255).
pub(crate) fn settled_choice(p: &[u16; 32], i: u8) -> Option<u16>
    requires { (i ≡ 255 → ⊥) → i < 32 }
    ensures { IfSome result (λ c. ChoiceIs p.now i c) }
{
    if i == 255 {
        return Some(0);
    }
    let c = p[usize::from(i)];
    if c == 256 {
        return None;
    }
    Some(c)
}

// The suspects used, with this one if it is one.
pub(crate) fn used_with(used: u32, i: u8) -> u32
    ensures { UsedWith used i result }
{
    if i == 255 {
        return used;
    }
    with(used, i)
}
