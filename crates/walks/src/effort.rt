// How much an attempt may spend: one for each node that it looks at, one for each pair of states that it meets.
ghost use Rattle.std.specs.Prelude.{◌≡◌, true, false, ◌<◌, ◌≤◌, length, get_or};

use leaves::*;

const BUDGET: u16 = 512;

// Whether an attempt has come to its end; notes too short to tell make none.
pub fn spent(notes: &[u16]) -> bool
    ensures { (result ≡ false → get_or notes.now 5 0 < 512) × (result ≡ true → 5 < length notes.now → 512 ≤ get_or notes.now 5 0) }
{
    if notes.len() <= SPENT {
        return true;
    }
    notes[SPENT] >= BUDGET
}

// Spends n, which is below the budget.
pub(crate) fn spend(notes: &mut [u16], n: u16) {
    let before = note(notes, SPENT);
    if before >= BUDGET {
        return;
    }
    set_note(notes, SPENT, before + n % BUDGET);
}

// Whether one node more may be looked at, which is counted.
pub(crate) fn enter_node(notes: &mut [u16]) -> bool {
    if spent(notes) {
        return false;
    }
    count_node(notes);
    spend(notes, 1);
    true
}
