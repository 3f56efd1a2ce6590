// The slots that tests use, by a sheet's bytes and the tables of where each test starts and how many inputs it has.
ghost use Rattle.std.specs.Prelude.{◌≡◌, ◌+◌, ◌*◌, ◌≤◌, length};
ghost use Rattle.model.specs.Used.{mark, mark_from, mark_all};
ghost use Rattle.model.specs.Suite.{tried_of};
ghost use Rattle.logs.specs.Tests.{inputs_at, tests_at};
ghost use Rattle.usage.specs.Marks.{start_slot_of, acts_in};
ghost use Rattle.usage.specs.Tried.{Inside, InsideOf, Reached, place_of};

use crate::marks::{marked, start_set};
use block::{Loaded, some_place};
use logs::Wrong;

// The set with the slots that so many inputs of the test use whose PRESS commands start at `start`.
fn mark_test(
    loaded: &Loaded,
    start: usize,
    inputs: usize,
    targets: &[u8; 256],
    initial: u8,
    set: u32,
) -> u32
    requires { start + 2 * inputs ≤ length loaded.now.sheet.now }
    ensures { result ≡ mark_from (acts_in loaded.now.block targets.now) set initial (inputs_at loaded.now.sheet.now start inputs) }
{
    let mut used = set;
    let mut s = initial;
    for i in 0..inputs {
        let k = some_place(s, loaded.sheet[start + 2 * i + 1]);
        used = marked(&loaded.block, used, k);
        s = targets[k];
    }
    used
}

// The slots that the first `tests` tests use.
fn use_tests(loaded: &Loaded, tests: usize, targets: &[u8; 256], initial: u8) -> u32
    requires { Inside loaded.now.sheet.now loaded.now.starts loaded.now.lengths tests }
    ensures { result ≡ mark_all (acts_in loaded.now.block targets.now) initial (mark 0 (start_slot_of loaded.now.block)) (tests_at loaded.now.sheet.now loaded.now.starts loaded.now.lengths tests) }
{
    let mut used = start_set(&loaded.block);
    for t in 0..tests {
        let start = usize::from(loaded.starts[t]);
        let inputs = usize::from(loaded.lengths[t]);
        used = mark_test(loaded, start, inputs, targets, initial, used);
    }
    used
}

// The slots that the tests use up to and including the step with the first wrong output; those of all tests where none is wrong.
pub fn use_tried(loaded: &Loaded, wrong: Option<Wrong>, targets: &[u8; 256], initial: u8) -> u32
    requires { InsideOf loaded.now × Reached loaded.now.lengths loaded.now.size.tests wrong }
    ensures { result ≡ mark_all (acts_in loaded.now.block targets.now) initial (mark 0 (start_slot_of loaded.now.block)) (tried_of (tests_at loaded.now.sheet.now loaded.now.starts loaded.now.lengths loaded.now.size.tests) (place_of wrong)) }
{
    let Some(found) = wrong else {
        return use_tests(loaded, loaded.size.tests, targets, initial);
    };
    let before = use_tests(loaded, found.test, targets, initial);
    let start = usize::from(loaded.starts[found.test]);
    mark_test(loaded, start, found.position + 1, targets, initial, before)
}
