// Refutations of many mutants at once.
// Promises, where it says so, that no mutant with the choices of a prefix is sought, and that the store stays right.
// Called by `search`, `sweep` and `making`, which show what its functions require.

#![tactic(auto)]

mod branch;

ghost use Rattle.std.specs.Prelude.{◌≡◌, true, List, ℕ, length, IfSome};
ghost use Rattle.block.specs.Tabulated.{Wf};
ghost use Rattle.cubes.specs.Cube.{NoneIf};
ghost use Rattle.refutation.specs.Lent.{StoreOk};
ghost use Rattle.nodes.specs.Refuting.{Ready, Found};
ghost use Rattle.nodes.specs.Prefix.{PrefixIn};

use block::*;
use cubes::literals::Cube;
use cubes::tables::Facts;
use leaves::*;
use nodes::Node;
pub use nodes::Question;
pub use store::{Entry, FEW, MANY, fresh_store};

// Fills the facts of a block and a log; false where it has none.
pub fn prepare(block: &Block, log: &[u8], facts: &mut Facts) -> bool
    requires { Wf block.now × (length facts.old ≡ 1088) }
    ensures { (length facts.new ≡ 1088) × (result ≡ true → Ready block.now facts.new) }
{
    if !cubes::tables::enter_all(block, facts) {
        return false;
    }
    mirror::exchange_all(block, facts);
    cursors::find_tests(log, facts);
    true
}

// Notes one test more, whose reset stands at a place of the log.
pub fn note_test(facts: &mut Facts, at: usize)
    requires { length facts.old ≡ 1088 }
    ensures { (length facts.new ≡ 1088) × ((m : List ℕ) → Ready m facts.old → Ready m facts.new) }
{
    cursors::add_test(facts, at);
}

// A cube in which no mutant is sought and that has every mutant with all the choices of the prefix; or nothing.
pub fn told_from(
    question: &Question,
    store: &mut [Entry],
    notes: &mut [u16],
    prefix: &[u16; 32],
) -> Option<Cube>
    requires { Ready question.now.block.now question.now.facts.now × StoreOk question.now.goal question.now.block.now question.now.log.now store.old }
    ensures { Found question.now.goal question.now.block.now question.now.log.now store.new result × IfSome result (λ cube. PrefixIn question.now.block.now cube prefix.now) }
{
    let node = Node::root(question.block, prefix);
    store::admit_all(notes, node.settled);
    let cursors = cursors::start_cursors(question.facts);
    let cube = branch::explore(question, store, notes, &node, &cursors)?;
    if !nodes::has_prefix(question.block, &cube, prefix) {
        return None;
    }
    Some(cube)
}

// Whether no mutant with all the choices of the prefix is sought; false promises nothing.
pub fn none_from(
    question: &Question,
    store: &mut [Entry],
    notes: &mut [u16],
    prefix: &[u16; 32],
) -> bool
    requires { Ready question.now.block.now question.now.facts.now × StoreOk question.now.goal question.now.block.now question.now.log.now store.old }
    ensures { NoneIf question.now.goal question.now.block.now question.now.log.now prefix.now result × StoreOk question.now.goal question.now.block.now question.now.log.now store.new }
{
    !witnessed(notes, prefix) && told_from(question, store, notes, prefix).is_some()
}
