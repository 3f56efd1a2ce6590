// What is known of a settled part: by a test, by an entry of the store, or by pairs of states.
ghost use Rattle.std.specs.Prelude.{List, ℕ, IfSome};
ghost use Rattle.cubes.specs.Cube.{AllConform};
ghost use Rattle.cubes.specs.declared.goal.Goal.{Goal as Sort};
ghost use Rattle.store.specs.Store.{StoreOk, ToldOk};
ghost use Rattle.nodes.specs.Refuting.{Ready, Found};

use crate::node::Node;
use block::*;
use cubes::goal::Goal;
use cubes::literals::Cube;
use cubes::tables::Facts;
use cursors::{Cursors, FROM_TEST};
use leaves::*;
use store::{Entry, learn};

// What is asked of settled parts: of which mutants, with what is known of them, which log, and whether any mutant that gives it is
// sought or those alone that do not conform.
#[derive(Clone, Copy)]
pub struct Question<'a> {
    pub block: &'a Block,
    pub facts: &'a Facts,
    pub log: &'a [u8],
    pub goal: Goal,
}

impl Question<'_> {
    // That no mutant of a proposal gives a test's part of the log.
    fn by_test(&self, node: &Node, t: usize) -> Option<Cube>
        requires { Ready self.now.block.now self.now.facts.now }
        ensures { (goal : Sort) → ToldOk goal self.now.block.now self.now.log.now result }
    {
        let mut cube = [ANY; 32];
        cursors::propose_fail(
            self.block,
            self.facts,
            self.log,
            &node.p,
            node.settled,
            t,
            &mut cube,
        );
        let at = cursors::test_at(self.facts, t);
        if !cubes::failing::fails(self.block, self.facts, &cube, self.log, at) {
            return None;
        }
        Some(cube)
    }

    // That every mutant of a proposal conforms.
    fn by_conforming(&self, node: &Node) -> Option<Cube>
        requires { Ready self.now.block.now self.now.facts.now }
        ensures { IfSome result (λ cube. AllConform self.now.block.now cube) }
    {
        let proposal = pairs::propose(self.block, self.facts, &node.p, node.settled)?;
        if !cubes::conform::closed(self.block, self.facts, &proposal.cube, &proposal.pairs) {
            return None;
        }
        Some(proposal.cube)
    }

    // The same, where a nonconforming mutant is sought.
    fn by_pairs(&self, node: &Node) -> Option<Cube>
        requires { Ready self.now.block.now self.now.facts.now }
        ensures { (log : List ℕ) → ToldOk self.now.goal self.now.block.now log result }
    {
        match self.goal {
            Goal::Any => None,
            Goal::Nonconforming => self.by_conforming(node),
        }
    }

    // What the node's hint says: a test, or an entry of the store.
    fn by_hint(&self, store: &mut [Entry], node: &Node) -> Option<Cube>
        requires { Ready self.now.block.now self.now.facts.now }
        ensures { (goal : Sort) → StoreOk goal self.now.block.now self.now.log.now store.old → Found goal self.now.block.now self.now.log.now store.new result }
    {
        let hint = node.hint;
        if hint >= FROM_TEST {
            return self.by_test(node, usize::from(hint - FROM_TEST));
        }
        store::look_up(store, usize::from(hint), &node.p, node.settled)
    }

    // What the store and the pairs of states say, where no test fails.
    fn consult(&self, store: &mut [Entry], notes: &mut [u16], node: &Node) -> Option<Cube>
        requires { Ready self.now.block.now self.now.facts.now }
        ensures { (log : List ℕ) → StoreOk self.now.goal self.now.block.now log store.old → Found self.now.goal self.now.block.now log store.new result }
    {
        let stored = store::find(store, notes, &node.p, node.settled, node.last);
        if stored.is_some() {
            return stored;
        }
        let cube = self.by_pairs(node)?;
        learn(store, notes, &cube);
        Some(cube)
    }

    // What its hint, the tests, the store and the pairs of states say of a node.
    pub fn look(
        &self,
        store: &mut [Entry],
        notes: &mut [u16],
        node: &Node,
        cursors: &mut Cursors,
    ) -> Option<Cube>
        requires { Ready self.now.block.now self.now.facts.now × StoreOk self.now.goal self.now.block.now self.now.log.now store.old }
        ensures { Found self.now.goal self.now.block.now self.now.log.now store.new result }
    {
        let hinted = self.by_hint(store, node);
        if hinted.is_some() {
            return hinted;
        }
        count_node(notes);
        let failed = cursors::advance_all(
            self.block,
            self.facts,
            self.log,
            &node.p,
            node.settled,
            cursors,
            node.last,
        );
        let Some(t) = failed else {
            return self.consult(store, notes, node);
        };
        let cube = self.by_test(node, t)?;
        learn(store, notes, &cube);
        Some(cube)
    }
}
