// A cube without mutant sought for a settled part, by the choices of a suspect in turn.
ghost use Rattle.std.specs.Prelude.{◌≡◌, true, false, ◌+◌, ◌-◌, ◌<◌, ◌≤◌, length, get_or, set, IfSome};
ghost use Rattle.block.specs.Layout.{site_at};
ghost use Rattle.cubes.specs.Sets.{Has};
ghost use Rattle.store.specs.Store.{StoreOk, Learns};
ghost use Rattle.nodes.specs.Refuting.{Ready, Found};
ghost use Rattle.refutation.specs.Branching.{SplitOk, TurnOk, JoinedOk};

use block::*;
use cubes::gather::note as add;
use cubes::literals::Cube;
use cubes::words::Sets;
use cursors::Cursors;
use leaves::*;
use nodes::{Node, Question, UNHINTED};
use store::Entry;

// The suspect to settle next: one for which tests wait, else one on the way of the settled part.
fn next_suspect(
    question: &Question,
    notes: &mut [u16],
    node: &Node,
    cursors: &Cursors,
) -> Option<u8> {
    let mut waiting = [0u16; 32];
    cursors::mark_wants(question.facts, question.log, cursors, notes, &mut waiting);
    let i = cursors::pick(question.block, question.facts, notes, &waiting);
    if i < 32 {
        return Some(i);
    }
    pairs::meet(question.block, question.facts, &node.p, node.settled, notes)
}

// What is said at a node of the choices of a suspect: by transition what refutes it; by output the next states that are refuted.
#[derive(Drop)]
struct Known {
    hints: [u16; 256],
    dead: Sets,
}

// Copies notes from a place on, if there are as many.
fn copy_notes(notes: &[u16], from: usize, known: &mut [u16])
    requires { (from ≤ 16384) × (length known.old ≤ 256) }
{
    let n = known.len();
    if notes.len() < from + n {
        return;
    }
    known.copy_from_slice(&notes[from..from + n]);
}

impl Known {
    fn recall(&mut self, notes: &[u16], i: u8) {
        let j = usize::from(i % 32);
        copy_notes(notes, HINTS + j * 256, &mut self.hints);
        copy_notes(notes, DEAD + j * 16, &mut self.dead);
    }

    fn hint(&self, step: Step) -> u16 {
        self.hints[usize::from(packed(step.output, step.target))]
    }

    fn is_dead(&self, step: Step) -> bool {
        holds(self.dead[usize::from(low(step.output))], step.target)
    }
}

// A suspect to settle, its pair, and how many choices it has.
#[derive(Clone, Copy)]
pub(crate) struct Split {
    pub i: u8,
    pub k: usize,
    pub n: u16,
}

// A turn of a choice, one in the first round and one in the second: its transition, and what may refute it; nothing if it is passed
// over.
#[derive(Clone, Copy)]
pub(crate) struct Turn {
    pub step: Step,
    pub hint: Option<u16>,
}

impl Split {
    // The split at a suspect, if it is one and one more may be settled.
    fn at(block: &Block, i: u8, left: u8) -> Option<Split>
        ensures { IfSome result (λ split. SplitOk block.now left split) }
    {
        if i >= 32 || left == 0 {
            return None;
        }
        let k = pair_of(block, i);
        if site(block, k) != i {
            return None;
        }
        let n = choices(block, i);
        Some(Split { i, k, n })
    }

    // In the first round a choice of which something is said is passed over.
    fn turn(&self, block: &Block, r: u16, done: &Sets, known: &Known) -> Turn
        requires { self.now.k < 257 }
        ensures { self.now.n ≤ r → TurnOk block.now done.now self.now.k (r - self.now.n) result }
    {
        if r < self.n {
            let step = transition(block, self.k, r);
            let passed = known.is_dead(step) || has_step(done, step);
            return Turn {
                step,
                hint: (!passed).then_some(UNHINTED),
            };
        }
        let step = transition(block, self.k, r - self.n);
        if has_step(done, step) {
            return Turn { step, hint: None };
        }
        Turn {
            step,
            hint: Some(known.hint(step)),
        }
    }
}

fn has_step(sets: &Sets, step: Step) -> bool
    ensures { result ≡ true → Has (get_or sets.now step.output 0) step.target }
{
    let o = step.output;
    let t = step.target;
    o < 16 && t < 16 && holds(sets[usize::from(o)], t)
}

// What the cubes of the choices have in common, and the choices that are done.
#[derive(Drop)]
struct Common {
    all: Cube,
    done: Sets,
}

impl Common {
    // Joins a cube that has a choice to the others; false if it has not, or does not speak of its suspect.
    fn join(&mut self, question: &Question, cube: &Cube, k: usize, step: Step) -> bool
        requires { Ready question.now.block.now question.now.facts.now × (k < 257) × (site_at question.now.block.now k < 32) }
        ensures { result ≡ true → JoinedOk question.now.block.now cube.now self.old.all self.old.done self.new.all self.new.done k step }
    {
        let o = step.output;
        let t = step.target;
        if o >= 16 || t >= 16 {
            return false;
        }
        let l = cube[usize::from(site(question.block, k))];
        if l == ANY || !cubes::literals::means(l, o, t) {
            return false;
        }
        add(&mut self.done, l);
        cubes::gather::meet_in(&mut self.all, cube);
        mirror::reflect(
            question.block,
            question.facts,
            cube,
            k,
            t,
            o,
            &mut self.done,
        );
        true
    }

    // Keeps and tells what the cubes have in common, the suspect free.
    fn finish(&self, store: &mut [Entry], notes: &mut [u16], i: u8) -> Cube
        requires { i < 32 }
        ensures { (result ≡ set self.now.all i 4294967295) × Learns store.old store.new result }
    {
        let mut cube = self.all;
        cube[usize::from(i)] = ANY;
        store::learn(store, notes, &cube);
        cube
    }
}

// Refutes a node. First the choices of which nothing is said, then the others.
pub(crate) fn explore(
    question: &Question,
    store: &mut [Entry],
    notes: &mut [u16],
    node: &Node,
    from: &Cursors,
) -> Option<Cube>
    requires { Ready question.now.block.now question.now.facts.now × StoreOk question.now.goal question.now.block.now question.now.log.now store.old }
    ensures { Found question.now.goal question.now.block.now question.now.log.now store.new result }
{
    let mut cursors = *from;
    let seen = question.look(store, notes, node, &mut cursors);
    if seen.is_some() {
        return seen;
    }
    let i = next_suspect(question, notes, node, &cursors)?;
    let split = Split::at(question.block, i, node.left)?;
    let mut known = Known {
        hints: [0; 256],
        dead: [0; 16],
    };
    known.recall(notes, i);
    let mut common = Common {
        all: [ANY; 32],
        done: [0; 16],
    };
    for r in 0..split.n + split.n {
        let turn = split.turn(question.block, r, &common.done, &known);
        let Some(hint) = turn.hint else {
            continue;
        };
        let next = node.child(split.i, turn.step, hint);
        let cube = explore(question, store, notes, &next, &cursors)?;
        if cube[usize::from(split.i % 32)] == ANY {
            return Some(cube);
        }
        if !common.join(question, &cube, split.k, turn.step) {
            return None;
        }
    }
    Some(common.finish(store, notes, split.i))
}
