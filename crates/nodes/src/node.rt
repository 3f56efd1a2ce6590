// Nodes of the search: settled parts of mutants.
ghost use Rattle.std.specs.Prelude.{◌≡◌, ◌+◌, ◌<◌};

use block::*;
use leaves::*;

// No hint: an entry that no store has.
pub const UNHINTED: u16 = 32767;

// By suspect that is settled its transition (output * 16 + next state); the suspect settled last, 254 for none; how many may
// still be settled; what may refute it, a test or an entry of the store.
#[derive(Clone, Copy)]
pub struct Node {
    pub p: [u8; 32],
    pub settled: u32,
    // stays: a number with 254 for none, of which `cursors::advance_all` says which tests go on (`waited`, `Advanced`)
    pub last: u8,
    pub left: u8,
    // stays: one number with UNHINTED, as the notes lent hold hints, and as `hint >= FROM_TEST` tells a test from an entry
    pub hint: u16,
}

impl Node {
    // The node of a prefix.
    pub fn root(block: &Block, prefix: &[u16; 32]) -> Node {
        let mut node = Node {
            p: [0; 32],
            settled: 0,
            last: 254,
            left: 32,
            hint: UNHINTED,
        };
        for j in 0..32 {
            let c = prefix[usize::from(j)];
            let k = pair_of(block, j);
            if c != 256 && site(block, k) == j {
                let step = transition(block, k, c);
                node.p[usize::from(j)] = packed(step.output, step.target);
                node.settled = with(node.settled, j);
            }
        }
        node
    }

    // The node with one transition more.
    pub fn child(&self, i: u8, step: Step, hint: u16) -> Node
        requires { 0 < self.now.left }
        ensures { result.left + 1 ≡ self.now.left }
    {
        let mut p = self.p;
        p[usize::from(i % 32)] = packed(step.output, step.target);
        Node {
            p,
            settled: with(self.settled, i),
            last: i,
            left: self.left - 1,
            hint,
        }
    }
}
