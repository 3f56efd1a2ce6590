// Comparing the specification with a mutant laid out in tables: their product, pairs of a state of each, is searched breadth first.
ghost use Rattle.std.specs.Prelude.{◌≡◌, List, [], ◌∷◌, ◌++◌, ℕ, ◌+◌, ◌*◌, ◌/◌, ◌%◌, ◌≤◌, ◌<◌, length};
ghost use Rattle.lists.specs.Lists.{overlay};
ghost use Rattle.model.specs.Compare.{compare_pair, found};
ghost use Rattle.block.specs.Layout.{states_of, inputs_of};
ghost use Rattle.machine.specs.Product.{tables, Valid, leads};
ghost use Rattle.machine.specs.Tree.{Spare, EnteredPair, Paths, Tree, ExpandedOk};
ghost use Rattle.machine.specs.Differences.{difference_of};

use block::{BLOCK, inputs, place, rule_output, rule_target};

// What tells a mutant from the specification: nothing, or a distinguishing sequence of this length.
pub type Difference = Option<usize>;

// What an input does at a pair of states: it is not specified, shows another output, or leads to a pair.
#[derive(Clone, Copy)]
pub(crate) enum Led {
    Undefined,
    Apart,
    To(u8),
}

// The longest that a shortest distinguishing sequence of n states can be.
pub fn bound(n: usize) -> u16
    requires { (0 < n) × (n ≤ 16) }
    ensures { result ≡ n * n }
{
    (n * n) as u16
}

// The states of a pair v are v / 16, the specification's, and v % 16.
fn lead(block: &[u8; BLOCK], outputs: &[u8; 256], targets: &[u8; 256], v: u8, x: u8) -> Led
    requires valid { Valid block.now targets.now }
    requires v_bound { (v / 16 < states_of block.now) × (v % 16 < states_of block.now) × (x < inputs_of block.now) }
    ensures { (start : ℕ) → result ≡ leads (tables block.now start outputs.now targets.now) v x }
{
    let a = place(v / 16, x);
    let s = rule_target(block, a);
    if s == 255 {
        return Led::Undefined;
    }
    let b = place(v % 16, x);
    if rule_output(block, a) != outputs[b] {
        return Led::Apart;
    }
    Led::To(s * 16 + targets[b])
}

// An entry of the tree is a pair, with the link by which it was reached: the number of the entry before it, times 16, and the input.
fn pair_of(entry: u32) -> u8
    ensures { result ≡ entry % 256 }
{
    (entry % 256) as u8
}

fn link_of(entry: u32) -> usize
    ensures { result ≡ entry / 256 }
{
    (entry / 256) as usize
}

// The tree of a search: its first `count` entries, and by pair whether it was seen.
#[derive(Clone, Copy)]
pub(crate) struct Search {
    pub entries: [u32; 256],
    pub seen: [u8; 256],
    pub count: usize,
}

impl Search {
    // Enters the pair that a link leads to, if there is one that was not seen before.
    fn enter(&mut self, link: usize, led: Led)
        requires { Spare self.old.entries self.old.seen self.old.count × (link < 4096) }
        ensures { EnteredPair self.old.entries self.old.seen self.old.count link led self.new.entries self.new.seen self.new.count }
    {
        let Led::To(v) = led else {
            return;
        };
        let i = usize::from(v);
        if self.seen[i] != 0 {
            return;
        }
        self.seen[i] = 1;
        self.entries[self.count] = (256 * link + i) as u32;
        self.count += 1;
    }

    // Enters all pairs that entry h leads to, by ascending inputs, up to the first input that shows another output.
    fn expand(
        &mut self,
        block: &[u8; BLOCK],
        outputs: &[u8; 256],
        targets: &[u8; 256],
        h: usize,
    ) -> Option<u8>
        requires valid { Valid block.now targets.now × (h < self.old.count) }
        requires by_index { (start : ℕ) × Tree (tables block.now start outputs.now targets.now) self.old.entries self.old.seen self.old.count (16 * h) }
        ensures { (start : ℕ) → Tree (tables block.now start outputs.now targets.now) self.old.entries self.old.seen self.old.count (16 * h) → ExpandedOk (tables block.now start outputs.now targets.now) self.new.entries self.new.seen self.new.count h result }
    {
        let k = inputs(block);
        let v = pair_of(self.entries[h]);
        for x in 0..k {
            let led = lead(block, outputs, targets, v, x);
            if let Led::Apart = led {
                return Some(x);
            }
            self.enter(16 * h + usize::from(x), led);
        }
        None
    }

    // How many inputs lead to entry h.
    fn depth(&self, h: usize) -> usize
        requires { (h < 256) × ((path : ℕ → List ℕ) × Paths self.now.entries (h + 1) path) }
        ensures { (path : ℕ → List ℕ) → Paths self.now.entries (h + 1) path → result ≡ length (path h) }
    {
        let mut n: usize = 0;
        let mut i = h;
        // stays: the entry before is the one that the link names
        while i > 0 {
            i = link_of(self.entries[i]) / 16;
            n += 1;
        }
        n
    }

    // Writes the inputs that lead to entry h, and x after them, at the buffer's front: from the last on. How many they are.
    fn write_path(&self, h: usize, x: u8, buf: &mut [u8]) -> usize
        requires { (h < 256) × ((path : ℕ → List ℕ) × Paths self.now.entries (h + 1) path × (length (path h) < length buf.old)) }
        ensures { (path : ℕ → List ℕ) → Paths self.now.entries (h + 1) path → (result ≡ length (path h) + 1) × (buf.new ≡ overlay (path h ++ x ∷ []) buf.old) }
    {
        let d = self.depth(h);
        buf[d] = x;
        let mut i = h;
        for n in (0..d).rev() {
            let link = link_of(self.entries[i]);
            buf[n] = (link % 16) as u8;
            i = link / 16;
        }
        d + 1
    }
}

// Conforming, or the shortest, then smallest, distinguishing sequence, written at the front of buf. Entries are expanded in the order in
// which they were made, so the first input that shows another output ends that sequence.
pub fn distinguish(
    block: &[u8; BLOCK],
    outputs: &[u8; 256],
    targets: &[u8; 256],
    start: u8,
    buf: &mut [u8],
) -> Difference
    requires valid { Valid block.now targets.now }
    requires start_bound { start < states_of block.now }
    requires block_in_bounds { states_of block.now * states_of block.now ≤ length buf.old }
    ensures value { result ≡ difference_of (compare_pair (tables block.now start outputs.now targets.now)) }
    ensures buf_after { buf.new ≡ overlay (found (compare_pair (tables block.now start outputs.now targets.now))) buf.old }
{
    let mut search = Search {
        entries: [0u32; 256],
        seen: [0u8; 256],
        count: 0,
    };
    search.enter(0, Led::To(start));
    let mut h: usize = 0;
    // stays: there are more entries after each expansion
    while h < search.count {
        if let Some(x) = search.expand(block, outputs, targets, h) {
            return Some(search.write_path(h, x, buf));
        }
        h += 1;
    }
    None
}
