// The tables of a machine and its mutants, in one block of bytes (their places: specs/Layout.antt), and what is read from it.
ghost use Rattle.std.specs.Prelude.{◌≡◌, cond, ◌+◌, ◌/◌, ◌%◌, ◌<◌, ◌≤◌, ltb};
ghost use Rattle.block.specs.Layout.{pair, waking, rule_output, rule_target, site_at, choices_of, states_of, inputs_of, slots_of, wake_at};
ghost use Rattle.block.specs.Tabulated.{Wf, StepIs, choices_at, chosen, start_of};

// How many bytes the block has, and where its tables stand in it (specs/Layout.antt).
// stays: one array of bytes, since `Tabled` and the theorems on it (specs/laws/TabledLaw.antt) speak of those bytes.
pub const BLOCK: usize = 1620;

pub type Block = [u8; BLOCK];

pub(crate) const TARGETS: usize = 256;

pub(crate) const FIRST_FAULTS: usize = 512;

pub(crate) const MUTATED: usize = 768;

pub(crate) const DIVERTED: usize = 1024;

pub(crate) const CHOICES: usize = 1280;

pub(crate) const STATES: usize = 1312;

pub(crate) const INPUTS: usize = 1313;

pub(crate) const SLOTS: usize = 1314;

pub(crate) const SITES: usize = 1315;

pub(crate) const WAKES: usize = 1572;

pub(crate) const PAIRS: usize = 1588;

// The waking state is the next state of one more pair, past those of states and inputs.
pub const WAKING: usize = 256;

pub fn wide(x: u8) -> usize
    ensures { (result ≡ x) × (result < 256) }
{
    x as usize
}

pub fn wide16(x: u16) -> usize
    ensures { (result ≡ x) × (result < 65536) }
{
    x as usize
}

pub fn wide32(x: u16) -> u32
    ensures { (result ≡ x) × (result < 65536) }
{
    x as u32
}

// The input and the output of an observation.
pub fn input_of(v: u16) -> u8
    ensures { (result ≡ v / 16 % 16) × (result < 16) }
{
    (v / 16 % 16) as u8
}

pub fn output_of(v: u16) -> u8
    ensures { (result ≡ v % 16) × (result < 16) }
{
    (v % 16) as u8
}

// The place of a state and an input, or of two states.
pub fn place(s: u8, x: u8) -> usize
    requires { (s < 16) × (x < 16) }
    ensures { (result ≡ pair s x) × (result < 256) }
{
    usize::from(s) * 16 + usize::from(x)
}

// The same, whatever the numbers are.
pub fn some_place(s: u8, x: u8) -> usize
    ensures { (result ≡ pair (s % 16) (x % 16)) × (result < 256) }
{
    place(s % 16, x % 16)
}

pub fn rule_output(block: &Block, k: usize) -> u8
    requires { k < 256 }
    ensures { result ≡ rule_output block.now k }
{
    block[k]
}

// The rule's next state, 255 where there is no rule.
pub fn rule_target(block: &Block, k: usize) -> u8
    requires { k < 256 }
    ensures { result ≡ rule_target block.now k }
{
    block[TARGETS + k]
}

// Which suspect a pair is, 255 for none.
pub fn site(block: &Block, k: usize) -> u8
    requires { k < 257 }
    ensures { result ≡ site_at block.now k }
{
    block[SITES + k]
}

// How many choices a suspect has.
pub fn choices(block: &Block, i: u8) -> u16
    requires { i < 32 }
    ensures { result ≡ choices_of block.now i }
{
    u16::from(block[CHOICES + usize::from(i)]) + 1
}

pub fn states(block: &Block) -> u8
    ensures { result ≡ states_of block.now }
{
    block[STATES]
}

pub fn inputs(block: &Block) -> u8
    ensures { result ≡ inputs_of block.now }
{
    block[INPUTS]
}

// How many choices a mutant has (01: the length of a board).
pub fn slots(block: &Block) -> u8
    ensures { result ≡ slots_of block.now }
{
    block[SLOTS]
}

// The pair of a suspect. That it is the right one is not promised: who relies on it asks `site`.
pub fn pair_of(block: &Block, i: u8) -> usize
    requires { i < 32 }
    ensures { result < 257 }
{
    if i == site(block, WAKING) {
        return WAKING;
    }
    usize::from(block[PAIRS + usize::from(i)])
}

#[derive(Clone, Copy)]
pub struct Step {
    pub output: u8,
    pub target: u8,
}

// What is answered where there is no such choice.
const IDLE: Step = Step {
    output: 0,
    target: 0,
};

// Choice c of a suspect without a rule.
fn unruled(states: u8, c: u16) -> Step
    ensures { 1 ≤ states → c < 256 → (result.output ≡ c / states) × (result.target ≡ c % states) }
{
    if states == 0 {
        return IDLE;
    }
    if c >= 256 {
        return IDLE;
    }
    let n = u16::from(states);
    Step {
        output: (c / n) as u8,
        target: (c % n) as u8,
    }
}

// The output 0 and the same state (0 where the pair is none of the sheet's).
fn stay(states: u8, k: usize) -> Step
    requires { k < 256 }
    ensures { (result.output ≡ 0) × (result.target ≡ cond (ltb (k / 16) states) (k / 16) 0) }
{
    let target = (k / 16) as u8;
    if target < states {
        return Step { output: 0, target };
    }
    IDLE
}

// Choice c of the pair k, where it has no rule: any transition if it is a suspect, else it stays (02: QUIET).
fn unspecified(block: &Block, k: usize, c: u16) -> Step
    requires { k < 256 }
    ensures { rule_target block.now k ≡ 255 → StepIs block.now k c result }
{
    if site(block, k) == 255 {
        return stay(states(block), k);
    }
    unruled(states(block), c)
}

// The transition of choice c into the waking state.
fn wake(block: &Block, c: u16) -> Step
    ensures { (result.output ≡ 0) × (c < 16 → result.target ≡ wake_at block.now c) }
{
    if c >= 16 {
        return IDLE;
    }
    let target = block[WAKES + usize::from(c)];
    Step { output: 0, target }
}

// The transition of choice c at the pair k. Any number c is taken, as guesses may name one that there is not.
pub fn transition(block: &Block, k: usize, c: u16) -> Step
    requires { k < 257 }
    ensures { StepIs block.now k c result }
{
    if k == WAKING {
        return wake(block, c);
    }
    let target = rule_target(block, k);
    if target == 255 {
        return unspecified(block, k, c);
    }
    if c == 0 {
        let output = rule_output(block, k);
        return Step { output, target };
    }
    let f = usize::from(block[FIRST_FAULTS + k]) + usize::from(c) - 1;
    if f >= 256 {
        return IDLE;
    }
    Step {
        output: block[MUTATED + f],
        target: block[DIVERTED + f],
    }
}

// The choice of p at a pair, 0 where it is no suspect.
pub fn choice_at(block: &Block, p: &[u16; 32], k: usize) -> u16
    requires { Wf block.now × (k < 257) }
    ensures { result ≡ chosen block.now p.now k }
{
    let i = site(block, k);
    if i == 255 {
        return 0;
    }
    p[usize::from(i)]
}

// The state of the mutant with the choices p after a reset.
pub fn initial(block: &Block, p: &[u16; 32]) -> u8
    requires { Wf block.now }
    ensures { chosen block.now p.now waking < choices_at block.now waking → result ≡ start_of block.now p.now }
{
    wake(block, choice_at(block, p, WAKING)).target
}
