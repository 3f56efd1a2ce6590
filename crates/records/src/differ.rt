// The first SEEN of a record whose output differs from the specification's.
ghost use Rattle.std.specs.Prelude.{◌≡◌, get_or};
ghost use Rattle.std.proofs.Math.Option.{none};
ghost use Rattle.lists.specs.Options.{coded, meant};
ghost use Rattle.block.specs.Tabulated.{rule_of, Wf};
ghost use Rattle.records.specs.Record.{specified_at, differs_from};
ghost use Rattle.records.specs.Steps.{move_by, Steps};

use block::{Block, PULSE, SEEN, Step, inputs, rule_output, rule_target, some_place, states};

// The specification's state after a byte, none before any PULSE and after an undefined input; and whether the byte is a SEEN with a wrong
// output.
#[derive(Clone, Copy)]
pub(crate) struct Stepped {
    pub wrong: bool,
    pub state: Option<u8>,
}

// The specified transition at a state, if there is one, and an input.
fn specified(block: &Block, state: Option<u8>, x: u8) -> Option<Step>
    requires { Wf block.now }
    ensures { move_by result ≡ specified_at (rule_of block.now) (meant state) x }
{
    let s = state?;
    if s >= states(block) {
        return None;
    }
    if x >= inputs(block) {
        return None;
    }
    let k = some_place(s, x);
    let target = rule_target(block, k);
    if target == 255 {
        return None;
    }
    let output = rule_output(block, k);
    Some(Step { output, target })
}

// The byte at a place, 0 past the end.
fn operand(rest: &[u8], i: usize) -> u8
    ensures { result ≡ get_or rest.now i 0 }
{
    rest.get(i).copied().unwrap_or(0)
}

// The specification along the byte v of a record, before the bytes `rest`.
fn step(block: &Block, state: Option<u8>, v: u8, rest: &[u8]) -> Stepped
    requires { Wf block.now }
    ensures { Steps (rule_of block.now) (meant state) v rest.now result }
{
    if v == PULSE {
        return Stepped {
            wrong: false,
            state: Some(0),
        };
    }
    if v != SEEN {
        return Stepped {
            wrong: false,
            state,
        };
    }
    let o = operand(rest, 1);
    match specified(block, state, operand(rest, 0)) {
        None => Stepped {
            wrong: false,
            state: None,
        },
        Some(rule) => Stepped {
            wrong: rule.output != o,
            state: Some(rule.target),
        },
    }
}

// The offset of the first SEEN whose output differs from the specification's, if there is one.
pub(crate) fn first_difference(block: &Block, log: &[u8]) -> Option<usize>
    requires { Wf block.now }
    ensures { result ≡ coded (differs_from (rule_of block.now) none 0 log.now) }
{
    let mut state = None;
    for (at, v) in log.iter().enumerate() {
        let next = step(block, state, *v, &log[at + 1..]);
        if next.wrong {
            return Some(at);
        }
        state = next.state;
    }
    None
}
