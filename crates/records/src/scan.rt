// The first command of a record that is broken (02: 20).
ghost use Rattle.std.specs.Prelude.{◌≡◌, false};
ghost use Rattle.records.specs.Record.{in_range, broken_from};
ghost use Rattle.records.specs.Steps.{whole_answer, Takes};

use block::{PULSE, SEEN};
use sheet::Refusal;

// Whether an input and an output in range follow.
fn in_range(rest: &[u8], inputs: u8, outputs: u8) -> bool
    ensures { result ≡ in_range inputs outputs rest.now }
{
    rest.len() > 1 && rest[0] < inputs && rest[1] < outputs
}

// How many bytes the command v takes, before the bytes `rest`; none if it is cut, unknown, out of range, or a SEEN before any PULSE.
fn taken(v: u8, rest: &[u8], inputs: u8, outputs: u8, pulsed: bool) -> Option<usize>
    ensures { Takes inputs outputs pulsed v rest.now result }
{
    if v == PULSE {
        return Some(1);
    }
    if v == SEEN && pulsed && in_range(rest, inputs, outputs) {
        return Some(3);
    }
    None
}

// Whether a record has no broken command: refused with 20 at the first.
pub(crate) fn whole(log: &[u8], inputs: u8, outputs: u8) -> Result<(), Refusal>
    ensures { result ≡ whole_answer (broken_from inputs outputs false 0 0 log.now) }
{
    let mut at: usize = 0;
    let mut pulsed = false;
    // stays: a command takes one byte or three, so no range or iterator goes over the bytes
    while at < log.len() {
        let Some(n) = taken(log[at], &log[at + 1..], inputs, outputs, pulsed) else {
            return Err(Refusal::new(20, at));
        };
        at += n;
        pulsed = true;
    }
    Ok(())
}
