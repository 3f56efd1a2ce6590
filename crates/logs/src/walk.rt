// A tabulated mutant along a log.
ghost use Rattle.std.specs.Prelude.{◌≡◌};
ghost use Rattle.model.specs.Log.{failed_in};
ghost use Rattle.block.specs.Logged.{observations};
ghost use Rattle.logs.specs.Walked.{moves_in, wrong_of};

use block::*;

// A wrong output: which test, and its position there.
#[derive(Clone, Copy, Debug, PartialEq, Eq)]
pub struct Wrong {
    pub test: usize,
    pub position: usize,
}

// The first output of the log that the mutant does not give: at state * 16 + input the tables hold its outputs and next states.
pub fn first_wrong(log: &[u8], outputs: &[u8; 256], targets: &[u8; 256], start: u8) -> Option<Wrong>
    ensures { result ≡ wrong_of (failed_in (moves_in outputs.now targets.now) start start 0 0 (observations log.now)) }
{
    let mut s = start;
    let mut begun: usize = 0;
    let mut position: usize = 0;
    let mut i: usize = 0;
    // stays: how far the next observation is, `observe` finds
    while i < log.len() {
        let seen = observe(log, i);
        let v = seen.code;
        i = seen.next;
        if v == 256 {
            s = start;
            begun += 1;
            position = 0;
            continue;
        }
        if v > 256 {
            continue;
        }
        let k = some_place(s, input_of(v));
        if outputs[k] != output_of(v) {
            let test = begun.saturating_sub(1);
            return Some(Wrong { test, position });
        }
        s = targets[k];
        position += 1;
    }
    None
}
