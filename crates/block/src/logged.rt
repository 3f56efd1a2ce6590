// What is observed along a log of bytes (02: 0x10 PULSE, 0x11 SEEN x o).
ghost use Rattle.std.specs.Prelude.{◌≡◌, ◌+◌, ◌*◌, ◌%◌, ◌<◌, ◌≤◌, length, get_or};
ghost use Rattle.block.specs.Logged.{ObservedAt};

// The commands of a log.
pub const PULSE: u8 = 16;

pub const SEEN: u8 = 17;

// An observation as a number: 256 is a reset, input * 16 + output an input with the output seen, and a larger number nothing; and the
// offset of the next.
#[derive(Clone, Copy)]
pub struct Observed {
    pub code: u16,
    pub next: usize,
}

fn seen_code(x: u8, o: u8) -> u16
    ensures { result ≡ x % 16 * 16 + o % 16 }
{
    u16::from(x % 16) * 16 + u16::from(o % 16)
}

// A SEEN command; its operands are passed over where neither can be a command.
fn seen_at(log: &[u8], at: usize) -> Observed
    requires { (at < length log.now) × (get_or log.now at 0 ≡ 17) }
    ensures { ObservedAt log.now at result }
{
    let left = log.len() - at;
    if left < 2 {
        return Observed {
            code: 0,
            next: at + 1,
        };
    }
    let x = log[at + 1];
    if left < 3 {
        return Observed {
            code: seen_code(x, 0),
            next: at + 1,
        };
    }
    let o = log[at + 2];
    let code = seen_code(x, o);
    if x < 16 {
        if o < 16 {
            return Observed { code, next: at + 3 };
        }
    }
    Observed { code, next: at + 1 }
}

// What stands at an offset of a log.
pub fn observe(log: &[u8], at: usize) -> Observed
    requires { at < length log.now }
    ensures { ObservedAt log.now at result }
{
    let v = log[at];
    if v == SEEN {
        return seen_at(log, at);
    }
    if v == PULSE {
        return Observed {
            code: 256,
            next: at + 1,
        };
    }
    Observed {
        code: 512,
        next: at + 1,
    }
}
