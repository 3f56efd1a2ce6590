// The bytes of a sheet, command by command, from a place of a buffer on; each function gives the place after them.
// stays: the buffer and the place are two parameters. A cursor that held the buffer's `&mut` is no plainer: each function here, and each
// that calls one, would have to promise too that it still holds that very buffer (its ghost name).
ghost use Rattle.std.specs.Prelude.{[], ◌∷◌, ◌+◌, ◌≤◌, ◌<◌, length};
ghost use Rattle.sheet.specs.Encode.{quiet_bytes, row_bytes, operand_bytes, press_bytes, test_bytes};
ghost use Rattle.writing.specs.Drawing.{rows_of, tests_of, total};
ghost use Rattle.writing.specs.words.Spelled.{Spelled};

// The commands' bytes.
pub const SIZE: u8 = 1;

pub const RULE: u8 = 2;

pub const FAULT: u8 = 3;

pub const TEST: u8 = 4;

pub const PRESS: u8 = 5;

pub const END: u8 = 6;

pub const START: u8 = 7;

pub const QUIET: u8 = 8;

pub fn byte(b: u8, sheet: &mut [u8], at: usize) -> usize
    requires { at < length sheet.old }
    ensures { Spelled sheet.old sheet.new at result (b ∷ []) }
{
    sheet[at] = b;
    at + 1
}

pub fn bytes(part: &[u8], sheet: &mut [u8], at: usize) -> usize
    requires { at + length part.now ≤ length sheet.old }
    ensures { Spelled sheet.old sheet.new at result part.now }
{
    // stays a loop: `copy_from_slice` into a lent buffer would make the archive call memmove, which C is promised it does not
    let mut to = at;
    for x in part {
        to = byte(*x, sheet, to);
    }
    to
}

pub(crate) fn command(b: u8, operands: &[u8], sheet: &mut [u8], at: usize) -> usize
    requires { at + length (b ∷ operands.now) ≤ length sheet.old }
    ensures { Spelled sheet.old sheet.new at result (b ∷ operands.now) }
{
    let to = byte(b, sheet, at);
    bytes(operands, sheet, to)
}

// QUIET, if it stands.
pub(crate) fn quieted(quiet: bool, sheet: &mut [u8], at: usize) -> usize
    requires { at + length (quiet_bytes quiet) ≤ length sheet.old }
    ensures { Spelled sheet.old sheet.new at result (quiet_bytes quiet) }
{
    if quiet { byte(QUIET, sheet, at) } else { at }
}

// A command for each whole row of a table.
pub(crate) fn rows(b: u8, table: &[u8], sheet: &mut [u8], at: usize) -> usize
    requires { at + length (row_bytes b (rows_of table.now)) ≤ length sheet.old }
    ensures { Spelled sheet.old sheet.new at result (row_bytes b (rows_of table.now)) }
{
    let mut to = at;
    for row in table.chunks_exact(4) {
        to = command(b, row, sheet, to);
    }
    to
}

// A command with one operand for each number of a table.
pub(crate) fn operands(b: u8, table: &[u8], sheet: &mut [u8], at: usize) -> usize
    requires { at + length (operand_bytes b table.now) ≤ length sheet.old }
    ensures { Spelled sheet.old sheet.new at result (operand_bytes b table.now) }
{
    let mut to = at;
    for x in table {
        to = command(b, &[*x], sheet, to);
    }
    to
}

pub fn test(inputs: &[u8], sheet: &mut [u8], at: usize) -> usize
    requires { at + length (4 ∷ press_bytes inputs.now) ≤ length sheet.old }
    ensures { Spelled sheet.old sheet.new at result (4 ∷ press_bytes inputs.now) }
{
    let to = byte(TEST, sheet, at);
    operands(PRESS, inputs, sheet, to)
}

// A test for each length.
pub(crate) fn tests(lengths: &[u16], inputs: &[u8], sheet: &mut [u8], at: usize) -> usize
    requires lengths_in_bounds { total lengths.now ≤ length inputs.now }
    requires inputs_in_bounds { at + length (test_bytes (tests_of lengths.now inputs.now)) ≤ length sheet.old }
    ensures { Spelled sheet.old sheet.new at result (test_bytes (tests_of lengths.now inputs.now)) }
{
    let mut to = at;
    let mut rest = inputs;
    for n in lengths {
        let (now, later) = rest.split_at(usize::from(*n));
        to = test(now, sheet, to);
        rest = later;
    }
    to
}
