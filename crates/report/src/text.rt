// Text in a buffer, a piece at a time: each function writes at a place and answers the place after it.
ghost use Rattle.std.specs.Prelude.{◌∷◌, ◌+◌, ◌*◌, ◌<◌, ◌≤◌, length};
ghost use Rattle.writing.specs.words.Spelled.{Spelled};
ghost use Rattle.report.specs.Text.{decimal, fields, line, survivor_lines, refused_line};

use writing::spell::{byte, bytes};

// A number in decimal.
pub(crate) fn put_number(out: &mut [u8], at: usize, n: usize) -> usize
    requires { at + length (decimal n) ≤ length out.old }
    ensures { Spelled out.old out.new at result (decimal n) }
{
    let digit = b'0' + (n % 10) as u8;
    if n < 10 {
        return byte(digit, out, at);
    }
    let end = put_number(out, at, n / 10);
    byte(digit, out, end)
}

// A byte's number after a blank.
fn put_field(out: &mut [u8], at: usize, number: u8) -> usize
    requires { at + 4 ≤ length out.old }
    ensures text { Spelled out.old out.new at result (32 ∷ decimal number) }
    ensures short { result ≤ at + 4 }
{
    let blank = byte(b' ', out, at);
    put_number(out, blank, number as usize)
}

// Numbers, each after a blank: a byte takes at most four.
pub(crate) fn put_fields(out: &mut [u8], at: usize, numbers: &[u8]) -> usize
    requires { at + 4 * length numbers.now ≤ length out.old }
    ensures text { Spelled out.old out.new at result (fields numbers.now) }
    ensures short { result ≤ at + 4 * length numbers.now }
{
    let mut end = at;
    for number in numbers {
        end = put_field(out, end, *number);
    }
    end
}

// A line: a word and numbers.
pub(crate) fn put_line(out: &mut [u8], at: usize, name: &[u8], numbers: &[u8]) -> usize
    requires { at + length name.now + 4 * length numbers.now < length out.old }
    ensures text { Spelled out.old out.new at result (line name.now numbers.now) }
    ensures short { result ≤ at + length name.now + 4 * length numbers.now + 1 }
{
    let middle = bytes(name, out, at);
    let end = put_fields(out, middle, numbers);
    byte(b'\n', out, end)
}

// The three lines of a survivor.
pub(crate) fn put_survivor(out: &mut [u8], mutant: &[u8], sequence: &[u8]) -> usize
    requires { 21 + 4 * length mutant.now + 4 * length sequence.now ≤ length out.old }
    ensures { Spelled out.old out.new 0 result (survivor_lines mutant.now sequence.now) }
{
    let first = bytes(b"survivor\n", out, 0);
    let second = put_line(out, first, b"board", mutant);
    put_line(out, second, b"press", sequence)
}

// The line of a refusal: at most 3 digits for the number and 20 for the place.
pub(crate) fn put_refused(out: &mut [u8], number: u8, place: usize) -> usize
    requires { 36 ≤ length out.old }
    ensures { Spelled out.old out.new 0 result (refused_line number place) }
{
    let head = bytes(b"refused ", out, 0);
    let at = put_number(out, head, number as usize);
    let middle = bytes(b" at ", out, at);
    let end = put_number(out, middle, place);
    byte(b'\n', out, end)
}
