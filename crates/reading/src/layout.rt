// Where the parts of an accepted sheet stand.
ghost use Rattle.std.specs.Prelude.{◌≡◌, ◌≤◌, length};
ghost use Rattle.sheet.specs.Sheet.{Sheet};
ghost use Rattle.sheet.specs.Reading.{accepted, reading};
ghost use Rattle.sheet.specs.Tables.{read_answer};
ghost use Rattle.reading.specs.Layout.{layout_of};
ghost use Rattle.commands.specs.words.Fetch.{command_at};
ghost use Rattle.reading.specs.words.Places.{one_operand, OperandsTo};

use commands::fetch::Command;
use sheet::Summary;

// Whether a QUIET stands, and where the RULEs, the FAULTs, the STARTs and the tests begin.
#[derive(Clone, Copy, Debug, PartialEq, Eq)]
pub struct Layout {
    pub quiet: bool,
    pub rules: usize,
    pub faults: usize,
    pub starts: usize,
    pub tests: usize,
}

// Does a command with one operand stand at a place: a START or a PRESS?
fn is_operand(sheet: &[u8], at: usize) -> bool
    ensures { result ≡ one_operand (command_at sheet.now at) }
{
    Command::at(sheet, at).is_some_and(|command| command.width() == 2)
}

// Where the commands with one operand end that stand from a place on: the STARTs of a sheet, or the PRESSes of a test.
pub(crate) fn operands_end(sheet: &[u8], place: usize) -> usize
    requires { place ≤ length sheet.now }
    ensures { OperandsTo sheet.now place result }
{
    let mut at = place;
    // stays: no index is counted; the place after the last is the answer, and how many there are is not known before.
    while is_operand(sheet, at) {
        at += 2;
    }
    at
}

// Does a QUIET stand after SIZE?
fn is_quiet(sheet: &[u8]) -> bool
    ensures { (sh : Sheet) → reading sheet.now ≡ accepted sh → result ≡ sh.quiet }
{
    let Some(command) = Command::at(sheet, 4) else {
        return false;
    };
    matches!(command, Command::Quiet)
}

// The parts of a sheet that Read accepts, of what it told.
pub fn layout_of(sheet: &[u8], summary: Summary) -> Layout
    requires { Ok summary ≡ read_answer (reading sheet.now) }
    ensures { (sh : Sheet) → reading sheet.now ≡ accepted sh → result ≡ layout_of sh }
{
    let quiet = is_quiet(sheet);
    let rules = 4 + usize::from(quiet);
    let faults = rules + 5 * summary.rules;
    let starts = faults + 5 * summary.faults;
    let tests = operands_end(sheet, starts);
    Layout {
        quiet,
        rules,
        faults,
        starts,
        tests,
    }
}
