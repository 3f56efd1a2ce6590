// A command and its operands, cut out of the sheet: every command byte and every operand that this crate and `reading` read is read here.
ghost use Rattle.std.specs.Prelude.{◌≡◌};
ghost use Rattle.sheet.specs.Reading.{width};
ghost use Rattle.commands.specs.words.Fetch.{byte_of, command_at, fetch_at};

use sheet::{Row, Size};

// A command and its operands.
#[derive(Clone, Copy, Debug, PartialEq, Eq)]
pub enum Command {
    Size(Size),
    Rule(Row),
    Fault(Row),
    Test,
    Press(u8),
    End,
    Start(u8),
    Quiet,
}

// Why no command stands at a place: no byte is there; a command's byte whose operands are missing; a byte that is no command's.
#[derive(Clone, Copy, Debug, PartialEq, Eq)]
pub enum Missing {
    Nothing,
    Short(u8),
    Unknown(u8),
}

impl Command {
    // The command at a place of the sheet; none where no command's byte stands there, or its operands are missing.
    // Inlined, as each caller asks for one or two kinds: then only these are looked for.
    #[inline(always)]
    pub fn at(sheet: &[u8], at: usize) -> Option<Command>
        ensures { result ≡ command_at sheet.now at }
    {
        if at > sheet.len() {
            return None;
        }
        match &sheet[at..] {
            [1, states, inputs, outputs, ..] => Some(Command::Size(Size {
                states: *states,
                inputs: *inputs,
                outputs: *outputs,
            })),
            [2, source, input, output, target, ..] => Some(Command::Rule(Row {
                source: *source,
                input: *input,
                output: *output,
                target: *target,
            })),
            [3, source, input, output, target, ..] => Some(Command::Fault(Row {
                source: *source,
                input: *input,
                output: *output,
                target: *target,
            })),
            [4, ..] => Some(Command::Test),
            [5, input, ..] => Some(Command::Press(*input)),
            [6, ..] => Some(Command::End),
            [7, state, ..] => Some(Command::Start(*state)),
            [8, ..] => Some(Command::Quiet),
            _ => None,
        }
    }

    // The same, or what is missing of it.
    #[inline(always)]
    pub fn fetch(sheet: &[u8], at: usize) -> Result<Command, Missing>
        ensures { result ≡ fetch_at sheet.now at }
    {
        if let Some(command) = Command::at(sheet, at) {
            return Ok(command);
        }
        match sheet.get(at) {
            None => Err(Missing::Nothing),
            Some(byte @ 1..=8) => Err(Missing::Short(*byte)),
            Some(byte) => Err(Missing::Unknown(*byte)),
        }
    }

    // Its own byte.
    pub(crate) fn byte(self) -> u8
        ensures { result ≡ byte_of self }
    {
        match self {
            Command::Size(_) => 1,
            Command::Rule(_) => 2,
            Command::Fault(_) => 3,
            Command::Test => 4,
            Command::Press(_) => 5,
            Command::End => 6,
            Command::Start(_) => 7,
            Command::Quiet => 8,
        }
    }

    // How many bytes it has, its own among them.
    pub fn width(self) -> usize
        ensures { result ≡ width (byte_of self) }
    {
        match self {
            Command::Size(_) => 4,
            Command::Rule(_) | Command::Fault(_) => 5,
            Command::Press(_) | Command::Start(_) => 2,
            Command::Quiet | Command::Test | Command::End => 1,
        }
    }
}
