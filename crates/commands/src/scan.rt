// Reading a whole sheet, command by command.
ghost use Rattle.std.specs.Prelude.{◌≡◌, ◌+◌, length};
ghost use Rattle.sheet.specs.Reading.{blank, from};
ghost use Rattle.commands.specs.words.Held.{rank_of, Holds, Next, Scanned};

use crate::fetch::{Command, Missing};
use crate::rules::{Phase, State, may_stand};
use ending::finish;
use sheet::Refusal;

// The sheet and the place of the next command, together.
#[derive(Clone, Copy)]
pub(crate) struct Reader<'a> {
    pub(crate) sheet: &'a [u8],
    pub(crate) at: usize,
}

impl<'a> Reader<'a> {
    // The next command: 2 if no command byte is there, 3 if it may not stand here, 2 if operands are missing.
    fn next(&self, phase: Phase) -> Result<Command, Refusal>
        ensures { Next self.now.sheet.now self.now.at (rank_of phase) result }
    {
        match Command::fetch(self.sheet, self.at) {
            Ok(command) if may_stand(phase, command.byte()) => Ok(command),
            Err(Missing::Nothing) => Err(Refusal::new(2, self.sheet.len())),
            Err(Missing::Unknown(_)) => Err(Refusal::new(3, self.at)),
            Err(Missing::Short(byte)) if may_stand(phase, byte) => Err(Refusal::new(2, self.at)),
            _ => Err(Refusal::new(3, self.at)),
        }
    }
}

// All commands, each by its own rules, up to END; gives the number of open pairs.
pub(crate) fn scan(sheet: &[u8], state: &mut State) -> Result<usize, Refusal>
    requires { Holds state.old blank }
    ensures { Scanned (from (length sheet.now + 1) blank sheet.now 0) result state.new }
{
    let mut reader = Reader { sheet, at: 0 };
    loop {
        let command = reader.next(state.phase)?;
        if let Command::End = command {
            return finish(
                reader.sheet,
                reader.at,
                state.size,
                state.starts,
                state.quiet,
                &state.target,
                &state.faulty,
            );
        }
        if let Err(why) = state.apply(command) {
            return Err(Refusal::new(why.number(), reader.at));
        }
        reader.at += command.width();
    }
}
