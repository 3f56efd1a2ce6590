// A sheet's commands, one after the other.
// Promises 01's answer of Read for every string of bytes, and the tables of an accepted sheet's rules.
// Called by `reading`, which hands `read` on to users and to the crates above.

#![tactic(auto)]

ghost use Rattle.std.specs.Prelude.{◌≡◌, IsErr};
ghost use Rattle.sheet.specs.Reading as reading;
ghost use Rattle.sheet.specs.Reading.{blank};
ghost use Rattle.sheet.specs.Tables.{read_answer};
ghost use Rattle.commands.specs.words.Held.{Holds, RulesIn};

use rules::State;
use sheet::{Refusal, Summary};

pub mod fetch;
mod rules;
mod scan;

// A whole sheet from its first command on. Of an accepted one the state's tables hold the rules.
fn read_into(sheet: &[u8], state: &mut State) -> Result<Summary, Refusal>
    requires { Holds state.old blank }
    ensures answer { result ≡ read_answer (reading.reading sheet.now) }
    ensures rules { RulesIn (reading.reading sheet.now) state.new.output state.new.target }
{
    if sheet.len() > 16384 {
        return Err(Refusal::new(1, 16384));
    }
    let suspects = scan::scan(sheet, state)?;
    Ok(state.summary(suspects))
}

// 01's Read.
pub fn read(sheet: &[u8]) -> Result<Summary, Refusal>
    ensures { result ≡ read_answer (reading.reading sheet.now) }
{
    let mut state = State::fresh();
    read_into(sheet, &mut state)
}

// The same, with the rules of an accepted sheet by pair, at state * 16 + input: output and next state, 255 where there is no rule; on a
// refusal the two tables stay as they were. For `reading`, no operation.
pub fn read_rules(
    sheet: &[u8],
    output: &mut [u8; 256],
    target: &mut [u8; 256],
) -> Result<Summary, Refusal>
    ensures answer { result ≡ read_answer (reading.reading sheet.now) }
    ensures rules { RulesIn (reading.reading sheet.now) output.new target.new }
    ensures refused { IsErr result → (output.new ≡ output.old) × (target.new ≡ target.old) }
{
    let mut state = State::fresh();
    let summary = read_into(sheet, &mut state)?;
    *output = state.output;
    *target = state.target;
    Ok(summary)
}
