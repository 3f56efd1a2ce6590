// The text that the program prints for a sheet.
// Promises every byte of it, by the judgement of the sheet.
// Called by `judge`.

#![tactic(auto)]

ghost use Rattle.std.specs.Prelude.{◌≡◌, length};
ghost use Rattle.sheet.specs.Reading.{reading};
ghost use Rattle.sheet.specs.Tables.{read_answer};
ghost use Rattle.model.specs.Operations.{judging};
ghost use Rattle.report.specs.Text.{Prints, text_in, suspects_in};

mod text;

use text::{put_refused, put_survivor};
use writing::spell::bytes;

// How many choices a mutant of the sheet has: judge answers only the length of the sequence.
fn suspects(sheet: &[u8]) -> usize
    ensures { result ≡ suspects_in (read_answer (reading sheet.now)) }
{
    match reading::read(sheet) {
        Ok(summary) => summary.suspects,
        Err(_) => 0,
    }
}

// What the program prints for a sheet, at the buffer's front, and its length. 2,048 bytes hold it for every sheet; a smaller
// buffer is left as it was.
pub fn report(sheet: &[u8], out: &mut [u8]) -> usize
    ensures { Prints out.old out.new result (text_in (length out.old) (judging sheet.now 32 256)) }
{
    if out.len() < 2048 {
        return 0;
    }
    let mut mutant = [0u8; 32];
    let mut sequence = [0u8; 256];
    match mutation::judge(sheet, &mut mutant, &mut sequence) {
        Ok(None) => bytes(b"complete\n", out, 0),
        Ok(Some(length)) => {
            let choices = suspects(sheet);
            put_survivor(out, &mutant[..choices], &sequence[..length])
        }
        Err(why) => put_refused(out, why.number, why.place),
    }
}
