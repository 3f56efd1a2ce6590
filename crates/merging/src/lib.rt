// Two fault lists become one (02's Point 10): the faults and STARTs of two sheets of one machine, each once, and the tests of both.
// Promises the merged sheet, byte for byte, by the definition of `renaming`, or the refusal and the sheet that it concerns; and that a suite
// which is complete for the merged sheet finds the nonconforming mutants of both. Called by users, and by `ranthelo`.

#![tactic(auto)]

mod join;
mod outline;
mod union;

ghost use Rattle.std.specs.Prelude.{◌≡◌, length};
ghost use Rattle.lists.specs.Lists.{overlay};
ghost use Rattle.renaming.specs.Merging.{merging};
ghost use Rattle.sheet.specs.Reading as reading;
ghost use Rattle.sheet.specs.Tables.{nought_tables, read_into};
ghost use Rattle.merging.specs.Answers.{merged_answer, merged_writes, ToldMerge};
ghost use Rattle.merging.specs.words.Outlined.{survey_answer};

use join::join;
use outline::{Outline, open_pairs};
use sheet::{Refusal, Summary, Tables};

// The sheet that a refusal concerns: the first or the second one on reading, otherwise the merged one.
#[derive(Clone, Copy, Debug, PartialEq, Eq)]
pub enum Concerns {
    Merged,
    First,
    Second,
}

// Why two sheets are not merged.
#[derive(Clone, Copy, Debug, PartialEq, Eq)]
pub struct Unmerged {
    pub concerns: Concerns,
    pub why: Refusal,
}

// Reads one of the two sheets into tables of noughts.
fn survey(sheet: &[u8], concerns: Concerns, tables: &mut Tables) -> Result<Summary, Unmerged>
    requires { tables.old ≡ nought_tables }
    ensures answer { result ≡ survey_answer concerns (reading.reading sheet.now) }
    ensures tables { tables.new ≡ read_into (reading.reading sheet.now) tables.old }
{
    reading::load_noughts(sheet, tables).map_err(|why| Unmerged { concerns, why })
}

// The sheet with the faults and STARTs of both, each once, in order, and the first sheet's tests followed by the second's, at the buffer's front;
// gives its length.
pub fn merge(first: &[u8], second: &[u8], buffer: &mut [u8]) -> Result<usize, Unmerged>
    ensures answer { result ≡ merged_answer (merging first.now second.now (length buffer.old)) }
    ensures bytes { buffer.new ≡ overlay (merged_writes (merging first.now second.now (length buffer.old))) buffer.old }
    ensures told { ToldMerge first.now second.now result buffer.old buffer.new }
{
    let mut one = Tables::noughts();
    let x = survey(first, Concerns::First, &mut one)?;
    let mut other = Tables::noughts();
    let y = survey(second, Concerns::Second, &mut other)?;
    let pairs = open_pairs(&one.choices, &other.choices, x.states, x.inputs);
    let a = Outline::new(first, x);
    let b = Outline::new(second, y);
    join(a, b, pairs, buffer).map_err(|why| Unmerged {
        concerns: Concerns::Merged,
        why,
    })
}
