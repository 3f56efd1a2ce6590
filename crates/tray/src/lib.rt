// A tray of mutants (02: boards, their choice bytes end to end): the first failed test of each.
// Promises the answer and every lent number by the definition of `model`, and that the outcome equals the mutants taken singly.
// Called by users, and by `ranthelo`.

#![tactic(auto)]

ghost use Rattle.std.specs.Prelude.{◌≡◌, length};
ghost use Rattle.lists.specs.Lists.{overlay};
ghost use Rattle.model.specs.Tray.{trying};
ghost use Rattle.tray.specs.Answers.{tried_answer, tried_writes, ToldTried};

mod boards;
mod fitting;

use block::load;
use sheet::Refusal;

// The number of the first failed test of each mutant, 65,535 for none, at the front of the results.
pub fn first_failures(
    sheet: &[u8],
    boards: usize,
    choices: &[u8],
    results: &mut [u16],
) -> Result<(), Refusal>
    ensures answer { result ≡ tried_answer (trying sheet.now boards choices.now (length results.old)) }
    ensures numbers { results.new ≡ overlay (tried_writes (trying sheet.now boards choices.now (length results.old))) results.old }
    ensures told { ToldTried sheet.now boards choices.now (length results.old) result results.new }
{
    let loaded = load(sheet)?;
    boards::try_loaded(&loaded, boards, choices, results)
}
