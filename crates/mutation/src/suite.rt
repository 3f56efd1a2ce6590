// A mutant on the tests of a sheet, along the log of its suite.
ghost use Rattle.std.specs.Prelude.{◌≤◌, ◌≡◌, length};
ghost use Rattle.sheet.specs.Sheet.{Sheet};
ghost use Rattle.sheet.specs.Reading.{accepted};
ghost use Rattle.model.specs.Suite.{finding_of};
ghost use Rattle.model.specs.Operations.{with_mutant};
ghost use Rattle.mutation.specs.Answers.{failed_answer};
ghost use Rattle.block.specs.Tabled.{LoadedFrom};
ghost use Rattle.logs.specs.Suites.{SuiteOf};

use crate::{Tested, counted};
use block::Loaded;
use logs::{first_wrong, log_suite};
use machine::machine_of;
use sheet::Refusal;
use usage::use_tried;

// First failed test, on an accepted sheet, with room for its suite's log.
fn first_failed_logged<const ROOM: usize>(loaded: &Loaded, mutant: &[u8]) -> Result<Tested, Refusal>
    requires room { ROOM ≤ 24576 }
    requires loaded { (sh : Sheet) × SuiteOf sh loaded.now ROOM }
    ensures { (sh : Sheet) → SuiteOf sh loaded.now ROOM → result ≡ failed_answer (with_mutant sh mutant.now (accepted (finding_of sh mutant.now))) }
{
    let machine = machine_of(&loaded.block, mutant)?;
    let mut log = [0u8; ROOM];
    let n = log_suite(loaded, &mut log);
    let failed = first_wrong(&log[..n], &machine.output, &machine.target, machine.start);
    let set = use_tried(loaded, failed, &machine.target, machine.start);
    Ok(Tested {
        failed,
        used: counted(set),
    })
}

// First failed test, on an accepted sheet: a short array for the log of a short one, a long one for any other.
pub(crate) fn first_failed_loaded(loaded: &Loaded, mutant: &[u8]) -> Result<Tested, Refusal>
    requires { (sh : Sheet) × LoadedFrom sh loaded.now }
    ensures { (sh : Sheet) → LoadedFrom sh loaded.now → result ≡ failed_answer (with_mutant sh mutant.now (accepted (finding_of sh mutant.now))) }
{
    if loaded.sheet.len() <= 1024 {
        first_failed_logged::<1536>(loaded, mutant)
    } else {
        first_failed_logged::<24576>(loaded, mutant)
    }
}
