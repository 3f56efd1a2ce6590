// The mutants of a tray on the tests of a sheet, along the log of its suite.
ghost use Rattle.std.specs.Prelude.{◌≤◌, ◌≡◌, length};
ghost use Rattle.lists.specs.Lists.{overlay};
ghost use Rattle.sheet.specs.Sheet.{Sheet};
ghost use Rattle.model.specs.Mutant.{IsMutant};
ghost use Rattle.model.specs.Suite.{first_failed_of};
ghost use Rattle.model.specs.Tray.{result_of, try_on};
ghost use Rattle.block.specs.Tabled.{LoadedFrom};
ghost use Rattle.logs.specs.Suites.{SuiteOf};
ghost use Rattle.search.specs.Search.{ForSheet};
ghost use Rattle.tray.specs.Answers.{Tries};
ghost use Rattle.tray.specs.words.Trays.{TrayOf, results_of};

use crate::fitting::{first_high, is_tray};
use block::{BLOCK, Loaded, slots};
use logs::{first_wrong, log_suite};
use machine::machine_of;
use sheet::Refusal;

// The result of one mutant: the first test of the log that it fails.
fn try_board(block: &[u8; BLOCK], log: &[u8], mutant: &[u8]) -> u16
    requires { (sh : Sheet) × ForSheet sh block.now log.now × IsMutant sh mutant.now }
    ensures { (sh : Sheet) → ForSheet sh block.now log.now → IsMutant sh mutant.now → result ≡ result_of (first_failed_of sh mutant.now) }
{
    let machine = machine_of(block, mutant).unwrap();
    match first_wrong(log, &machine.output, &machine.target, machine.start) {
        None => u16::MAX,
        Some(wrong) => wrong.test as u16,
    }
}

// The result of each mutant, at the front of the results.
fn try_boards(block: &[u8; BLOCK], log: &[u8], boards: usize, tray: &[u8], results: &mut [u16])
    requires { (sh : Sheet) × ForSheet sh block.now log.now × TrayOf sh boards tray.now (length results.old) }
    ensures { (sh : Sheet) → ForSheet sh block.now log.now → TrayOf sh boards tray.now (length results.old) → results.new ≡ overlay (results_of sh boards tray.now) results.old }
{
    let count = usize::from(slots(block));
    let mut at = 0;
    for i in 0..boards {
        let end = at + count;
        results[i] = try_board(block, log, &tray[at..end]);
        at = end;
    }
}

// The same, from the sheet, with room for its suite's log.
fn try_logged<const ROOM: usize>(loaded: &Loaded, boards: usize, tray: &[u8], results: &mut [u16])
    requires room { ROOM ≤ 24576 }
    requires loaded { (sh : Sheet) × SuiteOf sh loaded.now ROOM × TrayOf sh boards tray.now (length results.old) }
    ensures { (sh : Sheet) → SuiteOf sh loaded.now ROOM → TrayOf sh boards tray.now (length results.old) → results.new ≡ overlay (results_of sh boards tray.now) results.old }
{
    let mut log = [0u8; ROOM];
    let n = log_suite(loaded, &mut log);
    try_boards(&loaded.block, &log[..n], boards, tray, results);
}

// A tray, on an accepted sheet: nothing is written before the last refusal. A short array for the log of a short sheet, a long one for
// any other.
pub(crate) fn try_loaded(
    loaded: &Loaded,
    boards: usize,
    tray: &[u8],
    results: &mut [u16],
) -> Result<(), Refusal>
    requires { (sh : Sheet) × LoadedFrom sh loaded.now }
    ensures { (sh : Sheet) → LoadedFrom sh loaded.now → Tries (try_on sh boards tray.now (length results.old)) result results.old results.new }
{
    if !is_tray(boards, usize::from(slots(&loaded.block)), tray.len()) {
        return Err(Refusal::new(13, 0));
    }
    if let Some(high) = first_high(&loaded.block, tray) {
        return Err(Refusal::new(14, high));
    }
    if results.len() < boards {
        return Err(Refusal::new(16, 0));
    }
    if loaded.sheet.len() <= 1024 {
        try_logged::<1536>(loaded, boards, tray, results);
    } else {
        try_logged::<24576>(loaded, boards, tray, results);
    }
    Ok(())
}
