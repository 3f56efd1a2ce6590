// The test suite of a sheet as a log: a PULSE for each test, a SEEN for each input with the specified output.
ghost use Rattle.std.specs.Prelude.{◌+◌, ◌≤◌, [], ◌∷◌, length};
ghost use Rattle.sheet.specs.Sheet.{Sheet};
ghost use Rattle.model.specs.Log.{reset, test_log, tests_log};
ghost use Rattle.block.specs.Tabulated.{rule_of};
ghost use Rattle.block.specs.Logged.{log_bytes};
ghost use Rattle.logs.specs.Tests.{inputs_at, tests_at, TestAt, TestsAt};
ghost use Rattle.logs.specs.Recorded.{Written, Recorded};
ghost use Rattle.logs.specs.Suites.{SuiteOf, Logged};

use block::*;

// Writes a reset and the inputs of the test whose PRESS commands start at `start`, from a place of the log on; gives the place after
// them.
pub fn record_test(
    sheet: &[u8],
    start: usize,
    inputs: usize,
    block: &Block,
    log: &mut [u8],
    from: usize,
) -> usize
    requires test_at { TestAt (rule_of block.now) sheet.now start inputs }
    requires inputs_in_bounds { from + length (log_bytes (reset ∷ test_log (rule_of block.now) 0 (inputs_at sheet.now start inputs))) ≤ length log.old }
    ensures { Written log.old log.new from result (log_bytes (reset ∷ test_log (rule_of block.now) 0 (inputs_at sheet.now start inputs))) [] }
{
    log[from] = PULSE;
    let mut to = from + 1;
    let mut s: u8 = 0;
    for i in 0..inputs {
        let x = sheet[start + 2 * i + 1];
        let k = place(s, x);
        log[to] = SEEN;
        log[to + 1] = x;
        log[to + 2] = rule_output(block, k);
        s = rule_target(block, k);
        to += 3;
    }
    to
}

// Writes the log of the tests at the log's front; gives its length.
fn record_suite(loaded: &Loaded, log: &mut [u8]) -> usize
    requires tests_at { TestsAt (rule_of loaded.now.block) loaded.now.sheet.now loaded.now.starts loaded.now.lengths loaded.now.size.tests }
    requires tests_in_bounds { length (log_bytes (tests_log (rule_of loaded.now.block) (tests_at loaded.now.sheet.now loaded.now.starts loaded.now.lengths loaded.now.size.tests))) ≤ length log.old }
    ensures { Recorded log.old log.new result (log_bytes (tests_log (rule_of loaded.now.block) (tests_at loaded.now.sheet.now loaded.now.starts loaded.now.lengths loaded.now.size.tests))) }
{
    let mut to: usize = 0;
    for t in 0..loaded.size.tests {
        let start = usize::from(loaded.starts[t]);
        let inputs = usize::from(loaded.lengths[t]);
        to = record_test(loaded.sheet, start, inputs, &loaded.block, log, to);
    }
    to
}

// Writes the log of an accepted sheet's suite at the log's front; gives its length.
pub fn log_suite(loaded: &Loaded, log: &mut [u8]) -> usize
    requires { (sh : Sheet) × SuiteOf sh loaded.now (length log.old) }
    ensures { (sh : Sheet) → SuiteOf sh loaded.now (length log.old) → Logged sh log.new result }
{
    record_suite(loaded, log)
}
