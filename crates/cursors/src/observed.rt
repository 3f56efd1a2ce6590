// The tests of a log: where they begin, and what they observe.
ghost use Rattle.std.specs.Prelude.{◌≡◌, ◌+◌, ◌*◌, ◌<◌, ◌≤◌, ◌%◌, length, get_or};
ghost use Rattle.cursors.specs.FactsKept.{FactsKept};

use block::*;
use cubes::tables::{Facts, TEST_COUNT, TESTS, TESTS_HIGH};

// Notes a byte of a log where it is a PULSE: the next test begins there. How many tests there are. A test is followed only where its
// place has 32 bits.
fn enter_test(facts: &mut Facts, tests: usize, v: u8, at: usize) -> usize
    requires { (length facts.old ≡ 1088) × (tests ≤ 256) }
    ensures { FactsKept facts.old facts.new × (result ≤ 256) }
{
    if v != PULSE {
        return tests;
    }
    if tests == 256 {
        return tests;
    }
    if at >= 4294967296 {
        return tests;
    }
    facts[TESTS + tests] = (at % 65536) as u16;
    facts[TESTS_HIGH + tests] = (at / 65536) as u16;
    tests + 1
}

// Notes where the tests of a log begin, and how many there are (the first 256 of them).
pub fn find_tests(log: &[u8], facts: &mut Facts)
    requires { length facts.old ≡ 1088 }
    ensures { FactsKept facts.old facts.new }
{
    let mut tests: usize = 0;
    for (at, v) in log.iter().enumerate() {
        tests = enter_test(facts, tests, *v, at);
    }
    facts[TEST_COUNT] = tests as u16;
}

// Notes one test more, whose reset stands at a place of the log.
pub fn add_test(facts: &mut Facts, at: usize)
    requires { length facts.old ≡ 1088 }
    ensures { FactsKept facts.old facts.new }
{
    let tests = tests_of(facts);
    if tests >= 256 {
        return;
    }
    let next = enter_test(facts, tests, PULSE, at);
    facts[TEST_COUNT] = next as u16;
}

// Where the reset of a test stands.
pub fn test_at(facts: &Facts, t: usize) -> usize
    ensures { (result ≡ get_or facts.now (832 + t % 256) 0 * 65536 + get_or facts.now (560 + t % 256) 0) × (result < 4294967296) }
{
    wide16(facts[TESTS_HIGH + t % 256]) * 65536 + wide16(facts[TESTS + t % 256])
}

// How many tests there are.
pub fn tests_of(facts: &Facts) -> usize
    ensures { result ≡ get_or facts.now 816 0 }
{
    wide16(facts[TEST_COUNT])
}

// An observation; past the end of the log a reset.
pub fn observed(log: &[u8], at: usize) -> u16 {
    if at >= log.len() {
        return 256;
    }
    observe(log, at).code
}
