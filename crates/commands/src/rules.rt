// What a command must meet, in the order of 01's numbers, and what it adds to what is read so far.
ghost use Rattle.std.specs.Prelude.{◌≡◌, true, ◌<◌, ◌≤◌};
ghost use Rattle.sheet.specs.Sheet.{rule_at};
ghost use Rattle.sheet.specs.Reading.{allowed, is_other, Progress, blank};
ghost use Rattle.sheet.specs.Reading as reading;
ghost use Rattle.commands.specs.words.Fetch.{byte_of, says};
ghost use Rattle.commands.specs.words.Held.{rank_of, number_of, summary_by, Holds, Applies, advanced};

use crate::fetch::Command;
use sheet::{Row, Size, Summary};

// How far a sheet has come.
#[derive(Clone, Copy)]
pub(crate) enum Phase {
    Unsized,
    Sized,
    Quieted,
    Ruled,
    Faulted,
    Started,
    Testing,
}

// The rule that a command breaks.
#[derive(Clone, Copy)]
pub(crate) enum Broken {
    // A SIZE with a number that is not 1 to 16.
    Size,
    // A number beyond the SIZE's.
    Range,
    // A command that does not ascend.
    Order,
    // A FAULT where there is no other RULE.
    NoOther,
    // A START of state 0.
    StateZero,
    // One too many.
    Many,
    // A PRESS where the test has reached no RULE.
    NoRule,
}

impl Broken {
    // 01's number.
    pub(crate) fn number(self) -> u8
        ensures { result ≡ number_of self }
    {
        match self {
            Broken::Size => 4,
            Broken::Range => 5,
            Broken::Order => 6,
            Broken::NoOther | Broken::StateZero => 7,
            Broken::Many => 8,
            Broken::NoRule => 9,
        }
    }
}

// The number of rules, or of faults, and the last one's key, which has the row's numbers as digits to base 16: a greater key stands later.
#[derive(Clone, Copy)]
pub(crate) struct Listed {
    pub(crate) count: usize,
    pub(crate) last: Option<usize>,
}

// The number of tests, of inputs in the last one, and the state that it has reached.
#[derive(Clone, Copy)]
pub(crate) struct Tests {
    pub(crate) count: usize,
    pub(crate) inputs: usize,
    pub(crate) state: usize,
}

// What is read so far. `starts` is one more than the last START's state, 0 before the first. Three tables by pair, at state * 16 + input:
// the rule's output and its next state (255 for no rule), and 1 where there is a fault.
// stays: 255 for no rule (definition `tables_of`), bytes for faults and 0 for no START (`ending::finish` takes them so).
#[derive(Drop)]
pub(crate) struct State {
    pub(crate) phase: Phase,
    pub(crate) size: Size,
    pub(crate) quiet: bool,
    pub(crate) rules: Listed,
    pub(crate) faults: Listed,
    pub(crate) starts: usize,
    pub(crate) tests: Tests,
    pub(crate) output: [u8; 256],
    pub(crate) target: [u8; 256],
    pub(crate) faulty: [u8; 256],
}

// May the command byte stand in this phase?
// stays: a byte and no Command: 01 refuses with 3 before it looks for operands.
pub(crate) fn may_stand(phase: Phase, byte: u8) -> bool
    ensures { result ≡ allowed (rank_of phase) byte }
{
    match byte {
        1 => matches!(phase, Phase::Unsized),
        2 => matches!(phase, Phase::Sized | Phase::Quieted | Phase::Ruled),
        3 => matches!(
            phase,
            Phase::Sized | Phase::Quieted | Phase::Ruled | Phase::Faulted
        ),
        4 | 6 => !matches!(phase, Phase::Unsized),
        5 => matches!(phase, Phase::Testing),
        7 => !matches!(phase, Phase::Unsized | Phase::Testing),
        8 => matches!(phase, Phase::Sized),
        _ => false,
    }
}

impl State {
    // Nothing is read yet.
    pub(crate) fn fresh() -> State
        ensures { Holds result blank }
    {
        State {
            phase: Phase::Unsized,
            size: Size {
                states: 0,
                inputs: 0,
                outputs: 0,
            },
            quiet: false,
            rules: Listed {
                count: 0,
                last: None,
            },
            faults: Listed {
                count: 0,
                last: None,
            },
            starts: 0,
            tests: Tests {
                count: 0,
                inputs: 0,
                state: 0,
            },
            output: [255u8; 256],
            target: [255u8; 256],
            faulty: [0u8; 256],
        }
    }

    fn set_size(&mut self, size: Size) -> Result<(), Broken>
        ensures { (p : Progress) → p.phase ≡ reading.unsized → Holds self.old p → Applies p 1 (reading.size size) result self.new }
    {
        if !size.is_in_range() {
            return Err(Broken::Size);
        }
        self.size = size;
        self.phase = Phase::Sized;
        Ok(())
    }

    fn set_quiet(&mut self) -> Result<(), Broken>
        ensures { (p : Progress) → p.phase ≡ reading.sized → Holds self.old p → Applies p 8 reading.quiet result self.new }
    {
        self.quiet = true;
        self.phase = Phase::Quieted;
        Ok(())
    }

    fn add_rule(&mut self, row: Row) -> Result<(), Broken>
        requires { (p : Progress) × Holds self.old p }
        ensures { (p : Progress) → p.phase ≤ reading.ruled → Holds self.old p → Applies p 2 (reading.rule row) result self.new }
    {
        if !row.is_in(self.size) {
            return Err(Broken::Range);
        }
        let p = row.place();
        if self.rules.last.is_some_and(|last| p <= last) {
            return Err(Broken::Order);
        }
        self.output[p] = row.output;
        self.target[p] = row.target;
        self.rules = Listed {
            count: self.rules.count + 1,
            last: Some(p),
        };
        self.phase = Phase::Ruled;
        Ok(())
    }

    // Is there a rule at the row's pair, and is it another?
    fn is_other(&self, row: Row) -> bool
        requires { (row.source < 16) × (row.input < 16) }
        ensures { (p : Progress) → Holds self.now p → result ≡ is_other (rule_at p.sheet.rules row.source row.input) row }
    {
        let p = row.place();
        let output = self.output[p];
        output != 255 && (output != row.output || self.target[p] != row.target)
    }

    fn add_fault(&mut self, row: Row) -> Result<(), Broken>
        requires { (p : Progress) × Holds self.old p }
        ensures { (p : Progress) → p.phase ≤ reading.faulted → Holds self.old p → Applies p 3 (reading.fault row) result self.new }
    {
        if !row.is_in(self.size) {
            return Err(Broken::Range);
        }
        let key = row.key();
        if self.faults.last.is_some_and(|last| key <= last) {
            return Err(Broken::Order);
        }
        if !self.is_other(row) {
            return Err(Broken::NoOther);
        }
        if self.faults.count >= 256 {
            return Err(Broken::Many);
        }
        self.faulty[row.place()] = 1;
        self.faults = Listed {
            count: self.faults.count + 1,
            last: Some(key),
        };
        self.phase = Phase::Faulted;
        Ok(())
    }

    fn add_start(&mut self, t: u8) -> Result<(), Broken>
        requires { (p : Progress) × Holds self.old p }
        ensures { (p : Progress) → p.phase ≤ reading.started → Holds self.old p → Applies p 7 (reading.start t) result self.new }
    {
        if t >= self.size.states {
            return Err(Broken::Range);
        }
        if usize::from(t) < self.starts {
            return Err(Broken::Order);
        }
        if t == 0 {
            return Err(Broken::StateZero);
        }
        self.starts = usize::from(t) + 1;
        self.phase = Phase::Started;
        Ok(())
    }

    fn add_test(&mut self) -> Result<(), Broken>
        requires { (p : Progress) × Holds self.old p }
        ensures { (p : Progress) → Holds self.old p → Applies p 4 reading.test result self.new }
    {
        if self.tests.count >= 256 {
            return Err(Broken::Many);
        }
        self.tests = Tests {
            count: self.tests.count + 1,
            inputs: 0,
            state: 0,
        };
        self.phase = Phase::Testing;
        Ok(())
    }

    fn add_press(&mut self, x: u8) -> Result<(), Broken>
        requires { (p : Progress) × Holds self.old p }
        ensures { (p : Progress) → p.phase ≡ reading.testing → Holds self.old p → Applies p 5 (reading.press x) result self.new }
    {
        if x >= self.size.inputs {
            return Err(Broken::Range);
        }
        if self.tests.inputs >= 256 {
            return Err(Broken::Many);
        }
        let t = self.target[self.tests.state * 16 + usize::from(x)];
        if t >= 16 {
            return Err(Broken::NoRule);
        }
        self.tests = Tests {
            count: self.tests.count,
            inputs: self.tests.inputs + 1,
            state: usize::from(t),
        };
        Ok(())
    }

    // One command but END.
    pub(crate) fn apply(&mut self, command: Command) -> Result<(), Broken>
        requires { (p : Progress) × Holds self.old p }
        ensures { (p : Progress) → allowed p.phase (byte_of command) ≡ true → (byte_of command ≡ 6 → ⊥)
            → Holds self.old p → Applies p (byte_of command) (says command) result self.new }
    {
        match command {
            Command::Size(size) => self.set_size(size),
            Command::Rule(row) => self.add_rule(row),
            Command::Fault(row) => self.add_fault(row),
            Command::Test => self.add_test(),
            Command::Press(x) => self.add_press(x),
            Command::Start(t) => self.add_start(t),
            Command::Quiet => self.set_quiet(),
            Command::End => Ok(()),
        }
    }

    // What Read tells of it, with the number of open pairs.
    pub(crate) fn summary(&self, suspects: usize) -> Summary
        ensures { result ≡ summary_by self.now suspects }
    {
        Summary {
            states: self.size.states,
            inputs: self.size.inputs,
            outputs: self.size.outputs,
            rules: self.rules.count,
            faults: self.faults.count,
            tests: self.tests.count,
            suspects,
        }
    }
}
