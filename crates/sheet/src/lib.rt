// The sheet format: what a sheet is, which bytes are one, what Read and One test's part answer, and the tables of an accepted sheet. It knows
// nothing of mutants. Definitions and theorems, and the structs of the answers; the reading itself is `reading`. Known by
// every crate above.

#![tactic(auto)]

ghost use Rattle.std.specs.Prelude.{◌≡◌};
ghost use Rattle.sheet.specs.Reading.{in_range, size_in_range};
ghost use Rattle.sheet.specs.Tables.{blank_tables, nought_tables};
ghost use Rattle.sheet.specs.words.Tabled.{pair_key, row_key};

// SIZE: how many states, inputs (01: presses) and outputs (01: sounds).
#[derive(Clone, Copy, Debug, PartialEq, Eq)]
pub struct Size {
    pub states: u8,
    pub inputs: u8,
    pub outputs: u8,
}

impl Size {
    // Are they 1 to 16?
    pub fn is_in_range(self) -> bool
        ensures { result ≡ size_in_range self }
    {
        let digits = 1..=16;
        digits.contains(&self.states)
            && digits.contains(&self.inputs)
            && digits.contains(&self.outputs)
    }
}

// A RULE or a FAULT: at the state `source` the input gives the output and leads to the state `target`.
#[derive(Clone, Copy, Debug, PartialEq, Eq)]
pub struct Row {
    pub source: u8,
    pub input: u8,
    pub output: u8,
    pub target: u8,
}

impl Row {
    // Are its numbers below those of the size?
    pub fn is_in(self, size: Size) -> bool
        ensures { result ≡ in_range size self }
    {
        self.source < size.states
            && self.input < size.inputs
            && self.output < size.outputs
            && self.target < size.states
    }

    // The place of its pair in a table.
    pub fn place(self) -> usize
        ensures { result ≡ pair_key self }
    {
        usize::from(self.source) * 16 + usize::from(self.input)
    }

    // Its numbers as digits to base 16: a greater key stands later.
    pub fn key(self) -> usize
        ensures { result ≡ row_key self }
    {
        self.place() * 256 + (usize::from(self.output) * 16 + usize::from(self.target))
    }
}

// What reading a sheet tells (01: n, k, m and the numbers of RULEs, FAULTs, TESTs and open pairs; 02: where a board wakes, if
// there is a START, counts as one of these).
#[derive(Clone, Copy, Debug, PartialEq, Eq)]
pub struct Summary {
    pub states: u8,
    pub inputs: u8,
    pub outputs: u8,
    pub rules: usize,
    pub faults: usize,
    pub tests: usize,
    pub suspects: usize,
}

// A part of the sheet.
#[derive(Clone, Copy, Debug, PartialEq, Eq)]
pub struct Span {
    pub start: usize,
    pub length: usize,
}

// Why an operation refuses: one of the format's numbers, and a place.
#[derive(Clone, Copy, Debug, PartialEq, Eq)]
pub struct Refusal {
    pub number: u8,
    pub place: usize,
}

impl Refusal {
    pub fn new(number: u8, place: usize) -> Refusal
        ensures { result ≡ record { number = number; place = place } }
    {
        Refusal { number, place }
    }
}

// The tables of an accepted sheet. By pair, at state * 16 + input: the rule's output and next state (255 where there is no rule), the
// number of choices, and the index of the first fault. By fault: its output and next state. The waking states, how many they are, and
// whether the sheet is quiet. By test: where its PRESS commands start, and how many they are.
#[derive(Clone, Copy)]
pub struct Tables {
    pub output: [u8; 256],
    pub target: [u8; 256],
    pub choices: [u16; 256],
    pub first: [u16; 256],
    pub mutated: [u8; 256],
    pub diverted: [u8; 256],
    pub wakings: [u8; 16],
    pub waking: u8,
    pub quiet: bool,
    pub starts: [u16; 256],
    pub lengths: [u16; 256],
}

impl Tables {
    // What a sheet is read into.
    pub fn noughts() -> Tables
        ensures { result ≡ nought_tables }
    {
        Tables {
            output: [0u8; 256],
            target: [0u8; 256],
            choices: [0u16; 256],
            first: [0u16; 256],
            mutated: [0u8; 256],
            diverted: [0u8; 256],
            wakings: [0u8; 16],
            waking: 0,
            quiet: false,
            starts: [0u16; 256],
            lengths: [0u16; 256],
        }
    }

    // The tables of no sheet.
    pub fn blank() -> Tables
        ensures { result ≡ blank_tables }
    {
        Tables {
            output: [255u8; 256],
            target: [255u8; 256],
            choices: [0u16; 256],
            first: [0u16; 256],
            mutated: [0u8; 256],
            diverted: [0u8; 256],
            wakings: [0u8; 16],
            waking: 0,
            quiet: false,
            starts: [0u16; 256],
            lengths: [0u16; 256],
        }
    }
}
