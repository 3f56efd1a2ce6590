// What merging looks at in a sheet: its parts, and which pairs are open in it or in another.
ghost use Rattle.std.specs.Prelude.{◌≡◌, ◌<◌, ◌≤◌, Ok};
ghost use Rattle.lists.specs.Lists.{count};
ghost use Rattle.sheet.specs.Sheet.{Sheet};
ghost use Rattle.sheet.specs.Encode.{row_bytes, start_bytes, test_bytes};
ghost use Rattle.sheet.specs.Reading as reading;
ghost use Rattle.sheet.specs.Tables.{read_answer};
ghost use Rattle.merging.specs.words.Outlined.{Laid, head_bytes, either_open, open_both};

use reading::layout::Layout;
use reading::layout_of;
use sheet::Summary;

// An accepted sheet, where its parts stand, and how many tests it has.
#[derive(Clone, Copy)]
pub(crate) struct Outline<'a> {
    sheet: &'a [u8],
    layout: Layout,
    pub(crate) count: usize,
}

impl<'a> Outline<'a> {
    pub(crate) fn new(sheet: &'a [u8], summary: Summary) -> Outline<'a>
        requires { Ok summary ≡ read_answer (reading.reading sheet.now) }
        ensures { (sh : Sheet) → reading.reading sheet.now ≡ reading.accepted sh → Laid sh result }
    {
        Outline {
            sheet,
            layout: layout_of(sheet, summary),
            count: summary.tests,
        }
    }

    // SIZE, QUIET and the RULEs.
    pub(crate) fn head(self) -> &'a [u8]
        requires { (sh : Sheet) × Laid sh self }
        ensures { (sh : Sheet) → Laid sh self.entry → result.now ≡ head_bytes sh }
    {
        &self.sheet[..self.layout.faults]
    }

    pub(crate) fn faults(self) -> &'a [u8]
        requires { (sh : Sheet) × Laid sh self }
        ensures { (sh : Sheet) → Laid sh self.entry → result.now ≡ row_bytes 3 sh.faults }
    {
        &self.sheet[self.layout.faults..self.layout.starts]
    }

    pub(crate) fn starts(self) -> &'a [u8]
        requires { (sh : Sheet) × Laid sh self }
        ensures { (sh : Sheet) → Laid sh self.entry → result.now ≡ start_bytes sh.starts }
    {
        &self.sheet[self.layout.starts..self.layout.tests]
    }

    pub(crate) fn tests(self) -> &'a [u8]
        requires { (sh : Sheet) × Laid sh self }
        ensures { (sh : Sheet) → Laid sh self.entry → result.now ≡ test_bytes sh.tests }
    {
        &self.sheet[self.layout.tests..self.sheet.len() - 1]
    }
}

// Is the pair open in one of two sheets?
fn is_open(choices: &[u16; 256], others: &[u16; 256], s: usize, x: usize) -> bool
    requires { (s < 16) × (x < 16) }
    ensures { result ≡ either_open choices.now others.now s x }
{
    let p = s * 16 + x;
    choices[p] > 1 || others[p] > 1
}

// How many pairs at a state are.
fn open_at(choices: &[u16; 256], others: &[u16; 256], s: usize, inputs: usize) -> usize
    requires { (s < 16) × (inputs ≤ 16) }
    ensures few { result ≤ 16 }
    ensures counted { result ≡ count (either_open choices.now others.now s) inputs }
{
    let mut n = 0;
    for x in 0..inputs {
        if is_open(choices, others, s, x) {
            n += 1;
        }
    }
    n
}

// How many pairs are.
pub(crate) fn open_pairs(choices: &[u16; 256], others: &[u16; 256], states: u8, inputs: u8) -> usize
    requires { (states ≤ 16) × (inputs ≤ 16) }
    ensures few { result ≤ 256 }
    ensures counted { result ≡ open_both choices.now others.now inputs states }
{
    let mut n = 0;
    for s in 0..usize::from(states) {
        n += open_at(choices, others, s, usize::from(inputs));
    }
    n
}
