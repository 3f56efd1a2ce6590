// While there is a survivor, its sequence is appended.
ghost use Rattle.std.specs.Prelude.{◌≡◌, true, ℕ, ◌+◌, ◌*◌, ◌<◌, ◌≤◌, length, take};
ghost use Rattle.sheet.specs.Sheet.{Sheet};
ghost use Rattle.sheet.specs.Reading.{Result};
ghost use Rattle.cubes.specs.declared.goal.Goal.TheVariants.{Nonconforming};
ghost use Rattle.model.specs.Making.{Grown};
ghost use Rattle.refutation.specs.Lent.{StoreOk};
ghost use Rattle.refutation.specs.Refuting.{Ready};
ghost use Rattle.making.specs.words.Growing.{GrowingIn, Grows, fitting, longer_by};

use crate::append::append;
use block::Block;
use cubes::tables::Facts;
use leaves::LONG;
use pool::Steering;
use refutation::{Entry, note_test};
use sheet::Refusal;
use sweep::next_survivor;

// How far a suite has grown: the place of the sheet's END, the length of its log, how many tests more there may be, and how many were
// appended.
#[derive(Clone, Copy)]
pub(crate) struct Growth {
    pub end: usize,
    pub observed: usize,
    pub room: usize,
    pub appended: usize,
}

impl Growth {
    // Whether a test of d inputs fits: there may be one test more, and the sheet stays within 16,384 bytes.
    fn fits(self, d: usize) -> bool
        requires { (self.end ≤ 16384) × (d ≤ 256) }
        ensures { result ≡ fitting self.room self.end d }
    {
        self.room > 0 && self.end + 2 + 2 * d <= 16384
    }

    // After a test of d inputs was appended.
    fn longer(self, d: usize, observed: usize) -> Growth
        requires { (0 < self.room) × (self.end + 1 + 2 * d < 16384) × (self.appended + self.room ≤ 256) }
        ensures { result ≡ longer_by self d observed }
    {
        Growth {
            end: self.end + 1 + 2 * d,
            observed,
            room: self.room - 1,
            appended: self.appended + 1,
        }
    }
}

// Appends tests until the suite is complete; 18 where the next one does not fit. The store is not empty, so no sweep gives up.
pub(crate) fn grow(
    block: &Block,
    facts: &mut Facts,
    ready: bool,
    store: &mut [Entry],
    bytes: &mut [u8],
    log: &mut [u8],
    from: Growth,
) -> Result<Growth, Refusal>
    requires facts_len { ((result : Result Grown) × (sh : Sheet) × GrowingIn result sh block.now bytes.old log.old from) × (length facts.old ≡ 1088) }
    requires ready { (ready ≡ true → Ready block.now facts.old) × StoreOk Nonconforming block.now (take from.observed log.old) store.old }
    requires some { 0 < length store.old }
    ensures { (r : Result Grown) (sh : Sheet) → GrowingIn r sh block.now bytes.old log.old from → Grows r bytes.new result }
{
    let mut p = [0u16; 32];
    let mut blame = [0u32; 32];
    let mut sequence = [0u8; 256];
    let mut notes = [0u16; LONG];
    let mut steering = Steering::new();
    let mut growth = from;
    loop {
        let found = next_survivor(
            block,
            facts,
            ready,
            &log[..growth.observed],
            store,
            &mut notes,
            &mut steering,
            &mut p,
            &mut blame,
            &mut sequence,
        );
        let Some(d) = found.unwrap() else {
            return Ok(growth);
        };
        if !growth.fits(d) {
            return Err(Refusal::new(18, 0));
        }
        let observed = append(
            &sequence[..d],
            block,
            bytes,
            growth.end,
            log,
            growth.observed,
        );
        note_test(facts, growth.observed);
        steering.test_survivors(block, &log[..observed], growth.observed);
        growth = growth.longer(d, observed);
    }
}
