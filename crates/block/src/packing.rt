// Filling the block.
ghost use Rattle.std.specs.Prelude.{◌≡◌, ◌+◌, ◌<◌, ◌≤◌, cond, ltb, length, IfOk, IfErr};
ghost use Rattle.sheet.specs.Sheet.{Sheet};
ghost use Rattle.sheet.specs.Reading.{reading, refused};
ghost use Rattle.block.specs.Packing.{Copied, FirstCopied, ChoicesCopied};
ghost use Rattle.block.specs.Tabled.{Read, Tabled, Opened};

use crate::layout::*;
use crate::sites::number;
use sheet::{Refusal, Summary, Tables};

// Copies bytes into the block from a place on.
fn copy(block: &mut Block, base: usize, from: &[u8])
    requires { (length block.old ≡ 1620) × (base + length from.now ≤ 1620) }
    ensures { Copied block.old block.new base from.now (length from.now) }
{
    block[base..base + from.len()].copy_from_slice(from);
}

// The index of each pair's first fault, as a byte.
fn copy_first(block: &mut Block, first: &[u16; 256])
    requires { length block.old ≡ 1620 }
    ensures { FirstCopied block.old block.new first.now 256 }
{
    for k in 0..256 {
        block[FIRST_FAULTS + k] = (first[k] % 256) as u8;
    }
}

// The last choice of each slot.
fn copy_choices(block: &mut Block, choices: &[u16; 32])
    requires { length block.old ≡ 1620 }
    ensures { ChoicesCopied block.old block.new choices.now 32 }
{
    for i in 0..32 {
        block[CHOICES + i] = (choices[i].saturating_sub(1) % 256) as u8;
    }
}

// The slot of the waking state, 255 where there is no choice.
fn waking_site(waking: u8) -> u8
    ensures { result ≡ cond (ltb 1 waking) 0 255 }
{
    if waking > 1 { 0 } else { 255 }
}

// The block of an accepted sheet's tables.
fn tabulate(size: Summary, tables: &Tables) -> Block
    requires { (sh : Sheet) × Read sh size tables.now }
    ensures { (sh : Sheet) → Read sh size tables.now → Tabled sh result }
{
    let mut block = [0u8; BLOCK];
    let sites = number(
        &tables.choices,
        size.states.into(),
        size.inputs.into(),
        tables.waking,
    );
    copy(&mut block, 0, &tables.output);
    copy(&mut block, TARGETS, &tables.target);
    copy_first(&mut block, &tables.first);
    copy(&mut block, MUTATED, &tables.mutated);
    copy(&mut block, DIVERTED, &tables.diverted);
    copy_choices(&mut block, &sites.slots);
    copy(&mut block, SITES, &sites.site);
    copy(&mut block, WAKES, &tables.wakings);
    copy(&mut block, PAIRS, &sites.pairs);
    block[STATES] = size.states;
    block[INPUTS] = size.inputs;
    block[SLOTS] = sites.count;
    block[SITES + WAKING] = waking_site(tables.waking);
    block
}

// An accepted sheet as it is loaded: its bytes, its tables in a block, where the PRESS commands of each test start and how many they
// are, and what reading told of it.
#[derive(Clone, Copy)]
pub struct Loaded<'a> {
    pub sheet: &'a [u8],
    pub block: Block,
    pub starts: [u16; 256],
    pub lengths: [u16; 256],
    pub size: Summary,
}

// Reads and loads a sheet.
pub fn load(sheet: &[u8]) -> Result<Loaded<'_>, Refusal>
    ensures opened { IfOk result (λ loaded. Opened sheet.now loaded) }
    ensures refused { IfErr result (λ why. reading sheet.now ≡ refused why.number why.place) }
{
    let mut tables = Tables::noughts();
    let size = reading::load_noughts(sheet, &mut tables)?;
    Ok(Loaded {
        sheet,
        block: tabulate(size, &tables),
        starts: tables.starts,
        lengths: tables.lengths,
        size,
    })
}
