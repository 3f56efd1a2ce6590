// A test added to a sheet (02's Point 8).
// Promises the longer sheet's bytes and length, or the refusal, and that the longer sheet is accepted: the same machine, that test last.
// Called by users, and by `ranthelo`.

#![tactic(auto)]

ghost use Rattle.std.specs.Prelude.{◌≡◌, [], ◌∷◌, ◌++◌, ◌+◌, ◌-◌, ◌*◌, ◌<◌, ◌≤◌, length, take, IfOk};
ghost use Rattle.lists.specs.Lists.{overlay};
ghost use Rattle.sheet.specs.Sheet.{Sheet};
ghost use Rattle.sheet.specs.Encode.{press_bytes};
ghost use Rattle.sheet.specs.Reading.{accepted, reading};
ghost use Rattle.writing.specs.Writing.{written_answer, sheet_writes};
ghost use Rattle.writing.specs.words.Spelled.{Spelled};
ghost use Rattle.block.specs.Tabled.{Tabled, LoadedFrom};
ghost use Rattle.adding.specs.Adding.{one_press, pressing, add_on, adding, Adds, ToldAdded};
ghost use Rattle.adding.specs.words.Pressed.{pressed_answer};

use block::{Block, Loaded, inputs, load, place, rule_target};
use sheet::Refusal;
use writing::spell::{byte, bytes, test};

// The press i of a test, at the state s: the state that it leads to; or a refusal's number and the index of the press.
fn press(block: &Block, i: usize, s: u8, x: u8) -> Result<u8, Refusal>
    requires { ((sh : Sheet) × Tabled sh block.now) × (s < 16) }
    ensures value { (sh : Sheet) → Tabled sh block.now → result ≡ pressed_answer (one_press sh i s x) }
    ensures state { IfOk result (λ t. t < 16) }
{
    if inputs(block) <= x {
        return Err(Refusal::new(5, i));
    }
    if 256 <= i {
        return Err(Refusal::new(8, i));
    }
    let t = rule_target(block, place(s, x));
    if t == 255 {
        return Err(Refusal::new(9, i));
    }
    Ok(t)
}

// All presses of a test: the state that they lead to.
fn press_all(block: &Block, presses: &[u8]) -> Result<u8, Refusal>
    requires { (sh : Sheet) × Tabled sh block.now }
    ensures { (sh : Sheet) → Tabled sh block.now → result ≡ pressed_answer (pressing sh 0 0 presses.now) }
{
    let mut s: u8 = 0;
    for (i, &x) in presses.iter().enumerate() {
        s = press(block, i, s, x)?;
    }
    Ok(s)
}

// The sheet, but for its END, then the test, then END, at the buffer's front.
fn spell_longer(sheet: &[u8], presses: &[u8], buffer: &mut [u8]) -> usize
    requires { (1 ≤ length sheet.now) × (length sheet.now + (1 + 2 * length presses.now) ≤ length buffer.old) }
    ensures { Spelled buffer.old buffer.new 0 result ((take (length sheet.now - 1) sheet.now ++ (4 ∷ press_bytes presses.now)) ++ 6 ∷ []) }
{
    let end = sheet.len() - 1;
    let begun = bytes(&sheet[..end], buffer, 0);
    let tested = test(presses, buffer, begun);
    byte(6, buffer, tested)
}

// The longer sheet of one that was read.
fn add_read(loaded: &Loaded, presses: &[u8], buffer: &mut [u8]) -> Result<usize, Refusal>
    requires { (sh : Sheet) × LoadedFrom sh loaded.now }
    ensures { (sh : Sheet) → LoadedFrom sh loaded.now → Adds (add_on sh presses.now (length buffer.old)) result buffer.old buffer.new }
{
    if 256 <= loaded.size.tests {
        return Err(Refusal::new(8, 0));
    }
    press_all(&loaded.block, presses)?;
    let length = loaded.sheet.len() + 1 + 2 * presses.len();
    if 16384 < length {
        return Err(Refusal::new(1, 0));
    }
    if buffer.len() < length {
        return Err(Refusal::new(16, 0));
    }
    Ok(spell_longer(loaded.sheet, presses, buffer))
}

// The sheet with a test more, the last, at the buffer's front; gives its length.
pub fn add_test(sheet: &[u8], presses: &[u8], buffer: &mut [u8]) -> Result<usize, Refusal>
    ensures answer { result ≡ written_answer (adding sheet.now presses.now (length buffer.old)) }
    ensures bytes { buffer.new ≡ overlay (sheet_writes (adding sheet.now presses.now (length buffer.old))) buffer.old }
    ensures told { (sh : Sheet) → reading sheet.now ≡ accepted sh → ToldAdded sh presses.now result buffer.old buffer.new }
{
    match &load(sheet) {
        Ok(loaded) => add_read(loaded, presses, buffer),
        Err(why) => Err(*why),
    }
}
