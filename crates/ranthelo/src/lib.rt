// The operations for C: each fills an array with its answer as numbers. See include/ranthelo.h.
// Promises these numbers and every lent byte, by the definitions that the operations themselves cite.
// Called from C, and from Rust by the package in rust/.

#![tactic(auto)]

ghost use Rattle.std.specs.Prelude.{◌≡◌, not, eqb, length};
ghost use Rattle.sheet.specs.Reading.{reading};
ghost use Rattle.sheet.specs.Part.{parting};
ghost use Rattle.sheet.specs.Tables.{read_answer, part_answer};
ghost use Rattle.model.specs.Operations.{running, failing, comparing, judging};
ghost use Rattle.model.specs.Making.{making};
ghost use Rattle.model.specs.Tray.{trying};
ghost use Rattle.lists.specs.Lists.{overlay};
ghost use Rattle.writing.specs.Drawing.{drawing};
ghost use Rattle.writing.specs.Writing.{writing, written_answer, sheet_writes};
ghost use Rattle.generator.specs.Generating.{generating};
ghost use Rattle.renaming.specs.Renaming.{numbering};
ghost use Rattle.mutation.specs.Answers.{ran_answer, ran_writes, failed_answer, compared_answer, compared_writes};
ghost use Rattle.mutation.specs.Judging.{judged_answer, board_writes, sequence_writes, Measured};
ghost use Rattle.model.specs.Walk.{taking};
ghost use Rattle.walking.specs.Taking.{standing, taken_answer, taken_board, taken_sequence};
ghost use Rattle.adding.specs.Adding.{adding};
ghost use Rattle.making.specs.Answers.{made_answer, made_writes};
ghost use Rattle.tray.specs.Answers.{tried_answer, tried_writes};
ghost use Rattle.ranthelo.specs.Numbers.{read_numbers, part_numbers, written_numbers, ran_numbers, failed_numbers, compared_numbers, judged_numbers, made_numbers, tried_numbers, recorded_numbers, explained_numbers, merged_numbers, taken_numbers, place_of};
ghost use Rattle.records.specs.Record.{checking, explaining};
ghost use Rattle.records.specs.Answers.{recorded_answer, explained_answer, explained_board, explained_sequence};
ghost use Rattle.renaming.specs.Merging.{merging};
ghost use Rattle.merging.specs.Answers.{merged_answer, merged_writes};

mod driving;
mod numbers;

use numbers::{
    difference_numbers, done_numbers, failed_numbers, made_numbers, merged_numbers, mutant_numbers,
    part_numbers, ran_numbers, read_numbers, recorded_numbers, written_numbers,
};
use sheet::Size;
use walking::Place;
use writing::Drawing;

// Read.
#[unsafe(no_mangle)]
pub extern "C" fn ranthelo_read(sheet: &[u8], answer: &mut [usize; 9])
    ensures { answer.new ≡ read_numbers (read_answer (reading sheet.now)) }
{
    *answer = read_numbers(reading::read(sheet));
}

// One test's part, as a place and a length.
#[unsafe(no_mangle)]
pub extern "C" fn ranthelo_test_span(sheet: &[u8], test: usize, answer: &mut [usize; 4])
    ensures { answer.new ≡ part_numbers (part_answer (parting sheet.now test)) }
{
    *answer = part_numbers(reading::test_span(sheet, test));
}

// Write a sheet from tables.
#[unsafe(no_mangle)]
pub extern "C" fn ranthelo_write(
    states: u8,
    inputs: u8,
    outputs: u8,
    quiet: u8,
    rules: &[u8],
    faults: &[u8],
    starts: &[u8],
    lengths: &[u16],
    presses: &[u8],
    buffer: &mut [u8],
    answer: &mut [usize; 3],
)
    ensures answer_after { answer.new ≡ written_numbers (written_answer (writing (drawing (record { states = states; inputs = inputs; outputs = outputs }) (not (eqb quiet 0)) rules.now faults.now starts.now lengths.now presses.now) (length buffer.old))) }
    ensures buffer_after { buffer.new ≡ overlay (sheet_writes (writing (drawing (record { states = states; inputs = inputs; outputs = outputs }) (not (eqb quiet 0)) rules.now faults.now starts.now lengths.now presses.now) (length buffer.old))) buffer.old }
{
    let size = Size {
        states,
        inputs,
        outputs,
    };
    let drawing = Drawing {
        size,
        quiet: quiet != 0,
        rules,
        faults,
        starts,
        lengths,
        presses,
    };
    *answer = written_numbers(writing::write(&drawing, buffer));
}

// Write a sheet from a seed.
#[unsafe(no_mangle)]
pub extern "C" fn ranthelo_generate(
    seed: u32,
    states: u8,
    inputs: u8,
    outputs: u8,
    buffer: &mut [u8],
    answer: &mut [usize; 3],
)
    ensures answer_after { answer.new ≡ written_numbers (written_answer (generating seed (record { states = states; inputs = inputs; outputs = outputs }) (length buffer.old))) }
    ensures buffer_after { buffer.new ≡ overlay (sheet_writes (generating seed (record { states = states; inputs = inputs; outputs = outputs }) (length buffer.old))) buffer.old }
{
    let size = Size {
        states,
        inputs,
        outputs,
    };
    *answer = written_numbers(generator::generate(seed, size, buffer));
}

// Convert a sheet to first-reached form.
#[unsafe(no_mangle)]
pub extern "C" fn ranthelo_renumber(sheet: &[u8], buffer: &mut [u8], answer: &mut [usize; 3])
    ensures answer_after { answer.new ≡ written_numbers (written_answer (numbering sheet.now (length buffer.old))) }
    ensures buffer_after { buffer.new ≡ overlay (sheet_writes (numbering sheet.now (length buffer.old))) buffer.old }
{
    *answer = written_numbers(numbering::renumber(sheet, buffer));
}

// Run.
#[unsafe(no_mangle)]
pub extern "C" fn ranthelo_run(
    sheet: &[u8],
    board: &[u8],
    presses: &[u8],
    buffer: &mut [u8],
    answer: &mut [usize; 4],
)
    ensures answer_after { answer.new ≡ ran_numbers (ran_answer (running sheet.now board.now presses.now (length buffer.old))) }
    ensures buffer_after { buffer.new ≡ overlay (ran_writes (running sheet.now board.now presses.now (length buffer.old))) buffer.old }
{
    *answer = ran_numbers(mutation::run(sheet, board, presses, buffer));
}

// First failed test.
#[unsafe(no_mangle)]
pub extern "C" fn ranthelo_first_failed(sheet: &[u8], board: &[u8], answer: &mut [usize; 7])
    ensures { answer.new ≡ failed_numbers (failed_answer (failing sheet.now board.now)) }
{
    *answer = failed_numbers(mutation::first_failed(sheet, board));
}

// Compare.
#[unsafe(no_mangle)]
pub extern "C" fn ranthelo_compare(
    sheet: &[u8],
    board: &[u8],
    buffer: &mut [u8],
    answer: &mut [usize; 4],
)
    ensures answer_after { answer.new ≡ compared_numbers (compared_answer (comparing sheet.now board.now (length buffer.old))) }
    ensures buffer_after { buffer.new ≡ overlay (compared_writes (comparing sheet.now board.now (length buffer.old))) buffer.old }
{
    *answer = difference_numbers(mutation::compare(sheet, board, buffer));
}

// Judge.
#[unsafe(no_mangle)]
pub extern "C" fn ranthelo_judge(
    sheet: &[u8],
    board: &mut [u8],
    sequence: &mut [u8],
    answer: &mut [usize; 4],
)
    ensures answer_after { answer.new ≡ judged_numbers (judged_answer (judging sheet.now (length board.old) (length sequence.old))) }
    ensures board_after { board.new ≡ overlay (board_writes (judging sheet.now (length board.old) (length sequence.old))) board.old }
    ensures sequence_after { sequence.new ≡ overlay (sequence_writes (judging sheet.now (length board.old) (length sequence.old))) sequence.old }
{
    *answer = difference_numbers(mutation::judge(sheet, board, sequence));
}

// Judge, with the number of nodes that the engine looked at: a measurement. It is as it was on a refusal; which number it is
// otherwise is free.
#[unsafe(no_mangle)]
pub extern "C" fn ranthelo_judge_counting(
    sheet: &[u8],
    board: &mut [u8],
    sequence: &mut [u8],
    answer: &mut [usize; 4],
    nodes: &mut u32,
)
    ensures answer_after { answer.new ≡ judged_numbers (judged_answer (judging sheet.now (length board.old) (length sequence.old))) }
    ensures board_after { board.new ≡ overlay (board_writes (judging sheet.now (length board.old) (length sequence.old))) board.old }
    ensures sequence_after { sequence.new ≡ overlay (sequence_writes (judging sheet.now (length board.old) (length sequence.old))) sequence.old }
    ensures measured { Measured (judged_answer (judging sheet.now (length board.old) (length sequence.old))) nodes.old nodes.new }
{
    *answer = difference_numbers(mutation::judge_counting(sheet, board, sequence, nodes));
}

fn place_of(place: u8) -> Place
    ensures { result ≡ place_of place }
{
    match place {
        0 => Place::Start,
        1 => Place::Last,
        _ => Place::End,
    }
}

// Take.
#[unsafe(no_mangle)]
pub extern "C" fn ranthelo_take(
    sheet: &[u8],
    place: u8,
    last: &[u8],
    board: &mut [u8],
    sequence: &mut [u8],
    answer: &mut [usize; 5],
)
    ensures answer_after { answer.new ≡ taken_numbers (taken_answer (taking sheet.now (standing (place_of place) last.now) (length board.old) (length sequence.old))) }
    ensures board_after { board.new ≡ overlay (taken_board (taking sheet.now (standing (place_of place) last.now) (length board.old) (length sequence.old))) board.old }
    ensures sequence_after { sequence.new ≡ overlay (taken_sequence (taking sheet.now (standing (place_of place) last.now) (length board.old) (length sequence.old))) sequence.old }
{
    *answer = mutant_numbers(walking::take(sheet, place_of(place), last, board, sequence));
}

// A test added.
#[unsafe(no_mangle)]
pub extern "C" fn ranthelo_add_test(
    sheet: &[u8],
    presses: &[u8],
    buffer: &mut [u8],
    answer: &mut [usize; 3],
)
    ensures answer_after { answer.new ≡ written_numbers (written_answer (adding sheet.now presses.now (length buffer.old))) }
    ensures buffer_after { buffer.new ≡ overlay (sheet_writes (adding sheet.now presses.now (length buffer.old))) buffer.old }
{
    *answer = written_numbers(adding::add_test(sheet, presses, buffer));
}

// A complete suite.
#[unsafe(no_mangle)]
pub extern "C" fn ranthelo_make(sheet: &[u8], buffer: &mut [u8], answer: &mut [usize; 4])
    ensures answer_after { answer.new ≡ made_numbers (made_answer (making sheet.now (length buffer.old))) }
    ensures buffer_after { buffer.new ≡ overlay (made_writes (making sheet.now (length buffer.old))) buffer.old }
{
    *answer = made_numbers(making::complete_suite(sheet, buffer));
}

// A tray of boards.
#[unsafe(no_mangle)]
pub extern "C" fn ranthelo_tray(
    sheet: &[u8],
    boards: usize,
    choices: &[u8],
    results: &mut [u16],
    answer: &mut [usize; 2],
)
    ensures answer_after { answer.new ≡ tried_numbers (tried_answer (trying sheet.now boards choices.now (length results.old))) }
    ensures results_after { results.new ≡ overlay (tried_writes (trying sheet.now boards choices.now (length results.old))) results.old }
{
    *answer = done_numbers(tray::first_failures(sheet, boards, choices, results));
}

// A lock's record.
#[unsafe(no_mangle)]
pub extern "C" fn ranthelo_record(sheet: &[u8], log: &[u8], answer: &mut [usize; 5])
    ensures { answer.new ≡ recorded_numbers (recorded_answer (checking sheet.now log.now)) }
{
    *answer = recorded_numbers(records::check_record(sheet, log));
}

// The first board that gives a lock's record.
#[unsafe(no_mangle)]
pub extern "C" fn ranthelo_record_board(
    sheet: &[u8],
    log: &[u8],
    board: &mut [u8],
    sequence: &mut [u8],
    answer: &mut [usize; 5],
)
    ensures answer_after { answer.new ≡ explained_numbers (explained_answer (explaining sheet.now log.now (length board.old) (length sequence.old))) }
    ensures board_after { board.new ≡ overlay (explained_board (explaining sheet.now log.now (length board.old) (length sequence.old))) board.old }
    ensures sequence_after { sequence.new ≡ overlay (explained_sequence (explaining sheet.now log.now (length board.old) (length sequence.old))) sequence.old }
{
    *answer = mutant_numbers(records::explain_record(sheet, log, board, sequence));
}

// Merge two sheets.
#[unsafe(no_mangle)]
pub extern "C" fn ranthelo_merge(
    first: &[u8],
    second: &[u8],
    buffer: &mut [u8],
    answer: &mut [usize; 4],
)
    ensures answer_after { answer.new ≡ merged_numbers (merged_answer (merging first.now second.now (length buffer.old))) }
    ensures buffer_after { buffer.new ≡ overlay (merged_writes (merging first.now second.now (length buffer.old))) buffer.old }
{
    *answer = merged_numbers(merging::merge(first, second, buffer));
}
