// One test more: in the bytes of a sheet, and in the log of its suite.
ghost use Rattle.std.specs.Prelude.{◌+◌, ◌*◌, length};
ghost use Rattle.sheet.specs.Sheet.{Sheet};
ghost use Rattle.model.specs.Longer.{with_test};
ghost use Rattle.making.specs.words.Growing.{Held, Fits};

use block::Block;
use logs::record_test;

// Appends the inputs as a test to a sheet whose END would stand at `end`, and to the first n bytes of its log; gives the log's length.
pub(crate) fn append(
    inputs: &[u8],
    block: &Block,
    bytes: &mut [u8],
    end: usize,
    log: &mut [u8],
    n: usize,
) -> usize
    requires { (sh : Sheet) × Held sh block.now bytes.old log.old end n × Fits sh inputs.now end }
    ensures { (sh : Sheet) → Held sh block.now bytes.old log.old end n → Fits sh inputs.now end → Held (with_test sh inputs.now) block.now bytes.new log.new (end + 1 + 2 * length inputs.now) result }
{
    writing::spell::test(inputs, bytes, end);
    record_test(bytes, end + 1, inputs.len(), block, log, n)
}
