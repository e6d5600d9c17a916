// The log's blocks on a disk. Numbers have 8 bytes, the lowest first.
//
// | Block | Bytes | Content |
// |---|---|---|
// | 0, the end's header | 0 to 7 | plain: the end, which is the position after the last, below 2^62 |
// | | | sealed: 2^63 + a, where a, below 2^62, is the position at which the last group begins |
// | 0 | 8 + 8 s to 15 + 8 s, s from 0 to 510 | the word of the position p in use with p % 511 = s |
// | 1, the start's header | 0 to 7 | the start: the first position in use |
// | 1 | 8 to 4095 | the label: not the log's, which keeps it as it is |
// | 2 + s | all | the log block of the position p in use with p % 511 = s |
// | 513 on | all | home blocks |
//
// Of a plain log the word is the number of the home block, and the log block is its content. Of a
// sealed log the word has these bytes, and the log block is the content with its byte 0 replaced by
// the tag:
//
// | Bytes of the word | Content |
// |---|---|
// | 0 to 4 | the number of the home block |
// | 5 | of the first position of a group how many positions the group has, from 1 to 255; of the others 0 |
// | 6 | the tag: 0, 1 or 2 as the log writes it |
// | 7 | byte 0 of the content |
//
// Let a be the position in block 0 and n byte 5 of its word. The log ends at a + n if and only if
// byte 0 of the log block of each position from a to a + n - 1 is the tag in its word, else at a.
//
// There are two headers so that each cycle writes its own, and the steps of the two come in any
// order. A word from 2^62 up to 2^63 in block 0 is of neither form.
ghost use Rattle.std.specs.Prelude.{◌≡◌};
ghost use Rattle.journal_block.specs.Block.{u64_at};
ghost use Rattle.journal_circ.specs.Log.{log_block, address_at, is_sealed, home_by, start_block, label_of};

use journal_block::Block;
use journal_world::LOG_POSITIONS;

/// The most positions of a group of a sealed log, so that two groups share no log block.
pub const MAX_GROUP: u64 = 255;
// A word has 5 bytes for the home block. A sealed log on a larger disk is J7, and `Circ::seal`
// requires no more (`narrow`).
/// The most blocks of a disk with a sealed log: its words have 5 bytes for a block's number.
pub const MAX_SEALED_BLOCKS: u64 = 1 << 40;
/// The block with the log's end, or the beginning of its last group, and the words of its
/// positions.
pub(crate) const HEADER: u64 = 0;
/// The block with the log's start, and the label.
pub(crate) const START_BLOCK: u64 = 1;
/// The byte in block 0 of the end, or of the last group's position, and in block 1 of the start.
pub(crate) const BOUND_AT: usize = 0;
/// In block 0 of a sealed log this is added to the position at which the last group begins.
pub(crate) const SEALED: u64 = 1 << 63;

/// The block of a position's content.
pub(crate) fn log_block(position: u64) -> u64
    ensures { result ≡ log_block position }
{
    2 + position % LOG_POSITIONS
}

/// The byte in block 0 of a position's word.
pub(crate) fn address_at(position: u64) -> usize
    ensures { result ≡ address_at position }
{
    (8 + 8 * (position % LOG_POSITIONS)) as usize
}

/// True if block 0 is of the sealed form.
pub(crate) fn is_sealed(header: &Block) -> bool
    ensures { result ≡ is_sealed header.now }
{
    header.get_u64(BOUND_AT) >= SEALED
}

/// The home block that block 0 has for a position.
pub(crate) fn home_at(header: &Block, position: u64) -> u64
    ensures { result ≡ home_by header.now position }
{
    let word = header.get_u64(address_at(position));
    if is_sealed(header) {
        word % (1 << 40)
    } else {
        word
    }
}

/// Puts the start into block 1, whose label stays.
pub(crate) fn put_start(block: &mut Block, start: u64)
    ensures contents { block.new ≡ start_block (label_of block.old) start }
    ensures label { label_of block.new ≡ label_of block.old }
    ensures number { u64_at block.new 0 ≡ start }
{
    block.put_u64(BOUND_AT, start);
}
