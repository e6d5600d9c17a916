// The tags of a sealed log.
ghost use Rattle.std.specs.Prelude.{ℕ, ◌≡◌, ◌≢◌, ◌<◌, ◌≤◌, ◌+◌, ◌-◌, ◌*◌, ◌/◌, ◌%◌, ◌^◌, [], ◌∷◌, length, slice_index_or, true, IsTrue};
ghost use Rattle.journal_block.specs.Block.{u64_at, with_bytes};
ghost use Rattle.journal_world.specs.declared.layout.TheConstants.{BLOCK_BYTES, LOG_POSITIONS};
ghost use Rattle.journal_circ.specs.Log.{address_at, address, is_sealed, begin_of, home_in, count_in, tag_in, first_in, tag_at, tag_of, with_tag, other_tag, word_of, with_group, are_there, end_of, bytes_by};

use crate::layout::{BOUND_AT, SEALED, address_at, is_sealed};
use journal_block::Block;
use journal_world::LOG_POSITIONS;

// One of three small numbers, chosen by the tags that the disk has, and not counted up. So nothing
// has to be zeroed, and no number comes to an end.
/// The tag of a log block.
pub(crate) fn tag_of(block: &Block) -> u8
    ensures { result ≡ tag_of block.now }
{
    block.as_bytes()[0]
}

/// The tag of a position's log block, from a block that has one byte for each.
pub(crate) fn tag_at(tags: &Block, position: u64) -> u8
    ensures { result ≡ tag_at tags.now position }
{
    tags.as_bytes()[(position % LOG_POSITIONS) as usize]
}

/// Sets the tag of a position's log block.
pub(crate) fn put_tag_at(tags: &mut Block, position: u64, tag: u8)
    requires { length tags.old ≡ BLOCK_BYTES }
    ensures contents { tags.new ≡ with_bytes tags.old (position % LOG_POSITIONS) (tag ∷ []) }
    ensures size { length tags.new ≡ BLOCK_BYTES }
    ensures tag { tag_at tags.new position ≡ tag }
    ensures others { (q : ℕ) → q % LOG_POSITIONS ≢ position % LOG_POSITIONS → tag_at tags.new q ≡ tag_at tags.old q }
{
    tags.copy_range((position % LOG_POSITIONS) as usize, &[tag]);
}

/// Copies a block, with the tag as its byte 0.
pub(crate) fn put_tagged(into: &mut Block, from: &Block, tag: u8)
    ensures contents { into.new ≡ with_tag from.now tag }
    ensures size { length from.now ≡ BLOCK_BYTES }
{
    into.copy_from(from);
    into.copy_range(0, &[tag]);
}

/// Restores the content of a position's log block, as it was read: of a sealed log it puts byte 0
/// back.
pub(crate) fn put_back(header: &Block, position: u64, block: &mut Block)
    ensures { block.new ≡ bytes_by header.now (λ _. block.old) position }
{
    if is_sealed(header) {
        block.copy_range(0, &[first_in(header, position)]);
    }
}

/// The tag that block 0 wants of a position's log block.
pub(crate) fn tag_in(header: &Block, position: u64) -> u8
    ensures { result ≡ tag_in header.now position }
{
    (header.get_u64(address_at(position)) / (1 << 48) % (1 << 8)) as u8
}

// The byte that the tag of a position's log block replaces.
fn first_in(header: &Block, position: u64) -> u8
    ensures { result ≡ first_in header.now position }
{
    (header.get_u64(address_at(position)) / (1 << 56)) as u8
}

// The number of positions of the group that begins at a position.
fn count_in(header: &Block, position: u64) -> u64
    ensures { result ≡ count_in header.now position }
{
    header.get_u64(address_at(position)) / (1 << 40) % (1 << 8)
}

/// The first of the tags 0, 1 and 2 that is neither of two.
pub(crate) fn other_tag(a: u8, b: u8) -> u8
    ensures value { result ≡ other_tag a b }
    ensures first { result ≢ a }
    ensures second { result ≢ b }
{
    if a == 0 {
        if b == 1 { 2 } else { 1 }
    } else if b == 0 {
        if a == 1 { 2 } else { 1 }
    } else {
        0
    }
}

/// The word of a position in block 0 of a sealed log.
pub(crate) fn word_of(home: u64, count: u8, tag: u8, first: u8) -> u64
    requires { home < 2 ^ 40 }
    ensures value { result ≡ word_of home count tag first }
    ensures home { result % 2 ^ 40 ≡ home }
    ensures count { result / 2 ^ 40 % 2 ^ 8 ≡ count }
    ensures tag { result / 2 ^ 48 % 2 ^ 8 ≡ tag }
    ensures first { result / 2 ^ 56 ≡ first }
{
    home + count as u64 * (1 << 40) + tag as u64 * (1 << 48) + first as u64 * (1 << 56)
}

/// Makes the n positions from `begin` on the last group of block 0, which becomes one of a sealed
/// log.
pub(crate) fn put_group(header: &mut Block, begin: u64, n: u8)
    requires { begin < 2 ^ 62 }
    ensures contents { header.new ≡ with_group header.old begin n }
    ensures bound { u64_at header.new 0 ≡ 2 ^ 63 + begin }
    ensures word { address header.new begin ≡ word_of (home_in header.old begin) n (tag_in header.old begin) (first_in header.old begin) }
    ensures others { (q : ℕ) → q % LOG_POSITIONS ≢ begin % LOG_POSITIONS → address header.new q ≡ address header.old q }
{
    let home = header.get_u64(address_at(begin)) % (1 << 40);
    let counted = word_of(home, n, tag_in(header, begin), first_in(header, begin));
    header.put_u64(address_at(begin), counted);
    header.put_u64(BOUND_AT, SEALED + begin);
}

/// The end of a sealed log: after its last group if each of its log blocks has its tag, else before
/// it.
pub(crate) fn end_of(header: &Block, tags: &Block) -> u64
    requires { is_sealed header.now ≡ true }
    ensures { result ≡ end_of (tag_in header.now) (tag_at tags.now) (begin_of header.now) (count_in header.now (begin_of header.now)) }
{
    let begin = header.get_u64(BOUND_AT) - SEALED;
    let count = count_in(header, begin);
    if are_there(header, tags, begin, begin + count) {
        begin + count
    } else {
        begin
    }
}

// True if the log block of each position from one to another has its tag.
fn are_there(header: &Block, tags: &Block, from: u64, to: u64) -> bool
    requires { from ≤ to }
    ensures { result ≡ are_there (tag_in header.now) (tag_at tags.now) from (to - from) }
{
    for position in from..to {
        if tag_at(tags, position) != tag_in(header, position) {
            return false;
        }
    }
    true
}
