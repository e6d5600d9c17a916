// The blocks of an inode: its first ones, its index blocks, and those whose numbers lie there.
ghost use Rattle.std.specs.Prelude.{ℕ, ◌≡◌, ◌≢◌, ◌<◌, ◌≤◌, ◌+◌, ◌^◌, ◌↔◌, IsTrue, IfOk, IfErr, IfSome, MatchOption, length};
ghost use Rattle.journal_world.specs.Refusals.{IsReadingRefusal};
ghost use Rattle.journal_tree.specs.declared.limits.TheConstants.{BLOCK_BYTES};
ghost use Rattle.journal_treestore.specs.Places.{shape_of, first_data, IsCut};
ghost use Rattle.journal_treestore.specs.Views.{begin_at};
ghost use Rattle.journal_treestore.specs.declared.inode.TheConstants.{DIRECT_BLOCKS, INDEX_NUMBERS};
ghost use Rattle.journal_treeobjects.specs.Maps.{view_of};
ghost use Rattle.journal_treerule.specs.Parts.{IsSoundBlock, IsFirstSound, IsNumberSound, IsSoundIndexBlock, IsIndexBlockSound, IsSoundIndex, AreAllSound};

use crate::reading::{read_block, read_owner};
use journal_tree::BLOCK_BYTES;
use journal_treestore::{
    Cut, DIRECT_BLOCKS, FIRST_INDEX_PLACE, Head, INDEX_NUMBERS, INDEX_PLACE, Owner, number_at,
};
use journal_world::{ObjectReader, Refusal, Value};

// True if each block that an inode has lies before its end and among the data, and has its record.
// Each index block is read once. The map stays.
pub(crate) fn are_blocks_sound<O: ObjectReader>(
    reader: &mut O,
    cut: Cut,
    number: u32,
    head: &Head,
) -> Result<bool, Refusal<O::Cause>>
    requires cut { IsCut cut }
    requires layout { (O.map reader.old).layout ≡ shape_of cut }
    ensures sound { IsTrue (O.trusted reader.old) → IfOk result (λ sound. IsTrue sound ↔ AreAllSound (view_of cut (O.map reader.old)) number head.now) }
    ensures whole { length head.now.blocks ≡ DIRECT_BLOCKS }
    ensures refusal { IfErr result (IsReadingRefusal (O.failed reader.new)) }
    ensures stays_failed { IsTrue (O.failed reader.old) → IsTrue (O.failed reader.new) }
    ensures same_map { O.map reader.new ≡ O.map reader.old }
    ensures same_trust { O.trusted reader.new ≡ O.trusted reader.old }
{
    let are_sound = are_first_blocks_sound(reader, cut, number, head.size, &head.blocks)?;
    if !are_sound {
        return Ok(false);
    }
    is_index_sound(reader, cut, number, head.size, head.index)
}

// True if each of the first blocks that an inode has is sound. The map stays.
fn are_first_blocks_sound<O: ObjectReader>(
    reader: &mut O,
    cut: Cut,
    number: u32,
    size: u64,
    blocks: &[u32; DIRECT_BLOCKS],
) -> Result<bool, Refusal<O::Cause>>
    requires cut { IsCut cut }
    requires layout { (O.map reader.old).layout ≡ shape_of cut }
    ensures sound { IsTrue (O.trusted reader.old) → IfOk result (λ sound. IsTrue sound
        ↔ ((j : ℕ) → j < DIRECT_BLOCKS → IsFirstSound (view_of cut (O.map reader.old)) number size blocks.now j)) }
    ensures whole { length blocks.now ≡ DIRECT_BLOCKS }
    ensures refusal { IfErr result (IsReadingRefusal (O.failed reader.new)) }
    ensures stays_failed { IsTrue (O.failed reader.old) → IsTrue (O.failed reader.new) }
    ensures same_map { O.map reader.new ≡ O.map reader.old }
    ensures same_trust { O.trusted reader.new ≡ O.trusted reader.old }
{
    for j in 0..DIRECT_BLOCKS {
        let owner = Owner {
            number,
            place: j as u32,
        };
        let is_sound = is_block_sound(reader, cut, owner, size, blocks[j])?;
        if !is_sound {
            return Ok(false);
        }
    }
    Ok(true)
}

// True if there is no block with the numbers of index blocks, or it is sound, and so is each of
// these. The map stays.
fn is_index_sound<O: ObjectReader>(
    reader: &mut O,
    cut: Cut,
    number: u32,
    size: u64,
    block: u32,
) -> Result<bool, Refusal<O::Cause>>
    requires cut { IsCut cut }
    requires layout { (O.map reader.old).layout ≡ shape_of cut }
    ensures sound { IsTrue (O.trusted reader.old) → IfOk result (λ sound. IsTrue sound
        ↔ (block ≢ 0 → IsSoundIndex (view_of cut (O.map reader.old)) number size block)) }
    ensures refusal { IfErr result (IsReadingRefusal (O.failed reader.new)) }
    ensures stays_failed { IsTrue (O.failed reader.old) → IsTrue (O.failed reader.new) }
    ensures same_map { O.map reader.new ≡ O.map reader.old }
    ensures same_trust { O.trusted reader.new ≡ O.trusted reader.old }
{
    if block == 0 {
        return Ok(true);
    }
    let owner = Owner {
        number,
        place: INDEX_PLACE,
    };
    let Some(numbers) = sound_block(reader, cut, owner, size, block)? else {
        return Ok(false);
    };
    are_index_blocks_sound(reader, cut, number, size, numbers.bytes())
}

// True if each index block whose number lies in these bytes is sound. The map stays.
fn are_index_blocks_sound<O: ObjectReader>(
    reader: &mut O,
    cut: Cut,
    number: u32,
    size: u64,
    numbers: &[u8],
) -> Result<bool, Refusal<O::Cause>>
    requires cut { IsCut cut }
    requires layout { (O.map reader.old).layout ≡ shape_of cut }
    requires whole { length numbers.now ≡ BLOCK_BYTES }
    ensures sound { IsTrue (O.trusted reader.old) → IfOk result (λ sound. IsTrue sound
        ↔ ((i : ℕ) → i < INDEX_NUMBERS → IsIndexBlockSound (view_of cut (O.map reader.old)) number size numbers.now i)) }
    ensures refusal { IfErr result (IsReadingRefusal (O.failed reader.new)) }
    ensures stays_failed { IsTrue (O.failed reader.old) → IsTrue (O.failed reader.new) }
    ensures same_map { O.map reader.new ≡ O.map reader.old }
    ensures same_trust { O.trusted reader.new ≡ O.trusted reader.old }
{
    for i in 0..INDEX_NUMBERS {
        let block = number_at(numbers, i);
        let is_sound = is_index_block_sound(reader, cut, number, size, i as u32, block)?;
        if !is_sound {
            return Ok(false);
        }
    }
    Ok(true)
}

// True if there is no such index block, or it is sound, and so is each block whose number it has.
// The map stays.
fn is_index_block_sound<O: ObjectReader>(
    reader: &mut O,
    cut: Cut,
    number: u32,
    size: u64,
    index: u32,
    block: u32,
) -> Result<bool, Refusal<O::Cause>>
    requires cut { IsCut cut }
    requires layout { (O.map reader.old).layout ≡ shape_of cut }
    requires index { index < INDEX_NUMBERS }
    ensures sound { IsTrue (O.trusted reader.old) → IfOk result (λ sound. IsTrue sound
        ↔ (block ≢ 0 → IsSoundIndexBlock (view_of cut (O.map reader.old)) number size index block)) }
    ensures refusal { IfErr result (IsReadingRefusal (O.failed reader.new)) }
    ensures stays_failed { IsTrue (O.failed reader.old) → IsTrue (O.failed reader.new) }
    ensures same_map { O.map reader.new ≡ O.map reader.old }
    ensures same_trust { O.trusted reader.new ≡ O.trusted reader.old }
{
    if block == 0 {
        return Ok(true);
    }
    let owner = Owner {
        number,
        place: FIRST_INDEX_PLACE + index,
    };
    let Some(numbers) = sound_block(reader, cut, owner, size, block)? else {
        return Ok(false);
    };
    let first = Owner {
        number,
        place: DIRECT_BLOCKS as u32 + INDEX_NUMBERS as u32 * index,
    };
    are_numbers_sound(reader, cut, first, size, numbers.bytes())
}

// True if each block whose number lies in these bytes is sound. The first has this record, and each
// other one the place after that of the one before. The map stays.
fn are_numbers_sound<O: ObjectReader>(
    reader: &mut O,
    cut: Cut,
    first: Owner,
    size: u64,
    numbers: &[u8],
) -> Result<bool, Refusal<O::Cause>>
    requires cut { IsCut cut }
    requires layout { (O.map reader.old).layout ≡ shape_of cut }
    requires whole { length numbers.now ≡ BLOCK_BYTES }
    requires places { first.place + INDEX_NUMBERS < 2 ^ 32 }
    ensures sound { IsTrue (O.trusted reader.old) → IfOk result (λ sound. IsTrue sound
        ↔ ((k : ℕ) → k < INDEX_NUMBERS → IsNumberSound (view_of cut (O.map reader.old)) size first numbers.now k)) }
    ensures refusal { IfErr result (IsReadingRefusal (O.failed reader.new)) }
    ensures stays_failed { IsTrue (O.failed reader.old) → IsTrue (O.failed reader.new) }
    ensures same_map { O.map reader.new ≡ O.map reader.old }
    ensures same_trust { O.trusted reader.new ≡ O.trusted reader.old }
{
    for k in 0..INDEX_NUMBERS {
        let owner = Owner {
            number: first.number,
            place: first.place + k as u32,
        };
        let is_sound = is_block_sound(reader, cut, owner, size, number_at(numbers, k))?;
        if !is_sound {
            return Ok(false);
        }
    }
    Ok(true)
}

// The bytes of a block, if it is sound. The map stays.
fn sound_block<O: ObjectReader>(
    reader: &mut O,
    cut: Cut,
    owner: Owner,
    size: u64,
    block: u32,
) -> Result<Option<Value>, Refusal<O::Cause>>
    requires cut { IsCut cut }
    requires layout { (O.map reader.old).layout ≡ shape_of cut }
    requires some { block ≢ 0 }
    ensures sound { IsTrue (O.trusted reader.old) → IfOk result (λ found. MatchOption found
        (IsSoundBlock (view_of cut (O.map reader.old)) size owner block → ⊥)
        (λ value. IsSoundBlock (view_of cut (O.map reader.old)) size owner block × ((view_of cut (O.map reader.old)).block block ≡ value))) }
    ensures length { IfOk result (λ found. IfSome found (λ value. length value ≡ BLOCK_BYTES)) }
    ensures refusal { IfErr result (IsReadingRefusal (O.failed reader.new)) }
    ensures stays_failed { IsTrue (O.failed reader.old) → IsTrue (O.failed reader.new) }
    ensures same_map { O.map reader.new ≡ O.map reader.old }
    ensures same_trust { O.trusted reader.new ≡ O.trusted reader.old }
{
    let is_sound = is_block_sound(reader, cut, owner, size, block)?;
    if !is_sound {
        return Ok(None);
    }
    let value = read_block(reader, cut, block)?;
    Ok(Some(value))
}

// True if there is no block, or it lies before the inode's end and among the data, and has this
// record. The map stays.
fn is_block_sound<O: ObjectReader>(
    reader: &mut O,
    cut: Cut,
    owner: Owner,
    size: u64,
    block: u32,
) -> Result<bool, Refusal<O::Cause>>
    requires cut { IsCut cut }
    requires layout { (O.map reader.old).layout ≡ shape_of cut }
    ensures sound { IsTrue (O.trusted reader.old) → IfOk result (λ sound. IsTrue sound
        ↔ (block ≢ 0 → IsSoundBlock (view_of cut (O.map reader.old)) size owner block)) }
    ensures in_data { IfOk result (λ sound. IsTrue sound → block ≢ 0 → (first_data cut ≤ block) × (block < cut.blocks)) }
    ensures refusal { IfErr result (IsReadingRefusal (O.failed reader.new)) }
    ensures stays_failed { IsTrue (O.failed reader.old) → IsTrue (O.failed reader.new) }
    ensures same_map { O.map reader.new ≡ O.map reader.old }
    ensures same_trust { O.trusted reader.new ≡ O.trusted reader.old }
{
    if block == 0 {
        return Ok(true);
    }
    if !is_inside(owner.place, size) {
        return Ok(false);
    }
    if !is_data(cut, block) {
        return Ok(false);
    }
    let found = read_owner(reader, cut, block)?;
    Ok(is_owner(found, owner))
}

// True if the block at a place begins before the end.
fn is_inside(place: u32, size: u64) -> bool
    ensures { IsTrue result ↔ (begin_at place < size) }
{
    begin_at(place) < size
}

// The first byte of an inode that needs the block at a place.
fn begin_at(place: u32) -> u64
    ensures { result ≡ begin_at place }
{
    if place < INDEX_PLACE {
        BLOCK_BYTES * u64::from(place)
    } else if place == INDEX_PLACE {
        BLOCK_BYTES * DIRECT_BLOCKS as u64
    } else {
        let before = INDEX_NUMBERS as u64 * u64::from(place - FIRST_INDEX_PLACE);
        BLOCK_BYTES * (DIRECT_BLOCKS as u64 + before)
    }
}

// True if the two are one record.
fn is_owner(found: Owner, owner: Owner) -> bool
    ensures { IsTrue result ↔ (found ≡ owner) }
{
    found.number == owner.number && found.place == owner.place
}

// True if the disk has a block of data of this number.
pub(crate) fn is_data(cut: Cut, block: u32) -> bool
    requires { IsCut cut }
    ensures { IsTrue result ↔ ((first_data cut ≤ block) × (block < cut.blocks)) }
{
    let index = u64::from(block);
    cut.first_data() <= index && index < cut.blocks
}
