// Reads of the objects of a disk with a tree.
ghost use Rattle.std.specs.Prelude.{◌≡◌, ◌<◌, ◌≤◌, ◌^◌, ◌↔◌, IsTrue, IfOk, IfErr, length};
ghost use Rattle.journal_world.specs.Refusals.{IsReadingRefusal};
ghost use Rattle.journal_treestore.specs.Places.{first_data, shape_of, IsCut};
ghost use Rattle.journal_treestore.specs.Places.Object.{the_description};
ghost use Rattle.journal_treecalls.specs.Disks.{inode_seen};
ghost use Rattle.journal_treeobjects.specs.Maps.{object, description_of, view_of};
ghost use Rattle.journal_treerule.specs.Parts.{IsDescriptionOf};

use journal_treestore::{Cut, DESCRIPTION_BYTES, Description, INODE_BYTES, Owner};
use journal_world::{Addr, BLOCK_BYTES, ObjectReader, Refusal, SUPERBLOCK, Value};

// True if the disk has its description, to the last byte. The map stays.
pub(crate) fn is_described<O: ObjectReader>(
    reader: &mut O,
    cut: Cut,
) -> Result<bool, Refusal<O::Cause>>
    requires cut { IsCut cut }
    requires layout { (O.map reader.old).layout ≡ shape_of cut }
    ensures described { IsTrue (O.trusted reader.old) → IfOk result (λ described. IsTrue described ↔ IsDescriptionOf cut (object cut (O.map reader.old) the_description)) }
    ensures refusal { IfErr result (IsReadingRefusal (O.failed reader.new)) }
    ensures stays_failed { IsTrue (O.failed reader.old) → IsTrue (O.failed reader.new) }
    ensures same_map { O.map reader.new ≡ O.map reader.old }
    ensures same_trust { O.trusted reader.new ≡ O.trusted reader.old }
{
    let addr = Addr {
        block: SUPERBLOCK,
        off: 0,
    };
    let value = reader.read(addr)?;
    Ok(is_description(cut, value.bytes()))
}

// True if the bytes are those of the description of a disk that is cut so.
fn is_description(cut: Cut, block: &[u8]) -> bool
    requires cut { IsCut cut }
    requires whole { length block.now ≡ DESCRIPTION_BYTES }
    ensures { IsTrue result ↔ IsDescriptionOf cut block.now }
{
    let found = Description::read(block);
    let wanted = description_with(cut, found.disk);
    wanted.is_written_in(block)
}

// The description of a disk that is cut so, with these 8 bytes of its own.
fn description_with(cut: Cut, disk: u64) -> Description
    ensures is { result ≡ description_of cut disk }
    ensures fits { disk < 2 ^ 64 }
{
    Description {
        blocks: cut.base,
        numbers: cut.numbers,
        disk,
    }
}

// The bytes of an inode. The map stays.
pub(crate) fn read_inode<O: ObjectReader>(
    reader: &mut O,
    cut: Cut,
    number: u32,
) -> Result<Value, Refusal<O::Cause>>
    requires cut { IsCut cut }
    requires layout { (O.map reader.old).layout ≡ shape_of cut }
    requires inside { number < cut.numbers }
    ensures inode { IsTrue (O.trusted reader.old) → IfOk result (λ value. (view_of cut (O.map reader.old)).inode number ≡ inode_seen value) }
    ensures length { IfOk result (λ value. length value ≡ INODE_BYTES) }
    ensures refusal { IfErr result (IsReadingRefusal (O.failed reader.new)) }
    ensures stays_failed { IsTrue (O.failed reader.old) → IsTrue (O.failed reader.new) }
    ensures same_map { O.map reader.new ≡ O.map reader.old }
    ensures same_trust { O.trusted reader.new ≡ O.trusted reader.old }
{
    let index = u64::from(number);
    let addr = cut.inode_addr(index);
    let value = reader.read(addr)?;
    Ok(value)
}

// The record of who has a block. The map stays.
pub(crate) fn read_owner<O: ObjectReader>(
    reader: &mut O,
    cut: Cut,
    block: u32,
) -> Result<Owner, Refusal<O::Cause>>
    requires cut { IsCut cut }
    requires layout { (O.map reader.old).layout ≡ shape_of cut }
    requires inside { block < cut.blocks }
    ensures owner { IsTrue (O.trusted reader.old) → IfOk result (λ owner. (view_of cut (O.map reader.old)).owner block ≡ owner) }
    ensures refusal { IfErr result (IsReadingRefusal (O.failed reader.new)) }
    ensures stays_failed { IsTrue (O.failed reader.old) → IsTrue (O.failed reader.new) }
    ensures same_map { O.map reader.new ≡ O.map reader.old }
    ensures same_trust { O.trusted reader.new ≡ O.trusted reader.old }
{
    let index = u64::from(block);
    let addr = cut.owner_addr(index);
    let value = reader.read(addr)?;
    let owner = Owner::read(value.bytes());
    Ok(owner)
}

// A block of data. The map stays.
pub(crate) fn read_block<O: ObjectReader>(
    reader: &mut O,
    cut: Cut,
    block: u32,
) -> Result<Value, Refusal<O::Cause>>
    requires cut { IsCut cut }
    requires layout { (O.map reader.old).layout ≡ shape_of cut }
    requires first { first_data cut ≤ block }
    requires last { block < cut.blocks }
    ensures block { IsTrue (O.trusted reader.old) → IfOk result (λ value. (view_of cut (O.map reader.old)).block block ≡ value) }
    ensures length { IfOk result (λ value. length value ≡ BLOCK_BYTES) }
    ensures refusal { IfErr result (IsReadingRefusal (O.failed reader.new)) }
    ensures stays_failed { IsTrue (O.failed reader.old) → IsTrue (O.failed reader.new) }
    ensures same_map { O.map reader.new ≡ O.map reader.old }
    ensures same_trust { O.trusted reader.new ≡ O.trusted reader.old }
{
    let index = u64::from(block);
    let addr = cut.block_addr(index);
    let value = reader.read(addr)?;
    Ok(value)
}
