// The entries of one directory.
ghost use Rattle.std.specs.Prelude.{◌≡◌, ◌<◌, IsTrue, IfOk, IfErr, IfSome, MatchOption, OnOk, length};
ghost use Rattle.journal_world.specs.Refusals.{IsReadingRefusal};
ghost use Rattle.journal_tree.specs.declared.limits.TheConstants.{MOST_PLACES, FIRST_PLACES};
ghost use Rattle.journal_treestore.specs.Places.{shape_of, IsCut};
ghost use Rattle.journal_treeobjects.specs.Maps.{view_of};
ghost use Rattle.journal_treerule.specs.Parts.{AreInodesRight};
ghost use Rattle.journal_treerule.specs.Directories.{IsSoundDirectory, AreChildren, AreBelow, ListsMore, HasFirstBlocks, HasLevels, HasLevelsAt, HasLevelsIn};

use crate::blocks::is_data;
use crate::children::{Child, Children};
use crate::entries::{EntryPlace, list_block};
use crate::inodes::is_directory;
use crate::reading::{read_block, read_inode};
use journal_tree::FIRST_PLACES;
use journal_treestore::{Cut, DIRECT_BLOCKS, Head, Inode, PLACES, number_at};
use journal_world::{ObjectReader, Refusal};
use std::alloc::Global;

// How many blocks the levels of a directory have.
pub(crate) const LEVEL_BLOCKS: usize = 340;

// The nodes that hang in a directory, or `None` if it is not sound. Another inode than a directory
// has no entries. The map stays.
pub(crate) fn children_of<O: ObjectReader>(
    reader: &mut O,
    cut: Cut,
    alloc: Global,
    number: u32,
) -> Result<Option<Vec<Child>>, Refusal<O::Cause>>
    requires cut { IsCut cut }
    requires layout { (O.map reader.old).layout ≡ shape_of cut }
    requires inside { number < cut.numbers }
    ensures sound { IsTrue (O.trusted reader.old) → AreInodesRight (view_of cut (O.map reader.old)) cut.numbers → IfOk result (λ found.
        MatchOption found (IsSoundDirectory (view_of cut (O.map reader.old)) number → ⊥)
        (λ children. IsSoundDirectory (view_of cut (O.map reader.old)) number × AreChildren (view_of cut (O.map reader.old)) number MOST_PLACES children.items)) }
    ensures in_range { IfOk result (λ found. IfSome found (λ children. AreBelow cut.numbers children.items)) }
    ensures refusal { IfErr result (IsReadingRefusal (O.failed reader.new)) }
    ensures stays_failed { IsTrue (O.failed reader.old) → IsTrue (O.failed reader.new) }
    ensures same_map { O.map reader.new ≡ O.map reader.old }
    ensures same_trust { O.trusted reader.new ≡ O.trusted reader.old }
{
    let value = read_inode(reader, cut, number)?;
    let bytes = value.bytes();
    match Inode::read(bytes) {
        Inode::Free(_) => Ok(Some(Vec::new(alloc))),
        Inode::Used(head) => {
            if !is_directory(head.kind) {
                return Ok(Some(Vec::new(alloc)));
            }
            children_in(reader, cut, alloc, number, &head)
        }
    }
}

// The same of a directory with these numbers of blocks. The map stays.
fn children_in<O: ObjectReader>(
    reader: &mut O,
    cut: Cut,
    alloc: Global,
    directory: u32,
    head: &Head,
) -> Result<Option<Vec<Child>>, Refusal<O::Cause>>
    requires cut { IsCut cut }
    requires layout { (O.map reader.old).layout ≡ shape_of cut }
    ensures sound { IsTrue (O.trusted reader.old) → HasFirstBlocks (view_of cut (O.map reader.old)) directory head.now.blocks → HasLevels (view_of cut (O.map reader.old)) directory head.now.index → IfOk result (λ found.
        MatchOption found (IsSoundDirectory (view_of cut (O.map reader.old)) directory → ⊥)
        (λ children. IsSoundDirectory (view_of cut (O.map reader.old)) directory × AreChildren (view_of cut (O.map reader.old)) directory MOST_PLACES children.items)) }
    ensures in_range { IfOk result (λ found. IfSome found (λ children. AreBelow cut.numbers children.items)) }
    ensures refusal { IfErr result (IsReadingRefusal (O.failed reader.new)) }
    ensures stays_failed { IsTrue (O.failed reader.old) → IsTrue (O.failed reader.new) }
    ensures same_map { O.map reader.new ≡ O.map reader.old }
    ensures same_trust { O.trusted reader.new ≡ O.trusted reader.old }
{
    let mut children = Children::new(alloc);
    let is_sound = list_first(reader, cut, alloc, directory, &head.blocks, &mut children)?;
    if !is_sound {
        return Ok(None);
    }
    let are_sound = list_levels(reader, cut, alloc, directory, head.index, &mut children)?;
    if !are_sound {
        return Ok(None);
    }
    let have_seconds = children.needing.are_within(&children.seconds);
    if !have_seconds {
        return Ok(None);
    }
    let Children {
        list,
        names: _,
        needing: _,
        seconds: _,
    } = children;
    Ok(Some(list))
}

// Lists the entries of the first blocks of a directory. False if one of them is not sound. The map
// stays.
fn list_first<O: ObjectReader>(
    reader: &mut O,
    cut: Cut,
    alloc: Global,
    directory: u32,
    blocks: &[u32; DIRECT_BLOCKS],
    children: &mut Children,
) -> Result<bool, Refusal<O::Cause>>
    requires cut { IsCut cut }
    requires layout { (O.map reader.old).layout ≡ shape_of cut }
    ensures lists { IsTrue (O.trusted reader.old) → HasFirstBlocks (view_of cut (O.map reader.old)) directory blocks.now
        → IfOk result (ListsMore (view_of cut (O.map reader.old)) directory 0 FIRST_PLACES children.old children.new) }
    ensures in_range { AreBelow cut.numbers children.old.list.items → OnOk result (AreBelow cut.numbers children.new.list.items) }
    ensures refusal { IfErr result (IsReadingRefusal (O.failed reader.new)) }
    ensures stays_failed { IsTrue (O.failed reader.old) → IsTrue (O.failed reader.new) }
    ensures same_map { O.map reader.new ≡ O.map reader.old }
    ensures same_trust { O.trusted reader.new ≡ O.trusted reader.old }
{
    for j in 0..DIRECT_BLOCKS {
        let first = EntryPlace {
            directory,
            place: (PLACES * j) as u32,
        };
        let is_sound = list_block(reader, cut, alloc, first, blocks[j], children)?;
        if !is_sound {
            return Ok(false);
        }
    }
    Ok(true)
}

// Lists the entries of the levels of a directory, whose first index block has the numbers of their
// blocks. False if one of them is not sound. The map stays.
fn list_levels<O: ObjectReader>(
    reader: &mut O,
    cut: Cut,
    alloc: Global,
    directory: u32,
    index: u32,
    children: &mut Children,
) -> Result<bool, Refusal<O::Cause>>
    requires cut { IsCut cut }
    requires layout { (O.map reader.old).layout ≡ shape_of cut }
    ensures lists { IsTrue (O.trusted reader.old) → HasLevels (view_of cut (O.map reader.old)) directory index
        → IfOk result (ListsMore (view_of cut (O.map reader.old)) directory FIRST_PLACES MOST_PLACES children.old children.new) }
    ensures in_range { AreBelow cut.numbers children.old.list.items → OnOk result (AreBelow cut.numbers children.new.list.items) }
    ensures refusal { IfErr result (IsReadingRefusal (O.failed reader.new)) }
    ensures stays_failed { IsTrue (O.failed reader.old) → IsTrue (O.failed reader.new) }
    ensures same_map { O.map reader.new ≡ O.map reader.old }
    ensures same_trust { O.trusted reader.new ≡ O.trusted reader.old }
{
    if index == 0 {
        return list_index(reader, cut, alloc, directory, 0, children);
    }
    if !is_data(cut, index) {
        return Ok(false);
    }
    let numbers = read_block(reader, cut, index)?;
    let block = number_at(numbers.bytes(), 0);
    list_index(reader, cut, alloc, directory, block, children)
}

// The same, by this index block. There is none where its number is 0. The map stays.
fn list_index<O: ObjectReader>(
    reader: &mut O,
    cut: Cut,
    alloc: Global,
    directory: u32,
    block: u32,
    children: &mut Children,
) -> Result<bool, Refusal<O::Cause>>
    requires cut { IsCut cut }
    requires layout { (O.map reader.old).layout ≡ shape_of cut }
    ensures lists { IsTrue (O.trusted reader.old) → HasLevelsAt (view_of cut (O.map reader.old)) directory block
        → IfOk result (ListsMore (view_of cut (O.map reader.old)) directory FIRST_PLACES MOST_PLACES children.old children.new) }
    ensures in_range { AreBelow cut.numbers children.old.list.items → OnOk result (AreBelow cut.numbers children.new.list.items) }
    ensures refusal { IfErr result (IsReadingRefusal (O.failed reader.new)) }
    ensures stays_failed { IsTrue (O.failed reader.old) → IsTrue (O.failed reader.new) }
    ensures same_map { O.map reader.new ≡ O.map reader.old }
    ensures same_trust { O.trusted reader.new ≡ O.trusted reader.old }
{
    if block == 0 {
        return Ok(true);
    }
    if !is_data(cut, block) {
        return Ok(false);
    }
    let numbers = read_block(reader, cut, block)?;
    list_numbered(reader, cut, alloc, directory, numbers.bytes(), children)
}

// The same, by the bytes of the index block. The map stays.
fn list_numbered<O: ObjectReader>(
    reader: &mut O,
    cut: Cut,
    alloc: Global,
    directory: u32,
    numbers: &[u8],
    children: &mut Children,
) -> Result<bool, Refusal<O::Cause>>
    requires cut { IsCut cut }
    requires layout { (O.map reader.old).layout ≡ shape_of cut }
    requires whole { length numbers.now ≡ 4096 }
    ensures lists { IsTrue (O.trusted reader.old) → HasLevelsIn (view_of cut (O.map reader.old)) directory numbers.now
        → IfOk result (ListsMore (view_of cut (O.map reader.old)) directory FIRST_PLACES MOST_PLACES children.old children.new) }
    ensures in_range { AreBelow cut.numbers children.old.list.items → OnOk result (AreBelow cut.numbers children.new.list.items) }
    ensures refusal { IfErr result (IsReadingRefusal (O.failed reader.new)) }
    ensures stays_failed { IsTrue (O.failed reader.old) → IsTrue (O.failed reader.new) }
    ensures same_map { O.map reader.new ≡ O.map reader.old }
    ensures same_trust { O.trusted reader.new ≡ O.trusted reader.old }
{
    for k in 0..LEVEL_BLOCKS {
        let first = EntryPlace {
            directory,
            place: FIRST_PLACES as u32 + (PLACES * k) as u32,
        };
        let block = number_at(numbers, k);
        let is_sound = list_block(reader, cut, alloc, first, block, children)?;
        if !is_sound {
            return Ok(false);
        }
    }
    Ok(true)
}
