// Entries of a directory, one after another.
ghost use Rattle.std.specs.Prelude.{◌≡◌, ◌≢◌, ◌<◌, ◌≤◌, ◌+◌, ◌/◌, ◌↔◌, ◌⊎◌, IsTrue, IfOk, IfErr, IfSome, MatchOption, OnOk, length};
ghost use Rattle.journal_world.specs.Refusals.{IsReadingRefusal};
ghost use Rattle.journal_tree.specs.declared.limits.TheConstants.{MOST_PLACES};
ghost use Rattle.journal_treestore.specs.declared.entry.TheConstants.{PLACES};
ghost use Rattle.journal_treestore.specs.declared.inode.TheConstants.{INODE_BYTES};
ghost use Rattle.journal_treestore.specs.Places.{shape_of, IsCut};
ghost use Rattle.journal_treestore.specs.Views.{held_of, entry_at, homes};
ghost use Rattle.journal_treestore.specs.Entries.{tag_of, no_entry};
ghost use Rattle.journal_treestore.specs.Levels.{IsBlockFor};
ghost use Rattle.journal_treeobjects.specs.Maps.{view_of};
ghost use Rattle.journal_treerule.specs.Directories.{IsEntryIn, AreBelow, ListsMore, HasEntriesAt, HasBlockAt, IsNamedBy, HangsThere};

use crate::blocks::is_data;
use crate::children::{Child, Children};
use crate::inodes::is_directory;
use crate::reading::{read_block, read_inode};
use journal_tree::BLOCK_PLACES;
use journal_treestore::{Cut, Entry, Head, Inode, PLACES, is_block_for, name_in, tag_of};
use journal_world::{ObjectReader, Refusal, Value};
use std::alloc::Global;

// The place of an entry.
#[derive(Clone, Copy)]
pub(crate) struct EntryPlace {
    pub directory: u32,
    pub place: u32,
}

// The node that an entry names, the place of its home, and the bytes of its inode.
#[derive(Drop)]
pub(crate) struct NamedNode {
    pub child: Child,
    pub home: u32,
    pub inode: Value,
}

// Lists the entries of a block of a directory. False if one of them is not sound, or has a name
// that was found before. The map stays.
pub(crate) fn list_block<O: ObjectReader>(
    reader: &mut O,
    cut: Cut,
    alloc: Global,
    first: EntryPlace,
    block: u32,
    children: &mut Children,
) -> Result<bool, Refusal<O::Cause>>
    requires cut { IsCut cut }
    requires layout { (O.map reader.old).layout ≡ shape_of cut }
    requires place { first.place + PLACES ≤ MOST_PLACES }
    ensures lists { IsTrue (O.trusted reader.old) → HasBlockAt (view_of cut (O.map reader.old)) first.directory first.place block
        → IfOk result (ListsMore (view_of cut (O.map reader.old)) first.directory first.place (first.place + PLACES) children.old children.new) }
    ensures in_range { AreBelow cut.numbers children.old.list.items → OnOk result (AreBelow cut.numbers children.new.list.items) }
    ensures refusal { IfErr result (IsReadingRefusal (O.failed reader.new)) }
    ensures stays_failed { IsTrue (O.failed reader.old) → IsTrue (O.failed reader.new) }
    ensures same_map { O.map reader.new ≡ O.map reader.old }
    ensures same_trust { O.trusted reader.new ≡ O.trusted reader.old }
{
    if block == 0 {
        return Ok(true);
    }
    if !is_data(cut, block) {
        return Ok(false);
    }
    let entries = read_block(reader, cut, block)?;
    list_entries(reader, cut, alloc, first, entries.bytes(), children)
}

// Lists the entries of a block that was read. The map stays.
fn list_entries<O: ObjectReader>(
    reader: &mut O,
    cut: Cut,
    alloc: Global,
    first: EntryPlace,
    entries: &[u8],
    children: &mut Children,
) -> Result<bool, Refusal<O::Cause>>
    requires cut { IsCut cut }
    requires layout { (O.map reader.old).layout ≡ shape_of cut }
    requires whole { length entries.now ≡ 4096 }
    requires place { first.place + PLACES ≤ MOST_PLACES }
    ensures lists { IsTrue (O.trusted reader.old) → HasEntriesAt (view_of cut (O.map reader.old)) first.directory first.place entries.now
        → IfOk result (ListsMore (view_of cut (O.map reader.old)) first.directory first.place (first.place + PLACES) children.old children.new) }
    ensures in_range { AreBelow cut.numbers children.old.list.items → OnOk result (AreBelow cut.numbers children.new.list.items) }
    ensures refusal { IfErr result (IsReadingRefusal (O.failed reader.new)) }
    ensures stays_failed { IsTrue (O.failed reader.old) → IsTrue (O.failed reader.new) }
    ensures same_map { O.map reader.new ≡ O.map reader.old }
    ensures same_trust { O.trusted reader.new ≡ O.trusted reader.old }
{
    for at in 0..PLACES {
        let place = EntryPlace {
            directory: first.directory,
            place: first.place + at as u32,
        };
        if !list_entry(
            reader,
            cut,
            alloc,
            place,
            Entry::read(entries, at),
            children,
        )? {
            return Ok(false);
        }
    }
    Ok(true)
}

// Lists an entry. The map stays.
fn list_entry<O: ObjectReader>(
    reader: &mut O,
    cut: Cut,
    alloc: Global,
    at: EntryPlace,
    entry: Entry,
    children: &mut Children,
) -> Result<bool, Refusal<O::Cause>>
    requires cut { IsCut cut }
    requires layout { (O.map reader.old).layout ≡ shape_of cut }
    ensures lists { IsTrue (O.trusted reader.old) → entry_at (view_of cut (O.map reader.old)) at.directory at.place ≡ entry
        → IfOk result (ListsMore (view_of cut (O.map reader.old)) at.directory at.place (at.place + 1) children.old children.new) }
    ensures in_range { AreBelow cut.numbers children.old.list.items → OnOk result (AreBelow cut.numbers children.new.list.items) }
    ensures refusal { IfErr result (IsReadingRefusal (O.failed reader.new)) }
    ensures stays_failed { IsTrue (O.failed reader.old) → IsTrue (O.failed reader.new) }
    ensures same_map { O.map reader.new ≡ O.map reader.old }
    ensures same_trust { O.trusted reader.new ≡ O.trusted reader.old }
{
    if is_blank(entry) {
        return Ok(true);
    }
    if !has_number(entry) {
        return Ok(false);
    }
    let Some(node) = named_node(reader, cut, at, entry)? else {
        return Ok(false);
    };
    let name = name_in(node.inode.bytes());
    if !is_at(node.home, at) {
        let is_new = children.seconds.add(alloc, name)?;
        return Ok(is_new);
    }
    let stands = is_home_for(entry.tag, at.place);
    let is_new = children.add(alloc, node.child, name, !stands)?;
    Ok(is_new)
}

// True if the entry is at the place of its node's home.
fn is_at(home: u32, at: EntryPlace) -> bool
    ensures { IsTrue result ↔ (home ≡ at.place) }
{
    home == at.place
}

// True if a name of this tag may stand in the block of the place.
fn is_home_for(tag: u32, place: u32) -> bool
    ensures { IsTrue result ↔ IsBlockFor tag (place / PLACES) }
{
    is_block_for(tag, u64::from(place) / BLOCK_PLACES)
}

// True if it is no entry, and its bytes are zero.
fn is_blank(entry: Entry) -> bool
    ensures { IsTrue result ↔ (entry ≡ no_entry) }
{
    entry.number == 0 && entry.tag == 0
}

// True if it names a node.
fn has_number(entry: Entry) -> bool
    ensures { IsTrue result ↔ (entry.number ≢ 0) }
{
    entry.number != 0
}

// The node that an entry names, or `None` if there is none that hangs there, under a name of the
// entry's tag, and may have an entry at the place. The map stays.
fn named_node<O: ObjectReader>(
    reader: &mut O,
    cut: Cut,
    at: EntryPlace,
    entry: Entry,
) -> Result<Option<NamedNode>, Refusal<O::Cause>>
    requires cut { IsCut cut }
    requires layout { (O.map reader.old).layout ≡ shape_of cut }
    requires some { entry.number ≢ 0 }
    ensures node { IsTrue (O.trusted reader.old) → IfOk result (λ found.
        MatchOption found (IsEntryIn (homes (view_of cut (O.map reader.old))) at.directory at.place entry → ⊥)
        (IsNamedBy (view_of cut (O.map reader.old)) at entry)) }
    ensures length { IfOk result (λ found. IfSome found (λ node. length node.inode ≡ INODE_BYTES)) }
    ensures in_range { IfOk result (λ found. IfSome found (λ node. node.child.number < cut.numbers)) }
    ensures refusal { IfErr result (IsReadingRefusal (O.failed reader.new)) }
    ensures stays_failed { IsTrue (O.failed reader.old) → IsTrue (O.failed reader.new) }
    ensures same_map { O.map reader.new ≡ O.map reader.old }
    ensures same_trust { O.trusted reader.new ≡ O.trusted reader.old }
{
    if !is_number(cut, entry.number) {
        return Ok(None);
    }
    let inode = read_inode(reader, cut, entry.number)?;
    let bytes = inode.bytes();
    match Inode::read(bytes) {
        Inode::Free(_) => Ok(None),
        Inode::Used(head) => {
            if !hangs_at(at, entry, &head, name_in(bytes)) {
                return Ok(None);
            }
            let child = Child {
                number: entry.number,
                is_directory: is_directory(head.kind),
            };
            Ok(Some(NamedNode {
                child,
                home: head.place,
                inode,
            }))
        }
    }
}

// True if the disk has an inode of the number.
fn is_number(cut: Cut, number: u32) -> bool
    ensures { IsTrue result ↔ (number < cut.numbers) }
{
    u64::from(number) < cut.numbers
}

// True if a node hangs in the directory, under a name of the entry's tag, and may have an entry at
// the place.
fn hangs_at(at: EntryPlace, entry: Entry, head: &Head, name: &[u8]) -> bool
    ensures { IsTrue result ↔ HangsThere at entry (held_of head.now name.now) }
{
    let tag = tag_of(name);
    head.directory == at.directory && entry.tag == tag && may_stand(tag, head.place, at.place)
}

// True if a node of this home's place, with a name of this tag, may have an entry at the place: it
// is its home's, or a second one, in a block for the name where the home's is none.
fn may_stand(tag: u32, home: u32, place: u32) -> bool
    ensures { IsTrue result ↔ ((home ≡ place) ⊎ (IsBlockFor tag (place / PLACES) × (IsBlockFor tag (home / PLACES) → ⊥))) }
{
    if home == place {
        return true;
    }
    if !is_home_for(tag, place) {
        return false;
    }
    !is_home_for(tag, home)
}
