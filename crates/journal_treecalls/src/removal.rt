// REMOVE.
ghost use Rattle.std.specs.Prelude.{◌≡◌, ◌<◌, ◌≤◌, [], IfOk, length};
ghost use Rattle.journal_tree.specs.declared.time.Time.{Time};
ghost use Rattle.journal_tree.specs.Times.{IsTime};
ghost use Rattle.journal_tree.specs.Op.Call.{remove as remove_call};
ghost use Rattle.journal_tree.specs.Op.Reply.{removed};
ghost use Rattle.journal_tree.specs.Fit.{IsCaller};
ghost use Rattle.journal_treecalls.specs.Disks.{Does};
ghost use Rattle.journal_treecalls.specs.Targets.{IsInside};
ghost use Rattle.journal_treecalls.specs.Names.{removal_status, ClearsEntries, TakesOut, RemovesHit, Removes};
ghost use Rattle.journal_treecalls.specs.Seats.{AreInside};

use crate::TreeDisk;
use crate::bytes::{free_bytes, moved, put_entry, used_bytes};
use crate::named::{Named, find_name};
use crate::node::{Record, told};
use crate::search::Hit;
use crate::seats::{EntryPlaces, block_numbers, places_of};
use journal_tree::{Caller, Changed, Handle, Kind, Status, Time};
use journal_treestore::{Entry, Head, PLACES};

/// REMOVE (RFC 1813, 3.3.12): a file goes, with its name and all its blocks. Three objects are
/// written, however large it is, and one more where it has two entries.
///
/// # Errors
/// - The call is given up.
///
/// The other answers. The first that holds:
/// - `Stale`: the handle's node was removed.
/// - `NotDirectory`: the handle is a file's.
/// - `NoAccess`: the caller may not search the directory.
/// - `IsDirectory`: the name is `.` or `..`.
/// - `Invalid`: the name is empty, or has a byte 0 or `/`.
/// - `NameTooLong`: the name has more than 255 bytes.
/// - `NoEntry`: the directory has no node of the name.
/// - `NoAccess`: the caller may not write the directory, or it is sticky and neither it nor the
///   node is his.
/// - `IsDirectory`: the node is a directory.
pub fn remove<T: TreeDisk>(
    disk: &mut T,
    caller: &Caller,
    directory: Handle,
    name: &[u8],
    now: Time,
) -> Result<Result<Changed, Status>, T::Fault>
    requires first { T.writes disk.old ≡ [] }
    requires time { IsTime now }
    ensures does { IfOk result (λ reply. Does (T.may_be disk.new) (T.writes disk.new) (remove_call directory name.now) caller.now now (removed reply)) }
    ensures few { IfOk result (λ _. length (T.writes disk.new) ≤ 4) }
{
    are_words(*caller);
    let dots = Status::IsDirectory;
    match find_name(disk, caller, directory, name, dots, dots)? {
        Ok(found) => remove_found(disk, caller, directory.number, &found, now),
        Err(status) => Ok(Err(status)),
    }
}

// Does nothing. Its contract says that the numbers of a caller have 32 bits.
pub(crate) fn are_words(caller: Caller)
    ensures { IsCaller caller }
{}

// REMOVE of a name that was looked for.
fn remove_found<T: TreeDisk>(
    disk: &mut T,
    caller: &Caller,
    number: u32,
    found: &Named,
    now: Time,
) -> Result<Result<Changed, Status>, T::Fault>
    requires first { T.writes disk.old ≡ [] }
    requires time { IsTime now }
    requires inside { IsInside found.now.hit }
    ensures removes { IfOk result (Removes (T.may_be disk.old) (T.may_be disk.new) (T.writes disk.new) caller.now number found.now now) }
    ensures few { IfOk result (λ _. length (T.writes disk.new) ≤ 4) }
{
    match found.hit {
        None => Ok(Err(Status::NoEntry)),
        Some(hit) => remove_hit(disk, caller, number, &found.directory, &hit, now),
    }
}

// REMOVE of a node that was found.
fn remove_hit<T: TreeDisk>(
    disk: &mut T,
    caller: &Caller,
    number: u32,
    directory: &Record,
    hit: &Hit,
    now: Time,
) -> Result<Result<Changed, Status>, T::Fault>
    requires first { T.writes disk.old ≡ [] }
    requires time { IsTime now }
    requires inside { hit.now.at < PLACES }
    ensures removes { IfOk result (RemovesHit (T.may_be disk.old) (T.may_be disk.new) (T.writes disk.new) caller.now number directory.now hit.now now) }
    ensures few { IfOk result (λ _. length (T.writes disk.new) ≤ 4) }
{
    match removal_status(caller, &directory.head, &hit.head) {
        Some(status) => Ok(Err(status)),
        None => {
            let changed = take_out(disk, number, directory, hit, now)?;
            Ok(Ok(changed))
        }
    }
}

// The reason not to remove a file, if there is one.
fn removal_status(caller: &Caller, directory: &Head, node: &Head) -> Option<Status>
    ensures { result ≡ removal_status caller.now directory.now node.now }
{
    let may = caller.may_rename(&directory.attributes)
        && caller.may_take(&directory.attributes, &node.attributes);
    if !may {
        return Some(Status::NoAccess);
    }
    match node.kind {
        Kind::Directory => Some(Status::IsDirectory),
        Kind::File | Kind::Link => None,
    }
}

// A node is taken out of its directory: its entries go, the directory has new times, and its inode
// is free. A node that was renamed may have two entries.
pub(crate) fn take_out<T: TreeDisk>(
    disk: &mut T,
    number: u32,
    directory: &Record,
    hit: &Hit,
    now: Time,
) -> Result<Changed, T::Fault>
    requires first { T.writes disk.old ≡ [] }
    requires time { IsTime now }
    requires inside { hit.now.at < PLACES }
    ensures takes { IfOk result (TakesOut (T.may_be disk.old) (T.may_be disk.new) (T.writes disk.new) number directory.now hit.now now) }
    ensures few { IfOk result (λ _. length (T.writes disk.new) ≤ 4) }
{
    let numbers = block_numbers(disk, &directory.head)?;
    let places = places_of(&numbers, hit);
    let head = moved(&directory.head, now);
    clear_entries(disk, &places)?;
    disk.put_inode(number, used_bytes(head, directory))?;
    disk.put_inode(hit.number, free_bytes(hit.head.generation))?;
    Ok(Changed {
        before: told(number, &directory.head),
        after: told(number, &head),
    })
}

// The entries at these places go.
fn clear_entries<T: TreeDisk>(disk: &mut T, places: &EntryPlaces) -> Result<(), T::Fault>
    requires first { T.writes disk.old ≡ [] }
    requires inside { AreInside places.now }
    ensures clears { IfOk result (λ _. ClearsEntries (T.may_be disk.old) (T.may_be disk.new) (T.writes disk.new) places.now) }
    ensures few { IfOk result (λ _. length (T.writes disk.new) ≤ 2) }
{
    let home = places.home;
    let block = disk.block(home.block)?;
    let entries = put_entry(block, home.at, Entry::NONE);
    match places.second {
        None => disk.put_block(home.block, entries),
        Some(second) => {
            let block = disk.block(second.block)?;
            let others = put_entry(block, second.at, Entry::NONE);
            disk.put_block(home.block, entries)?;
            disk.put_block(second.block, others)
        }
    }
}
