// RMDIR.
ghost use Rattle.std.specs.Prelude.{◌≡◌, ◌<◌, [], IfOk, ◌≤◌, length};
ghost use Rattle.journal_tree.specs.Times.{IsTime};
ghost use Rattle.journal_tree.specs.Op.Call.{rmdir as rmdir_call};
ghost use Rattle.journal_tree.specs.Op.Reply.{removed};
ghost use Rattle.journal_treecalls.specs.Disks.{Does};
ghost use Rattle.journal_treecalls.specs.Targets.{IsInside};
ghost use Rattle.journal_treecalls.specs.Directories.{rmdir_status, RemovesBare, RemovesDirectoryHit, RemovesDirectory};

use crate::TreeDisk;
use crate::entries::find_entry;
use crate::named::{Named, find_name};
use crate::node::Record;
use crate::removal::{are_words, take_out};
use crate::search::Hit;
use journal_tree::{Caller, Changed, Handle, Kind, Status, Time};
use journal_treestore::{Head, PLACES};

/// RMDIR (RFC 1813, 3.3.13): a directory without entries goes, with its name and all its blocks.
/// Three objects are written, and one more where it has two entries.
///
/// # Errors
/// - The call is given up.
///
/// The other answers. The first that holds:
/// - `Stale`: the handle's node was removed.
/// - `NotDirectory`: the handle is a file's.
/// - `NoAccess`: the caller may not search the directory.
/// - `Invalid`: the name is `.`, is empty, or has a byte 0 or `/`.
/// - `Exists`: the name is `..`.
/// - `NameTooLong`: the name has more than 255 bytes.
/// - `NoEntry`: the directory has no node of the name.
/// - `NoAccess`: the caller may not write the directory, or it is sticky and neither it nor the
///   node is his.
/// - `NotDirectory`: the node is a file.
/// - `NotEmpty`: the node has entries.
pub fn rmdir<T: TreeDisk>(
    disk: &mut T,
    caller: &Caller,
    directory: Handle,
    name: &[u8],
    now: Time,
) -> Result<Result<Changed, Status>, T::Fault>
    requires first { T.writes disk.old ≡ [] }
    requires time { IsTime now }
    ensures does { IfOk result (λ reply. Does (T.may_be disk.new) (T.writes disk.new) (rmdir_call directory name.now) caller.now now (removed reply)) }
    ensures few { IfOk result (λ _. length (T.writes disk.new) ≤ 4) }
{
    are_words(*caller);
    let dot = Status::Invalid;
    let dot_dot = Status::Exists;
    match find_name(disk, caller, directory, name, dot, dot_dot)? {
        Ok(found) => rmdir_found(disk, caller, directory.number, &found, now),
        Err(status) => Ok(Err(status)),
    }
}

// RMDIR of a name that was looked for.
fn rmdir_found<T: TreeDisk>(
    disk: &mut T,
    caller: &Caller,
    number: u32,
    found: &Named,
    now: Time,
) -> Result<Result<Changed, Status>, T::Fault>
    requires first { T.writes disk.old ≡ [] }
    requires time { IsTime now }
    requires inside { IsInside found.now.hit }
    ensures removes { IfOk result (RemovesDirectory (T.may_be disk.old) (T.may_be disk.new) (T.writes disk.new) caller.now number found.now now) }
    ensures few { IfOk result (λ _. length (T.writes disk.new) ≤ 4) }
{
    match found.hit {
        None => Ok(Err(Status::NoEntry)),
        Some(hit) => rmdir_hit(disk, caller, number, &found.directory, &hit, now),
    }
}

// RMDIR of a node that was found.
fn rmdir_hit<T: TreeDisk>(
    disk: &mut T,
    caller: &Caller,
    number: u32,
    directory: &Record,
    hit: &Hit,
    now: Time,
) -> Result<Result<Changed, Status>, T::Fault>
    requires first { T.writes disk.old ≡ [] }
    requires time { IsTime now }
    requires inside { hit.now.at < PLACES }
    ensures removes { IfOk result (RemovesDirectoryHit (T.may_be disk.old) (T.may_be disk.new) (T.writes disk.new) caller.now number directory.now hit.now now) }
    ensures few { IfOk result (λ _. length (T.writes disk.new) ≤ 4) }
{
    match rmdir_status(caller, &directory.head, &hit.head) {
        Some(status) => Ok(Err(status)),
        None => rmdir_bare(disk, number, directory, hit, now),
    }
}

// The reason not to remove a directory, if there is one, but that it has entries.
fn rmdir_status(caller: &Caller, directory: &Head, node: &Head) -> Option<Status>
    ensures { result ≡ rmdir_status caller.now directory.now node.now }
{
    let may = caller.may_rename(&directory.attributes)
        && caller.may_take(&directory.attributes, &node.attributes);
    if !may {
        return Some(Status::NoAccess);
    }
    match node.kind {
        Kind::Directory => None,
        Kind::File | Kind::Link => Some(Status::NotDirectory),
    }
}

// RMDIR of a directory, if it has no entries.
fn rmdir_bare<T: TreeDisk>(
    disk: &mut T,
    number: u32,
    directory: &Record,
    hit: &Hit,
    now: Time,
) -> Result<Result<Changed, Status>, T::Fault>
    requires first { T.writes disk.old ≡ [] }
    requires time { IsTime now }
    requires inside { hit.now.at < PLACES }
    ensures removes { IfOk result (RemovesBare (T.may_be disk.old) (T.may_be disk.new) (T.writes disk.new) number directory.now hit.now now) }
    ensures few { IfOk result (λ _. length (T.writes disk.new) ≤ 4) }
{
    match find_entry(disk, &hit.head)? {
        None => {
            let changed = take_out(disk, number, directory, hit, now)?;
            Ok(Ok(changed))
        }
        Some(_other) => Ok(Err(Status::NotEmpty)),
    }
}
