// LOOKUP.
ghost use Rattle.std.specs.Prelude.{◌≡◌, [], IfOk};
ghost use Rattle.journal_tree.specs.declared.time.Time.{Time};
ghost use Rattle.journal_tree.specs.Op.Call.{lookup as lookup_call};
ghost use Rattle.journal_tree.specs.Op.Reply.{found as found_reply};
ghost use Rattle.journal_treecalls.specs.Disks.{Learns, Does};
ghost use Rattle.journal_treecalls.specs.Replies.{found_of, number_above, LooksUp, LooksUpParent, LooksUpName};

use crate::TreeDisk;
use crate::name::name_kind;
use crate::node::{Record, inode_of, searched, told};
use crate::search::find;
use journal_tree::{Caller, Found, Handle, NameKind, ROOT, Status};
use journal_treestore::{Head, Inode};

/// LOOKUP (RFC 1813, 3.3.3): the node that a directory has under a name. `.` is the directory
/// itself, and `..` the one above it, or the root.
///
/// # Errors
/// - The call is given up.
///
/// The other answers. The first that holds:
/// - `Stale`: the handle's node was removed.
/// - `NotDirectory`: the handle is a file's.
/// - `NoAccess`: the caller may not search the directory.
/// - `Invalid`: the name is empty, or has a byte 0 or `/`.
/// - `NameTooLong`: the name has more than 255 bytes.
/// - `NoEntry`: the directory has no node of the name.
pub fn lookup<T: TreeDisk>(
    disk: &mut T,
    caller: &Caller,
    directory: Handle,
    name: &[u8],
) -> Result<Result<Found, Status>, T::Fault>
    requires first { T.writes disk.old ≡ [] }
    ensures does { IfOk result (λ reply. (now : Time) → Does (T.may_be disk.new) (T.writes disk.new) (lookup_call directory name.now) caller.now now (found_reply reply)) }
    ensures unwritten { T.writes disk.new ≡ [] }
{
    match searched(disk, caller, directory)? {
        Ok(target) => lookup_in(disk, directory.number, &target, name),
        Err(status) => Ok(Err(status)),
    }
}

// LOOKUP in a directory that the caller may search.
fn lookup_in<T: TreeDisk>(
    disk: &mut T,
    number: u32,
    directory: &Record,
    name: &[u8],
) -> Result<Result<Found, Status>, T::Fault>
    requires first { T.writes disk.old ≡ [] }
    ensures learns { IfOk result (λ reply. Learns (T.may_be disk.old) (T.may_be disk.new) (λ V. LooksUp V number directory.now name.now reply)) }
    ensures first { T.writes disk.new ≡ [] }
{
    match name_kind(name) {
        NameKind::Dot => Ok(Ok(found(number, &directory.head, number, &directory.head))),
        NameKind::DotDot => lookup_parent(disk, number, directory),
        NameKind::NoName => Ok(Err(Status::Invalid)),
        NameKind::LongName => Ok(Err(Status::NameTooLong)),
        NameKind::Name => lookup_name(disk, number, directory, name),
    }
}

// The directory above one.
fn lookup_parent<T: TreeDisk>(
    disk: &mut T,
    number: u32,
    directory: &Record,
) -> Result<Result<Found, Status>, T::Fault>
    requires first { T.writes disk.old ≡ [] }
    ensures learns { IfOk result (λ reply. Learns (T.may_be disk.old) (T.may_be disk.new) (λ V. LooksUpParent V number directory.now reply)) }
    ensures first { T.writes disk.new ≡ [] }
{
    let above = number_above(number, directory);
    match inode_of(disk, above)? {
        Inode::Used(node) => Ok(Ok(found(number, &directory.head, above, &node))),
        Inode::Free(_) => Ok(Err(Status::NoEntry)),
    }
}

// The node of a name that is neither `.` nor `..`.
fn lookup_name<T: TreeDisk>(
    disk: &mut T,
    number: u32,
    directory: &Record,
    name: &[u8],
) -> Result<Result<Found, Status>, T::Fault>
    requires first { T.writes disk.old ≡ [] }
    ensures learns { IfOk result (λ reply. Learns (T.may_be disk.old) (T.may_be disk.new) (λ V. LooksUpName V number directory.now name.now reply)) }
    ensures first { T.writes disk.new ≡ [] }
{
    match find(disk, &directory.head, name)? {
        Some(hit) => Ok(Ok(found(number, &directory.head, hit.number, &hit.head))),
        None => Ok(Err(Status::NoEntry)),
    }
}

// The number of the directory above. The root is above itself.
pub(crate) fn number_above(number: u32, directory: &Record) -> u32
    ensures { result ≡ number_above number directory.now }
{
    if number == ROOT {
        ROOT
    } else {
        directory.head.directory
    }
}

// A node that was found, and its directory, in a reply.
fn found(number: u32, head: &Head, of: u32, node: &Head) -> Found
    ensures { result ≡ found_of number head.now of node.now }
{
    Found {
        generation: node.generation,
        node: told(of, node),
        directory: told(number, head),
    }
}
