// Calls that the tree does not have: they are refused after their checks.
ghost use Rattle.std.specs.Prelude.{◌≡◌, [], IfOk, Err};
ghost use Rattle.journal_tree.specs.declared.time.Time.{Time};
ghost use Rattle.journal_tree.specs.Op.Call.{mknod as mknod_call, link as link_call};
ghost use Rattle.journal_tree.specs.Op.Reply.{not_done};
ghost use Rattle.journal_treecalls.specs.Disks.{Learns, Does};
ghost use Rattle.journal_treecalls.specs.Refusals.{status_of_making, IsRefused};

use crate::TreeDisk;
use crate::named::{Named, find_name};
use crate::node::node;
use journal_tree::{Caller, Handle, Status};

/// MKNOD (RFC 1813, 3.3.11).
///
/// # Errors
/// - The call is given up.
///
/// The answers. The first that holds:
/// - `Stale`: the handle's node was removed.
/// - `NotDirectory`: the handle is a file's.
/// - `NoAccess`: the caller may not search the directory.
/// - `Exists`: the name is `.` or `..`.
/// - `Invalid`: the name is empty, or has a byte 0 or `/`.
/// - `NameTooLong`: the name has more than 255 bytes.
/// - `Exists`: the directory has a node of the name.
/// - `NoAccess`: the caller may not write the directory.
/// - `NotSupported`.
pub fn mknod<T: TreeDisk>(
    disk: &mut T,
    caller: &Caller,
    directory: Handle,
    name: &[u8],
) -> Result<Status, T::Fault>
    requires first { T.writes disk.old ≡ [] }
    ensures does { IfOk result (λ status. (now : Time) → Does (T.may_be disk.new) (T.writes disk.new) (mknod_call directory name.now) caller.now now (not_done (Err status))) }
    ensures unwritten { T.writes disk.new ≡ [] }
{
    refuse_making(disk, caller, directory, name)
}

/// LINK (RFC 1813, 3.3.15): a node has one name.
///
/// # Errors
/// - The call is given up.
///
/// The answers. The first that holds:
/// - `Stale`: the handle's node was removed.
/// - Those of `mknod`, of the directory and the name.
pub fn link<T: TreeDisk>(
    disk: &mut T,
    caller: &Caller,
    handle: Handle,
    directory: Handle,
    name: &[u8],
) -> Result<Status, T::Fault>
    requires first { T.writes disk.old ≡ [] }
    ensures does { IfOk result (λ status. (now : Time) → Does (T.may_be disk.new) (T.writes disk.new) (link_call handle directory name.now) caller.now now (not_done (Err status))) }
    ensures unwritten { T.writes disk.new ≡ [] }
{
    match node(disk, handle)? {
        None => Ok(Status::Stale),
        Some(_target) => refuse_making(disk, caller, directory, name),
    }
}

// The reason not to make a node of a name, where none of its kind is made.
fn refuse_making<T: TreeDisk>(
    disk: &mut T,
    caller: &Caller,
    directory: Handle,
    name: &[u8],
) -> Result<Status, T::Fault>
    requires first { T.writes disk.old ≡ [] }
    ensures learns { IfOk result (λ status. Learns (T.may_be disk.old) (T.may_be disk.new) (λ V. IsRefused V caller.now directory name.now status)) }
    ensures first { T.writes disk.new ≡ [] }
{
    let taken = Status::Exists;
    match find_name(disk, caller, directory, name, taken, taken)? {
        Ok(found) => Ok(status_of_making(caller, &found)),
        Err(status) => Ok(status),
    }
}

// The same of a name that was looked for.
fn status_of_making(caller: &Caller, found: &Named) -> Status
    ensures { result ≡ status_of_making caller.now found.now }
{
    let may = caller.may_rename(&found.directory.head.attributes);
    match found.hit {
        Some(_hit) => Status::Exists,
        None => {
            if may {
                Status::NotSupported
            } else {
                Status::NoAccess
            }
        }
    }
}
