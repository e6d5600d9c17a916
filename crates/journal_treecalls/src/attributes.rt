// GETATTR and ACCESS.
ghost use Rattle.std.specs.Prelude.{◌≡◌, ◌≤◌, [], IfOk};
ghost use Rattle.journal_tree.specs.declared.time.Time.{Time};
ghost use Rattle.journal_tree.specs.declared.caller.Caller.{Caller};
ghost use Rattle.journal_tree.specs.Attributes.{where_true};
ghost use Rattle.journal_tree.specs.Op.Call.{getattr as getattr_call, access as access_call};
ghost use Rattle.journal_tree.specs.Op.Reply.{got, accessed};
ghost use Rattle.journal_treecalls.specs.Disks.{Does};
ghost use Rattle.journal_treecalls.specs.Replies.{granted_to, access_of, access_told};

use crate::TreeDisk;
use crate::node::{node, told};
use journal_tree::{Attributes, Caller, Handle, Kind, Status, Told};
use journal_treestore::Head;

// The rights of which ACCESS speaks.
const READ: u32 = 1;

const LOOKUP: u32 = 2;

// MODIFY and EXTEND.
const WRITE: u32 = 12;

const DELETE: u32 = 16;

const EXECUTE: u32 = 32;

/// The answer of ACCESS.
#[derive(Clone, Copy, Debug, PartialEq, Eq)]
pub struct AccessReply {
    pub node: Told,
    /// Which of the rights that were asked for the caller has.
    pub rights: u32,
}

/// GETATTR (RFC 1813, 3.3.1): what a handle's node has. It asks for no right.
///
/// # Errors
/// - The call is given up.
///
/// The other answer:
/// - `Stale`: the handle's node was removed.
pub fn getattr<T: TreeDisk>(disk: &mut T, handle: Handle) -> Result<Result<Told, Status>, T::Fault>
    requires first { T.writes disk.old ≡ [] }
    ensures does { IfOk result (λ reply. (caller : Caller) (now : Time) → Does (T.may_be disk.new) (T.writes disk.new) (getattr_call handle) caller now (got reply)) }
    ensures unwritten { T.writes disk.new ≡ [] }
{
    match node(disk, handle)? {
        None => Ok(Err(Status::Stale)),
        Some(target) => Ok(Ok(told(handle.number, &target.head))),
    }
}

/// ACCESS (RFC 1813, 3.3.4): which of these rights a caller has to a handle's node, by its mode.
/// READ and WRITE may let him do more, if he owns it.
///
/// # Errors
/// - The call is given up.
///
/// The other answer:
/// - `Stale`: the handle's node was removed.
pub fn access<T: TreeDisk>(
    disk: &mut T,
    caller: &Caller,
    handle: Handle,
    asked: u32,
) -> Result<Result<AccessReply, Status>, T::Fault>
    requires first { T.writes disk.old ≡ [] }
    ensures does { IfOk result (λ reply. (now : Time) → Does (T.may_be disk.new) (T.writes disk.new) (access_call handle asked) caller.now now (accessed (access_told reply))) }
    ensures unwritten { T.writes disk.new ≡ [] }
{
    match node(disk, handle)? {
        None => Ok(Err(Status::Stale)),
        Some(target) => Ok(Ok(access_reply(caller, handle.number, &target.head, asked))),
    }
}

// ACCESS's reply for a node.
fn access_reply(caller: &Caller, number: u32, head: &Head, asked: u32) -> AccessReply
    ensures { result ≡ access_of caller.now number head.now asked }
{
    AccessReply {
        node: told(number, head),
        rights: asked & granted(caller, &head.attributes, head.kind),
    }
}

// The rights of a caller to a node of this kind.
fn granted(caller: &Caller, attributes: &Attributes, kind: Kind) -> u32
    ensures { result ≡ granted_to caller.now attributes.now kind }
{
    let may_search = caller.may_search(attributes);
    let may_write = caller.may_write(attributes);
    let read = where_true(caller.may_read(attributes), READ);
    match kind {
        Kind::Directory => {
            let change = where_true(may_write && may_search, WRITE + DELETE);
            read + where_true(may_search, LOOKUP) + change
        }
        Kind::File => {
            let run = where_true(caller.may_run(attributes), EXECUTE);
            read + where_true(may_write, WRITE) + run
        }
        Kind::Link => read,
    }
}

// Rights that are given or not.
fn where_true(may: bool, rights: u32) -> u32
    ensures is { result ≡ where_true may rights }
    ensures few { result ≤ rights }
{
    if may { rights } else { 0 }
}
