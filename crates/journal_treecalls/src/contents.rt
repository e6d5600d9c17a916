// COMMIT.
ghost use Rattle.std.specs.Prelude.{◌≡◌, [], IfOk};
ghost use Rattle.journal_tree.specs.declared.time.Time.{Time};
ghost use Rattle.journal_tree.specs.declared.caller.Caller.{Caller};
ghost use Rattle.journal_tree.specs.Op.Call.{commit as commit_call};
ghost use Rattle.journal_tree.specs.Op.Reply.{committed};
ghost use Rattle.journal_treecalls.specs.Disks.{Does};
ghost use Rattle.journal_treecalls.specs.Facts.{committed_of};

use crate::TreeDisk;
use crate::node::{node, told};
use journal_tree::{Changed, Handle, Kind, Status};
use journal_treestore::Head;

/// COMMIT (RFC 1813, 3.3.21): all that was written before it is there already, so that it changes
/// nothing. It asks for no right.
///
/// # Errors
/// - The call is given up.
///
/// The other answers. The first that holds:
/// - `Stale`: the handle's node was removed.
/// - `Invalid`: the handle is a directory's.
pub fn commit<T: TreeDisk>(
    disk: &mut T,
    handle: Handle,
) -> Result<Result<Changed, Status>, T::Fault>
    requires first { T.writes disk.old ≡ [] }
    ensures does { IfOk result (λ reply. (caller : Caller) (now : Time) → Does (T.may_be disk.new) (T.writes disk.new) (commit_call handle) caller now (committed reply)) }
    ensures unwritten { T.writes disk.new ≡ [] }
{
    match node(disk, handle)? {
        None => Ok(Err(Status::Stale)),
        Some(target) => Ok(committed_of(handle.number, &target.head)),
    }
}

// COMMIT's answer for a node.
fn committed_of(number: u32, head: &Head) -> Result<Changed, Status>
    ensures { result ≡ committed_of number head.now }
{
    let node = told(number, head);
    match head.kind {
        Kind::Directory | Kind::Link => Err(Status::Invalid),
        Kind::File => Ok(Changed {
            before: node,
            after: node,
        }),
    }
}
