// READ.
ghost use Rattle.std.specs.Prelude.{◌≡◌, ◌≤◌, ◌-◌, [], IfOk};
ghost use Rattle.journal_tree.specs.declared.limits.TheConstants.{TRANSFER_BYTES};
ghost use Rattle.journal_tree.specs.declared.time.Time.{Time};
ghost use Rattle.journal_tree.specs.Op.Call.{read as read_call};
ghost use Rattle.journal_tree.specs.Op.Reply.{bytes_read};
ghost use Rattle.journal_treecalls.specs.Disks.{Learns, Does};
ghost use Rattle.journal_treecalls.specs.Portions.{reading_status, reach_of, portion_told, HasPortion, ReadsNode};

use crate::TreeDisk;
use crate::fetch::{Span, fetch};
use crate::node::{Record, node, told};
use journal_tree::{Caller, Handle, Kind, Status, TRANSFER_BYTES, Told};
use journal_treestore::Head;

/// The answer of READ.
#[derive(Debug, Drop)]
pub struct ReadReply {
    pub file: Told,
    /// The bytes, from the offset on.
    pub bytes: Vec<u8>,
    /// True if they reach the end of the file.
    pub is_end: bool,
}

// No bytes.
const NO_SPAN: Span = Span { from: 0, to: 0 };

/// READ (RFC 1813, 3.3.6): bytes of a file from an offset on, `count` of them, but at most
/// `TRANSFER_BYTES`, and none after its end. Where a file has no block, its bytes are zero.
///
/// # Errors
/// - The call is given up.
///
/// The other answers. The first that holds:
/// - `Stale`: the handle's node was removed.
/// - `Invalid`: the handle is a directory's.
/// - `NoAccess`: the caller does not own the file, and may neither read nor run it.
pub fn read<T: TreeDisk>(
    disk: &mut T,
    caller: &Caller,
    handle: Handle,
    offset: u64,
    count: u32,
) -> Result<Result<ReadReply, Status>, T::Fault>
    requires first { T.writes disk.old ≡ [] }
    ensures does { IfOk result (λ reply. (now : Time) → Does (T.may_be disk.new) (T.writes disk.new) (read_call handle offset count) caller.now now (bytes_read (portion_told reply))) }
    ensures unwritten { T.writes disk.new ≡ [] }
{
    match node(disk, handle)? {
        None => Ok(Err(Status::Stale)),
        Some(target) => read_node(disk, caller, handle.number, &target, offset, count),
    }
}

// READ of the node of an inode.
fn read_node<T: TreeDisk>(
    disk: &mut T,
    caller: &Caller,
    number: u32,
    target: &Record,
    offset: u64,
    count: u32,
) -> Result<Result<ReadReply, Status>, T::Fault>
    requires first { T.writes disk.old ≡ [] }
    ensures learns { IfOk result (λ reply. Learns (T.may_be disk.old) (T.may_be disk.new) (λ V. ReadsNode V caller.now number target.now offset count reply)) }
    ensures first { T.writes disk.new ≡ [] }
{
    match reading_status(caller, &target.head) {
        Some(status) => Ok(Err(status)),
        None => {
            let reply = read_file(disk, number, &target.head, offset, count)?;
            Ok(Ok(reply))
        }
    }
}

// The reason not to read a node, if there is one.
fn reading_status(caller: &Caller, head: &Head) -> Option<Status>
    ensures { result ≡ reading_status caller.now head.now }
{
    let may = caller.may_fetch(&head.attributes);
    match head.kind {
        Kind::Directory | Kind::Link => Some(Status::Invalid),
        Kind::File => { if may { None } else { Some(Status::NoAccess) } }
    }
}

// Bytes of a file, or of a link's text.
pub(crate) fn read_file<T: TreeDisk>(
    disk: &mut T,
    number: u32,
    head: &Head,
    offset: u64,
    count: u32,
) -> Result<ReadReply, T::Fault>
    requires first { T.writes disk.old ≡ [] }
    ensures learns { IfOk result (λ reply. Learns (T.may_be disk.old) (T.may_be disk.new) (λ V. HasPortion V number head.now offset count reply)) }
    ensures first { T.writes disk.new ≡ [] }
{
    let reach = reach_of(head.size, offset, count);
    let mut bytes = disk.zeros((reach - offset) as usize)?;
    fetch(disk, head, offset, NO_SPAN, &mut bytes)?;
    Ok(ReadReply {
        file: told(number, head),
        bytes,
        is_end: head.size <= reach,
    })
}

// Where the bytes end that are read: not after the end of the file.
fn reach_of(size: u64, offset: u64, count: u32) -> u64
    ensures is { result ≡ reach_of size offset count }
    ensures after { offset ≤ result }
    ensures few { result - offset ≤ TRANSFER_BYTES }
{
    if size <= offset {
        return offset;
    }
    let few = count.min(TRANSFER_BYTES);
    let most = u64::from(few);
    if size - offset <= most {
        size
    } else {
        offset + most
    }
}
