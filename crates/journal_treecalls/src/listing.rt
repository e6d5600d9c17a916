// READDIR and READDIRPLUS.
ghost use Rattle.std.specs.Prelude.{◌≡◌, ◌-◌, [], IfOk};
ghost use Rattle.journal_tree.specs.declared.time.Time.{Time};
ghost use Rattle.journal_tree.specs.Op.Call.{readdir as readdir_call, readdirplus as readdirplus_call};
ghost use Rattle.journal_tree.specs.Op.Reply.{listed, listed_plus};
ghost use Rattle.journal_treecalls.specs.Disks.{Learns, Does};
ghost use Rattle.journal_treecalls.specs.Listings.{listing_status, listed_told, listed_plus_told, IsReplyOf, IsFullReply, ShowsDot, ShowsDotDot, ListsDirectory, ListsNode, Lists};

use crate::TreeDisk;
use crate::lines::{Line, Page, Room, add, named_line};
use crate::lookups::number_above;
use crate::node::{Record, inode_of, node, told};
use crate::seats::{block_count, block_numbers};
use crate::walk::show_blocks;
use journal_tree::{Caller, Handle, Kind, Status, Told};
use journal_treestore::{Head, Inode};

/// The answer of READDIR and of READDIRPLUS.
#[derive(Drop)]
pub struct ListReply {
    pub directory: Told,
    /// The lines after the cookie, as many as have room.
    pub lines: Vec<Line>,
    /// True if there are no more lines.
    pub is_end: bool,
}

// What a reply has beside the lines.
const FRAME_BYTES: u64 = 104;

/// READDIR (RFC 1813, 3.3.16): lines of a directory after a cookie, as many as have room in a reply
/// of `most` bytes. `.` and `..` come first.
///
/// # Errors
/// - The call is given up.
///
/// The other answers. The first that holds:
/// - `Stale`: the handle's node was removed.
/// - `NotDirectory`: the handle is a file's.
/// - `NoAccess`: the caller may not read the directory.
/// - `TooSmall`: there are lines, and the first has no room.
pub fn readdir<T: TreeDisk>(
    disk: &mut T,
    caller: &Caller,
    handle: Handle,
    cookie: u64,
    most: u64,
) -> Result<Result<ListReply, Status>, T::Fault>
    requires first { T.writes disk.old ≡ [] }
    ensures does { IfOk result (λ reply. (now : Time) → Does (T.may_be disk.new) (T.writes disk.new) (readdir_call handle cookie most) caller.now now (listed (listed_told reply))) }
    ensures unwritten { T.writes disk.new ≡ [] }
{
    let room = Room {
        names: less_frame(most),
        bytes: 0,
        is_plus: false,
    };
    list(disk, caller, handle, cookie, room)
}

/// READDIRPLUS (RFC 1813, 3.3.17): the same with what each line's node has. The lines as READDIR
/// returns them have room in `names` bytes, and all of the reply in `most`.
///
/// # Errors
/// - The call is given up.
///
/// The other answers are those of `readdir`.
pub fn readdirplus<T: TreeDisk>(
    disk: &mut T,
    caller: &Caller,
    handle: Handle,
    cookie: u64,
    names: u64,
    most: u64,
) -> Result<Result<ListReply, Status>, T::Fault>
    requires first { T.writes disk.old ≡ [] }
    ensures does { IfOk result (λ reply. (now : Time) → Does (T.may_be disk.new) (T.writes disk.new) (readdirplus_call handle cookie names most) caller.now now (listed_plus (listed_plus_told reply))) }
    ensures unwritten { T.writes disk.new ≡ [] }
{
    let room = Room {
        names,
        bytes: less_frame(most),
        is_plus: true,
    };
    list(disk, caller, handle, cookie, room)
}

// The bytes that a reply of so many has for lines.
fn less_frame(most: u64) -> u64
    ensures { result ≡ most - 104 }
{
    most.saturating_sub(FRAME_BYTES)
}

// Lines of a directory after a cookie, as many as have room.
fn list<T: TreeDisk>(
    disk: &mut T,
    caller: &Caller,
    handle: Handle,
    cookie: u64,
    room: Room,
) -> Result<Result<ListReply, Status>, T::Fault>
    requires first { T.writes disk.old ≡ [] }
    ensures learns { IfOk result (λ reply. Learns (T.may_be disk.old) (T.may_be disk.new) (λ V. Lists V caller.now handle cookie room reply)) }
    ensures first { T.writes disk.new ≡ [] }
{
    match node(disk, handle)? {
        None => Ok(Err(Status::Stale)),
        Some(target) => list_node(disk, caller, handle.number, &target, cookie, room),
    }
}

// The same of the node of an inode.
fn list_node<T: TreeDisk>(
    disk: &mut T,
    caller: &Caller,
    number: u32,
    target: &Record,
    cookie: u64,
    room: Room,
) -> Result<Result<ListReply, Status>, T::Fault>
    requires first { T.writes disk.old ≡ [] }
    ensures learns { IfOk result (λ reply. Learns (T.may_be disk.old) (T.may_be disk.new) (λ V. ListsNode V caller.now number target.now cookie room reply)) }
    ensures first { T.writes disk.new ≡ [] }
{
    match listing_status(caller, &target.head) {
        Some(status) => Ok(Err(status)),
        None => list_directory(disk, number, target, cookie, room),
    }
}

// The reason not to list a node, if there is one.
fn listing_status(caller: &Caller, head: &Head) -> Option<Status>
    ensures { result ≡ listing_status caller.now head.now }
{
    let may = caller.may_read(&head.attributes);
    match head.kind {
        Kind::File | Kind::Link => Some(Status::NotDirectory),
        Kind::Directory => { if may { None } else { Some(Status::NoAccess) } }
    }
}

// The same of a directory that the caller may read.
fn list_directory<T: TreeDisk>(
    disk: &mut T,
    number: u32,
    target: &Record,
    cookie: u64,
    room: Room,
) -> Result<Result<ListReply, Status>, T::Fault>
    requires first { T.writes disk.old ≡ [] }
    ensures learns { IfOk result (λ reply. Learns (T.may_be disk.old) (T.may_be disk.new) (λ V. ListsDirectory V number target.now cookie room reply)) }
    ensures first { T.writes disk.new ≡ [] }
{
    let mut page = Page {
        lines: disk.lines(),
        room: Some(room),
    };
    show_dot(disk, number, &target.head, cookie, &mut page)?;
    show_dot_dot(disk, number, target, cookie, &mut page)?;
    let begin = cookie.saturating_sub(2);
    let numbers = block_numbers(disk, &target.head)?;
    let count = block_count(&target.head);
    show_blocks(disk, &numbers, count, begin, &mut page)?;
    Ok(reply_of(told(number, &target.head), page))
}

// The line of `.` comes onto the page, if the cookie is before it.
fn show_dot<T: TreeDisk>(
    disk: &mut T,
    number: u32,
    head: &Head,
    cookie: u64,
    page: &mut Page,
) -> Result<(), T::Fault>
    ensures learns { IfOk result (λ _. Learns (T.may_be disk.old) (T.may_be disk.new) (λ V. ShowsDot V number head.now cookie page.old page.new)) }
    ensures same { T.writes disk.new ≡ T.writes disk.old }
{
    if cookie != 0 {
        return Ok(());
    }
    let node = told(number, head);
    add(
        disk,
        page,
        named_line(1, number, b".", head.generation, Some(node)),
    )
}

// So does that of `..`.
fn show_dot_dot<T: TreeDisk>(
    disk: &mut T,
    number: u32,
    target: &Record,
    cookie: u64,
    page: &mut Page,
) -> Result<(), T::Fault>
    requires first { T.writes disk.old ≡ [] }
    ensures learns { IfOk result (λ _. Learns (T.may_be disk.old) (T.may_be disk.new) (λ V. ShowsDotDot V number target.now cookie page.old page.new)) }
    ensures first { T.writes disk.new ≡ [] }
{
    if 1 < cookie {
        return Ok(());
    }
    let above = number_above(number, target);
    match inode_of(disk, above)? {
        Inode::Used(head) => {
            let node = told(above, &head);
            add(
                disk,
                page,
                named_line(2, above, b"..", head.generation, Some(node)),
            )
        }
        Inode::Free(generation) => add(disk, page, named_line(2, above, b"..", generation, None)),
    }
}

// The reply of a page.
fn reply_of(directory: Told, page: Page) -> Result<ListReply, Status>
    ensures { IsReplyOf directory page result }
{
    match page.room {
        Some(_room) => Ok(ListReply {
            directory,
            lines: page.lines,
            is_end: true,
        }),
        None => full_reply(directory, page.lines),
    }
}

// That of a page on which a line had no room.
fn full_reply(directory: Told, lines: Vec<Line>) -> Result<ListReply, Status>
    ensures { IsFullReply directory lines.items result }
{
    if lines.is_empty() {
        return Err(Status::TooSmall);
    }
    Ok(ListReply {
        directory,
        lines,
        is_end: false,
    })
}
