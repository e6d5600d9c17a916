// WRITE.
ghost use Rattle.std.specs.Prelude.{◌≡◌, ◌<◌, ◌≤◌, ◌+◌, ◌*◌, ◌^◌, [], nat_lt, length, IfOk};
ghost use Rattle.journal_tree.specs.declared.limits.TheConstants.{MOST_BYTES};
ghost use Rattle.journal_tree.specs.Times.{IsTime};
ghost use Rattle.journal_tree.specs.Op.Call.{write as write_call};
ghost use Rattle.journal_tree.specs.Op.Reply.{wrote};
ghost use Rattle.journal_treecalls.specs.Disks.{Learns, Does};
ghost use Rattle.journal_treecalls.specs.Counts.{most_written};
ghost use Rattle.journal_treecalls.specs.Reaches.{reach_for, reach_count, IsReach, AreSized};
ghost use Rattle.journal_treecalls.specs.Overlays.{status_of_writing, writing_status, gap_of, IsInsideTail, IsWrittenHead, ClearsGap, index_bytes, piece_at, is_kept, laying_at, LaysOne, LaysAt, LaysBlocks, WritesFile, WritesRoom, WritesAllowed, WritesNode};

use crate::TreeDisk;
use crate::bytes::{bounded, used_bytes};
use crate::fetch::Span;
use crate::growth::owner_at;
use crate::image::image_of;
use crate::index::block_at;
use crate::node::{Record, node, told};
use crate::reach::{
    Changing, Numbers, Reach, numbers_of, reach_count, reach_for, reach_place, take_places,
};
use crate::removal::are_words;
use crate::setting::{Tail, changed, clear_from};
use journal_tree::{
    Attributes, BLOCK_BYTES, Caller, Changed, Handle, Kind, MOST_BYTES, Status, Time,
};
use journal_treestore::Head;
use journal_world::Value;

/// What a WRITE puts into a file.
#[derive(Clone, Copy)]
pub struct WriteData<'a> {
    /// Where in the file the first byte goes.
    pub offset: u64,
    /// How many bytes there are, as the call says.
    pub count: u32,
    pub bytes: &'a [u8],
}

/// WRITE (RFC 1813, 3.3.7): bytes of a file from an offset on. If it ends before the offset, zeros
/// come between. Where it has no block for them, and no index block for the numbers of these, it
/// gets the first of the spare ones that nobody has. It may meet any number of index blocks. How
/// many objects are written depends on the number of bytes (`most_written` of `specs/Counts.antt`):
/// at most 42 for `TRANSFER_BYTES`.
///
/// # Errors
/// - The call is given up.
///
/// The other answers. The first that holds:
/// - `Stale`: the handle's node was removed.
/// - `Invalid`: the handle is a directory's.
/// - `Invalid`: the count is not that of the bytes.
/// - `NoAccess`: the caller does not own the file, and may not write it.
/// - `TooBig`: there are bytes, and they end after the most bytes of a file.
/// - `NoSpace`: too few of the spare blocks are free. One is taken for each block in which bytes
///   lie and that the file lacks, one for each index block that it lacks for these, and one for the
///   numbers of its index blocks if it has none and gets the first.
pub fn write<T: TreeDisk>(
    disk: &mut T,
    caller: &Caller,
    handle: Handle,
    data: &WriteData,
    blocks: &[u32],
    now: Time,
) -> Result<Result<Changed, Status>, T::Fault>
    requires first { T.writes disk.old ≡ [] }
    requires time { IsTime now }
    ensures does { IfOk result (λ reply. Does (T.may_be disk.new) (T.writes disk.new) (write_call handle data.now.offset data.now.count data.now.bytes.now) caller.now now (wrote reply)) }
    ensures few { IfOk result (λ _. length (T.writes disk.new) ≤ most_written (length data.now.bytes.now)) }
{
    are_words(*caller);
    match node(disk, handle)? {
        None => Ok(Err(Status::Stale)),
        Some(target) => write_node(disk, caller, handle.number, &target, data, blocks, now),
    }
}

// WRITE of the node of an inode.
fn write_node<T: TreeDisk>(
    disk: &mut T,
    caller: &Caller,
    number: u32,
    target: &Record,
    data: &WriteData,
    blocks: &[u32],
    now: Time,
) -> Result<Result<Changed, Status>, T::Fault>
    requires first { T.writes disk.old ≡ [] }
    requires time { IsTime now }
    ensures writes { IfOk result (WritesNode (T.may_be disk.old) (T.may_be disk.new) (T.writes disk.new) caller.now data.now.offset data.now.count data.now.bytes.now now number target.now) }
    ensures few { IfOk result (λ _. length (T.writes disk.new) ≤ most_written (length data.now.bytes.now)) }
{
    let bytes = data.bytes;
    match writing_status(caller, &target.head, data.offset, data.count, bytes.len()) {
        Some(status) => Ok(Err(status)),
        None => write_allowed(disk, caller, number, target, data, blocks, now),
    }
}

// The reason not to write a node, if there is one, but that there is no room.
fn writing_status(
    caller: &Caller,
    head: &Head,
    offset: u64,
    count: u32,
    bytes: usize,
) -> Option<Status>
    ensures { result ≡ writing_status caller.now head.now offset count bytes }
{
    let may = caller.may_store(&head.attributes);
    match head.kind {
        Kind::Directory | Kind::Link => Some(Status::Invalid),
        Kind::File => status_of_writing(may, offset, count, bytes),
    }
}

// The same of a file.
fn status_of_writing(may: bool, offset: u64, count: u32, bytes: usize) -> Option<Status>
    ensures { result ≡ status_of_writing may offset count bytes }
{
    if count as usize != bytes {
        return Some(Status::Invalid);
    }
    if !may {
        return Some(Status::NoAccess);
    }
    if count == 0 {
        return None;
    }
    if is_too_long(offset, u64::from(count)) {
        return Some(Status::TooBig);
    }
    None
}

// True if no file has as many bytes from an offset on.
fn is_too_long(offset: u64, count: u64) -> bool
    ensures { result ≡ nat_lt MOST_BYTES (offset + count) }
{
    if MOST_BYTES < offset {
        return true;
    }
    MOST_BYTES - offset < count
}

// A file is written, where nothing is against it.
fn write_allowed<T: TreeDisk>(
    disk: &mut T,
    caller: &Caller,
    number: u32,
    target: &Record,
    data: &WriteData,
    blocks: &[u32],
    now: Time,
) -> Result<Result<Changed, Status>, T::Fault>
    requires first { T.writes disk.old ≡ [] }
    requires time { IsTime now }
    requires fits { 0 < length data.now.bytes.now → data.now.offset + length data.now.bytes.now ≤ MOST_BYTES }
    ensures writes { IfOk result (WritesAllowed (T.may_be disk.old) (T.may_be disk.new) (T.writes disk.new) caller.now data.now.offset data.now.bytes.now now number target.now) }
    ensures few { IfOk result (λ _. length (T.writes disk.new) ≤ most_written (length data.now.bytes.now)) }
{
    let bytes = data.bytes;
    if bytes.is_empty() {
        let same = told(number, &target.head);
        return Ok(Ok(Changed {
            before: same,
            after: same,
        }));
    }
    write_room(disk, caller, number, target, data, blocks, now)
}

// Bytes of a file are written if there are blocks for them.
fn write_room<T: TreeDisk>(
    disk: &mut T,
    caller: &Caller,
    number: u32,
    target: &Record,
    data: &WriteData,
    blocks: &[u32],
    now: Time,
) -> Result<Result<Changed, Status>, T::Fault>
    requires first { T.writes disk.old ≡ [] }
    requires time { IsTime now }
    requires some { 0 < length data.now.bytes.now }
    requires fits { data.now.offset + length data.now.bytes.now ≤ MOST_BYTES }
    ensures writes { IfOk result (WritesRoom (T.may_be disk.old) (T.may_be disk.new) (T.writes disk.new) caller.now data.now.offset data.now.bytes.now now number target.now) }
    ensures few { IfOk result (λ _. length (T.writes disk.new) ≤ most_written (length data.now.bytes.now)) }
{
    let bytes = data.bytes;
    let span = Span {
        from: data.offset,
        to: data.offset + bytes.len() as u64,
    };
    let reach = reach_for(span);
    let old = numbers_of(disk, &target.head, reach)?;
    match take_places(disk, reach, &old, blocks)? {
        None => Ok(Err(Status::NoSpace)),
        Some(new) => {
            let change = Changing { reach, old, new };
            let changed = write_file(disk, caller, number, target, data, &change, now)?;
            Ok(Ok(changed))
        }
    }
}

// Bytes of a file of these blocks are written: the block in which the file ended, if zeros come
// after it, the blocks in which the bytes lie, the index blocks whose numbers are others, the
// records of those that are new, and the inode.
fn write_file<T: TreeDisk>(
    disk: &mut T,
    caller: &Caller,
    number: u32,
    target: &Record,
    data: &WriteData,
    change: &Changing,
    now: Time,
) -> Result<Changed, T::Fault>
    requires first { T.writes disk.old ≡ [] }
    requires time { IsTime now }
    requires some { 0 < length data.now.bytes.now }
    requires fits { data.now.offset + length data.now.bytes.now ≤ MOST_BYTES }
    requires reach { change.now.reach ≡ reach_for data.now.offset (data.now.offset + length data.now.bytes.now) }
    requires is_reach { IsReach change.now.reach }
    requires old_sized { AreSized change.now.reach change.now.old }
    requires new_sized { AreSized change.now.reach change.now.new }
    ensures writes { IfOk result (WritesFile (T.may_be disk.old) (T.may_be disk.new) (T.writes disk.new) caller.now data.now.offset data.now.bytes.now change.now now number target.now) }
    ensures few { IfOk result (λ _. length (T.writes disk.new) ≤ most_written (length data.now.bytes.now)) }
{
    let bytes = data.bytes;
    let end = data.offset + bytes.len() as u64;
    let head = written_head(caller, &target.head, &change.new, end, now);
    let image = image_of(disk, &target.head, data.offset, bytes)?;
    clear_gap(disk, &target.head, data.offset)?;
    put_places(disk, number, change, &image)?;
    disk.put_inode(number, used_bytes(head, target))?;
    Ok(changed(number, &target.head, &head))
}

// The fields of a file that a caller writes up to an end.
fn written_head(caller: &Caller, head: &Head, numbers: &Numbers, end: u64, now: Time) -> Head
    requires { IsTime now }
    ensures { IsWrittenHead caller.now now head.now numbers.now end result }
{
    let old = *head;
    let last = Attributes {
        ctime: bounded(old.attributes.ctime),
        ..old.attributes
    };
    let size = old.size.max(end);
    Head {
        attributes: last.written(caller, now),
        size,
        blocks: numbers.direct,
        index: numbers.index,
        ..old
    }
}

// The block in which a file ends is cleared after its end, if bytes are written in none but later
// blocks.
fn clear_gap<T: TreeDisk>(disk: &mut T, head: &Head, offset: u64) -> Result<(), T::Fault>
    requires first { T.writes disk.old ≡ [] }
    requires fits { offset ≤ MOST_BYTES }
    ensures clears { IfOk result (λ _. ClearsGap (T.may_be disk.old) (T.may_be disk.new) (T.writes disk.new) head.now offset) }
    ensures few { IfOk result (λ _. length (T.writes disk.new) ≤ 1) }
{
    match gap_of(disk, head, offset)? {
        None => Ok(()),
        Some(tail) => {
            let block = disk.block(tail.block)?;
            let cleared = clear_from(block, tail.from);
            disk.put_block(tail.block, cleared)?;
            Ok(())
        }
    }
}

// The block to clear, and from where on.
fn gap_of<T: TreeDisk>(disk: &mut T, head: &Head, offset: u64) -> Result<Option<Tail>, T::Fault>
    requires first { T.writes disk.old ≡ [] }
    requires fits { offset ≤ MOST_BYTES }
    ensures learns { IfOk result (λ tail. Learns (T.may_be disk.old) (T.may_be disk.new) (λ V. tail ≡ gap_of V head.now offset)) }
    ensures inside { IfOk result IsInsideTail }
    ensures first { T.writes disk.new ≡ [] }
{
    let last = head.size / BLOCK_BYTES;
    if offset / BLOCK_BYTES <= last {
        return Ok(None);
    }
    let block = block_at(disk, head, last as u32)?;
    if block == 0 {
        return Ok(None);
    }
    let from = (head.size % BLOCK_BYTES) as usize;
    Ok(Some(Tail { block, from }))
}

// The blocks that are reached are written.
pub(crate) fn put_places<T: TreeDisk>(
    disk: &mut T,
    number: u32,
    change: &Changing,
    image: &[u8],
) -> Result<(), T::Fault>
    requires is_reach { IsReach change.now.reach }
    requires old_sized { AreSized change.now.reach change.now.old }
    requires new_sized { AreSized change.now.reach change.now.new }
    requires whole { length image.now ≡ 4096 * change.now.reach.blocks }
    ensures lays { IfOk result (λ _. LaysBlocks (T.may_be disk.old) (T.may_be disk.new) (T.writes disk.old) (T.writes disk.new) number (laying_at change.now image.now) (reach_count change.now.reach)) }
    ensures few { IfOk result (λ _. length (T.writes disk.new) ≤ length (T.writes disk.old) + 2 * reach_count change.now.reach) }
{
    for m in 0..reach_count(change.reach) {
        put_place(disk, number, change, m, image)?;
    }
    Ok(())
}

// So is block m of them, unless it is an index block that stays as it is.
fn put_place<T: TreeDisk>(
    disk: &mut T,
    number: u32,
    change: &Changing,
    m: u64,
    image: &[u8],
) -> Result<(), T::Fault>
    requires is_reach { IsReach change.now.reach }
    requires old_sized { AreSized change.now.reach change.now.old }
    requires new_sized { AreSized change.now.reach change.now.new }
    requires low { m < reach_count change.now.reach }
    requires whole { length image.now ≡ 4096 * change.now.reach.blocks }
    ensures lays { IfOk result (λ _. LaysAt (T.may_be disk.old) (T.may_be disk.new) (T.writes disk.old) (T.writes disk.new) number (laying_at change.now image.now m)) }
    ensures few { IfOk result (λ _. length (T.writes disk.new) ≤ length (T.writes disk.old) + 2) }
{
    if is_kept(change, m) {
        return Ok(());
    }
    let place = reach_place(change.reach, m);
    let was = change.old.number(change.reach, place);
    let block = change.new.number(change.reach, place);
    let piece = piece_at(change, image, m);
    put_piece(disk, number, (was, block), place, piece)
}

// True if block m of those that are reached is an index block, or that with the numbers of these,
// and stays as it is.
fn is_kept(change: &Changing, m: u64) -> bool
    requires is_reach { IsReach change.now.reach }
    requires old_sized { AreSized change.now.reach change.now.old }
    requires new_sized { AreSized change.now.reach change.now.new }
    requires low { m < reach_count change.now.reach }
    ensures { result ≡ is_kept change.now m }
{
    let reach = change.reach;
    if m < reach.blocks {
        return false;
    }
    let place = reach_place(reach, m);
    if change.old.number(reach, place) != change.new.number(reach, place) {
        return false;
    }
    index_bytes(reach, &change.old, m) == index_bytes(reach, &change.new, m)
}

// The bytes of block m of those that are reached.
fn piece_at<'a>(change: &'a Changing, image: &'a [u8], m: u64) -> &'a [u8]
    requires is_reach { IsReach change.now.reach }
    requires new_sized { AreSized change.now.reach change.now.new }
    requires low { m < reach_count change.now.reach }
    requires whole { length image.now ≡ 4096 * change.now.reach.blocks }
    ensures is { result.now ≡ piece_at change.now image.now m }
    ensures whole { length result.now ≡ 4096 }
{
    if m < change.reach.blocks {
        let at = (BLOCK_BYTES * m) as usize;
        return &image[at..at + BLOCK_BYTES as usize];
    }
    index_bytes(change.reach, &change.new, m)
}

// The bytes of block m, where it is an index block or that with the numbers of these.
fn index_bytes(reach: Reach, numbers: &Numbers, m: u64) -> &[u8]
    requires is_reach { IsReach reach }
    requires sized { AreSized reach numbers.now }
    requires index { reach.blocks ≤ m }
    requires low { m < reach_count reach }
    ensures is { result.now ≡ index_bytes reach numbers.now m }
    ensures whole { length result.now ≡ 4096 }
{
    if m < reach.blocks + reach.leaves {
        let at = (BLOCK_BYTES * (m - reach.blocks)) as usize;
        return &numbers.leaves[at..at + BLOCK_BYTES as usize];
    }
    &numbers.root
}

// A block is written, and its record if the file did not have it.
fn put_piece<T: TreeDisk>(
    disk: &mut T,
    number: u32,
    blocks: (u32, u32),
    place: u64,
    piece: &[u8],
) -> Result<(), T::Fault>
    requires low { place < 2 ^ 32 }
    requires whole { length piece.now ≡ 4096 }
    ensures lays { IfOk result (λ _. LaysOne (T.may_be disk.old) (T.may_be disk.new) (T.writes disk.old) (T.writes disk.new) number blocks.0 blocks.1 place piece.now) }
    ensures few { IfOk result (λ _. length (T.writes disk.new) ≤ length (T.writes disk.old) + 2) }
{
    let zeros = disk.zero_block()?;
    let value = value_of(zeros, piece);
    disk.put_block(blocks.1, value)?;
    if blocks.0 == 0 {
        disk.put_owner(blocks.1, owner_at(number, place))?;
        return Ok(());
    }
    Ok(())
}

// A block of these bytes, in the memory of another.
fn value_of(block: Value, piece: &[u8]) -> Value
    requires old { length block ≡ 4096 }
    requires new { length piece.now ≡ 4096 }
    ensures is { result ≡ piece.now }
    ensures whole { length result ≡ 4096 }
{
    let mut bytes = block.into_bytes();
    bytes.copy_from_slice(piece);
    Value::new(bytes)
}
