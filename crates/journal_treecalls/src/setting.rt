// SETATTR.
ghost use Rattle.std.specs.Prelude.{◌≡◌, ◌<◌, ◌≤◌, [], IfOk, length};
ghost use Rattle.journal_tree.specs.Attributes.{is_other_time};
ghost use Rattle.journal_tree.specs.Times.{IsTime};
ghost use Rattle.journal_tree.specs.Op.Call.{setattr as setattr_call};
ghost use Rattle.journal_tree.specs.Op.Reply.{set};
ghost use Rattle.journal_treecalls.specs.declared.setting.Tails.TheVariants.{NoTail, OneTail, TwoTails};
ghost use Rattle.journal_treecalls.specs.Disks.{Learns, Does};
ghost use Rattle.journal_treecalls.specs.Fetches.{last_leaf};
ghost use Rattle.journal_treecalls.specs.Names.{is_directory_kind, is_file_kind};
ghost use Rattle.journal_treecalls.specs.Sizes.{setting_status, cut_one, IsCutAt, IsSetHead, if_some, grown_tails, with_leaf, kept_tails, cut_tails, tails_of, AreInside, cleared, changed_told, PutsHead, SetsHead, SetsAllowed, SetsNode};

use crate::TreeDisk;
use crate::bytes::{bounded, used_bytes};
use crate::creation::{are_asked, is_no_time, is_too_big};
use crate::fetch::{last_block, last_leaf};
use crate::index::{block_at, index_block};
use crate::node::{Record, node, told};
use crate::removal::are_words;
use journal_tree::{
    Attributes, BLOCK_BYTES, Caller, Changed, Handle, Kind, MOST_FILE_BLOCKS, Settings, Status,
    Time,
};
use journal_treestore::{DIRECT_BLOCKS, Head, INDEX_NUMBERS};
use journal_world::Value;

// The bytes of a number in a block of numbers.
const NUMBER_BYTES: usize = 4;

// A block of a file, and where zeros begin in it.
#[derive(Clone, Copy)]
pub(crate) struct Tail {
    pub(crate) block: u32,
    pub(crate) from: usize,
}

// The blocks in which zeros are put before a file has another size.
#[derive(Clone, Copy)]
pub(crate) enum Tails {
    NoTail,
    OneTail(Tail),
    TwoTails(Tail, Tail),
}

/// SETATTR (RFC 1813, 3.3.2): attributes of a node are set, and the size of a file. At most three
/// objects are written, whatever the size: the inode, and the block in which a file ends that
/// grows, or the index blocks that a smaller one keeps. Blocks after the size are nobody's then.
///
/// # Errors
/// - The call is given up.
///
/// The other answers. The first that holds:
/// - `Stale`: the handle's node was removed.
/// - `Invalid`: a size is asked for, and the node is a directory.
/// - `Invalid`: the mtime that is asked for is none.
/// - `NotOwner`: the caller may not set what he asks for.
/// - `NoAccess`: a size, or the time of the call as mtime, is asked for, and the caller may not
///   write the node.
/// - `NotSync`: the guard is another time than the node's ctime.
/// - `TooBig`: no file has as many bytes.
pub fn setattr<T: TreeDisk>(
    disk: &mut T,
    caller: &Caller,
    handle: Handle,
    settings: Settings,
    guard: Option<Time>,
    now: Time,
) -> Result<Result<Changed, Status>, T::Fault>
    requires first { T.writes disk.old ≡ [] }
    requires time { IsTime now }
    ensures does { IfOk result (λ reply. Does (T.may_be disk.new) (T.writes disk.new) (setattr_call handle settings guard) caller.now now (set reply)) }
    ensures few { IfOk result (λ _. length (T.writes disk.new) ≤ 3) }
{
    are_words(*caller);
    are_asked(settings);
    match node(disk, handle)? {
        None => Ok(Err(Status::Stale)),
        Some(target) => set_node(disk, caller, handle.number, &target, &settings, guard, now),
    }
}

// SETATTR of the node of an inode.
fn set_node<T: TreeDisk>(
    disk: &mut T,
    caller: &Caller,
    number: u32,
    target: &Record,
    settings: &Settings,
    guard: Option<Time>,
    now: Time,
) -> Result<Result<Changed, Status>, T::Fault>
    requires first { T.writes disk.old ≡ [] }
    requires time { IsTime now }
    ensures sets { IfOk result (SetsNode (T.may_be disk.old) (T.may_be disk.new) (T.writes disk.new) caller.now settings.now guard now number target.now) }
    ensures few { IfOk result (λ _. length (T.writes disk.new) ≤ 3) }
{
    match setting_status(caller, settings, guard, &target.head) {
        Some(status) => Ok(Err(status)),
        None => {
            let changed = set_allowed(disk, caller, number, target, settings, now)?;
            Ok(Ok(changed))
        }
    }
}

// The reason not to set this of a node, if there is one.
fn setting_status(
    caller: &Caller,
    settings: &Settings,
    guard: Option<Time>,
    head: &Head,
) -> Option<Status>
    ensures { result ≡ setting_status caller.now settings.now guard head.now }
{
    if settings.size.is_some() && !is_file_kind(head.kind) {
        return Some(Status::Invalid);
    }
    if is_no_time(settings.mtime) {
        return Some(Status::Invalid);
    }
    if !caller.may_set(settings, &head.attributes) {
        return Some(Status::NotOwner);
    }
    if !caller.may_set_bytes(settings, &head.attributes) {
        return Some(Status::NoAccess);
    }
    if is_other_time(guard, head.attributes.ctime) {
        return Some(Status::NotSync);
    }
    if is_too_big(settings.size) {
        return Some(Status::TooBig);
    }
    None
}

// True if it is the kind of a file.
fn is_file_kind(kind: Kind) -> bool
    ensures { result ≡ is_file_kind kind }
{
    match kind {
        Kind::File => true,
        Kind::Directory | Kind::Link => false,
    }
}

// True if it is the kind of a directory.
pub(crate) fn is_directory_kind(kind: Kind) -> bool
    ensures { result ≡ is_directory_kind kind }
{
    match kind {
        Kind::Directory => true,
        Kind::File | Kind::Link => false,
    }
}

// True if the guard is another time.
fn is_other_time(guard: Option<Time>, ctime: Time) -> bool
    ensures { result ≡ is_other_time guard ctime }
{
    match guard {
        None => false,
        Some(guard) => !(guard.secs == ctime.secs && guard.nanos == ctime.nanos),
    }
}

// A node is set, where nothing is against it.
fn set_allowed<T: TreeDisk>(
    disk: &mut T,
    caller: &Caller,
    number: u32,
    target: &Record,
    settings: &Settings,
    now: Time,
) -> Result<Changed, T::Fault>
    requires first { T.writes disk.old ≡ [] }
    requires time { IsTime now }
    ensures sets { IfOk result (SetsAllowed (T.may_be disk.old) (T.may_be disk.new) (T.writes disk.new) caller.now settings.now now number target.now) }
    ensures few { IfOk result (λ _. length (T.writes disk.new) ≤ 3) }
{
    if settings.asks_nothing() {
        let same = told(number, &target.head);
        return Ok(Changed {
            before: same,
            after: same,
        });
    }
    let head = set_head(caller, settings, &target.head, now);
    put_head(disk, number, target, &head)
}

// The fields of a node once this is set.
pub(crate) fn set_head(caller: &Caller, settings: &Settings, head: &Head, now: Time) -> Head
    requires { IsTime now }
    ensures { IsSetHead caller.now settings.now now head.now result }
{
    let old = *head;
    let last = Attributes {
        ctime: bounded(old.attributes.ctime),
        ..old.attributes
    };
    let size = settings.size.unwrap_or(old.size);
    Head {
        attributes: last.set(caller, settings, old.kind, now),
        size,
        blocks: cut_at(&old.blocks, size),
        index: cut_one(old.index, size, DIRECT_BLOCKS),
        ..old
    }
}

// The blocks of a file of this size, of these blocks.
fn cut_at(blocks: &[u32; DIRECT_BLOCKS], size: u64) -> [u32; DIRECT_BLOCKS]
    ensures { IsCutAt blocks.now size result }
{
    let mut kept = [0; DIRECT_BLOCKS];
    for j in 0..DIRECT_BLOCKS {
        kept[j] = cut_one(blocks[j], size, j);
    }
    kept
}

// A block of such a file that it needs if it has more than j blocks.
fn cut_one(block: u32, size: u64, j: usize) -> u32
    requires { j ≤ DIRECT_BLOCKS }
    ensures { result ≡ cut_one block size j }
{
    if size <= BLOCK_BYTES * j as u64 {
        0
    } else {
        block
    }
}

// The inode is written, and before it the blocks in which there may be other bytes than zeros where
// the file grows, or numbers of blocks where it gets smaller.
pub(crate) fn put_head<T: TreeDisk>(
    disk: &mut T,
    number: u32,
    target: &Record,
    head: &Head,
) -> Result<Changed, T::Fault>
    requires first { T.writes disk.old ≡ [] }
    ensures sets { IfOk result (SetsHead (T.may_be disk.old) (T.may_be disk.new) (T.writes disk.new) number target.now head.now) }
    ensures few { IfOk result (λ _. length (T.writes disk.new) ≤ 3) }
{
    match tails_of(disk, &target.head, head.size)? {
        Tails::NoTail => put_plain(disk, number, target, head),
        Tails::OneTail(tail) => put_cleared(disk, number, target, head, tail),
        Tails::TwoTails(first, second) => put_both(disk, number, target, head, first, second),
    }
}

// The blocks to clear before a file has this size.
fn tails_of<T: TreeDisk>(disk: &mut T, head: &Head, size: u64) -> Result<Tails, T::Fault>
    requires first { T.writes disk.old ≡ [] }
    ensures learns { IfOk result (λ tails. Learns (T.may_be disk.old) (T.may_be disk.new) (λ V. tails_of V head.now size ≡ tails)) }
    ensures inside { IfOk result AreInside }
    ensures first { T.writes disk.new ≡ [] }
{
    if head.size < size {
        return grown_tails(disk, head);
    }
    if size < head.size {
        return cut_tails(disk, head, size);
    }
    Ok(Tails::NoTail)
}

// Where the file grows, the block in which it ends, after its end.
fn grown_tails<T: TreeDisk>(disk: &mut T, head: &Head) -> Result<Tails, T::Fault>
    requires first { T.writes disk.old ≡ [] }
    ensures learns { IfOk result (λ tails. Learns (T.may_be disk.old) (T.may_be disk.new) (λ V. grown_tails V head.now ≡ tails)) }
    ensures inside { IfOk result AreInside }
    ensures first { T.writes disk.new ≡ [] }
{
    let j = head.size / BLOCK_BYTES;
    if MOST_FILE_BLOCKS <= j {
        return Ok(Tails::NoTail);
    }
    let block = block_at(disk, head, j as u32)?;
    Ok(if_some(block, (head.size % BLOCK_BYTES) as usize))
}

// The block, if it is one, from a place on.
fn if_some(block: u32, from: usize) -> Tails
    requires { from ≤ 4096 }
    ensures is { result ≡ if_some block from }
    ensures inside { AreInside result }
{
    if block == 0 {
        Tails::NoTail
    } else {
        Tails::OneTail(Tail { block, from })
    }
}

// Where the file gets smaller, the index blocks that it keeps in part. One that needs none of them
// keeps none.
fn cut_tails<T: TreeDisk>(disk: &mut T, head: &Head, size: u64) -> Result<Tails, T::Fault>
    requires first { T.writes disk.old ≡ [] }
    ensures learns { IfOk result (λ tails. Learns (T.may_be disk.old) (T.may_be disk.new) (λ V. cut_tails V head.now size ≡ tails)) }
    ensures inside { IfOk result AreInside }
    ensures first { T.writes disk.new ≡ [] }
{
    if head.index == 0 {
        return Ok(Tails::NoTail);
    }
    let leaves = last_leaf(size) as usize;
    if leaves == 0 {
        return Ok(Tails::NoTail);
    }
    kept_tails(disk, head, leaves, size)
}

// Where it keeps index blocks, the block with their numbers, after the last of these; and
// the last of them, after its last number.
fn kept_tails<T: TreeDisk>(
    disk: &mut T,
    head: &Head,
    leaves: usize,
    size: u64,
) -> Result<Tails, T::Fault>
    requires first { T.writes disk.old ≡ [] }
    requires some { 0 < leaves }
    requires are { leaves ≡ last_leaf size }
    ensures learns { IfOk result (λ tails. Learns (T.may_be disk.old) (T.may_be disk.new) (λ V. kept_tails V head.now leaves size ≡ tails)) }
    ensures inside { IfOk result AreInside }
    ensures first { T.writes disk.new ≡ [] }
{
    let last = leaves - 1;
    let leaf = index_block(disk, head, last)?;
    let numbers = last_block(size) as usize - (DIRECT_BLOCKS + INDEX_NUMBERS * last);
    let root = Tail {
        block: head.index,
        from: NUMBER_BYTES * leaves,
    };
    Ok(with_leaf(root, leaf, NUMBER_BYTES * numbers))
}

// The first block, and the other one, if it is one, from a place on.
fn with_leaf(root: Tail, leaf: u32, from: usize) -> Tails
    requires { (root.from ≤ 4096) × (from ≤ 4096) }
    ensures is { result ≡ with_leaf root leaf from }
    ensures inside { AreInside result }
{
    if leaf == 0 {
        Tails::OneTail(root)
    } else {
        Tails::TwoTails(root, Tail { block: leaf, from })
    }
}

// The inode alone is written.
fn put_plain<T: TreeDisk>(
    disk: &mut T,
    number: u32,
    target: &Record,
    head: &Head,
) -> Result<Changed, T::Fault>
    requires first { T.writes disk.old ≡ [] }
    ensures puts { IfOk result (PutsHead (T.may_be disk.old) (T.may_be disk.new) (T.writes disk.new) number target.now head.now NoTail) }
    ensures few { IfOk result (λ _. length (T.writes disk.new) ≤ 3) }
{
    disk.put_inode(number, used_bytes(*head, target))?;
    Ok(changed(number, &target.head, head))
}

// A block is cleared, and the inode is written.
fn put_cleared<T: TreeDisk>(
    disk: &mut T,
    number: u32,
    target: &Record,
    head: &Head,
    tail: Tail,
) -> Result<Changed, T::Fault>
    requires first { T.writes disk.old ≡ [] }
    requires inside { tail.from ≤ 4096 }
    ensures puts { IfOk result (PutsHead (T.may_be disk.old) (T.may_be disk.new) (T.writes disk.new) number target.now head.now (OneTail tail)) }
    ensures few { IfOk result (λ _. length (T.writes disk.new) ≤ 3) }
{
    let block = disk.block(tail.block)?;
    let cleared = clear_from(block, tail.from);
    disk.put_block(tail.block, cleared)?;
    disk.put_inode(number, used_bytes(*head, target))?;
    Ok(changed(number, &target.head, head))
}

// Two blocks are cleared, and the inode is written.
fn put_both<T: TreeDisk>(
    disk: &mut T,
    number: u32,
    target: &Record,
    head: &Head,
    first: Tail,
    second: Tail,
) -> Result<Changed, T::Fault>
    requires first { T.writes disk.old ≡ [] }
    requires inside { (first.from ≤ 4096) × (second.from ≤ 4096) }
    ensures puts { IfOk result (PutsHead (T.may_be disk.old) (T.may_be disk.new) (T.writes disk.new) number target.now head.now (TwoTails first second)) }
    ensures few { IfOk result (λ _. length (T.writes disk.new) ≤ 3) }
{
    let one = disk.block(first.block)?;
    let other = disk.block(second.block)?;
    let one = clear_from(one, first.from);
    let other = clear_from(other, second.from);
    disk.put_block(first.block, one)?;
    disk.put_block(second.block, other)?;
    disk.put_inode(number, used_bytes(*head, target))?;
    Ok(changed(number, &target.head, head))
}

// A node before and after.
pub(crate) fn changed(number: u32, before: &Head, after: &Head) -> Changed
    ensures { result ≡ changed_told number before.now after.now }
{
    Changed {
        before: told(number, before),
        after: told(number, after),
    }
}

// The block, with zeros from a place on.
pub(crate) fn clear_from(block: Value, from: usize) -> Value
    requires whole { length block ≡ 4096 }
    requires inside { from ≤ 4096 }
    ensures is { result ≡ cleared block from }
    ensures whole { length result ≡ 4096 }
{
    let mut bytes = block.into_bytes();
    cut_off(&mut bytes, from);
    Value::new(bytes)
}

// Makes bytes zero, from a place on.
pub(crate) fn cut_off(bytes: &mut Vec<u8>, from: usize)
    requires { from ≤ length bytes.old.items }
    ensures { bytes.new.items ≡ cleared bytes.old.items from }
{
    bytes[from..].fill(0);
}
