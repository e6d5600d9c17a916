// How SETATTR and CREATE set a file.
ghost use Rattle.std.specs.Prelude.{◌≡◌, ◌<◌, ◌≤◌, ◌-◌, [], ◌++◌, unwrap_or, false, take, length, replicate, IfOk, IfErr};
ghost use Rattle.journal_inode.specs.Places.{HasFiles};
ghost use Rattle.journal_inode.specs.declared.node.Node.TheVariants.{File};
ghost use Rattle.journal_inode.specs.declared.place.TheConstants.{INODES};
ghost use Rattle.journal_inode.specs.Nodes.{IsTime, Fits};
ghost use Rattle.journal_inode.specs.Sound.{content};
ghost use Rattle.journal_inode.specs.Versions.{most_bytes};
ghost use Rattle.journal_world.specs.declared.moment.TheConstants.{MAX_NANOS};
ghost use Rattle.journal_attempts.specs.Refusals.{IsAttemptEnd};
ghost use Rattle.journal_filestore.specs.Doing.{HasReadNoData};
ghost use Rattle.journal_filestore.specs.Changes.{ChangesFile, HasChanged};
ghost use Rattle.journal_filestore.specs.Handles.{time_of};
ghost use Rattle.journal_filestore.specs.Operations.{is_no_time, is_too_big, time_after, resized};

use crate::block_reservation::BlockReservation;
use crate::blocks::{take_blocks, with_blocks, write_bits, write_file};
use crate::objects::read_block;
use crate::operation::AttemptEnd;
use crate::store::FileTxn;
use crate::{NewTime, Settings};
use journal_disk::BlockDisk;
use journal_history::Naming;
use journal_inode::{FileNode, FormatVersion, Time, Version};
use journal_world::{BLOCK_BYTES, MAX_NANOS, Moment};
use std::sync::Wait;

// Applies the settings to the file of this number. `None` if it needs more blocks than are free.
pub(crate) fn set_file<'j, 'b, D: BlockDisk, J: Naming, V: Version, W: Wait>(
    rt: &W,
    txn: &mut FileTxn<'j, 'b, D, J, V>,
    space: &mut BlockReservation,
    number: u32,
    file: FileNode,
    settings: Settings,
    now: Moment,
) -> Result<Option<FileNode>, AttemptEnd<'b, J, V>>
    requires cut { HasFiles J.layout }
    requires number { number < INODES }
    requires fits { Fits (File file) }
    requires whole { file.size ≤ most_bytes V.VERSION }
    requires small { is_too_big V.VERSION settings.size ≡ false }
    requires timed { is_no_time settings.mtime ≡ false }
    requires space { space.old.taken.items ≡ [] }
    requires unread { HasReadNoData txn.old }
    requires writes { txn.old.writes ≡ [] }
    ensures changes { IfOk result (ChangesFile V.VERSION J.layout txn.old txn.new number file
        (unwrap_or settings.size file.size) (time_after settings.size settings.mtime (time_of now) file.mtime)
        (λ m. resized (content V.VERSION m file) settings.size)) }
    ensures refusal { IfErr result IsAttemptEnd }
{
    let size = settings.size.unwrap_or(file.size);
    let mtime = time_after(settings, now, file.mtime);
    if size < file.size {
        return Ok(Some(shrink(rt, txn, space, number, file, size, mtime)?));
    }
    grow(rt, txn, space, number, file, size, mtime)
}
// Cuts a file off, and frees the blocks after its end. A block is zero after its file's size, so a
// file that grows shows zeros there without a write.
fn shrink<'j, 'b, D: BlockDisk, J: Naming, V: Version, W: Wait>(
    rt: &W,
    txn: &mut FileTxn<'j, 'b, D, J, V>,
    space: &mut BlockReservation,
    number: u32,
    file: FileNode,
    size: u64,
    mtime: Time,
) -> Result<FileNode, AttemptEnd<'b, J, V>>
    requires cut { HasFiles J.layout }
    requires number { number < INODES }
    requires fits { Fits (File file) }
    requires whole { file.size ≤ most_bytes V.VERSION }
    requires less { size < file.size }
    requires timed { file.mtime.nanos ≤ MAX_NANOS → mtime.nanos ≤ MAX_NANOS }
    requires unread { HasReadNoData txn.old }
    requires writes { txn.old.writes ≡ [] }
    ensures changes { IfOk result (HasChanged V.VERSION J.layout txn.old txn.new number file size mtime (λ m. take size (content V.VERSION m file))) }
    ensures refusal { IfErr result IsAttemptEnd }
{
    let last = V::VERSION.extra_count(size);
    let had = V::VERSION.extra_count(file.size);
    let numbers = file.numbers();
    let cut = &numbers[last + 1..had + 1];
    let mut block = read_block(rt, txn, numbers[last])?.into_bytes();
    cut_off(&mut block, size as usize - last * BLOCK_BYTES);
    space.give_up(cut)?;
    write_bits(rt, txn, cut, false)?;
    let after = with_blocks(file, last, &[], size, mtime);
    write_file(rt, txn, number, after, &[], &[numbers[last]], &block)?;
    Ok(after)
}

// Gives a file zeros after its bytes, perhaps none, and the blocks for them. `None` if too few
// blocks are free.
fn grow<'j, 'b, D: BlockDisk, J: Naming, V: Version, W: Wait>(
    rt: &W,
    txn: &mut FileTxn<'j, 'b, D, J, V>,
    space: &mut BlockReservation,
    number: u32,
    file: FileNode,
    size: u64,
    mtime: Time,
) -> Result<Option<FileNode>, AttemptEnd<'b, J, V>>
    requires cut { HasFiles J.layout }
    requires number { number < INODES }
    requires fits { Fits (File file) }
    requires small { size ≤ most_bytes V.VERSION }
    requires more { file.size ≤ size }
    requires timed { file.mtime.nanos ≤ MAX_NANOS → mtime.nanos ≤ MAX_NANOS }
    requires space { space.old.taken.items ≡ [] }
    requires unread { HasReadNoData txn.old }
    requires writes { txn.old.writes ≡ [] }
    ensures changes { IfOk result (ChangesFile V.VERSION J.layout txn.old txn.new number file size mtime
        (λ m. content V.VERSION m file ++ replicate (size - file.size) 0)) }
    ensures refusal { IfErr result IsAttemptEnd }
{
    let had = V::VERSION.extra_count(file.size);
    let count = V::VERSION.extra_count(size) - had;
    if !take_blocks(rt, txn, space, count)? {
        return Ok(None);
    }
    let zeros = vec![in space.alloc; 0; count * BLOCK_BYTES]?;
    let after = with_blocks(file, had, &space.taken, size, mtime);
    write_file(rt, txn, number, after, &space.taken, &space.taken, &zeros)?;
    Ok(Some(after))
}

// The time that the file then has.
pub(crate) fn time_after(settings: Settings, now: Moment, mtime: Time) -> Time
    ensures value { result ≡ time_after settings.size settings.mtime (time_of now) mtime }
    ensures fits { IsTime result }
{
    match (settings.mtime, settings.size) {
        (NewTime::Client(time), _) => time,
        (NewTime::Leave, None) => mtime,
        _ => Time::at(now),
    }
}

// Makes the bytes of a block zero, from a place on.
fn cut_off(block: &mut Vec<u8>, size: usize)
    requires { size ≤ length block.old.items }
    ensures { block.new.items ≡ take size block.old.items ++ replicate (length block.old.items - size) 0 }
{
    block[size..].fill(0);
}

// True if the given time is none.
pub(crate) fn is_no_time(mtime: NewTime) -> bool
    ensures { result ≡ is_no_time mtime }
{
    match mtime {
        NewTime::Client(time) => time.nanos > MAX_NANOS,
        _ => false,
    }
}

// True if the given size is above that of any file of this version.
pub(crate) fn is_too_big(version: FormatVersion, size: Option<u64>) -> bool
    ensures { result ≡ is_too_big version size }
{
    match size {
        None => false,
        Some(size) => size > version.most_bytes(),
    }
}
