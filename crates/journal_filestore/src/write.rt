// WRITE.
ghost use Rattle.std.specs.Prelude.{◌≡◌, ◌<◌, ◌≤◌, ◌+◌, ◌-◌, max, Bool, [], length, IfOk, IfErr, OnOk};
ghost use Rattle.journal_inode.specs.Places.{HasFiles};
ghost use Rattle.journal_inode.specs.declared.node.Node.TheVariants.{File};
ghost use Rattle.journal_inode.specs.Nodes.{Fits};
ghost use Rattle.journal_inode.specs.Sound.{content};
ghost use Rattle.journal_inode.specs.Versions.{most_bytes, extra_count};
ghost use Rattle.journal_attempts.specs.Refusals.{IsAttemptEnd};
ghost use Rattle.journal_filestore.specs.Doing.{HasReadNoBlocks, HasReadNoData, AreClear, AreFresh, Makes};
ghost use Rattle.journal_filestore.specs.Changes.{with_blocks, FileBecomes, ChangesFile};
ghost use Rattle.journal_filestore.specs.Faults.{IsFaultOf, IsFilesRefusal};
ghost use Rattle.journal_filestore.specs.Done.{IsAnswered, IsAnsweredNoWait};
ghost use Rattle.journal_filestore.specs.Handles.{time_of};
ghost use Rattle.journal_filestore.specs.Operations.{Op, file_target, write_case, placed, with_data, is_waiting};
ghost use Rattle.journal_filestore.specs.Operations.Call.{write};
ghost use Rattle.journal_filestore.specs.Operations.Reply.{wrote};

use crate::block_reservation::BlockReservation;
use crate::blocks::{read_span, take_blocks, with_blocks, write_file};
use crate::find::{Target, find};
use crate::operation::{AttemptEnd, Operation};
use crate::reply::attributes_of;
use crate::store::{FileFault, FileTxn};
use crate::{Answer, Changed, CommitResult, FileStore, Handle, Stability, Status};
use journal_disk::BlockDisk;
use journal_history::{Naming, Session};
use journal_inode::{FileNode, SoundFiles, Time, Version};
use journal_world::{BLOCK_BYTES, Moment};
use std::sync::Wait;

// Bytes, and their place in a file.
#[derive(Drop)]
pub(crate) struct Write<'a> {
    handle: Handle,
    offset: u64,
    count: u32,
    bytes: &'a [u8],
    stability: Stability,
    moment: Moment,
}

impl<'a, J: Naming, V: Version> Operation<J, V> for Write<'a> {
    type Reply = Changed;

    ghost case = { λ w F r F2. (room : Bool) × ((r, F2) ≡ write_case V.VERSION room w.offset w.count w.bytes.now (time_of w.moment) F (file_target F w.handle.number w.handle.generation)) };

    ghost is_waiting = { λ w. is_waiting w.stability };

    fn waits(&self) -> bool {
        self.stability == Stability::Stable
    }

    fn attempt<'j, 'b, D: BlockDisk, W: Wait>(
        &self,
        rt: &W,
        txn: &mut FileTxn<'j, 'b, D, J, V>,
        space: &mut BlockReservation,
    ) -> Result<Answer<Changed>, AttemptEnd<'b, J, V>> {
        let file = match find(rt, txn, self.handle)? {
            Target::Gone => return Ok(Err(Status::Stale)),
            Target::Directory(_) => return Ok(Err(Status::Invalid)),
            Target::Regular(file) => file,
        };
        let number = self.handle.number;
        let before = attributes_of(number, file);
        if self.count as usize != self.bytes.len() {
            return Ok(Err(Status::Invalid));
        }
        if self.count == 0 {
            return Ok(Ok(Changed {
                before,
                after: before,
            }));
        }
        let end = self.offset.saturating_add(u64::from(self.count));
        if end > V::VERSION.most_bytes() {
            return Ok(Err(Status::TooBig));
        }
        match self.put(rt, txn, space, file)? {
            None => Ok(Err(Status::NoSpace)),
            Some(written) => Ok(Ok(Changed {
                before,
                after: attributes_of(number, written),
            })),
        }
    }
}

impl<'a> Write<'a> {
    // Places the bytes in the file. `None` if it needs more blocks than are free.
    fn put<'j, 'b, D: BlockDisk, J: Naming, V: Version, W: Wait>(
        &self,
        rt: &W,
        txn: &mut FileTxn<'j, 'b, D, J, V>,
        space: &mut BlockReservation,
        file: FileNode,
    ) -> Result<Option<FileNode>, AttemptEnd<'b, J, V>>
        requires cut { HasFiles J.layout }
        requires fits { Fits (File file) }
        requires small { file.size ≤ most_bytes V.VERSION }
        requires some { 0 < length self.now.bytes.now }
        requires end { self.now.offset + length self.now.bytes.now ≤ most_bytes V.VERSION }
        requires space { space.old.taken.items ≡ [] }
        requires unread { HasReadNoData txn.old }
        requires writes { txn.old.writes ≡ [] }
        ensures changes { IfOk result (ChangesFile V.VERSION J.layout txn.old txn.new self.now.handle.number file
            (max file.size (self.now.offset + length self.now.bytes.now)) (time_of self.now.moment)
            (λ m. placed (content V.VERSION m file) self.now.offset self.now.bytes.now)) }
        ensures refusal { IfErr result IsAttemptEnd }
    {
        let size = file.size.max(self.offset + self.bytes.len() as u64);
        let had = V::VERSION.extra_count(file.size);
        let count = V::VERSION.extra_count(size) - had;
        if !take_blocks(rt, txn, space, count)? {
            return Ok(None);
        }
        let written = with_blocks(file, had, &space.taken, size, Time::at(self.moment));
        self.put_bytes(rt, txn, file, written, space)?;
        Ok(Some(written))
    }

    // Overwrites the changed blocks. The rest of a block that the bytes do not fill is read. New
    // blocks begin as zeros.
    fn put_bytes<'j, 'b, D: BlockDisk, J: Naming, V: Version, W: Wait>(
        &self,
        rt: &W,
        txn: &mut FileTxn<'j, 'b, D, J, V>,
        file: FileNode,
        written: FileNode,
        space: &BlockReservation,
    ) -> Result<(), AttemptEnd<'b, J, V>>
        requires cut { HasFiles J.layout }
        requires written { written ≡ with_blocks file (extra_count V.VERSION file.size) space.now.taken.items
            (max file.size (self.now.offset + length self.now.bytes.now)) (time_of self.now.moment) }
        requires fits { Fits (File written) }
        requires whole { Fits (File file) }
        requires fresh { AreFresh (extra_count V.VERSION written.size - extra_count V.VERSION file.size) space.now.taken.items }
        requires small { file.size ≤ most_bytes V.VERSION }
        requires some { 0 < length self.now.bytes.now }
        requires end { self.now.offset + length self.now.bytes.now ≤ most_bytes V.VERSION }
        requires unread { HasReadNoBlocks txn.old }
        requires writes { txn.old.writes ≡ [] }
        ensures makes { OnOk result (Makes V.VERSION J.layout txn.old txn.new (λ m n. AreClear m space.now.taken.items
            → FileBecomes V.VERSION m n self.now.handle.number file (placed (content V.VERSION m file) self.now.offset self.now.bytes.now) (time_of self.now.moment))) }
        ensures refusal { IfErr result IsAttemptEnd }
    {
        let had = V::VERSION.extra_count(file.size) + 1;
        let offset = self.offset as usize;
        let first = had.min(offset / BLOCK_BYTES);
        let after = (offset + self.bytes.len() - 1) / BLOCK_BYTES + 1;
        let numbers = written.numbers();
        let changed = &numbers[first..after];
        let number = self.handle.number;
        if self.bytes.len() == changed.len() * BLOCK_BYTES {
            return write_file(rt, txn, number, written, &space.taken, changed, self.bytes);
        }
        let old = &numbers[first..had.min(after)];
        let mut bytes = read_span(rt, txn, old, changed.len(), space.alloc)?;
        place(&mut bytes, offset - first * BLOCK_BYTES, self.bytes);
        write_file(rt, txn, number, written, &space.taken, changed, &bytes)
    }
}

// Places the data in blocks.
fn place(block: &mut Vec<u8>, offset: usize, bytes: &[u8])
    requires { offset + length bytes.now ≤ length block.old.items }
    ensures { block.new.items ≡ with_data block.old.items offset bytes.now }
{
    block[offset..offset + bytes.len()].copy_from_slice(bytes);
}

impl<'b, D: BlockDisk, J: Naming, V: Version> FileStore<'b, D, J, V> {
    /// WRITE (RFC 1813, 3.3.7): places bytes in a file from an offset on, with zeros before them if
    /// the file was shorter. The file's time becomes the moment of the call. It waits until it is
    /// stable if `stability` says so. Without bytes it succeeds and changes nothing.
    ///
    /// # Errors
    /// - `Refused`: the journal refused its transaction. It has no commit, and changed nothing.
    /// - `Unsure`: it is committed, and the wait until it is stable was refused.
    ///
    /// The other answers are committed too, and leave the files as they were. The first that holds:
    /// - `Stale`: the handle's file was removed.
    /// - `Invalid`: the handle is the root's, or `count` is not the number of bytes.
    /// - `TooBig`: the file would have more bytes than any file of its version.
    /// - `NoSpace`: it needs more blocks than are free.
    pub fn write<W: Wait>(
        &self,
        rt: &W,
        session: &mut Session<'b, J, SoundFiles<V>>,
        handle: Handle,
        offset: u64,
        count: u32,
        bytes: &[u8],
        stability: Stability,
        now: Moment,
    ) -> Result<Answer<Changed>, FileFault<'b, J, V>>
        ensures answered { IsAnswered V.VERSION (is_waiting stability) (λ F r F2. Op V.VERSION (write handle.number handle.generation offset count bytes.now) (time_of now) F (wrote r) F2) session.old session.new result }
        ensures refusal { IfErr result (IsFaultOf session.new) }
    {
        let write = Write {
            handle,
            offset,
            count,
            bytes,
            stability,
            moment: now,
        };
        self.run(rt, session, &write)
    }

    /// WRITE up to its commit: as `write` does it, and answered before it is stable. If `write`
    /// would wait, the wait for its receipt is pending (`Journal::wait_stable`): the history has
    /// the answer, and a crash before the mark may lose it.
    ///
    /// # Errors
    /// Those of `write`, but for `Unsure`.
    pub fn write_no_wait<W: Wait>(
        &self,
        rt: &W,
        session: &mut Session<'b, J, SoundFiles<V>>,
        handle: Handle,
        offset: u64,
        count: u32,
        bytes: &[u8],
        stability: Stability,
        now: Moment,
    ) -> CommitResult<'b, J, Changed, V>
        ensures answered { IsAnsweredNoWait V.VERSION (is_waiting stability) (λ F r F2. Op V.VERSION (write handle.number handle.generation offset count bytes.now) (time_of now) F (wrote r) F2) session.old session.new result }
        ensures refusal { IfErr result IsFilesRefusal }
    {
        let write = Write {
            handle,
            offset,
            count,
            bytes,
            stability,
            moment: now,
        };
        self.run_no_wait(rt, session, &write)
    }
}
