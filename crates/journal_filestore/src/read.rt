// READ.
ghost use Rattle.std.specs.Prelude.{◌≡◌, ◌≤◌, ◌-◌, false, IfErr};
ghost use Rattle.journal_inode.specs.declared.node.Time.{Time};
ghost use Rattle.journal_inode.specs.Versions.{most_bytes};
ghost use Rattle.journal_filestore.specs.Done.{IsAnswered};
ghost use Rattle.journal_filestore.specs.Faults.{IsFaultOf};
ghost use Rattle.journal_filestore.specs.Operations.{Op, file_target, portion_length, read_case};
ghost use Rattle.journal_filestore.specs.Operations.Call.{read};
ghost use Rattle.journal_filestore.specs.Operations.Reply.{bytes_read};

use crate::block_reservation::BlockReservation;
use crate::blocks::read_blocks;
use crate::find::{Target, find};
use crate::operation::{AttemptEnd, Operation};
use crate::reply::attributes_of;
use crate::store::{FileFault, FileTxn};
use crate::{Answer, FileStore, Handle, Portion, READ_BYTES, Status};
use journal_disk::BlockDisk;
use journal_history::{Naming, Session};
use journal_inode::{FormatVersion, SoundFiles, Version};
use journal_world::BLOCK_BYTES;
use std::alloc::Global;
use std::sync::Wait;

// A portion of a file.
#[derive(Drop)]
pub(crate) struct Read {
    handle: Handle,
    offset: u64,
    count: u32,
    alloc: Global,
}

impl<J: Naming, V: Version> Operation<J, V> for Read {
    type Reply = Portion;

    ghost case = { λ w F r F2. (r, F2) ≡ read_case V.VERSION w.offset w.count F (file_target F w.handle.number w.handle.generation) };

    ghost is_waiting = { λ w. false };

    fn waits(&self) -> bool {
        false
    }

    fn attempt<'j, 'b, D: BlockDisk, W: Wait>(
        &self,
        rt: &W,
        txn: &mut FileTxn<'j, 'b, D, J, V>,
        _space: &mut BlockReservation,
    ) -> Result<Answer<Portion>, AttemptEnd<'b, J, V>> {
        let file = match find(rt, txn, self.handle)? {
            Target::Gone => return Ok(Err(Status::Stale)),
            Target::Directory(_) => return Ok(Err(Status::Invalid)),
            Target::Regular(file) => file,
        };
        let read = attributes_of(self.handle.number, file);
        let length = length_read(V::VERSION, file.size, self.offset, self.count);
        if length == 0 {
            let nothing = Vec::new(self.alloc);
            let is_end = self.offset >= file.size;
            return Ok(Ok(Portion::new(read, nothing, 0, 0, is_end)));
        }
        let end = self.offset + length;
        let first = self.offset as usize / BLOCK_BYTES;
        let after = (end as usize - 1) / BLOCK_BYTES + 1;
        let blocks = read_blocks(rt, txn, &file.numbers()[first..after])?;
        let from = self.offset as usize - first * BLOCK_BYTES;
        let is_end = end >= file.size;
        Ok(Ok(Portion::new(read, blocks, from, from + length as usize, is_end)))
    }
}

// The number of bytes that are read: those from the offset to the file's end, at most as many as
// were asked for, and at most as many as one call reads.
fn length_read(version: FormatVersion, size: u64, offset: u64, count: u32) -> u64
    requires small { size ≤ most_bytes version }
    ensures value { result ≡ portion_length version count (size - offset) }
    ensures short { result ≤ READ_BYTES }
    ensures within { result ≤ size - offset }
{
    u64::from(count)
        .min(READ_BYTES)
        .min(size.saturating_sub(offset))
}

impl<'b, D: BlockDisk, J: Naming, V: Version> FileStore<'b, D, J, V> {
    /// READ (RFC 1813, 3.3.6): the bytes of a file from an offset on, `count` of them or as many as
    /// there are, at most `READ_BYTES`, and whether they reach its end. It changes no time, and
    /// does not wait until it is stable.
    ///
    /// # Errors
    /// - `Refused`: the journal refused its transaction. It has no commit, and changed nothing.
    ///
    /// The other answers are committed too. The first that holds:
    /// - `Stale`: the handle's file was removed.
    /// - `Invalid`: the handle is the root's.
    pub fn read<W: Wait>(
        &self,
        rt: &W,
        session: &mut Session<'b, J, SoundFiles<V>>,
        handle: Handle,
        offset: u64,
        count: u32,
    ) -> Result<Answer<Portion>, FileFault<'b, J, V>>
        ensures answered { IsAnswered V.VERSION false (λ F r F2. (now : Time) → Op V.VERSION (read handle.number handle.generation offset count) now F (bytes_read r) F2) session.old session.new result }
        ensures refusal { IfErr result (IsFaultOf session.new) }
    {
        let read = Read {
            handle,
            offset,
            count,
            alloc: self.alloc,
        };
        self.run(rt, session, &read)
    }
}
