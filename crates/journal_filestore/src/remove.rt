// REMOVE.
ghost use Rattle.std.specs.Prelude.{◌≡◌, true, IfErr};
ghost use Rattle.journal_inode.specs.declared.node.Time.{Time};
ghost use Rattle.journal_filestore.specs.Done.{IsAnswered, IsAnsweredNoWait};
ghost use Rattle.journal_filestore.specs.Faults.{IsFaultOf, IsFilesRefusal};
ghost use Rattle.journal_filestore.specs.Operations.{Op, file_target, remove_case};
ghost use Rattle.journal_filestore.specs.Operations.Call.{remove};
ghost use Rattle.journal_filestore.specs.Operations.Reply.{removed};

use crate::block_reservation::BlockReservation;
use crate::blocks::write_bits;
use crate::find::{Target, find};
use crate::name::number_of;
use crate::objects::{read_node, write_node};
use crate::operation::{AttemptEnd, Operation};
use crate::reply::root_attributes;
use crate::store::{FileFault, FileTxn};
use crate::{Answer, Attributes, CommitResult, FileStore, Handle, Status};
use journal_disk::BlockDisk;
use journal_history::{Naming, Session};
use journal_inode::{Node, SoundFiles, Version};
use std::sync::Wait;

// A file, removed by its name.
#[derive(Drop)]
pub(crate) struct Remove<'a> {
    directory: Handle,
    name: &'a [u8],
}

impl<'a, J: Naming, V: Version> Operation<J, V> for Remove<'a> {
    type Reply = Attributes;

    ghost case = { λ w F r F2. (r, F2) ≡ remove_case w.name.now F (file_target F w.directory.number w.directory.generation) };

    ghost is_waiting = { λ w. true };

    fn waits(&self) -> bool {
        true
    }

    fn attempt<'j, 'b, D: BlockDisk, W: Wait>(
        &self,
        rt: &W,
        txn: &mut FileTxn<'j, 'b, D, J, V>,
        space: &mut BlockReservation,
    ) -> Result<Answer<Attributes>, AttemptEnd<'b, J, V>> {
        let root = match find(rt, txn, self.directory)? {
            Target::Gone => return Ok(Err(Status::Stale)),
            Target::Regular(_) => return Ok(Err(Status::NotDirectory)),
            Target::Directory(mtime) => mtime,
        };
        let Some(number) = number_of(self.name) else {
            return Ok(Err(Status::NoEntry));
        };
        let Node::File(file) = read_node(rt, txn, number)? else {
            return Ok(Err(Status::NoEntry));
        };
        let count = 1 + V::VERSION.extra_count(file.size);
        let numbers = file.numbers();
        space.give_up(&numbers[..count])?;
        write_bits(rt, txn, &numbers[..count], false)?;
        write_node(rt, txn, number, &Node::Free(file.generation))?;
        Ok(Ok(root_attributes(root)))
    }
}

impl<'b, D: BlockDisk, J: Naming, V: Version> FileStore<'b, D, J, V> {
    /// REMOVE (RFC 1813, 3.3.12): removes the file of a name from the root, whose attributes are
    /// answered. The number keeps its generation, so that no handle of the file names a later one.
    /// It waits until it is stable.
    ///
    /// # Errors
    /// - `Refused`: the journal refused its transaction. It has no commit, and changed nothing.
    /// - `Unsure`: it is committed, and the wait until it is stable was refused.
    ///
    /// The other answers are committed too, and leave the files as they were. The first that holds:
    /// - `Stale`: the handle's file was removed.
    /// - `NotDirectory`: the handle is a file's.
    /// - `NoEntry`: there is no file of the name.
    pub fn remove<W: Wait>(
        &self,
        rt: &W,
        session: &mut Session<'b, J, SoundFiles<V>>,
        directory: Handle,
        name: &[u8],
    ) -> Result<Answer<Attributes>, FileFault<'b, J, V>>
        ensures answered { IsAnswered V.VERSION true (λ F r F2. (now : Time) → Op V.VERSION (remove directory.number directory.generation name.now) now F (removed r) F2) session.old session.new result }
        ensures refusal { IfErr result (IsFaultOf session.new) }
    {
        self.run(rt, session, &Remove { directory, name })
    }

    /// REMOVE up to its commit: as `remove` does it, and answered before it is stable. If `remove`
    /// would wait, the wait for its receipt is pending (`Journal::wait_stable`): the history has
    /// the answer, and a crash before the mark may lose it.
    ///
    /// # Errors
    /// Those of `remove`, but for `Unsure`.
    pub fn remove_no_wait<W: Wait>(
        &self,
        rt: &W,
        session: &mut Session<'b, J, SoundFiles<V>>,
        directory: Handle,
        name: &[u8],
    ) -> CommitResult<'b, J, Attributes, V>
        ensures answered { IsAnsweredNoWait V.VERSION true (λ F r F2. (now : Time) → Op V.VERSION (remove directory.number directory.generation name.now) now F (removed r) F2) session.old session.new result }
        ensures refusal { IfErr result IsFilesRefusal }
    {
        self.run_no_wait(rt, session, &Remove { directory, name })
    }
}
