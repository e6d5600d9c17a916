// COMMIT.
ghost use Rattle.std.specs.Prelude.{◌≡◌, true, IfErr};
ghost use Rattle.journal_inode.specs.declared.node.Time.{Time};
ghost use Rattle.journal_filestore.specs.Done.{IsAnswered, IsAnsweredNoWait};
ghost use Rattle.journal_filestore.specs.Faults.{IsFaultOf, IsFilesRefusal};
ghost use Rattle.journal_filestore.specs.Operations.{Op, file_target, commit_case};
ghost use Rattle.journal_filestore.specs.Operations.Call.{commit};
ghost use Rattle.journal_filestore.specs.Operations.Reply.{committed};

use crate::block_reservation::BlockReservation;
use crate::find::{Target, find};
use crate::operation::{AttemptEnd, Operation};
use crate::reply::attributes_of;
use crate::store::{FileFault, FileTxn};
use crate::{Answer, Attributes, CommitResult, FileStore, Handle, Status};
use journal_disk::BlockDisk;
use journal_history::{Naming, Session};
use journal_inode::{SoundFiles, Version};
use std::sync::Wait;

// The attributes of a file, once all before is stable. It waits by its own commit, whose mark
// covers all before it. So it needs no `flush`, and one function ends all operations.
#[derive(Drop)]
pub(crate) struct Commit {
    handle: Handle,
}

impl<J: Naming, V: Version> Operation<J, V> for Commit {
    type Reply = Attributes;

    ghost case = { λ w F r F2. (r, F2) ≡ commit_case F (file_target F w.handle.number w.handle.generation) };

    ghost is_waiting = { λ w. true };

    fn waits(&self) -> bool {
        true
    }

    fn attempt<'j, 'b, D: BlockDisk, W: Wait>(
        &self,
        rt: &W,
        txn: &mut FileTxn<'j, 'b, D, J, V>,
        _space: &mut BlockReservation,
    ) -> Result<Answer<Attributes>, AttemptEnd<'b, J, V>> {
        match find(rt, txn, self.handle)? {
            Target::Gone => Ok(Err(Status::Stale)),
            Target::Directory(_) => Ok(Err(Status::Invalid)),
            Target::Regular(file) => Ok(Ok(attributes_of(self.handle.number, file))),
        }
    }
}

impl<'b, D: BlockDisk, J: Naming, V: Version> FileStore<'b, D, J, V> {
    /// COMMIT (RFC 1813, 3.3.21): the attributes of a file, once all that the session had seen is
    /// stable, with all writes before. Its own transaction changes nothing, and waits until it is
    /// stable: a mark of it is a mark of all commits before it.
    ///
    /// # Errors
    /// - `Refused`: the journal refused its transaction. It has no commit, and changed nothing.
    /// - `Unsure`: it is committed, and the wait until it is stable was refused.
    ///
    /// The other answers are committed too. The first that holds:
    /// - `Stale`: the handle's file was removed.
    /// - `Invalid`: the handle is the root's.
    pub fn commit<W: Wait>(
        &self,
        rt: &W,
        session: &mut Session<'b, J, SoundFiles<V>>,
        handle: Handle,
    ) -> Result<Answer<Attributes>, FileFault<'b, J, V>>
        ensures answered { IsAnswered V.VERSION true (λ F r F2. (now : Time) → Op V.VERSION (commit handle.number handle.generation) now F (committed r) F2) session.old session.new result }
        ensures refusal { IfErr result (IsFaultOf session.new) }
    {
        self.run(rt, session, &Commit { handle })
    }

    /// COMMIT up to its commit: as `commit` does it, and answered before it is stable. If `commit`
    /// would wait, the wait for its receipt is pending (`Journal::wait_stable`): the history has
    /// the answer, and a crash before the mark may lose it.
    ///
    /// # Errors
    /// Those of `commit`, but for `Unsure`.
    pub fn commit_no_wait<W: Wait>(
        &self,
        rt: &W,
        session: &mut Session<'b, J, SoundFiles<V>>,
        handle: Handle,
    ) -> CommitResult<'b, J, Attributes, V>
        ensures answered { IsAnsweredNoWait V.VERSION true (λ F r F2. (now : Time) → Op V.VERSION (commit handle.number handle.generation) now F (committed r) F2) session.old session.new result }
        ensures refusal { IfErr result IsFilesRefusal }
    {
        self.run_no_wait(rt, session, &Commit { handle })
    }
}
