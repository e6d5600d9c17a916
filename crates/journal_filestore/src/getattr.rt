// GETATTR.
ghost use Rattle.std.specs.Prelude.{◌≡◌, false, IfErr};
ghost use Rattle.journal_inode.specs.declared.node.Time.{Time};
ghost use Rattle.journal_filestore.specs.Done.{IsAnswered};
ghost use Rattle.journal_filestore.specs.Faults.{IsFaultOf};
ghost use Rattle.journal_filestore.specs.Operations.{Op, file_target, getattr_case};
ghost use Rattle.journal_filestore.specs.Operations.Call.{getattr};
ghost use Rattle.journal_filestore.specs.Operations.Reply.{got};

use crate::block_reservation::BlockReservation;
use crate::find::{Target, find};
use crate::operation::{AttemptEnd, Operation};
use crate::reply::{attributes_of, root_attributes};
use crate::store::{FileFault, FileTxn};
use crate::{Answer, Attributes, FileStore, Handle, Status};
use journal_disk::BlockDisk;
use journal_history::{Naming, Session};
use journal_inode::{SoundFiles, Version};
use std::sync::Wait;

// The attributes of a handle's target.
#[derive(Drop)]
pub(crate) struct GetAttr {
    handle: Handle,
}

impl<J: Naming, V: Version> Operation<J, V> for GetAttr {
    type Reply = Attributes;

    ghost case = { λ w F r F2. (r, F2) ≡ getattr_case F (file_target F w.handle.number w.handle.generation) };

    ghost is_waiting = { λ w. false };

    fn waits(&self) -> bool {
        false
    }

    fn attempt<'j, 'b, D: BlockDisk, W: Wait>(
        &self,
        rt: &W,
        txn: &mut FileTxn<'j, 'b, D, J, V>,
        _space: &mut BlockReservation,
    ) -> Result<Answer<Attributes>, AttemptEnd<'b, J, V>> {
        match find(rt, txn, self.handle)? {
            Target::Gone => Ok(Err(Status::Stale)),
            Target::Directory(mtime) => Ok(Ok(root_attributes(mtime))),
            Target::Regular(file) => Ok(Ok(attributes_of(self.handle.number, file))),
        }
    }
}

impl<'b, D: BlockDisk, J: Naming, V: Version> FileStore<'b, D, J, V> {
    /// GETATTR (RFC 1813, 3.3.1): the attributes of a file or of the root. It does not wait until
    /// it is stable.
    ///
    /// # Errors
    /// - `Refused`: the journal refused its transaction. It has no commit, and changed nothing.
    ///
    /// The other answer is committed too:
    /// - `Stale`: the handle's file was removed.
    pub fn getattr<W: Wait>(
        &self,
        rt: &W,
        session: &mut Session<'b, J, SoundFiles<V>>,
        handle: Handle,
    ) -> Result<Answer<Attributes>, FileFault<'b, J, V>>
        ensures answered { IsAnswered V.VERSION false (λ F r F2. (now : Time) → Op V.VERSION (getattr handle.number handle.generation) now F (got r) F2) session.old session.new result }
        ensures refusal { IfErr result (IsFaultOf session.new) }
    {
        self.run(rt, session, &GetAttr { handle })
    }
}
