// LOOKUP.
ghost use Rattle.std.specs.Prelude.{◌≡◌, false, IfErr};
ghost use Rattle.journal_inode.specs.declared.node.Time.{Time};
ghost use Rattle.journal_filestore.specs.Done.{IsAnswered};
ghost use Rattle.journal_filestore.specs.Faults.{IsFaultOf};
ghost use Rattle.journal_filestore.specs.Operations.{Op, file_target, lookup_case};
ghost use Rattle.journal_filestore.specs.Operations.Call.{lookup};
ghost use Rattle.journal_filestore.specs.Operations.Reply.{found};

use crate::block_reservation::BlockReservation;
use crate::find::{Target, find};
use crate::name::number_of;
use crate::objects::read_node;
use crate::operation::{AttemptEnd, Operation};
use crate::reply::{attributes_of, root_attributes};
use crate::store::{FileFault, FileTxn};
use crate::{Answer, FileStore, Found, Handle, Status};
use journal_disk::BlockDisk;
use journal_history::{Naming, Session};
use journal_inode::{Node, SoundFiles, Version};
use std::sync::Wait;

// A file by its name.
#[derive(Drop)]
pub(crate) struct Lookup<'a> {
    directory: Handle,
    name: &'a [u8],
}

impl<'a, J: Naming, V: Version> Operation<J, V> for Lookup<'a> {
    type Reply = Found;

    ghost case = { λ w F r F2. (r, F2) ≡ lookup_case w.name.now F (file_target F w.directory.number w.directory.generation) };

    ghost is_waiting = { λ w. false };

    fn waits(&self) -> bool {
        false
    }

    fn attempt<'j, 'b, D: BlockDisk, W: Wait>(
        &self,
        rt: &W,
        txn: &mut FileTxn<'j, 'b, D, J, V>,
        _space: &mut BlockReservation,
    ) -> Result<Answer<Found>, AttemptEnd<'b, J, V>> {
        let root = match find(rt, txn, self.directory)? {
            Target::Gone => return Ok(Err(Status::Stale)),
            Target::Regular(_) => return Ok(Err(Status::NotDirectory)),
            Target::Directory(mtime) => mtime,
        };
        let Some(number) = number_of(self.name) else {
            return Ok(Err(Status::NoEntry));
        };
        let Node::File(file) = read_node(rt, txn, number)? else {
            return Ok(Err(Status::NoEntry));
        };
        Ok(Ok(Found {
            generation: file.generation,
            file: attributes_of(number, file),
            root: root_attributes(root),
        }))
    }
}

impl<'b, D: BlockDisk, J: Naming, V: Version> FileStore<'b, D, J, V> {
    /// LOOKUP (RFC 1813, 3.3.3): the file of a name in the root. It does not wait until it is
    /// stable.
    ///
    /// # Errors
    /// - `Refused`: the journal refused its transaction. It has no commit, and changed nothing.
    ///
    /// The other answers are committed too. The first that holds:
    /// - `Stale`: the handle's file was removed.
    /// - `NotDirectory`: the handle is a file's.
    /// - `NoEntry`: there is no file of the name.
    pub fn lookup<W: Wait>(
        &self,
        rt: &W,
        session: &mut Session<'b, J, SoundFiles<V>>,
        directory: Handle,
        name: &[u8],
    ) -> Result<Answer<Found>, FileFault<'b, J, V>>
        ensures answered { IsAnswered V.VERSION false (λ F r F2. (now : Time) → Op V.VERSION (lookup directory.number directory.generation name.now) now F (found r) F2) session.old session.new result }
        ensures refusal { IfErr result (IsFaultOf session.new) }
    {
        self.run(rt, session, &Lookup { directory, name })
    }
}
