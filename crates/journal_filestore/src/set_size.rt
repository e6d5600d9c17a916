// SETATTR.
ghost use Rattle.std.specs.Prelude.{◌≡◌, Bool, true, IfErr};
ghost use Rattle.journal_filestore.specs.Done.{IsAnswered, IsAnsweredNoWait};
ghost use Rattle.journal_filestore.specs.Faults.{IsFaultOf, IsFilesRefusal};
ghost use Rattle.journal_filestore.specs.Handles.{time_of};
ghost use Rattle.journal_filestore.specs.Operations.{Op, file_target, setattr_case, root_set, is_other_time};
ghost use Rattle.journal_filestore.specs.Operations.Call.{setattr};
ghost use Rattle.journal_filestore.specs.Operations.Reply.{set};

use crate::block_reservation::BlockReservation;
use crate::find::{Target, find};
use crate::operation::{AttemptEnd, Operation};
use crate::reply::{attributes_of, root_attributes};
use crate::set_file::{is_no_time, is_too_big, set_file};
use crate::store::{FileFault, FileTxn};
use crate::{Answer, Changed, CommitResult, FileStore, Handle, Settings, Status};
use journal_disk::BlockDisk;
use journal_history::{Naming, Session};
use journal_inode::{SoundFiles, Time, Version};
use journal_world::Moment;
use std::sync::Wait;

// The settings of a file.
#[derive(Drop)]
pub(crate) struct SetSize {
    handle: Handle,
    settings: Settings,
    guard: Option<Time>,
    moment: Moment,
}

impl<J: Naming, V: Version> Operation<J, V> for SetSize {
    type Reply = Changed;

    ghost case = { λ w F r F2. (room : Bool) × ((r, F2) ≡ setattr_case V.VERSION room w.settings w.guard (time_of w.moment) F (file_target F w.handle.number w.handle.generation)) };

    ghost is_waiting = { λ w. true };

    fn waits(&self) -> bool {
        true
    }

    fn attempt<'j, 'b, D: BlockDisk, W: Wait>(
        &self,
        rt: &W,
        txn: &mut FileTxn<'j, 'b, D, J, V>,
        space: &mut BlockReservation,
    ) -> Result<Answer<Changed>, AttemptEnd<'b, J, V>> {
        let file = match find(rt, txn, self.handle)? {
            Target::Gone => return Ok(Err(Status::Stale)),
            Target::Directory(mtime) => return Ok(self.root_set(mtime)),
            Target::Regular(file) => file,
        };
        if is_other_time(self.guard, file.mtime) {
            return Ok(Err(Status::NotSync));
        }
        if is_no_time(self.settings.mtime) {
            return Ok(Err(Status::Invalid));
        }
        if is_too_big(V::VERSION, self.settings.size) {
            return Ok(Err(Status::TooBig));
        }
        let number = self.handle.number;
        match set_file(rt, txn, space, number, file, self.settings, self.moment)? {
            None => Ok(Err(Status::NoSpace)),
            Some(after) => Ok(Ok(Changed {
                before: attributes_of(number, file),
                after: attributes_of(number, after),
            })),
        }
    }
}

impl SetSize {
    // The answer on the root, whose attributes never change.
    fn root_set(&self, mtime: Time) -> Answer<Changed>
        ensures { result ≡ root_set self.now.settings self.now.guard mtime }
    {
        if self.settings.size.is_some() {
            return Err(Status::Invalid);
        }
        if is_other_time(self.guard, mtime) {
            return Err(Status::NotSync);
        }
        if is_no_time(self.settings.mtime) {
            return Err(Status::Invalid);
        }
        let root = root_attributes(mtime);
        Ok(Changed {
            before: root,
            after: root,
        })
    }
}

// True if the guard has another time.
fn is_other_time(guard: Option<Time>, mtime: Time) -> bool
    ensures { result ≡ is_other_time guard mtime }
{
    match guard {
        None => false,
        Some(guard) => guard.secs != mtime.secs || guard.nanos != mtime.nanos,
    }
}

impl<'b, D: BlockDisk, J: Naming, V: Version> FileStore<'b, D, J, V> {
    /// SETATTR (RFC 1813, 3.3.2): sets the size of a file, its time, or both. Bytes past a smaller
    /// size become zero, and a greater one shows zeros. The time becomes the one given, or the
    /// moment of the call if that is asked for or if a size is given alone. It waits until it is
    /// stable. The root's attributes never change.
    ///
    /// # Errors
    /// - `Refused`: the journal refused its transaction. It has no commit, and changed nothing.
    /// - `Unsure`: it is committed, and the wait until it is stable was refused.
    ///
    /// The other answers are committed too, and leave the files as they were. The first that holds:
    /// - `Stale`: the handle's file was removed.
    /// - `Invalid`: a size is given, and the handle is the root's.
    /// - `NotSync`: a guard is given and is not the file's time.
    /// - `Invalid`: the given time is none.
    /// - `TooBig`: the size is above that of any file of the version.
    /// - `NoSpace`: it needs more blocks than are free.
    pub fn set_size<W: Wait>(
        &self,
        rt: &W,
        session: &mut Session<'b, J, SoundFiles<V>>,
        handle: Handle,
        settings: Settings,
        guard: Option<Time>,
        now: Moment,
    ) -> Result<Answer<Changed>, FileFault<'b, J, V>>
        ensures answered { IsAnswered V.VERSION true (λ F r F2. Op V.VERSION (setattr handle.number handle.generation settings guard) (time_of now) F (set r) F2) session.old session.new result }
        ensures refusal { IfErr result (IsFaultOf session.new) }
    {
        let set = SetSize {
            handle,
            settings,
            guard,
            moment: now,
        };
        self.run(rt, session, &set)
    }

    /// SETATTR up to its commit: as `set_size` does it, and answered before it is stable. If
    /// `set_size` would wait, the wait for its receipt is pending (`Journal::wait_stable`): the
    /// history has the answer, and a crash before the mark may lose it.
    ///
    /// # Errors
    /// Those of `set_size`, but for `Unsure`.
    pub fn set_size_no_wait<W: Wait>(
        &self,
        rt: &W,
        session: &mut Session<'b, J, SoundFiles<V>>,
        handle: Handle,
        settings: Settings,
        guard: Option<Time>,
        now: Moment,
    ) -> CommitResult<'b, J, Changed, V>
        ensures answered { IsAnsweredNoWait V.VERSION true (λ F r F2. Op V.VERSION (setattr handle.number handle.generation settings guard) (time_of now) F (set r) F2) session.old session.new result }
        ensures refusal { IfErr result IsFilesRefusal }
    {
        let set = SetSize {
            handle,
            settings,
            guard,
            moment: now,
        };
        self.run_no_wait(rt, session, &set)
    }
}
