// CREATE.
ghost use Rattle.std.specs.Prelude.{ℕ, ◌≡◌, ◌<◌, ◌≤◌, Bool, Some, true, false, [], IfOk, IfErr};
ghost use Rattle.journal_inode.specs.Places.{HasFiles};
ghost use Rattle.journal_inode.specs.declared.node.Node.TheVariants.{Free, File};
ghost use Rattle.journal_inode.specs.Nodes.{Fits};
ghost use Rattle.journal_inode.specs.Versions.{most_bytes};
ghost use Rattle.journal_inode.specs.Sound.{node_at};
ghost use Rattle.journal_attempts.specs.Refusals.{IsAttemptEnd};
ghost use Rattle.journal_filestore.specs.Files.{is_file_number, files_of};
ghost use Rattle.journal_filestore.specs.Doing.{HasReadNoData, Leads, Makes};
ghost use Rattle.journal_filestore.specs.Done.{IsAnswered, IsAnsweredNoWait};
ghost use Rattle.journal_filestore.specs.Faults.{IsFaultOf, IsFilesRefusal};
ghost use Rattle.journal_filestore.specs.Handles.{time_of, data_of, asked, found_node};
ghost use Rattle.journal_filestore.specs.Operations.{Op, file_target, create_case, create_new, create_file, is_no_time};
ghost use Rattle.journal_filestore.specs.Operations.Call.{create};
ghost use Rattle.journal_filestore.specs.Operations.Reply.{made};

use crate::block_reservation::BlockReservation;
use crate::blocks::{extra_blocks_of, take_blocks, write_file};
use crate::find::{Target, find};
use crate::name::number_of;
use crate::objects::read_node;
use crate::operation::{AttemptEnd, Operation};
use crate::reply::{attributes_of, root_attributes};
use crate::set_file::{is_no_time, is_too_big, set_file, time_after};
use crate::store::{FileFault, FileTxn};
use crate::{Answer, CommitResult, CreateMode, FileStore, Found, Handle, Settings, Status};
use journal_disk::BlockDisk;
use journal_history::{Naming, Session};
use journal_inode::{FileNode, Node, SoundFiles, Time, Version};
use journal_world::{BLOCK_BYTES, Moment};
use std::sync::Wait;

// A file of a name, made or set.
#[derive(Drop)]
pub(crate) struct Create<'a> {
    directory: Handle,
    name: &'a [u8],
    how: CreateMode,
    moment: Moment,
}

impl<'a, J: Naming, V: Version> Operation<J, V> for Create<'a> {
    type Reply = Found;

    ghost case = { λ w F r F2. (room : Bool) × ((r, F2) ≡ create_case V.VERSION room w.name.now w.how (time_of w.moment) F (file_target F w.directory.number w.directory.generation)) };

    ghost is_waiting = { λ w. true };

    fn waits(&self) -> bool {
        true
    }

    fn attempt<'j, 'b, D: BlockDisk, W: Wait>(
        &self,
        rt: &W,
        txn: &mut FileTxn<'j, 'b, D, J, V>,
        space: &mut BlockReservation,
    ) -> Result<Answer<Found>, AttemptEnd<'b, J, V>> {
        let root = match find(rt, txn, self.directory)? {
            Target::Gone => return Ok(Err(Status::Stale)),
            Target::Regular(_) => return Ok(Err(Status::NotDirectory)),
            Target::Directory(mtime) => mtime,
        };
        let Some((settings, is_guarded)) = asked(self.how) else {
            return Ok(Err(Status::NotSupported));
        };
        let Some(number) = number_of(self.name) else {
            return Ok(Err(Status::Invalid));
        };
        if is_no_time(settings.mtime) {
            return Ok(Err(Status::Invalid));
        }
        match read_node(rt, txn, number)? {
            Node::Free(last) => self.make(rt, txn, space, root, number, last, settings),
            Node::File(file) => self.set(rt, txn, space, root, number, file, settings, is_guarded),
            Node::Root(_) => Ok(Err(Status::Exists)),
        }
    }
}

// The settings of the file, and whether it must not be there yet.
fn asked(how: CreateMode) -> Option<(Settings, bool)>
    ensures { result ≡ asked how }
{
    match how {
        CreateMode::Unchecked(settings) => Some((settings, false)),
        CreateMode::Guarded(settings) => Some((settings, true)),
        CreateMode::Exclusive => None,
    }
}

impl<'a> Create<'a> {
    // Sets the file that is there, if it may be there.
    fn set<'j, 'b, D: BlockDisk, J: Naming, V: Version, W: Wait>(
        &self,
        rt: &W,
        txn: &mut FileTxn<'j, 'b, D, J, V>,
        space: &mut BlockReservation,
        root: Time,
        number: u32,
        file: FileNode,
        settings: Settings,
        is_guarded: bool,
    ) -> Result<Answer<Found>, AttemptEnd<'b, J, V>>
        requires cut { HasFiles J.layout }
        requires number { is_file_number number ≡ true }
        requires fits { Fits (File file) }
        requires whole { file.size ≤ most_bytes V.VERSION }
        requires timed { is_no_time settings.mtime ≡ false }
        requires space { space.old.taken.items ≡ [] }
        requires unread { HasReadNoData txn.old }
        requires writes { txn.old.writes ≡ [] }
        ensures makes { IfOk result (λ answer. Makes V.VERSION J.layout txn.old txn.new (λ m n. node_at m number ≡ File file → (files_of V.VERSION m).root ≡ root
            → (room : Bool) × Leads V.VERSION n answer (create_file V.VERSION room is_guarded settings (time_of self.now.moment) (files_of V.VERSION m) number (Some (data_of V.VERSION m file))))) }
        ensures refusal { IfErr result IsAttemptEnd }
    {
        if is_guarded {
            return Ok(Err(Status::Exists));
        }
        if is_too_big(V::VERSION, settings.size) {
            return Ok(Err(Status::TooBig));
        }
        match set_file(rt, txn, space, number, file, settings, self.moment)? {
            None => Ok(Err(Status::NoSpace)),
            Some(after) => Ok(Ok(found(number, after, root))),
        }
    }

    // The number is free, and gets a file, in free blocks.
    fn make<'j, 'b, D: BlockDisk, J: Naming, V: Version, W: Wait>(
        &self,
        rt: &W,
        txn: &mut FileTxn<'j, 'b, D, J, V>,
        space: &mut BlockReservation,
        root: Time,
        number: u32,
        last: u32,
        settings: Settings,
    ) -> Result<Answer<Found>, AttemptEnd<'b, J, V>>
        requires cut { HasFiles J.layout }
        requires number { is_file_number number ≡ true }
        requires timed { is_no_time settings.mtime ≡ false }
        requires space { space.old.taken.items ≡ [] }
        requires unread { HasReadNoData txn.old }
        requires writes { txn.old.writes ≡ [] }
        ensures makes { IfOk result (λ answer. Makes V.VERSION J.layout txn.old txn.new (λ m n. node_at m number ≡ Free last → (files_of V.VERSION m).root ≡ root
            → (room : Bool) × Leads V.VERSION n answer (create_new V.VERSION room settings (time_of self.now.moment) (files_of V.VERSION m) number))) }
        ensures refusal { IfErr result IsAttemptEnd }
    {
        if is_too_big(V::VERSION, settings.size) {
            return Ok(Err(Status::TooBig));
        }
        if last == u32::MAX {
            return Ok(Err(Status::NoSpace));
        }
        let size = settings.size.unwrap_or(0);
        let count = 1 + V::VERSION.extra_count(size);
        if !take_blocks(rt, txn, space, count)? {
            return Ok(Err(Status::NoSpace));
        }
        let file = FileNode {
            generation: last + 1,
            size,
            block: space.taken[0],
            more: extra_blocks_of(&space.taken[1..], &[]),
            mtime: time_after(settings, self.moment, Time::at(self.moment)),
        };
        let zeros = vec![in space.alloc; 0; count * BLOCK_BYTES]?;
        write_file(rt, txn, number, file, &space.taken, &space.taken, &zeros)?;
        Ok(Ok(found(number, file, root)))
    }
}

// A file that was made or set, and the root.
fn found(number: u32, file: FileNode, root: Time) -> Found
    ensures { result ≡ found_node number file root }
{
    Found {
        generation: file.generation,
        file: attributes_of(number, file),
        root: root_attributes(root),
    }
}

impl<'b, D: BlockDisk, J: Naming, V: Version> FileStore<'b, D, J, V> {
    /// CREATE (RFC 1813, 3.3.8): makes a file of a name in the root, of the size given or none and
    /// all zeros, with a generation that no file of its number had. If the file is there and `how`
    /// allows it, sets the file instead. It waits until it is stable.
    ///
    /// # Errors
    /// - `Refused`: the journal refused its transaction. It has no commit, and changed nothing.
    /// - `Unsure`: it is committed, and the wait until it is stable was refused.
    ///
    /// The other answers are committed too, and leave the files as they were. The first that holds:
    /// - `Stale`: the handle's file was removed.
    /// - `NotDirectory`: the handle is a file's.
    /// - `NotSupported`: `how` is `Exclusive`.
    /// - `Invalid`: the name is not `f` and three digits, from `f002` to `f511`, or the given time
    ///   is none.
    /// - `Exists`: the file is there and `how` is `Guarded`.
    /// - `TooBig`: the size is above that of any file of the version.
    /// - `NoSpace`: too few blocks are free, or the number's generation is at its greatest. Calls
    ///   at work hold blocks, so this may come while a block is free.
    pub fn create<W: Wait>(
        &self,
        rt: &W,
        session: &mut Session<'b, J, SoundFiles<V>>,
        directory: Handle,
        name: &[u8],
        how: CreateMode,
        now: Moment,
    ) -> Result<Answer<Found>, FileFault<'b, J, V>>
        ensures answered { IsAnswered V.VERSION true (λ F r F2. Op V.VERSION (create directory.number directory.generation name.now how) (time_of now) F (made r) F2) session.old session.new result }
        ensures refusal { IfErr result (IsFaultOf session.new) }
    {
        let create = Create {
            directory,
            name,
            how,
            moment: now,
        };
        self.run(rt, session, &create)
    }

    /// CREATE up to its commit: as `create` does it, and answered before it is stable. If `create`
    /// would wait, the wait for its receipt is pending (`Journal::wait_stable`): the history has
    /// the answer, and a crash before the mark may lose it.
    ///
    /// # Errors
    /// Those of `create`, but for `Unsure`.
    pub fn create_no_wait<W: Wait>(
        &self,
        rt: &W,
        session: &mut Session<'b, J, SoundFiles<V>>,
        directory: Handle,
        name: &[u8],
        how: CreateMode,
        now: Moment,
    ) -> CommitResult<'b, J, Found, V>
        ensures answered { IsAnsweredNoWait V.VERSION true (λ F r F2. Op V.VERSION (create directory.number directory.generation name.now how) (time_of now) F (made r) F2) session.old session.new result }
        ensures refusal { IfErr result IsFilesRefusal }
    {
        let create = Create {
            directory,
            name,
            how,
            moment: now,
        };
        self.run_no_wait(rt, session, &create)
    }
}
