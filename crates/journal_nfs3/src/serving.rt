// Running the operations on the file store, each up to its commit.
ghost use Rattle.std.specs.Prelude.{◌≡◌, true, false, Result};
ghost use Rattle.journal_file_types.specs.declared.pending_wait.PendingWait.TheVariants.{Nothing};
ghost use Rattle.journal_inode.specs.declared.node.Time.{Time};
ghost use Rattle.journal_filestore.specs.Handles.{time_of};
ghost use Rattle.journal_filestore.specs.Operations.{Op};
ghost use Rattle.journal_filestore.specs.Operations.Call.{getattr, setattr, lookup, read, write, create, remove, commit};
ghost use Rattle.journal_filestore.specs.Operations.Reply.{got, set, found, bytes_read, wrote, made, removed, committed};
ghost use Rattle.journal_nfs3_wire.specs.declared.results.Results.TheVariants as results;
ghost use Rattle.journal_nfs3_wire.specs.Arguments.{operation_of, how_of};
ghost use Rattle.journal_nfs3_wire.specs.Handles.{handle_in};
ghost use Rattle.journal_nfs3_wire.specs.Results.{procedure_of_results};
ghost use Rattle.journal_nfs3_wire.specs.Profile.{results_of};
ghost use Rattle.journal_nfs3.specs.Served.{settings_of, create_mode_of, waits, awaiting, TellsOutcome, ServesAs};
ghost use Rattle.journal_nfs3.specs.Answers.{procedure_for};

use crate::convert::{create_mode_of, settings_of, stability_of, to_nfs, to_nfs_no_wait};
use crate::pending::Pending;
use journal_disk::BlockDisk;
use journal_filestore::{Attributes, Changed, FileStore, Found, Portion};
use journal_history::{Naming, Receipt, Session};
use journal_inode::{SoundFiles, Version};
use journal_nfs3_wire::{
    CreateArguments, DirectoryEntry, FileRange, NfsError, Operation, Results, SetArguments,
    Verifier, WriteArguments, read_handle,
};
use journal_world::Moment;
use std::sync::Wait;

// The results of a procedure whose operation is committed, and its pending receipt.
pub type PendingReceipt<'b, J, V, T> = Pending<T, Receipt<'b, J, SoundFiles<V>>>;

/// Runs an operation at a moment, up to its commit.
pub fn serve_no_wait<'b, D: BlockDisk, J: Naming, V: Version, W: Wait>(
    rt: &W,
    session: &mut Session<'b, J, SoundFiles<V>>,
    files: &FileStore<'b, D, J, V>,
    operation: &Operation<'_>,
    moment: Moment,
    verifier: Verifier,
) -> PendingReceipt<'b, J, V, Results>
    ensures serves { ServesAs V.VERSION (awaiting result.wait) verifier.0 (time_of moment) (operation_of operation.now) session.old (results_of V.VERSION result.value) session.new }
    ensures procedure { procedure_of_results (results_of V.VERSION result.value) ≡ procedure_for (operation_of operation.now) }
{
    // Each arm returns by itself, because some of them hold a receipt and the others do not.
    match operation {
        Operation::Null => return Pending::ready(Results::Null),
        Operation::GetAttributes(handle) => {
            let value = get_attributes(rt, session, files, handle);
            return Pending::ready(Results::GetAttributes(value));
        }
        Operation::SetAttributes(arguments) => {
            return set_results(set_attributes(rt, session, files, arguments, moment));
        }
        Operation::Lookup(entry) => {
            let value = look_up(rt, session, files, entry);
            return Pending::ready(Results::Lookup(value));
        }
        Operation::Read(range) => {
            let value = read_bytes(rt, session, files, range);
            return Pending::ready(Results::Read(value));
        }
        Operation::Write(arguments) => {
            let due = write_bytes(rt, session, files, arguments, moment);
            return write_results(due, arguments, verifier);
        }
        Operation::Create(arguments) => {
            return create_results(create_file(rt, session, files, arguments, moment));
        }
        Operation::Remove(entry) => {
            return remove_results(remove_file(rt, session, files, entry));
        }
        Operation::Commit(range) => {
            return commit_results(commit_files(rt, session, files, range), verifier);
        }
    }
}

// The results of SETATTR, with its pending wait.
fn set_results<P>(due: Pending<Result<Changed, NfsError>, P>) -> Pending<Results, P>
    ensures value { result.value ≡ results.SetAttributes due.value }
    ensures wait { result.wait ≡ due.wait }
{
    let Pending { value, wait } = due;
    let value = Results::SetAttributes(value);
    Pending { value, wait }
}

// The results of WRITE.
fn write_results<P>(
    due: Pending<Result<Changed, NfsError>, P>,
    arguments: &WriteArguments<'_>,
    verifier: Verifier,
) -> Pending<Results, P>
    ensures value { result.value ≡ results.Write due.value arguments.now.count arguments.now.how verifier }
    ensures wait { result.wait ≡ due.wait }
{
    let Pending { value, wait } = due;
    let value = Results::Write {
        outcome: value,
        count: arguments.count,
        how: arguments.how,
        verifier,
    };
    Pending { value, wait }
}

// The results of CREATE.
fn create_results<P>(due: Pending<Result<Found, NfsError>, P>) -> Pending<Results, P>
    ensures value { result.value ≡ results.Create due.value }
    ensures wait { result.wait ≡ due.wait }
{
    let Pending { value, wait } = due;
    let value = Results::Create(value);
    Pending { value, wait }
}

// The results of REMOVE.
fn remove_results<P>(due: Pending<Result<Attributes, NfsError>, P>) -> Pending<Results, P>
    ensures value { result.value ≡ results.Remove due.value }
    ensures wait { result.wait ≡ due.wait }
{
    let Pending { value, wait } = due;
    let value = Results::Remove(value);
    Pending { value, wait }
}

// The results of COMMIT.
fn commit_results<P>(
    due: Pending<Result<Attributes, NfsError>, P>,
    verifier: Verifier,
) -> Pending<Results, P>
    ensures value { result.value ≡ results.Commit due.value verifier }
    ensures wait { result.wait ≡ due.wait }
{
    let Pending { value, wait } = due;
    let value = Results::Commit {
        outcome: value,
        verifier,
    };
    Pending { value, wait }
}

/// GETATTR (RFC 1813, section 3.3.1).
///
/// # Errors
/// - The error that the reply has: of the file store, or of a journal that refused.
#[tactic(auto, using(crate::proofs::Standings::unwaited))]
pub fn get_attributes<'b, D: BlockDisk, J: Naming, V: Version, W: Wait>(
    rt: &W,
    session: &mut Session<'b, J, SoundFiles<V>>,
    files: &FileStore<'b, D, J, V>,
    handle: &[u8],
) -> Result<Attributes, NfsError>
    ensures { TellsOutcome V.VERSION (awaiting Nothing) (handle_in handle.now) false
        (λ k F r F2. (t : Time) → Op V.VERSION (getattr k.number k.generation) t F (got r) F2)
        session.old session.new result }
{
    let Some(handle) = read_handle(handle) else {
        return Err(NfsError::BadHandle);
    };
    to_nfs(files.getattr(rt, session, handle))
}

// SETATTR (RFC 1813, section 3.3.2).
#[tactic(auto, using(crate::proofs::Standings::unpaid))]
fn set_attributes<'b, D: BlockDisk, J: Naming, V: Version, W: Wait>(
    rt: &W,
    session: &mut Session<'b, J, SoundFiles<V>>,
    files: &FileStore<'b, D, J, V>,
    arguments: &SetArguments<'_>,
    moment: Moment,
) -> PendingReceipt<'b, J, V, Result<Changed, NfsError>>
    ensures { TellsOutcome V.VERSION (awaiting result.wait) (handle_in arguments.now.handle.now) true
        (λ k F r F2. Op V.VERSION (setattr k.number k.generation (settings_of arguments.now.attributes) arguments.now.guard) (time_of moment) F (set r) F2)
        session.old session.new result.value }
{
    let Some(handle) = read_handle(arguments.handle) else {
        return Pending::ready(Err(NfsError::BadHandle));
    };
    let settings = settings_of(&arguments.attributes);
    to_nfs_no_wait(files.set_size_no_wait(rt, session, handle, settings, arguments.guard, moment))
}

/// LOOKUP (RFC 1813, section 3.3.3).
///
/// # Errors
/// - The error that the reply has: of the file store, or of a journal that refused.
#[tactic(auto, using(crate::proofs::Standings::unwaited))]
pub fn look_up<'b, D: BlockDisk, J: Naming, V: Version, W: Wait>(
    rt: &W,
    session: &mut Session<'b, J, SoundFiles<V>>,
    files: &FileStore<'b, D, J, V>,
    entry: &DirectoryEntry<'_>,
) -> Result<Found, NfsError>
    ensures { TellsOutcome V.VERSION (awaiting Nothing) (handle_in entry.now.directory.now) false
        (λ k F r F2. (t : Time) → Op V.VERSION (lookup k.number k.generation entry.now.name.now) t F (found r) F2)
        session.old session.new result }
{
    let Some(handle) = read_handle(entry.directory) else {
        return Err(NfsError::BadHandle);
    };
    to_nfs(files.lookup(rt, session, handle, entry.name))
}

// READ (RFC 1813, section 3.3.6).
#[tactic(auto, using(crate::proofs::Standings::unwaited))]
fn read_bytes<'b, D: BlockDisk, J: Naming, V: Version, W: Wait>(
    rt: &W,
    session: &mut Session<'b, J, SoundFiles<V>>,
    files: &FileStore<'b, D, J, V>,
    range: &FileRange<'_>,
) -> Result<Portion, NfsError>
    ensures { TellsOutcome V.VERSION (awaiting Nothing) (handle_in range.now.handle.now) false
        (λ k F r F2. (t : Time) → Op V.VERSION (read k.number k.generation range.now.offset range.now.count) t F (bytes_read r) F2)
        session.old session.new result }
{
    let Some(handle) = read_handle(range.handle) else {
        return Err(NfsError::BadHandle);
    };
    to_nfs(files.read(rt, session, handle, range.offset, range.count))
}

// WRITE (RFC 1813, section 3.3.7).
#[tactic(auto, using(crate::proofs::Standings::unpaid))]
fn write_bytes<'b, D: BlockDisk, J: Naming, V: Version, W: Wait>(
    rt: &W,
    session: &mut Session<'b, J, SoundFiles<V>>,
    files: &FileStore<'b, D, J, V>,
    arguments: &WriteArguments<'_>,
    moment: Moment,
) -> PendingReceipt<'b, J, V, Result<Changed, NfsError>>
    ensures { TellsOutcome V.VERSION (awaiting result.wait) (handle_in arguments.now.handle.now) (waits arguments.now.how)
        (λ k F r F2. Op V.VERSION (write k.number k.generation arguments.now.offset arguments.now.count arguments.now.bytes.now) (time_of moment) F (wrote r) F2)
        session.old session.new result.value }
{
    let Some(handle) = read_handle(arguments.handle) else {
        return Pending::ready(Err(NfsError::BadHandle));
    };
    let WriteArguments {
        offset,
        count,
        how,
        bytes,
        ..
    } = *arguments;
    to_nfs_no_wait(files.write_no_wait(
        rt,
        session,
        handle,
        offset,
        count,
        bytes,
        stability_of(how),
        moment,
    ))
}

// CREATE (RFC 1813, section 3.3.8).
#[tactic(auto, using(crate::proofs::Standings::unpaid))]
fn create_file<'b, D: BlockDisk, J: Naming, V: Version, W: Wait>(
    rt: &W,
    session: &mut Session<'b, J, SoundFiles<V>>,
    files: &FileStore<'b, D, J, V>,
    arguments: &CreateArguments<'_>,
    moment: Moment,
) -> PendingReceipt<'b, J, V, Result<Found, NfsError>>
    ensures { TellsOutcome V.VERSION (awaiting result.wait) (handle_in arguments.now.entry.directory.now) true
        (λ k F r F2. Op V.VERSION (create k.number k.generation arguments.now.entry.name.now (create_mode_of (how_of arguments.now.how))) (time_of moment) F (made r) F2)
        session.old session.new result.value }
{
    let Some(handle) = read_handle(arguments.entry.directory) else {
        return Pending::ready(Err(NfsError::BadHandle));
    };
    let how = create_mode_of(&arguments.how);
    to_nfs_no_wait(files.create_no_wait(rt, session, handle, arguments.entry.name, how, moment))
}

// REMOVE (RFC 1813, section 3.3.12).
#[tactic(auto, using(crate::proofs::Standings::unpaid))]
fn remove_file<'b, D: BlockDisk, J: Naming, V: Version, W: Wait>(
    rt: &W,
    session: &mut Session<'b, J, SoundFiles<V>>,
    files: &FileStore<'b, D, J, V>,
    entry: &DirectoryEntry<'_>,
) -> PendingReceipt<'b, J, V, Result<Attributes, NfsError>>
    ensures { TellsOutcome V.VERSION (awaiting result.wait) (handle_in entry.now.directory.now) true
        (λ k F r F2. (t : Time) → Op V.VERSION (remove k.number k.generation entry.now.name.now) t F (removed r) F2)
        session.old session.new result.value }
{
    let Some(handle) = read_handle(entry.directory) else {
        return Pending::ready(Err(NfsError::BadHandle));
    };
    to_nfs_no_wait(files.remove_no_wait(rt, session, handle, entry.name))
}

// COMMIT (RFC 1813, section 3.3.21), whatever its offset and count.
#[tactic(auto, using(crate::proofs::Standings::unpaid))]
fn commit_files<'b, D: BlockDisk, J: Naming, V: Version, W: Wait>(
    rt: &W,
    session: &mut Session<'b, J, SoundFiles<V>>,
    files: &FileStore<'b, D, J, V>,
    range: &FileRange<'_>,
) -> PendingReceipt<'b, J, V, Result<Attributes, NfsError>>
    ensures { TellsOutcome V.VERSION (awaiting result.wait) (handle_in range.now.handle.now) true
        (λ k F r F2. (t : Time) → Op V.VERSION (commit k.number k.generation) t F (committed r) F2)
        session.old session.new result.value }
{
    let Some(handle) = read_handle(range.handle) else {
        return Pending::ready(Err(NfsError::BadHandle));
    };
    to_nfs_no_wait(files.commit_no_wait(rt, session, handle))
}
