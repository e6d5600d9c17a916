// The reply to a call of either program.
ghost use Rattle.std.specs.Prelude.{◌≡◌, ◌++◌, ◌<◌, ◌^◌, ℕ, List, length, Ok, IfOk, IfSome, OnErr};
ghost use Rattle.std.specs.Result.{ForOk};
ghost use Rattle.journal_world.specs.Histories.{Entry};
ghost use Rattle.journal_rpc.specs.CallViews.{asked_of, message_of};
ghost use Rattle.journal_filestore.specs.Handles.{time_of};
ghost use Rattle.journal_nfs3.specs.Served.{marked, awaiting};
ghost use Rattle.journal_nfs3.specs.Answers.{pending_wait_for};
ghost use Rattle.journal_server.specs.FileProtocols.{IsAwaitedCall};
ghost use Rattle.journal_nfs3_wire.specs.Arguments.{operation_of};
ghost use Rattle.journal_nfs3_wire.specs.Calls.{asks as asks_nine};
ghost use Rattle.journal_mount3.specs.Calls.{nine, asks};
ghost use Rattle.journal_mount3.specs.Answers.{AnswersBoth, Comes};
ghost use Rattle.journal_mount3.specs.CodeViews.{told_text, texts_of, procedure_of, wait_of, IsWaitFor};

use crate::arguments::Requested;
use crate::decision::decide;
use crate::results::Told;
use crate::root::set_results_at;
use crate::serving::{serve_mount, serve_query};
use journal_disk::BlockDisk;
use journal_filestore::{FileStore, PendingWait};
use journal_history::{Naming, Receipt, Session};
use journal_inode::{SoundFiles, Time, Version};
use journal_nfs3::{Pending, ReplyWait, serve_no_wait};
use journal_nfs3_wire::{FormatResults, Operation, Procedure, Results, Verifier};
use journal_rpc::{Call, CallRefused, write_reply};
use journal_world::{Layout, Moment};
use journal_xdr::Writer;
use std::alloc::{AllocError, Global};
use std::sync::Wait;

/// Both programs: what is told with each WRITE and COMMIT, and the layout of the disk that the
/// files are on.
#[derive(Clone, Copy, Debug)]
pub struct Exported {
    /// The verifier.
    pub verifier: Verifier,
    /// The layout of the disk.
    pub layout: Layout,
}

// Writes the reply to a call up to its commit, and says which wait comes before it may be sent.
pub(crate) fn answer_no_wait<'b, D: BlockDisk, J: Naming, V: Version, W: Wait>(
    rt: &W,
    alloc: Global,
    session: &mut Session<'b, J, SoundFiles<V>>,
    call: &Call<'_>,
    files: &FileStore<'b, D, J, V>,
    exported: &Exported,
    moment: Moment,
    writer: &mut Writer,
) -> Result<Option<ReplyWait<Receipt<'b, J, SoundFiles<V>>>>, AllocError>
    ensures answered { IfOk result (λ wait. (text : List ℕ) × (writer.new ≡ writer.old ++ text) × AnswersBoth V.VERSION exported.now.layout.blocks exported.now.verifier.0 (awaiting (pending_wait_for wait))
        (time_of moment) (message_of call.now) session.old session.new text) }
    ensures awaited { IfOk result (λ wait. IfSome wait (λ awaited. IsAwaitedCall awaited.procedure (message_of call.now))) }
    ensures lost { OnErr result ((history : List Entry) → (reply : List ℕ) × AnswersBoth V.VERSION exported.now.layout.blocks exported.now.verifier.0
        (marked history) (time_of moment) (message_of call.now) session.old session.new reply) }
{
    let Pending { value, wait } = run_no_wait(rt, alloc, session, call, files, exported, moment);
    write_reply(writer, call.xid, &value)?;
    Ok(awaited(procedure_of(&value), wait))
}

// The outcome of a call that is not waited for.
fn run_no_wait<'b, D: BlockDisk, J: Naming, V: Version, W: Wait>(
    rt: &W,
    alloc: Global,
    session: &mut Session<'b, J, SoundFiles<V>>,
    call: &Call<'_>,
    files: &FileStore<'b, D, J, V>,
    exported: &Exported,
    moment: Moment,
) -> Pending<Result<Told, CallRefused>, Receipt<'b, J, SoundFiles<V>>>
    ensures comes { Comes V.VERSION exported.now.layout.blocks (awaiting result.wait) exported.now.verifier.0 (time_of moment) (asks (asked_of call.now.asked))
        session.old (texts_of result.value) session.new }
    ensures short { ForOk result.value (λ r. length (told_text r) < 2 ^ 30) }
    ensures wait { IsWaitFor result.value result.wait (asks_nine (asked_of call.now.asked)) }
{
    let layout = exported.layout;
    match decide(call) {
        Err(why) => return Pending::ready(Err(why)),
        Ok(Requested::Mount(call)) => return Pending::ready(Ok(Told::Mount(serve_mount(&call)))),
        Ok(Requested::Query(query)) => {
            let now = Time::at(moment);
            let results = serve_query(rt, alloc, session, files, layout, &query, now);
            return Pending::ready(Ok(Told::Query(files.version(), results)));
        }
        Ok(Requested::Nine(operation)) => {
            return serve_nine(rt, session, files, &operation, moment, exported.verifier);
        }
    }
}

// One of the nine procedures, with the moment as the root's times.
fn serve_nine<'b, D: BlockDisk, J: Naming, V: Version, W: Wait>(
    rt: &W,
    session: &mut Session<'b, J, SoundFiles<V>>,
    files: &FileStore<'b, D, J, V>,
    operation: &Operation<'_>,
    moment: Moment,
    verifier: Verifier,
) -> Pending<Result<Told, CallRefused>, Receipt<'b, J, SoundFiles<V>>>
    ensures comes { (blocks : ℕ) → Comes V.VERSION blocks (awaiting result.wait) verifier.0 (time_of moment) (Ok (nine (operation_of operation.now)))
        session.old (texts_of result.value) session.new }
    ensures short { ForOk result.value (λ r. length (told_text r) < 2 ^ 30) }
    ensures wait { IsWaitFor result.value result.wait (Ok (operation_of operation.now)) }
{
    let Pending {
        value: results,
        wait,
    } = serve_no_wait(rt, session, files, operation, moment, verifier);
    let mut told = FormatResults {
        version: files.version(),
        results,
    };
    told.prove_grammar();
    set_results_at(Time::at(moment), &mut told.results);
    told.prove_grammar();
    Pending {
        value: Ok(Told::Nine(told)),
        wait,
    }
}

// The procedure of a reply, if it is one of the nine.
fn procedure_of(outcome: &Result<Told, CallRefused>) -> Option<Procedure>
    ensures { result ≡ procedure_of outcome.now }
{
    match outcome {
        Ok(Told::Nine(results)) => Some(results.procedure()),
        _ => None,
    }
}

// The wait of a reply, with its procedure.
fn awaited<P: Drop>(procedure: Option<Procedure>, wait: PendingWait<P>) -> Option<ReplyWait<P>>
    ensures { result ≡ wait_of procedure wait }
{
    match (procedure, wait) {
        (Some(procedure), PendingWait::Wait(receipt)) => Some(ReplyWait { procedure, receipt }),
        _ => None,
    }
}
