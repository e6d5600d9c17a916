// The reply to a call.
ghost use Rattle.std.specs.Prelude.{◌≡◌, ◌<◌, ◌^◌, ℕ, List, length, ◌++◌, Ok, false, IfOk, OnOk, OnErr, IsOkUnless};
ghost use Rattle.std.specs.Result.{ForOk};
ghost use Rattle.journal_world.specs.Histories.{Entry};
ghost use Rattle.journal_rpc.specs.CallViews.{asked_of};
ghost use Rattle.journal_filestore.specs.Handles.{time_of};
ghost use Rattle.journal_nfs3_wire.specs.Calls.{asks};
ghost use Rattle.journal_nfs3_wire.specs.Results.{results_text};
ghost use Rattle.journal_nfs3_wire.specs.Profile.{results_of, refused_results};
ghost use Rattle.journal_nfs3.specs.Served.{marked, awaiting, refusal_error};
ghost use Rattle.journal_nfs3.specs.Answers.{sent, ServesCall, Answers, AnswersAs, AnswersNoWait, sets_times, IsTimeless, awaited_of, TakesPlace, outcome_seen};

use crate::convert::refusal_error;
use crate::pending::{Pending, ReplyWait};
use crate::serving::serve_no_wait;
use journal_disk::BlockDisk;
use journal_filestore::{FileStore, PendingWait};
use journal_history::{Naming, Receipt, Session};
use journal_inode::{FormatVersion, SoundFiles, Version};
use journal_nfs3_wire::{FormatResults, Procedure, Results, Verifier, decide};
use journal_rpc::{Asked, Call, CallRefused, write_reply};
use journal_world::{Moment, Refusal};
use journal_xdr::{Enumeration, Writer};
use std::alloc::Global;
use std::sync::Wait;

/// The reply to a call, as a record of one fragment. The first case that holds is answered: the
/// call is in another version of RPC, it asks for another program, another version of this one or a
/// procedure that is not served, or its arguments cannot be read (RFC 5531, section 9). Such a call
/// does nothing. Else its procedure is done at the moment (RFC 1813, section 3.3), and the reply
/// has its results.
///
/// NULL does nothing, and neither does an operation whose handle is none: it is answered BADHANDLE.
/// Each other operation is one commit of the session, after all that the session had seen, even if
/// its answer is an error. Its answer fits the files before and after it. If the journal refuses,
/// the answer is JUKEBOX for J5, IO for J6 and SERVERFAULT for any other refusal. There is no
/// commit then, unless the operation was done and had to wait until it is stable: the history has
/// it, and it is not known to be stable.
///
/// COMMIT, SETATTR, CREATE, REMOVE, and WRITE with DATA_SYNC or FILE_SYNC wait until they are
/// stable, with all that the session had seen, before they are answered OK.
///
/// # Errors
/// - `J1 NoMemory`: the memory for the reply is refused. The operation is done all the same, and
///   its reply is lost.
pub fn answer<'b, D: BlockDisk, J: Naming, V: Version, W: Wait, C>(
    rt: &W,
    alloc: Global,
    session: &mut Session<'b, J, SoundFiles<V>>,
    call: &Call<'_>,
    files: &FileStore<'b, D, J, V>,
    moment: Moment,
    verifier: Verifier,
) -> Result<Vec<u8>, Refusal<C>>
    ensures answered { IfOk result (λ reply. Answers V.VERSION verifier.0 (time_of moment) call.now.xid
        (asks (asked_of call.now.asked)) session.old session.new reply.items) }
    ensures lost { OnErr result ((reply : List ℕ) × Answers V.VERSION verifier.0 (time_of moment) call.now.xid
        (asks (asked_of call.now.asked)) session.old session.new reply) }
    ensures refusal { IsOkUnless result Refusal.NoMemory }
{
    let mut reply = Writer::new(alloc);
    let wait = answer_no_wait(rt, &mut reply, session, call, files, moment, verifier)?;
    let awaited = match wait {
        None => return Ok(reply.into_bytes()),
        Some(awaited) => awaited,
    };
    let waited = files.journal().wait_stable(rt, session, &awaited.receipt);
    // Called for its contract: the history that the session has then seen.
    let _seen = session.seen();
    match waited {
        Ok(_note) => Ok(reply.into_bytes()),
        Err(why) => {
            reply.clear();
            refused_reply(&mut reply, call.xid, awaited.procedure, &why)?;
            Ok(reply.into_bytes())
        }
    }
}

/// Writes the reply to a call up to its commit: as `answer` does the call, and before it waits. If
/// `answer` would wait, the wait for its receipt is pending (`Journal::wait_stable`): the history
/// has the operation, and a crash before the mark may lose it. A mark that covers the receipt makes
/// the reply the one of `answer`. If the wait is refused, the reply of `refused_reply` has to be
/// sent in its place.
///
/// # Errors
/// - `J1 NoMemory`: the memory for the reply is refused. The operation is done all the same, and
///   its reply is lost.
pub fn answer_no_wait<'b, D: BlockDisk, J: Naming, V: Version, W: Wait, C>(
    rt: &W,
    writer: &mut Writer,
    session: &mut Session<'b, J, SoundFiles<V>>,
    call: &Call<'_>,
    files: &FileStore<'b, D, J, V>,
    moment: Moment,
    verifier: Verifier,
) -> Result<Option<ReplyWait<Receipt<'b, J, SoundFiles<V>>>>, Refusal<C>>
    ensures answered { IfOk result (AnswersNoWait V.VERSION verifier.0 (time_of moment) call.now.xid
        (asks (asked_of call.now.asked)) session.old session.new writer.old writer.new) }
    ensures lost { OnErr result ((history : List Entry) → (reply : List ℕ) × AnswersAs V.VERSION (marked history) verifier.0
        (time_of moment) call.now.xid (asks (asked_of call.now.asked)) session.old session.new reply) }
    ensures refusal { IsOkUnless result Refusal.NoMemory }
{
    let Pending { value, wait } = run_no_wait(rt, session, call, files, moment, verifier);
    write_reply(writer, call.xid, &value)?;
    Ok(awaited(&value, wait))
}

/// Writes the reply in place of one whose wait is refused, to a call of this number and procedure:
/// JUKEBOX for J5, IO for J6 and SERVERFAULT for any other refusal. The history has the operation,
/// and it is not known to be stable.
///
/// # Errors
/// - `J1 NoMemory`: the memory for the reply is refused. Some of its bytes may be written.
pub fn refused_reply<C, E>(
    writer: &mut Writer,
    xid: u32,
    procedure: Procedure,
    why: &Refusal<C>,
) -> Result<(), Refusal<E>>
    ensures text { OnOk result (writer.new ≡ writer.old ++ sent xid (Ok (refused_results procedure (refusal_error why.now)))) }
    ensures takes_place { TakesPlace xid procedure (sent xid (Ok (refused_results procedure (refusal_error why.now)))) }
    ensures refusal { IsOkUnless result Refusal.NoMemory }
{
    let results = Results::refused(procedure, refusal_error(why));
    // It describes no file, and is the same in each version.
    let results = FormatResults {
        version: FormatVersion::One,
        results,
    };
    results.prove_grammar();
    let outcome = Ok(results);
    Ok(write_reply(writer, xid, &outcome)?)
}

// The outcome of a call that is not waited for: why it is refused, or the results of its operation,
// which is done.
fn run_no_wait<'b, D: BlockDisk, J: Naming, V: Version, W: Wait>(
    rt: &W,
    session: &mut Session<'b, J, SoundFiles<V>>,
    call: &Call<'_>,
    files: &FileStore<'b, D, J, V>,
    moment: Moment,
    verifier: Verifier,
) -> Pending<Result<FormatResults, CallRefused>, Receipt<'b, J, SoundFiles<V>>>
    ensures comes { ServesCall V.VERSION (awaiting result.wait) verifier.0 (time_of moment) (asks (asked_of call.now.asked)) session.old (outcome_seen result.value) session.new }
    ensures short { ForOk result.value (λ r. length (results_text (results_of r.version r.results)) < 2 ^ 30) }
{
    let operation = match decide(call) {
        Ok(operation) => operation,
        Err(why) => return Pending::ready(Err(why)),
    };
    let Pending {
        value: results,
        wait,
    } = serve_no_wait(rt, session, files, &operation, moment, verifier);
    let results = FormatResults {
        version: files.version(),
        results,
    };
    results.prove_grammar();
    Pending {
        value: Ok(results),
        wait,
    }
}

// The wait, with the procedure of the results that wait.
fn awaited<P: Drop>(
    outcome: &Result<FormatResults, CallRefused>,
    wait: PendingWait<P>,
) -> Option<ReplyWait<P>>
    ensures { result ≡ awaited_of (outcome_seen outcome.now) wait }
{
    match (outcome, wait) {
        (Ok(results), PendingWait::Wait(receipt)) => Some(ReplyWait {
            procedure: results.procedure(),
            receipt,
        }),
        _ => None,
    }
}

/// True if the reply to a call depends on the moment: the call is SETATTR, WRITE or CREATE.
pub fn uses_moment(call: &Call<'_>) -> bool
    ensures timeless { result ≡ false → IsTimeless (asks (asked_of call.now.asked)) }
{
    match call.asked {
        Asked::OtherVersion => false,
        Asked::Procedure { procedure, .. } => sets_times(Procedure::from_number(procedure)),
    }
}

// True if a procedure sets times.
fn sets_times(procedure: Option<Procedure>) -> bool
    ensures { result ≡ sets_times procedure }
{
    matches!(
        procedure,
        Some(Procedure::SetAttributes | Procedure::Write | Procedure::Create)
    )
}
