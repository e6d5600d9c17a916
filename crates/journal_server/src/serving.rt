// A connection that the nine procedures answer.
ghost use Rattle.std.specs.Prelude.{◌≡◌, ◌<◌, ◌^◌, true, IsTrue, IfOk, OnErr};
ghost use Rattle.journal_world.specs.Histories.{is_fenced};
ghost use Rattle.journal_rpc.specs.Markings.{record_marking};
ghost use Rattle.journal_rpc.specs.Calls.{message};
ghost use Rattle.journal_protocol.specs.Output.{RepliesUpToBad, records_of, answered_of};
ghost use Rattle.journal_protocol.specs.Connections.{Exchanges, IsEnd, IsBeginning, IsBefore};
ghost use Rattle.journal_server.specs.Output.{IsReply};

use crate::file_protocol::FilesOf;
use crate::files::NineProcedures;
use journal_disk::BlockDisk;
use journal_filestore::FileStore;
use journal_gate::Gate;
use journal_history::{Naming, Session};
use journal_inode::{SoundFiles, Version};
use journal_nfs3::Verifier;
use journal_protocol::{Answerer, Clock, ConnFault, Served, serve_protocol};
use std::alloc::Global;
use std::io::{Read, Write};
use std::sync::Wait;

/// Answers the calls that the reader gives by the nine procedures of NFS version 3, in order, up to
/// the first bad record, each at the clock's moment behind the gate, which it passes as `number`
/// with the count of the calls before it. The replies go to the writer.
///
/// It reads at most 128 KiB at once, and answers all calls that are complete then, in turns of at
/// most 64 KiB or 1024 replies, before it reads on. Of a turn it does all calls, and waits once
/// until the last of those is stable that are to be: the replies in front of the first of them go
/// out before, and the others after. It may wait for the peer, and for the journal.
///
/// At every end it fences the session, also where it gives up: so nothing is committed under its
/// number later.
///
/// # Errors
/// Some of the records that it read were answered then, from the first on, and their replies were
/// written up to some byte: a call whose reply could not be written was done.
/// - `ReadFailed`: the reader failed.
/// - `WriteFailed`: the writer failed, or took no byte.
/// - `NoMemory`: memory was refused for what was read, or for a reply.
pub fn serve<
    'b,
    R: Read,
    W: Write,
    D: BlockDisk,
    J: Naming,
    V: Version,
    C: Clock,
    G: Gate,
    H: Wait,
>(
    rt: &H,
    alloc: Global,
    reader: &mut R,
    writer: &mut W,
    files: &FileStore<'b, D, J, V>,
    session: &mut Session<'b, J, SoundFiles<V>>,
    clock: &C,
    verifier: Verifier,
    gate: &G,
    number: u64,
) -> Result<Served, ConnFault>
    // What was written is the replies to the records of what was read, in order, up to the first
    // that is no call. Each is its call's reply at a moment of the clock, between the history that
    // the session had seen after the reply before it and the one that it saw then. A change that
    // has to be stable is marked in the history that the session had seen after the last reply. It
    // has only seen more since, the fence.
    ensures replies { IfOk result (λ served. Exchanges (R.remaining reader.old) (R.remaining reader.new) (W.contents writer.old) (W.contents writer.new)
        (λ input text. IsBefore session.new (λ last. RepliesUpToBad message (IsReply V.VERSION (C.tells clock.now) verifier.0 last.seen) (records_of record_marking input) session.old last text))) }

    // They are counted.
    ensures counted { IfOk result (λ served. Exchanges (R.remaining reader.old) (R.remaining reader.new) (W.contents writer.old) (W.contents writer.new)
        (λ input text. answered_of message (records_of record_marking input) < 2 ^ 64 → served.answered ≡ answered_of message (records_of record_marking input))) }

    // Each end comes only where it holds.
    ensures ended { IfOk result (λ served. Exchanges (R.remaining reader.old) (R.remaining reader.new) (W.contents writer.old) (W.contents writer.new)
        (λ input text. IsEnd record_marking message served.end input (R.remaining reader.new))) }

    // The fence stands where it says so.
    ensures fenced { IfOk result (λ served. IsTrue served.fenced → is_fenced session.new.number session.new.seen ≡ true) }

    // Where it gave up, what was written is a beginning of the replies to a front of the records of
    // what was read, and the session has seen what these come to, with the marks of what was
    // written, and then at most more.
    ensures given_up { OnErr result (Exchanges (R.remaining reader.old) (R.remaining reader.new) (W.contents writer.old) (W.contents writer.new)
        (λ input text. IsBefore session.new (λ last. IsBeginning message (IsReply V.VERSION (C.tells clock.now) verifier.0 last.seen) (records_of record_marking input) session.old last text))) }
{
    let protocol = NineProcedures { verifier };
    let protocol = FilesOf {
        files,
        protocol: &protocol,
    };
    let answerer = Answerer {
        alloc,
        protocol: &protocol,
        clock,
        gate,
        number,
    };
    serve_protocol(rt, &answerer, session, reader, writer)
}
