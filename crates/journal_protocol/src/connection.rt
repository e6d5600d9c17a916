// A connection, from its first byte to its end.
ghost use Rattle.std.specs.Prelude.{◌≡◌, ◌<◌, [], true, IsTrue, length, IfOk, OnErr};
ghost use Rattle.journal_world.specs.Histories.{is_fenced};
ghost use Rattle.journal_rpc.specs.Stream.{IsBetween};
ghost use Rattle.journal_protocol.specs.Connections.{IsBefore};
ghost use Rattle.journal_protocol.specs.Serving.{Start, starts, Pauses, Closes, ServesTo, Finished, GivenUp, Fails, Progresses, IsFencedAsTold};

use crate::answerer::Answerer;
use crate::clock::Clock;
use crate::pace::{NoPause, Pace};
use crate::pieces::answer_piece;
use crate::protocol::Protocol;
use crate::reply_batch::ReplyBatch;
use crate::replying::Outcome;
use crate::streams::{NoPiece, read_piece};
use journal_gate::Gate;
use journal_rpc::Records;
use std::io::{Read, Write};
use std::sync::Wait;

// The most bytes that are read at once. The calls of a piece that are to be stable are waited for
// once: so a piece holds thirty-one WRITEs of a whole block.
const PIECE_BYTES: usize = 131_072;

/// How a connection ended that was served to its end.
#[derive(Clone, Copy, Debug, PartialEq, Eq)]
pub enum End {
    /// The input ended with a record.
    EndOfInput,
    /// The input ended within a record, which has no reply.
    Truncated,
    /// A record was no call, or was longer than a record may be. It has no reply, and neither has
    /// what came after it.
    BadRecord,
    /// A reply ended the connection. No record after its call has a reply.
    Stopped,
}

/// How many records of a connection were answered, how it ended, and whether its session is fenced.
#[derive(Clone, Copy, Debug, PartialEq, Eq)]
pub struct Served {
    /// The records that were answered. It stops at 2^64 - 1.
    pub answered: u64,
    /// How the connection ended.
    pub end: End,
    /// Whether the session's fence stands: a yes says that the session has seen it, so that no
    /// commit is added under its number from then on. A no says that the fence was refused, which
    /// changes nothing else.
    pub fenced: bool,
}

/// How far a connection was served.
#[derive(Clone, Copy, Debug, PartialEq, Eq)]
pub enum Progress {
    /// It pauses between two records. The replies to all that was read were sent, and it may be
    /// served on.
    Paused,
    /// It was served to its end.
    Ended(Served),
}

/// Why a connection was given up.
#[derive(Clone, Copy, Debug, PartialEq, Eq)]
pub enum ConnFault {
    /// The reader failed.
    ReadFailed,
    /// The writer failed, or took no byte.
    WriteFailed,
    /// Memory was refused for what was read, or for a reply.
    NoMemory,
    /// No record can hold a reply.
    NoRecord,
}

/// Answers the calls that the reader gives, in order, up to the first bad record, each at the
/// clock's moment after the gate, which it passes as the answerer's number with the count of the
/// calls before it. The replies go to the writer. A reader that has nothing yet, which it says by
/// `WouldBlock`, is asked again.
///
/// It reads at most 128 KiB at once, and answers all calls that are complete then, in turns of at
/// most 64 KiB or 1024 replies, before it reads on. Of a turn it does all calls, and waits once
/// until the last of those is stable that are to be: the replies in front of the first of them go
/// out before, and the others after. It may wait for the peer, and for the protocol's journal.
///
/// At every end it fences the session, also where it gives up: so nothing is committed under its
/// number later.
///
/// # Errors
/// Some of the records that it read were answered then, from the first on, and their replies were
/// written up to some byte: a call whose reply could not be written was done.
/// - `ReadFailed`: the reader failed.
/// - `WriteFailed`: the writer failed, or took no byte.
/// - `NoMemory`: memory was refused for what was read, or for a reply.
/// - `NoRecord`: no record can hold a reply.
pub fn serve_protocol<R: Read, W: Write, P: Protocol, C: Clock, G: Gate, H: Wait>(
    rt: &H,
    answerer: &Answerer<'_, P, C, G>,
    session: &mut P::Session,
    reader: &mut R,
    writer: &mut W,
) -> Result<Served, ConnFault>
    // What was written is the replies to the first records of what was read, in order, up to where
    // the connection ends. Each is its call's reply at a moment of the clock, between the history
    // that the session had seen after the reply before it and the one that it saw then. A change
    // that has to be stable is marked in the history that the session had seen after the last
    // reply. It has only seen more since, the fence. The replies are counted, and each end comes
    // only where it holds.
    ensures replies { IfOk result (λ served. IsBefore (P.seen session.new) (λ last. Finished (P.service answerer.now.protocol.now) (C.tells answerer.now.clock.now)
        (starts (R.remaining reader.old) (W.contents writer.old) (P.seen session.old) 0) (R.remaining reader.new) (W.contents writer.new) served.end last served.answered)) }

    // The fence stands where it says so.
    ensures fenced { IfOk result (λ served. IsTrue served.fenced → is_fenced (P.seen session.new).number (P.seen session.new).seen ≡ true) }

    // Where it gave up, what was written is a beginning of the replies to a front of the records of
    // what was read, and the session has seen what these come to, with the marks of what was
    // written, and then at most more.
    ensures given_up { OnErr result (Fails (P.service answerer.now.protocol.now) (C.tells answerer.now.clock.now)
        (starts (R.remaining reader.old) (W.contents writer.old) (P.seen session.old) 0) (R.remaining reader.new) (W.contents writer.new) (P.seen session.new)) }
{
    let Ok(mut buffer) = vec![in answerer.alloc; 0u8; PIECE_BYTES] else {
        let protocol = answerer.protocol;
        protocol.fence(rt, session);
        return Err(ConnFault::NoMemory);
    };
    serve_in_turns(rt, answerer, session, reader, writer, &mut buffer)
}

// Serves a connection to its end, with a buffer that takes a piece: however often it pauses, it is
// one connection.
fn serve_in_turns<R: Read, W: Write, P: Protocol, C: Clock, G: Gate, H: Wait>(
    rt: &H,
    answerer: &Answerer<'_, P, C, G>,
    session: &mut P::Session,
    reader: &mut R,
    writer: &mut W,
    buffer: &mut [u8],
) -> Result<Served, ConnFault>
    requires { 0 < length buffer.old }
    ensures served { IfOk result (λ served. IsBefore (P.seen session.new) (λ last. Finished (P.service answerer.now.protocol.now) (C.tells answerer.now.clock.now)
        (starts (R.remaining reader.old) (W.contents writer.old) (P.seen session.old) 0) (R.remaining reader.new) (W.contents writer.new) served.end last served.answered)) }
    ensures fenced { IfOk result (λ served. IsTrue served.fenced → is_fenced (P.seen session.new).number (P.seen session.new).seen ≡ true) }
    ensures given_up { OnErr result (Fails (P.service answerer.now.protocol.now) (C.tells answerer.now.clock.now)
        (starts (R.remaining reader.old) (W.contents writer.old) (P.seen session.old) 0) (R.remaining reader.new) (W.contents writer.new) (P.seen session.new)) }
{
    let mut answered = 0;
    for _ in rt.forever() {
        let progress = serve_to_pause(
            rt,
            answerer,
            session,
            &NoPause,
            reader,
            writer,
            buffer,
            &mut answered,
        )?;
        match progress {
            Progress::Paused => {}
            Progress::Ended(served) => return Ok(served),
        }
    }
    unreachable!()
}

/// Answers the calls that the reader gives as `serve_protocol` does, until the connection ends, or
/// until it is to pause: asked before each reading, where no record is begun. Then the session is
/// not fenced, and what comes later is answered by a further call.
///
/// It reads into the buffer, which has room. `answered` is how many records were answered before,
/// and then with those of this turn. It stops at 2^64 - 1.
///
/// # Errors
/// - `ReadFailed`, `WriteFailed`: the reader or the writer failed.
/// - `NoMemory`: memory is refused for what was read, or for a reply.
/// - `NoRecord`: no record can hold a reply.
///
/// The session is fenced then, as at an end.
pub fn serve_to_pause<R: Read, W: Write, P: Protocol, C: Clock, G: Gate, A: Pace, H: Wait>(
    rt: &H,
    answerer: &Answerer<'_, P, C, G>,
    session: &mut P::Session,
    pace: &A,
    reader: &mut R,
    writer: &mut W,
    buffer: &mut [u8],
    answered: &mut u64,
) -> Result<Progress, ConnFault>
    requires room { 0 < length buffer.old }
    // Where a connection paused as this begins, so that what was read is records, each a call that
    // was answered, it pauses so again, or it ends as `serve_protocol` has it. Each connection does
    // at its start.
    ensures served { IfOk result (λ progress. (start : Start) → Pauses (P.service answerer.now.protocol.now) (C.tells answerer.now.clock.now) start (R.remaining reader.old) (W.contents writer.old) (P.seen session.old) answered.old
        → Progresses (P.service answerer.now.protocol.now) (C.tells answerer.now.clock.now) progress start (R.remaining reader.new) (W.contents writer.new) (P.seen session.new) answered.new) }

    // There is a fence where it says so.
    ensures fenced { IfOk result (λ progress. IsFencedAsTold progress (P.seen session.new)) }

    // Where it gave up, this is as `serve_protocol` has it.
    ensures given_up { OnErr result ((start : Start) → Pauses (P.service answerer.now.protocol.now) (C.tells answerer.now.clock.now) start (R.remaining reader.old) (W.contents writer.old) (P.seen session.old) answered.old
        → Fails (P.service answerer.now.protocol.now) (C.tells answerer.now.clock.now) start (R.remaining reader.new) (W.contents writer.new) (P.seen session.new)) }
    ensures buffer { length buffer.new ≡ length buffer.old }
{
    let protocol = answerer.protocol;
    match answer_to_pause(
        rt, answerer, session, pace, reader, writer, buffer, answered,
    ) {
        Ok(None) => Ok(Progress::Paused),
        Ok(Some(end)) => {
            let fenced = protocol.fence(rt, session);
            Ok(Progress::Ended(Served {
                answered: *answered,
                end,
                fenced,
            }))
        }
        Err(fault) => {
            protocol.fence(rt, session);
            Err(fault)
        }
    }
}

// Answers the calls until the connection ends, or is to pause, which `None` says.
fn answer_to_pause<R: Read, W: Write, P: Protocol, C: Clock, G: Gate, A: Pace, H: Wait>(
    rt: &H,
    answerer: &Answerer<'_, P, C, G>,
    session: &mut P::Session,
    pace: &A,
    reader: &mut R,
    writer: &mut W,
    buffer: &mut [u8],
    answered: &mut u64,
) -> Result<Option<End>, ConnFault>
    requires { 0 < length buffer.old }
    ensures served { IfOk result (λ end. (start : Start) → Pauses (P.service answerer.now.protocol.now) (C.tells answerer.now.clock.now) start (R.remaining reader.old) (W.contents writer.old) (P.seen session.old) answered.old
        → ServesTo (P.service answerer.now.protocol.now) (C.tells answerer.now.clock.now) end start (R.remaining reader.new) (W.contents writer.new) (P.seen session.new) answered.new) }
    ensures given_up { OnErr result ((start : Start) → Pauses (P.service answerer.now.protocol.now) (C.tells answerer.now.clock.now) start (R.remaining reader.old) (W.contents writer.old) (P.seen session.old) answered.old
        → GivenUp (P.service answerer.now.protocol.now) (C.tells answerer.now.clock.now) start (R.remaining reader.new) (W.contents writer.new) (P.seen session.new)) }
    ensures buffer { length buffer.new ≡ length buffer.old }
{
    let marking = answerer.protocol.marking();
    let mut records = Records::new(answerer.alloc, marking);
    let mut batch = ReplyBatch::new(answerer.alloc);
    for _ in rt.forever() {
        if is_to_pause(&records, pace) {
            return Ok(None);
        }
        pace.note_begun(records.begun_bytes());
        let count = match read_piece(reader, buffer) {
            Ok(count) => count,
            Err(NoPiece::NotYet) => continue,
            Err(NoPiece::Failed) => return Err(ConnFault::ReadFailed),
        };
        if count == 0 {
            return Ok(Some(end_of(&records)));
        }
        let outcome = answer_piece(
            rt,
            answerer,
            session,
            &mut records,
            &mut batch,
            answered,
            &buffer[..count],
            writer,
        )?;
        match outcome {
            Outcome::GoesOn => {}
            Outcome::Bad => return Ok(Some(End::BadRecord)),
            Outcome::Ended => return Ok(Some(End::Stopped)),
        }
    }
    unreachable!()
}

// True if the connection is to pause here, where no record is begun.
fn is_to_pause<A: Pace>(records: &Records, pace: &A) -> bool
    ensures between { IsTrue result → IsBetween records.now }
{
    records.is_between() && pace.is_to_pause()
}

// Which end it is where nothing is left to read.
fn end_of(records: &Records) -> End
    ensures end { Closes result records.now }
{
    if records.is_between() {
        End::EndOfInput
    } else {
        End::Truncated
    }
}
