// A connection of the port, from its first byte to its end.
ghost use Rattle.std.specs.Prelude.{◌≡◌, ◌<◌, length, IfOk, OnOk, OnErr};
ghost use Rattle.std.specs.Io.KnownBytes.{Appends};
ghost use Rattle.journal_protocol.specs.declared.connection.End.TheVariants.{BadRecord};
ghost use Rattle.journal_protocol.specs.Sending.{AppendsFront};
ghost use Rattle.journal_protocol.specs.Serving.{Start, Pauses, IsFencedAsTold};
ghost use Rattle.journal_port.specs.Answers.{offer};
ghost use Rattle.journal_port.specs.Served.{always, service, long_text, text_at, Serves, Breaks};

use crate::counting::Counting;
use crate::respond::Port;
use journal_disk::BlockDisk;
use journal_gate::OpenGate;
use journal_history::{Naming, Session};
use journal_protocol::{Answerer, Clock, ConnFault, End, Pace, Progress, write_whole};
use journal_records::{Answer, Refused, WriteFault, write_answer};
use journal_world::{AnyMap, Moment};
use journal_xdr::Writer;
use std::alloc::Global;
use std::io::{Read, Write};
use std::sync::Wait;

// A clock that is always at one moment, since no answer has it.
#[derive(Clone, Copy)]
struct NoClock;

impl Clock for NoClock {
    ghost some_moment = { λ c. (record { secs = 0; nanos = 0 }, tt) };

    fn now(&self) -> Moment {
        Moment { secs: 0, nanos: 0 }
    }
}

/// Answers the requests that the reader gives, in order, under the session, as
/// `journal_protocol::serve_to_pause` does, until no more come, a client asks to end the service,
/// or a record is too long, or until the connection is to pause. A record that is too long is
/// answered so, and nothing after its length is read.
///
/// Each request is done after those before it. A record that is no request is refused and changes
/// nothing.
///
/// # Errors
/// - `ReadFailed`, `WriteFailed`: the reader or the writer failed.
/// - `NoMemory`: memory is refused for what was read, or for an answer.
/// - `NoRecord`: no record can hold an answer. That no request has such an answer is tested and not
///   proved: one that reads names at most 256 objects of at most 4096 bytes, which is half of what
///   a record holds.
///
/// The session is fenced then, as at an end. A request whose answer could not be written was done
/// as its answer says.
pub fn serve_to_pause<
    'b,
    R: Read,
    W: Write,
    D: BlockDisk,
    J: Naming,
    C: Counting,
    P: Pace,
    H: Wait,
>(
    rt: &H,
    port: &Port<'_, 'b, D, J, C>,
    session: &mut Session<'b, J, AnyMap>,
    pace: &P,
    reader: &mut R,
    writer: &mut W,
    buffer: &mut [u8],
    answered: &mut u64,
) -> Result<Progress, ConnFault>
    requires room { 0 < length buffer.old }
    // Where a connection paused as this begins, so that what was read is whole records and what was
    // written is the answers to them, it pauses so again, or it ends: no more came, with less than
    // a record; the last answer says that the service ends; or the next record is too long, which
    // is answered last. Each connection does at its start.
    ensures served { IfOk result (λ progress. (start : Start)
        → Pauses (service J.layout (offer port.now.terms (C.tells port.now.counting.now))) always start (R.remaining reader.old) (W.contents writer.old) session.old answered.old
        → Serves (service J.layout (offer port.now.terms (C.tells port.now.counting.now))) progress start (R.remaining reader.new) (W.contents writer.new) session.new answered.new) }

    // There is a fence where it says so.
    ensures fenced { IfOk result (λ progress. IsFencedAsTold progress session.new) }

    // Where it gave up, what was written is a beginning of the answers to a front of the records,
    // and of the one to a record that is too long.
    ensures given_up { OnErr result ((start : Start)
        → Pauses (service J.layout (offer port.now.terms (C.tells port.now.counting.now))) always start (R.remaining reader.old) (W.contents writer.old) session.old answered.old
        → Breaks (service J.layout (offer port.now.terms (C.tells port.now.counting.now))) start (R.remaining reader.new) (W.contents writer.new) session.new) }
    ensures buffer { length buffer.new ≡ length buffer.old }
{
    let answerer = Answerer {
        alloc: port.alloc,
        protocol: port,
        clock: &NoClock,
        gate: &OpenGate,
        number: 0,
    };
    let progress = journal_protocol::serve_to_pause(
        rt, &answerer, session, pace, reader, writer, buffer, answered,
    )?;
    match progress {
        Progress::Paused => Ok(Progress::Paused),
        Progress::Ended(served) => {
            write_end(port.alloc, served.end, writer)?;
            Ok(Progress::Ended(served))
        }
    }
}

// Writes what comes after the answers. Each record is answered, so a bad one is too long.
fn write_end<W: Write>(alloc: Global, end: End, writer: &mut W) -> Result<(), ConnFault>
    ensures whole { OnOk result (Appends (W.contents writer.old) (W.contents writer.new) (text_at end)) }
    ensures in_part { OnErr result ((end ≡ BadRecord) × AppendsFront (W.contents writer.old) (W.contents writer.new) long_text) }
{
    match end {
        End::BadRecord => refuse_long(alloc, writer),
        End::EndOfInput | End::Truncated | End::Stopped => Ok(()),
    }
}

// Answers that a record is too long.
fn refuse_long<W: Write>(alloc: Global, writer: &mut W) -> Result<(), ConnFault>
    ensures whole { OnOk result (Appends (W.contents writer.old) (W.contents writer.new) long_text) }
    ensures in_part { OnErr result (AppendsFront (W.contents writer.old) (W.contents writer.new) long_text) }
{
    let mut text = Writer::new(alloc);
    match write_answer(&mut text, &Answer::Refused(Refused::TooLong)) {
        Ok(()) => {}
        Err(WriteFault::NoMemory) => return Err(ConnFault::NoMemory),
        Err(WriteFault::TooLong) => return Err(ConnFault::NoRecord),
    }
    match write_whole(writer, text.as_bytes()) {
        Ok(()) => Ok(()),
        Err(_) => Err(ConnFault::WriteFailed),
    }
}
