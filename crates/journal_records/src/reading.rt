// Reading records.
ghost use Rattle.std.specs.Prelude.{◌≡◌};
ghost use Rattle.journal_records.specs.Requests.{request, request_arm, message_of};
ghost use Rattle.journal_records.specs.Answers.{answer, done, greeting, opening, told_of};
ghost use Rattle.journal_records.specs.Readings.{Reads, ReadsRequest, ReadsAnswer};

use crate::answer::{Answer, DONE, UNSURE};
use crate::array::read_array;
use crate::fault::ReadFault;
use crate::greeting::{Opening, Version};
use crate::limits::{ADDRESSES, BITS, COUNTERS, PARTS};
use crate::operation::Operation;
use crate::refused::Refused;
use crate::request::Request;
use journal_world::REGIONS;
use journal_xdr::{Enumeration, Reader};
use std::alloc::Global;

/// The request of a record's bytes, its length not among them.
///
/// # Errors
/// The bytes stay.
/// - `NoMemory`: memory is refused.
/// - `UnknownOperation`: the first word is the number of no operation.
/// - `Malformed`: the bytes spell no request of their operation.
pub fn read_request(alloc: Global, bytes: &[u8]) -> Result<Request, ReadFault>
    ensures { ReadsRequest bytes.now result }
{
    let mut reader = Reader::new(bytes);
    let Some(number) = reader.word() else {
        return Err(ReadFault::Malformed);
    };
    let Some(operation) = Operation::from_number(number) else {
        return Err(ReadFault::UnknownOperation);
    };
    let request = read_asked(alloc, &mut reader, operation)?;
    if !reader.is_at_end() {
        return Err(ReadFault::Malformed);
    }
    Ok(request)
}

// Reads the rest after an operation's number.
fn read_asked(
    alloc: Global,
    reader: &mut Reader<'_>,
    operation: Operation,
) -> Result<Request, ReadFault>
    ensures { Reads (request_arm operation) message_of reader.old reader.new result }
{
    Ok(match operation {
        Operation::Hello => Request::Hello(reader.word().ok_or(ReadFault::Malformed)?),
        Operation::Commit => {
            let waits = reader.boolean().ok_or(ReadFault::Malformed)?;
            let parts = read_array(alloc, reader, PARTS)?;
            Request::Commit { parts, waits }
        }
        Operation::Read => Request::Read(read_array(alloc, reader, ADDRESSES)?),
        Operation::Flush => Request::Flush,
        Operation::Stat => Request::Stat,
        Operation::Stop => Request::Stop,
        Operation::Counters => Request::Counters,
        Operation::Scan => Request::Scan {
            block: reader.hyper().ok_or(ReadFault::Malformed)?,
            first: reader.word().ok_or(ReadFault::Malformed)?,
            value: reader.boolean().ok_or(ReadFault::Malformed)?,
            most: reader.word().ok_or(ReadFault::Malformed)?,
        },
    })
}

/// The answer of a record's bytes, its length not among them.
///
/// # Errors
/// The bytes stay.
/// - `NoMemory`: memory is refused.
/// - `Malformed`: the bytes spell no answer.
pub fn read_answer(alloc: Global, bytes: &[u8]) -> Result<Answer, ReadFault>
    ensures { ReadsAnswer bytes.now result }
{
    let mut reader = Reader::new(bytes);
    let answer = read_told(alloc, &mut reader)?;
    if reader.is_at_end() {
        Ok(answer)
    } else {
        Err(ReadFault::Malformed)
    }
}

// Reads an answer.
#[tactic(auto, unfolding(crate::specs::Answers::answer))]
fn read_told(alloc: Global, reader: &mut Reader<'_>) -> Result<Answer, ReadFault>
    ensures { Reads answer told_of reader.old reader.new result }
{
    match reader.word().ok_or(ReadFault::Malformed)? {
        DONE => read_done(alloc, reader),
        UNSURE => Ok(Answer::Unsure {
            place: reader.hyper().ok_or(ReadFault::Malformed)?,
            commits: reader.hyper().ok_or(ReadFault::Malformed)?,
        }),
        number => match Refused::from_number(number) {
            Some(why) => Ok(Answer::Refused(why)),
            None => Err(ReadFault::Malformed),
        },
    }
}

// Reads the rest after the status that it was done.
#[tactic(auto, unfolding(crate::specs::Answers::done))]
fn read_done(alloc: Global, reader: &mut Reader<'_>) -> Result<Answer, ReadFault>
    ensures { Reads done told_of reader.old reader.new result }
{
    Ok(match reader.enumeration().ok_or(ReadFault::Malformed)? {
        Operation::Hello => read_greeting(alloc, reader)?,
        Operation::Commit => Answer::Committed {
            place: reader.hyper().ok_or(ReadFault::Malformed)?,
            commits: reader.hyper().ok_or(ReadFault::Malformed)?,
        },
        Operation::Read => Answer::Values(read_array(alloc, reader, ADDRESSES)?),
        Operation::Flush => Answer::Flushed(reader.hyper().ok_or(ReadFault::Malformed)?),
        Operation::Stat => Answer::Stat {
            commits: reader.hyper().ok_or(ReadFault::Malformed)?,
            stable: reader.hyper().ok_or(ReadFault::Malformed)?,
        },
        Operation::Stop => Answer::Stopping,
        Operation::Counters => Answer::Counters(read_array(alloc, reader, COUNTERS)?),
        Operation::Scan => Answer::Bits(read_array(alloc, reader, BITS)?),
    })
}

// Reads the answer to a hello.
#[tactic(auto, unfolding(crate::specs::Answers::greeting))]
fn read_greeting(alloc: Global, reader: &mut Reader<'_>) -> Result<Answer, ReadFault>
    ensures { Reads greeting told_of reader.old reader.new result }
{
    Ok(match reader.enumeration().ok_or(ReadFault::Malformed)? {
        Version::One => Answer::Hello {
            blocks: reader.hyper().ok_or(ReadFault::Malformed)?,
        },
        Version::Two => read_opening(alloc, reader)?,
    })
}

// Reads an opening.
#[tactic(auto, unfolding(crate::specs::Answers::opening))]
fn read_opening(alloc: Global, reader: &mut Reader<'_>) -> Result<Answer, ReadFault>
    ensures { Reads opening told_of reader.old reader.new result }
{
    Ok(Answer::Opening(Opening {
        blocks: reader.hyper().ok_or(ReadFault::Malformed)?,
        number: reader.hyper().ok_or(ReadFault::Malformed)?,
        slots: reader.word().ok_or(ReadFault::Malformed)?,
        most_blocks: reader.word().ok_or(ReadFault::Malformed)?,
        regions: read_array(alloc, reader, REGIONS)?,
    }))
}
