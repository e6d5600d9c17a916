// Writing the content of records.
ghost use Rattle.std.specs.Prelude.{◌≡◌, IsTrue, OnOk};
ghost use Rattle.journal_xdr.specs.Items.{AddsItem};
ghost use Rattle.journal_records.specs.Requests.{request as request_item, message_of};
ghost use Rattle.journal_records.specs.Answers.{answer as answer_item, done, greeting, opening as opening_item, told_of, told_opening, IsDone, IsGreeting};
ghost use Rattle.journal_records.specs.Limits.{IsAskable, IsTellable};

use crate::answer::{Answer, DONE, UNSURE};
use crate::array::{is_array, write_array};
use crate::greeting::{Opening, Version};
use crate::limits::{ADDRESSES, BITS, COUNTERS, PARTS};
use crate::operation::Operation;
use crate::request::Request;
use journal_world::REGIONS;
use journal_xdr::{Enumeration, Writer};
use std::alloc::AllocError;

// True if the request is within the limits of its lists and values.
pub(crate) fn is_request(request: &Request) -> bool
    ensures within { IsTrue result → IsAskable (message_of request.now) }
    ensures exact { request_item.Has (message_of request.now) → IsTrue result }
{
    match request {
        Request::Commit { parts, .. } => is_array(parts, PARTS),
        Request::Read(addresses) => is_array(addresses, ADDRESSES),
        Request::Hello(_)
        | Request::Flush
        | Request::Stat
        | Request::Stop
        | Request::Counters
        | Request::Scan { .. } => true,
    }
}

// Writes a request.
#[tactic(auto, unfolding(crate::specs::Requests::request))]
pub(crate) fn write_asked(writer: &mut Writer, request: &Request) -> Result<(), AllocError>
    requires { IsAskable (message_of request.now) }
    ensures { OnOk result (AddsItem request_item (message_of request.now) writer.old writer.new) }
{
    match request {
        Request::Hello(version) => {
            writer.enumeration(Operation::Hello)?;
            writer.word(*version)
        }
        Request::Commit { parts, waits } => {
            writer.enumeration(Operation::Commit)?;
            writer.boolean(*waits)?;
            write_array(writer, parts)
        }
        Request::Read(addresses) => {
            writer.enumeration(Operation::Read)?;
            write_array(writer, addresses)
        }
        Request::Flush => writer.enumeration(Operation::Flush),
        Request::Stat => writer.enumeration(Operation::Stat),
        Request::Stop => writer.enumeration(Operation::Stop),
        Request::Counters => writer.enumeration(Operation::Counters),
        Request::Scan {
            block,
            first,
            value,
            most,
        } => {
            writer.enumeration(Operation::Scan)?;
            writer.hyper(*block)?;
            writer.word(*first)?;
            writer.boolean(*value)?;
            writer.word(*most)
        }
    }
}

// True if the answer is within the limits of its lists and values.
pub(crate) fn is_answer(answer: &Answer) -> bool
    ensures within { IsTrue result → IsTellable (told_of answer.now) }
    ensures exact { answer_item.Has (told_of answer.now) → IsTrue result }
{
    match answer {
        Answer::Values(values) => is_array(values, ADDRESSES),
        Answer::Opening(opening) => is_array(&opening.regions, REGIONS),
        Answer::Counters(counters) => is_array(counters, COUNTERS),
        Answer::Bits(bits) => is_array(bits, BITS),
        _ => true,
    }
}

// Writes an answer.
#[tactic(auto, unfolding(crate::specs::Answers::answer))]
pub(crate) fn write_told(writer: &mut Writer, answer: &Answer) -> Result<(), AllocError>
    requires { IsTellable (told_of answer.now) }
    ensures { OnOk result (AddsItem answer_item (told_of answer.now) writer.old writer.new) }
{
    match answer {
        Answer::Refused(why) => writer.enumeration(*why),
        Answer::Unsure { place, commits } => {
            writer.word(UNSURE)?;
            writer.hyper(*place)?;
            writer.hyper(*commits)
        }
        Answer::Hello { .. }
        | Answer::Opening(_)
        | Answer::Committed { .. }
        | Answer::Values(_)
        | Answer::Flushed(_)
        | Answer::Stat { .. }
        | Answer::Stopping
        | Answer::Counters(_)
        | Answer::Bits(_) => {
            writer.word(DONE)?;
            write_done(writer, answer)
        }
    }
}

// Writes the rest after the status that it was done.
#[tactic(auto, unfolding(crate::specs::Answers::done))]
fn write_done(writer: &mut Writer, answer: &Answer) -> Result<(), AllocError>
    requires within { IsTellable (told_of answer.now) }
    requires done { IsDone (told_of answer.now) }
    ensures { OnOk result (AddsItem done (told_of answer.now) writer.old writer.new) }
{
    match answer {
        Answer::Hello { .. } | Answer::Opening(_) => {
            writer.enumeration(Operation::Hello)?;
            write_greeting(writer, answer)
        }
        Answer::Committed { place, commits } => {
            writer.enumeration(Operation::Commit)?;
            writer.hyper(*place)?;
            writer.hyper(*commits)
        }
        Answer::Values(values) => {
            writer.enumeration(Operation::Read)?;
            write_array(writer, values)
        }
        Answer::Flushed(stable) => {
            writer.enumeration(Operation::Flush)?;
            writer.hyper(*stable)
        }
        Answer::Stat { commits, stable } => {
            writer.enumeration(Operation::Stat)?;
            writer.hyper(*commits)?;
            writer.hyper(*stable)
        }
        Answer::Counters(counters) => {
            writer.enumeration(Operation::Counters)?;
            write_array(writer, counters)
        }
        Answer::Bits(bits) => {
            writer.enumeration(Operation::Scan)?;
            write_array(writer, bits)
        }
        _ => writer.enumeration(Operation::Stop),
    }
}

// Writes the answer to a hello after the number of its operation.
#[tactic(auto, unfolding(crate::specs::Answers::greeting))]
fn write_greeting(writer: &mut Writer, answer: &Answer) -> Result<(), AllocError>
    requires within { IsTellable (told_of answer.now) }
    requires greets { IsGreeting (told_of answer.now) }
    ensures { OnOk result (AddsItem greeting (told_of answer.now) writer.old writer.new) }
{
    match answer {
        Answer::Hello { blocks } => {
            writer.enumeration(Version::One)?;
            writer.hyper(*blocks)
        }
        Answer::Opening(opening) => {
            writer.enumeration(Version::Two)?;
            write_opening(writer, opening)
        }
        _ => Ok(()),
    }
}

// Writes an opening.
#[tactic(auto, unfolding(crate::specs::Answers::opening))]
fn write_opening(writer: &mut Writer, opening: &Opening) -> Result<(), AllocError>
    requires { IsTellable (told_opening opening.now) }
    ensures { OnOk result (AddsItem opening_item (told_opening opening.now) writer.old writer.new) }
{
    writer.hyper(opening.blocks)?;
    writer.hyper(opening.number)?;
    writer.word(opening.slots)?;
    writer.word(opening.most_blocks)?;
    write_array(writer, &opening.regions)
}
