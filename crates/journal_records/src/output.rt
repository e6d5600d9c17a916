// Whole records.
ghost use Rattle.std.specs.Prelude.{◌≡◌, ◌++◌, ◌<◌, List, ℕ, IfOk, OnOk, length};
ghost use Rattle.journal_xdr.specs.Basic.{word};
ghost use Rattle.journal_records.specs.Requests.{request as request_item, message_of};
ghost use Rattle.journal_records.specs.Answers.{answer as answer_item, told_of};
ghost use Rattle.journal_records.specs.Frames.{framed, IsShort, FitsRecord, IsRecordOf};
ghost use Rattle.journal_records.specs.Readings.{IsTooLong};

use crate::answer::Answer;
use crate::fault::WriteFault;
use crate::limits::{LENGTH_BYTES, RECORD_BYTES};
use crate::request::Request;
use crate::writing::{is_answer, is_request, write_asked, write_told};
use journal_xdr::Writer;
use std::alloc::Global;

// The room that a record takes at first. Most need no more.
const ROOM: usize = 64;

/// The record of a request, as a stream has it.
///
/// # Errors
/// Nothing was made.
/// - `NoMemory`: memory is refused.
/// - `TooLong`: no record can hold it.
pub fn write_request(alloc: Global, request: &Request) -> Result<Vec<u8>, WriteFault>
    ensures record { IfOk result (λ bytes. IsRecordOf request_item (message_of request.now) bytes.items) }
    ensures too_long { IsTooLong result → ¬ (FitsRecord request_item (message_of request.now)) }
{
    if !is_request(request) {
        return Err(WriteFault::TooLong);
    }
    let mut writer = Writer::with_capacity(alloc, ROOM)?;
    writer.word(0)?;
    write_asked(&mut writer, request)?;
    finish(&mut writer, 0)?;
    Ok(writer.into_bytes())
}

/// Writes the record of an answer, as a stream has it.
///
/// # Errors
/// Some bytes of it may be written.
/// - `NoMemory`: memory is refused.
/// - `TooLong`: no record can hold it.
pub fn write_answer(writer: &mut Writer, answer: &Answer) -> Result<(), WriteFault>
    ensures record { OnOk result ((text : List ℕ) × (writer.new ≡ writer.old ++ text) × IsRecordOf answer_item (told_of answer.now) text) }
    ensures too_long { IsTooLong result → ¬ (FitsRecord answer_item (told_of answer.now)) }
{
    if !is_answer(answer) {
        return Err(WriteFault::TooLong);
    }
    let begun = writer.len();
    writer.word(0)?;
    write_told(writer, answer)?;
    finish(writer, begun)
}

// Writes the length of a record whose bytes were written after the room for it, at this place.
fn finish(writer: &mut Writer, begun: usize) -> Result<(), WriteFault>
    requires { (before record_bytes : List ℕ) × (length before ≡ begun) × (writer.old ≡ before ++ word.spelling 0 ++ record_bytes) }
    ensures record { OnOk result ((before record_bytes : List ℕ) → length before ≡ begun → writer.old ≡ before ++ word.spelling 0 ++ record_bytes
        → IsShort record_bytes × (writer.new ≡ before ++ framed record_bytes)) }
    ensures too_long { IsTooLong result → (before record_bytes : List ℕ) → length before ≡ begun → writer.old ≡ before ++ word.spelling 0 ++ record_bytes
        → ¬ (IsShort record_bytes) }
{
    let length = writer.len() - begun - LENGTH_BYTES;
    if length > RECORD_BYTES {
        return Err(WriteFault::TooLong);
    }
    writer.replace_word(begun, length as u32);
    Ok(())
}
