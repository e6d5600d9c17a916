// Replies, each as one fragment.
ghost use Rattle.std.specs.Prelude.{◌≡◌, ◌<◌, ◌^◌, ◌++◌, [], List, ℕ, length, OnOk};
ghost use Rattle.std.specs.Result.{ForOk};
ghost use Rattle.journal_rpc.specs.Replies.{words, one_fragment, denial, reply, why, accepted, accept_number};

use crate::protocol::{
    ACCEPTED, AUTH_BADCRED, AUTH_ERROR, AUTH_NONE, AcceptStatus, DENIED, HEADER_BYTES,
    LAST_FRAGMENT, REPLY, RPC_MISMATCH, RPC_VERSION,
};
use journal_xdr::Writer;
use std::alloc::AllocError;
use thiserror::Error;

// The bytes of a reply that denies a call for its credential.
const DENIAL_BYTES: usize = 20;

/// Why a call is refused before its procedure is run (RFC 5531, section 9).
#[derive(Clone, Copy, Debug, PartialEq, Eq, Error)]
pub enum CallRefused {
    /// The call is in another version of RPC than 2: denied, RPC_MISMATCH.
    #[error("another version of RPC")]
    RpcMismatch,
    /// The program is not served here: PROG_UNAVAIL.
    #[error("no such program")]
    ProgramUnavailable,
    /// The program is served in this version alone: PROG_MISMATCH.
    #[error("the program has version {version}")]
    ProgramMismatch {
        /// The lowest and the highest version that is served.
        version: u32,
    },
    /// The program has no such procedure: PROC_UNAVAIL.
    #[error("no such procedure")]
    ProcedureUnavailable,
    /// The arguments cannot be read, or bytes follow them: GARBAGE_ARGS.
    #[error("the arguments cannot be read")]
    GarbageArguments,
}

/// The results of a procedure: the items after the header of a reply.
pub trait Results {
    // How they are spelled.
    ghost spelling: { Self → List ℕ };

    /// Writes them.
    fn write(&self, writer: &mut Writer) -> Result<(), AllocError>
        ensures { OnOk result (writer.new ≡ writer.old ++ spelling self.now) };
}

// A procedure that answers nothing.
impl Results for () {
    ghost spelling = { λ nothing. [] };

    fn write(&self, _writer: &mut Writer) -> Result<(), AllocError> {
        Ok(())
    }
}

/// The reply to the call with this number (RFC 5531, section 9): its results, or why it is refused.
/// It is a record of one fragment, with its header, and is written after what is written before.
///
/// # Errors
/// - Memory is refused. Some bytes of the reply may be written.
pub fn write_reply<R: Results>(
    writer: &mut Writer,
    xid: u32,
    outcome: &Result<R, CallRefused>,
) -> Result<(), AllocError>
    requires { ForOk outcome.now (λ results. length (R.spelling results) < 2 ^ 30) }
    ensures { OnOk result (writer.new ≡ writer.old ++ one_fragment (reply R.spelling xid outcome.now)) }
{
    let begun = writer.len();
    // Room for the header, which says how long the rest is.
    writer.word(0)?;
    write_message(writer, xid, outcome)?;
    let length = writer.len() - begun - HEADER_BYTES;
    writer.replace_word(begun, LAST_FRAGMENT + length as u32);
    Ok(())
}

/// The reply that denies the call with this number for its credential, which cannot be read (RFC
/// 5531, section 9: AUTH_ERROR, AUTH_BADCRED). It is a record of one fragment, with its header.
///
/// # Errors
/// - Memory is refused. Nothing was made.
pub fn write_denial(writer: &mut Writer, xid: u32) -> Result<(), AllocError>
    ensures { OnOk result (writer.new ≡ writer.old ++ one_fragment (denial xid)) }
{
    writer.word(LAST_FRAGMENT + DENIAL_BYTES as u32)?;
    write_words(writer, &[xid, REPLY, DENIED, AUTH_ERROR, AUTH_BADCRED])
}

// Writes all after the record's header.
fn write_message<R: Results>(
    writer: &mut Writer,
    xid: u32,
    outcome: &Result<R, CallRefused>,
) -> Result<(), AllocError>
    ensures { OnOk result (writer.new ≡ writer.old ++ reply R.spelling xid outcome.now) }
{
    writer.word(xid)?;
    match outcome {
        Ok(results) => {
            write_accepted(writer, AcceptStatus::Success)?;
            results.write(writer)
        }
        Err(refusal) => write_refusal(writer, *refusal),
    }
}

// Writes the rest of a refusal, after the call's number.
fn write_refusal(writer: &mut Writer, refusal: CallRefused) -> Result<(), AllocError>
    ensures { OnOk result (writer.new ≡ writer.old ++ words (why refusal)) }
{
    match refusal {
        CallRefused::RpcMismatch => write_words(
            writer,
            &[REPLY, DENIED, RPC_MISMATCH, RPC_VERSION, RPC_VERSION],
        ),
        CallRefused::ProgramUnavailable => write_accepted(writer, AcceptStatus::ProgramUnavailable),
        CallRefused::ProgramMismatch { version } => {
            write_accepted(writer, AcceptStatus::ProgramMismatch)?;
            write_words(writer, &[version, version])
        }
        CallRefused::ProcedureUnavailable => {
            write_accepted(writer, AcceptStatus::ProcedureUnavailable)
        }
        CallRefused::GarbageArguments => write_accepted(writer, AcceptStatus::GarbageArguments),
    }
}

// Writes the rest of an accepted call's reply, after the call's number: a verifier of no bytes, and
// the status.
fn write_accepted(writer: &mut Writer, status: AcceptStatus) -> Result<(), AllocError>
    ensures { OnOk result (writer.new ≡ writer.old ++ words (accepted (accept_number status))) }
{
    write_words(writer, &[REPLY, ACCEPTED, AUTH_NONE, 0, status as u32])
}

// Writes integers one after another.
fn write_words(writer: &mut Writer, numbers: &[u32]) -> Result<(), AllocError>
    ensures { OnOk result (writer.new ≡ writer.old ++ words numbers.now) }
{
    for number in numbers {
        writer.word(*number)?;
    }
    Ok(())
}
