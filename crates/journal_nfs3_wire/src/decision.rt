// The operation of a call.
ghost use Rattle.std.specs.Prelude.{◌≡◌};
ghost use Rattle.journal_rpc.specs.CallViews.{asked_of};
ghost use Rattle.journal_nfs3_wire.specs.Procedures.{procedure_of};
ghost use Rattle.journal_nfs3_wire.specs.Arguments.{arguments};
ghost use Rattle.journal_nfs3_wire.specs.Whole.{whole};
ghost use Rattle.journal_nfs3_wire.specs.Calls.{called, asks, decided, found};

use crate::arguments::Operation;
use crate::procedure::Procedure;
use crate::reading::read_arguments;
use journal_rpc::{Call, CallRefused};
use journal_xdr::{Enumeration, Reader};

/// The number of the program NFS (RFC 1813, section 2.1).
pub const PROGRAM: u32 = 100_003;

/// The version of it that is served.
pub const VERSION: u32 = 3;

/// The operation that a call asks for.
///
/// # Errors
/// The first that holds is answered. Nothing was done.
/// - The call is in another version of RPC.
/// - It asks for another program, or for another version of this one.
/// - The procedure is not served.
/// - The arguments cannot be read.
pub fn decide<'a>(call: &Call<'a>) -> Result<Operation<'a>, CallRefused>
    ensures { decided result ≡ asks (asked_of call.now.asked) }
{
    let request = call.request(PROGRAM, VERSION)?;
    decide_procedure(request.procedure, request.arguments)
}

/// The operation of a procedure's number and its arguments.
///
/// # Errors
/// The first that holds is answered. Nothing was done.
/// - The procedure is not served.
/// - The arguments cannot be read.
#[tactic(auto, unfolding(crate::specs::Calls::called))]
pub fn decide_procedure(number: u32, arguments: &[u8]) -> Result<Operation<'_>, CallRefused>
    ensures { decided result ≡ called (procedure_of number) arguments.now }
{
    let Some(procedure) = Procedure::from_number(number) else {
        return Err(CallRefused::ProcedureUnavailable);
    };
    match read_whole(procedure, arguments) {
        Some(operation) => Ok(operation),
        None => Err(CallRefused::GarbageArguments),
    }
}

// Reads arguments, if nothing follows them.
fn read_whole(procedure: Procedure, bytes: &[u8]) -> Option<Operation<'_>>
    ensures { found result ≡ whole (arguments procedure) bytes.now }
{
    let mut reader = Reader::new(bytes);
    let operation = read_arguments(procedure, &mut reader)?;
    if reader.is_at_end() {
        Some(operation)
    } else {
        None
    }
}
