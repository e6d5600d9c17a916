// Which program a call asks, and what of it.
ghost use Rattle.std.specs.Prelude.{◌≡◌};
ghost use Rattle.journal_rpc.specs.CallViews.{asked_of};
ghost use Rattle.journal_nfs3_wire.specs.Queries.{query_procedure_of, query_arguments};
ghost use Rattle.journal_nfs3_wire.specs.Whole.{whole};
ghost use Rattle.journal_mount3.specs.Calls.{asks, asks_files, asks_mount, decided, found_query};

use crate::arguments::Requested;
use journal_mount_wire::{MOUNT_PROGRAM, MOUNT_VERSION, read_mount_call};
use journal_nfs3_wire::{PROGRAM, Query, QueryProcedure, VERSION, decide_procedure, read_query};
use journal_rpc::{Call, CallRefused};
use journal_xdr::{Enumeration, Reader};

// The question of a call, or why it is refused. The first of these that holds is answered: it is in
// another version of RPC, it asks a program that is not served, another version of one that is, or
// a procedure that is not served, or its arguments cannot be read.
pub(crate) fn decide<'a>(call: &Call<'a>) -> Result<Requested<'a>, CallRefused>
    ensures { decided result ≡ asks (asked_of call.now.asked) }
{
    match call.request(PROGRAM, VERSION) {
        Ok(request) => decide_files(request.procedure, request.arguments),
        Err(why) => match why {
            CallRefused::ProgramUnavailable => {
                let request = call.request(MOUNT_PROGRAM, MOUNT_VERSION)?;
                decide_mount(request.procedure, request.arguments)
            }
            other => Err(other),
        },
    }
}

// The question to NFS.
fn decide_files(number: u32, arguments: &[u8]) -> Result<Requested<'_>, CallRefused>
    ensures { decided result ≡ asks_files number arguments.now }
{
    let Some(procedure) = QueryProcedure::from_number(number) else {
        return Ok(Requested::Nine(decide_procedure(number, arguments)?));
    };
    match read_whole_query(procedure, arguments) {
        Some(query) => Ok(Requested::Query(query)),
        None => Err(CallRefused::GarbageArguments),
    }
}

// The question to MOUNT.
fn decide_mount(number: u32, arguments: &[u8]) -> Result<Requested<'_>, CallRefused>
    ensures { decided result ≡ asks_mount number arguments.now }
{
    Ok(Requested::Mount(read_mount_call(number, arguments)?))
}

// Reads arguments, behind which nothing is to stand.
fn read_whole_query(procedure: QueryProcedure, bytes: &[u8]) -> Option<Query<'_>>
    ensures { found_query result ≡ whole (query_arguments procedure) bytes.now }
{
    let mut reader = Reader::new(bytes);
    let query = read_query(procedure, &mut reader)?;
    if reader.is_at_end() {
        Some(query)
    } else {
        None
    }
}
