// The request of a call.
ghost use Rattle.std.specs.Prelude.{◌≡◌};
ghost use Rattle.journal_nfs3_wire.specs.Queries.{query_arguments};
ghost use Rattle.journal_nfs3_wire.specs.Whole.{whole};
ghost use Rattle.journal_treewire.specs.Directories.{directory_arguments, directory_procedure_of};
ghost use Rattle.journal_treewire.specs.Requests.{requested, asks_directory, decided, found_query, found_directory};

use crate::arguments::{DirectoryOperation, Requested};
use crate::procedure::DirectoryProcedure;
use crate::reading::read_directory_operation;
use journal_nfs3_wire::{Query, QueryProcedure, decide_procedure, read_query};
use journal_rpc::CallRefused;
use journal_xdr::{Enumeration, Reader};

/// The request of these arguments to the procedure with this number.
///
/// # Errors
/// The first that holds is answered. Nothing was done.
/// - The program has no such procedure.
/// - The arguments cannot be read.
pub fn read_request(number: u32, arguments: &[u8]) -> Result<Requested<'_>, CallRefused>
    ensures { decided result ≡ requested number arguments.now }
{
    let Some(procedure) = QueryProcedure::from_number(number) else {
        return read_directory_request(number, arguments);
    };
    match read_whole_query(procedure, arguments) {
        Some(query) => Ok(Requested::Query(query)),
        None => Err(CallRefused::GarbageArguments),
    }
}

// The same of a procedure that is no query.
fn read_directory_request(number: u32, arguments: &[u8]) -> Result<Requested<'_>, CallRefused>
    ensures { decided result ≡ asks_directory (directory_procedure_of number) number arguments.now }
{
    let Some(procedure) = DirectoryProcedure::from_number(number) else {
        return Ok(Requested::File(decide_procedure(number, arguments)?));
    };
    match read_whole_directory_operation(procedure, arguments) {
        Some(operation) => Ok(Requested::Directory(operation)),
        None => Err(CallRefused::GarbageArguments),
    }
}

// Reads arguments, if nothing follows them.
fn read_whole_query(procedure: QueryProcedure, bytes: &[u8]) -> Option<Query<'_>>
    ensures { found_query result ≡ whole (query_arguments procedure) bytes.now }
{
    let mut reader = Reader::new(bytes);
    let query = read_query(procedure, &mut reader)?;
    if reader.is_at_end() {
        Some(query)
    } else {
        None
    }
}

// The same of the procedures of directories and links.
fn read_whole_directory_operation(
    procedure: DirectoryProcedure,
    bytes: &[u8],
) -> Option<DirectoryOperation<'_>>
    ensures { found_directory result ≡ whole (directory_arguments procedure) bytes.now }
{
    let mut reader = Reader::new(bytes);
    let operation = read_directory_operation(procedure, &mut reader)?;
    if reader.is_at_end() {
        Some(operation)
    } else {
        None
    }
}
