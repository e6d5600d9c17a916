// Reading the calls of MOUNT.
ghost use Rattle.std.specs.Prelude.{◌≡◌};
ghost use Rattle.journal_xdr.specs.Items.{ReadsItem};
ghost use Rattle.journal_nfs3_wire.specs.Whole.{whole};
ghost use Rattle.journal_mount_wire.specs.Arguments.{mount_arguments, mount_call_of};
ghost use Rattle.journal_mount_wire.specs.Requests.{mount_requested, decided, found};

use crate::arguments::MountCall;
use crate::procedure::MountProcedure;
use journal_rpc::CallRefused;
use journal_xdr::{Enumeration, Reader};

/// The number of the program MOUNT (RFC 1813, appendix I).
pub const MOUNT_PROGRAM: u32 = 100_005;

/// The version of it that is served.
pub const MOUNT_VERSION: u32 = 3;

// The most bytes of a path (RFC 1813, appendix I, MNTPATHLEN).
const PATH_BYTES: u32 = 1024;

/// The call of a procedure's number and its arguments.
///
/// # Errors
/// The first that holds is answered. Nothing was done.
/// - The program has no such procedure.
/// - The arguments cannot be read, or bytes follow them.
pub fn read_mount_call(number: u32, arguments: &[u8]) -> Result<MountCall<'_>, CallRefused>
    ensures { decided result ≡ mount_requested number arguments.now }
{
    let Some(procedure) = MountProcedure::from_number(number) else {
        return Err(CallRefused::ProcedureUnavailable);
    };
    match read_whole(procedure, arguments) {
        Some(call) => Ok(call),
        None => Err(CallRefused::GarbageArguments),
    }
}

// Reads arguments, if nothing follows them.
fn read_whole(procedure: MountProcedure, bytes: &[u8]) -> Option<MountCall<'_>>
    ensures { found result ≡ whole (mount_arguments procedure) bytes.now }
{
    let mut reader = Reader::new(bytes);
    let call = read_arguments(procedure, &mut reader)?;
    if reader.is_at_end() { Some(call) } else { None }
}

// Reads the arguments of a procedure.
#[tactic(auto, unfolding(crate::specs::Arguments::mount_arguments))]
fn read_arguments<'a>(procedure: MountProcedure, reader: &mut Reader<'a>) -> Option<MountCall<'a>>
    ensures { ReadsItem (mount_arguments procedure) mount_call_of reader.old reader.new result }
{
    Some(match procedure {
        MountProcedure::Null => MountCall::Null,
        MountProcedure::Mount => MountCall::Mount(reader.string(PATH_BYTES)?),
        MountProcedure::Dump => MountCall::Dump,
        MountProcedure::Unmount => MountCall::Unmount(reader.string(PATH_BYTES)?),
        MountProcedure::UnmountAll => MountCall::UnmountAll,
        MountProcedure::Export => MountCall::Export,
    })
}
