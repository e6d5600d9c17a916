// The request of a call, and its caller.
ghost use Rattle.std.specs.Prelude.{◌≡◌};
ghost use Rattle.journal_rpc.specs.CallViews.{message_of, asked_of};
ghost use Rattle.journal_treewire.specs.Credentials.{credential_in};
ghost use Rattle.journal_treeserver.specs.Asking.{asks, asks_files};
ghost use Rattle.journal_treeserver.specs.CodeViews.{wanted_of};

use journal_mount_wire::{MOUNT_PROGRAM, MOUNT_VERSION, MountCall, read_mount_call};
use journal_nfs3_wire::{PROGRAM, VERSION};
use journal_rpc::{Call, CallRefused};
use journal_tree::Caller;
use journal_treewire::{Requested, read_credential, read_request};

// The request of a call.
#[derive(Clone, Copy)]
pub(crate) enum Wanted<'a> {
    // A caller's request of NFS.
    Files(Caller, Requested<'a>),
    // A procedure of MOUNT.
    Mount(MountCall<'a>),
    // Nothing: its credential cannot be read.
    Denied,
    // Nothing: it does not reach a procedure.
    Refused(CallRefused),
}

// The request of a call. The first case that holds: another version of RPC; a call of MOUNT, whose
// credential is not looked at; a credential that cannot be read; another program, or another
// version of it; no such procedure; arguments that cannot be read.
pub(crate) fn decide<'a>(squash: bool, call: &Call<'a>) -> Wanted<'a>
    ensures { wanted_of result ≡ asks squash (message_of call.now) }
{
    match call.request(MOUNT_PROGRAM, MOUNT_VERSION) {
        Ok(request) => match read_mount_call(request.procedure, request.arguments) {
            Ok(mount) => Wanted::Mount(mount),
            Err(why) => Wanted::Refused(why),
        },
        Err(CallRefused::ProgramUnavailable) => decide_files(squash, call),
        Err(why) => Wanted::Refused(why),
    }
}

// The same of a call that is none of MOUNT.
fn decide_files<'a>(squash: bool, call: &Call<'a>) -> Wanted<'a>
    ensures { wanted_of result ≡ asks_files squash (credential_in call.now.credential.flavor call.now.credential.body.now) (asked_of call.now.asked) }
{
    let Some(credential) = read_credential(call.credential.flavor, call.credential.body) else {
        return Wanted::Denied;
    };
    let caller = credential.caller(squash);
    match call.request(PROGRAM, VERSION) {
        Ok(request) => match read_request(request.procedure, request.arguments) {
            Ok(requested) => Wanted::Files(caller, requested),
            Err(why) => Wanted::Refused(why),
        },
        Err(why) => Wanted::Refused(why),
    }
}
