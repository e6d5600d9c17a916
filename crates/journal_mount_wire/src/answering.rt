// The answers to calls.
ghost use Rattle.std.specs.Prelude.{◌≡◌, ◌≤◌, ℕ, List, length};
ghost use Rattle.journal_mount_wire.specs.Arguments.{mount_call_of};
ghost use Rattle.journal_mount_wire.specs.Mounts.{mount_text, is_exported};
ghost use Rattle.journal_mount_wire.specs.Outcomes.{outcome_text};

use crate::arguments::MountCall;
use crate::outcome::MountOutcome;
use crate::reply::MountReply;

/// The answer to a call, where the root has the handle of these bytes. A handle has at most 64
/// bytes (RFC 1813, appendix I, FHSIZE3). Nothing is kept of a mount, and nothing is done.
///
/// The answer has at most 84 bytes, so that a reply has room for it.
pub fn answer<'h>(call: &MountCall<'_>, root: &'h [u8]) -> MountReply<'h>
    requires { length root.now ≤ 64 }
    ensures exact { result ≡ mount_text root.now (mount_call_of call.now) }
    ensures short { length result ≤ 84 }
{
    MountReply::new(root, outcome_of(call))
}

// What becomes of a call.
fn outcome_of(call: &MountCall<'_>) -> MountOutcome
    ensures { (root : List ℕ) → outcome_text root result ≡ mount_text root (mount_call_of call.now) }
{
    match call {
        MountCall::Null | MountCall::Unmount(_) | MountCall::UnmountAll => MountOutcome::Nothing,
        MountCall::Mount(path) => {
            if is_exported(path) {
                MountOutcome::Mounted
            } else {
                MountOutcome::NoEntry
            }
        }
        MountCall::Dump => MountOutcome::NoMounts,
        MountCall::Export => MountOutcome::Exports,
    }
}

// Whether a path can be mounted. Each is the root's.
fn is_exported(path: &[u8]) -> bool
    ensures { result ≡ is_exported path.now }
{
    match path {
        b"/" | b"//" | b"/files" | b"/files/" => true,
        _ => false,
    }
}
