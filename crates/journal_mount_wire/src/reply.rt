// Answers as they are sent.
ghost use Rattle.std.specs.Prelude.{◌≡◌, ◌≤◌, length};
ghost use Rattle.journal_mount_wire.specs.Outcomes.{outcome_text};

use crate::outcome::MountOutcome;
use journal_rpc::Results;
use journal_xdr::{Element, Writer};
use std::alloc::AllocError;
use std::marker::Model;

// The path that is exported.
const EXPORT: &[u8] = b"/files";

// The status of MNT (RFC 1813, appendix I, mountstat3): OK, or that there is no such path.
const MOUNTED: u32 = 0;

const NO_SUCH_PATH: u32 = 2;

// The flavors of credentials that are taken: of the system's users and groups, and none (RFC 5531,
// section 8.2).
const FLAVORS: [u32; 2] = [1, 0];

/// The answer to a call of MOUNT. Contracts see its text, which follows the header of a reply.
#[derive(Debug, Drop)]
pub struct MountReply<'h> {
    // The bytes of the root's handle.
    root: &'h [u8],
    outcome: MountOutcome,
}

impl<'h> Model for MountReply<'h> {
    ghost use Rattle.std.specs.Prelude.{ℕ, ◌≤◌, List, length};
    ghost use Rattle.journal_mount_wire.specs.Outcomes.{outcome_text};

    ghost Value = { List ℕ };

    ghost view = { λ reply. outcome_text reply.root.now reply.outcome };

    ghost invariant = { λ reply. length reply.root.now ≤ 64 };
}

impl<'h> MountReply<'h> {
    // The answer that says this, where the root has this handle.
    pub(crate) fn new(root: &'h [u8], outcome: MountOutcome) -> MountReply<'h>
        requires { length root.now ≤ 64 }
        ensures { result ≡ outcome_text root.now outcome }
    {
        MountReply { root, outcome }
    }
}

impl<'h> Results for MountReply<'h> {
    ghost spelling = { λ text. text };

    fn write(&self, writer: &mut Writer) -> Result<(), AllocError> {
        match self.outcome {
            MountOutcome::Nothing => Ok(()),
            MountOutcome::Mounted => {
                writer.word(MOUNTED)?;
                writer.opaque(self.root)?;
                writer.array(&FLAVORS)
            }
            MountOutcome::NoEntry => writer.word(NO_SUCH_PATH),
            MountOutcome::NoMounts => writer.boolean(false),
            MountOutcome::Exports => writer.list(&[Exported]),
        }
    }
}

// An export (RFC 1813, appendix I, exportnode): its path, and no groups, so that it is everybody's.
struct Exported;

impl Element for Exported {
    ghost use Rattle.journal_mount_wire.specs.Mounts.{export, files_export};

    ghost spelling = { λ e. export.spelling files_export };

    #[tactic(auto, unfolding(crate::specs::Mounts::export))]
    fn write(&self, writer: &mut Writer) -> Result<(), AllocError> {
        writer.string(EXPORT)?;
        writer.boolean(false)
    }
}
