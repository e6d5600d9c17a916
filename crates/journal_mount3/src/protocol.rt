// NFS and MOUNT as a protocol over files.
ghost use Rattle.std.specs.Prelude.{◌≡◌};

use crate::replying::{Exported, answer_no_wait};
use journal_disk::BlockDisk;
use journal_filestore::FileStore;
use journal_history::{Naming, Receipt, Session};
use journal_inode::{SoundFiles, Version};
use journal_nfs3::ReplyWait;
use journal_nfs3_wire::{Procedure, Verifier};
use journal_rpc::Call;
use journal_server::{FileProtocol, Programs};
use journal_world::{Layout, Moment, Refusal};
use journal_xdr::Writer;
use std::alloc::{AllocError, Global};
use std::sync::Wait;

impl<V: Version> FileProtocol<V> for Exported {
    ghost use Rattle.journal_mount3.specs.Answers.{both_programs};
    ghost use Rattle.journal_mount3.specs.Lawful.{both_lawful};

    ghost answers = { λ p. both_programs V.VERSION p.layout.blocks p.verifier.0 };

    ghost lawful = { λ p. both_lawful V.VERSION p.layout.blocks p.verifier.0 };

    // The root has the moment as its times.
    fn uses_moment(&self, _call: &Call<'_>) -> bool {
        true
    }

    fn answer_no_wait<'b, D: BlockDisk, J: Naming, W: Wait>(
        &self,
        rt: &W,
        alloc: Global,
        session: &mut Session<'b, J, SoundFiles<V>>,
        call: &Call<'_>,
        files: &FileStore<'b, D, J, V>,
        moment: Moment,
        writer: &mut Writer,
    ) -> Result<Option<ReplyWait<Receipt<'b, J, SoundFiles<V>>>>, AllocError> {
        answer_no_wait(rt, alloc, session, call, files, self, moment, writer)
    }

    fn refused_reply<E>(
        &self,
        writer: &mut Writer,
        xid: u32,
        procedure: Procedure,
        why: &Refusal<E>,
    ) -> Result<(), AllocError> {
        match journal_nfs3::refused_reply::<E, ()>(writer, xid, procedure, why) {
            Ok(()) => Ok(()),
            Err(_) => Err(AllocError),
        }
    }
}

impl Programs for Exported {
    ghost told = { λ p. p.verifier.0 };

    ghost fits = { λ p blocks. p.layout.blocks ≡ blocks };

    fn on(layout: Layout, verifier: Verifier) -> Exported {
        Exported { verifier, layout }
    }
}
