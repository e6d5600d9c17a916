// The nine procedures of `journal_nfs3` as a protocol over files.

use crate::file_protocol::FileProtocol;
use journal_disk::BlockDisk;
use journal_filestore::FileStore;
use journal_history::{Naming, Receipt, Session};
use journal_inode::{SoundFiles, Version};
use journal_nfs3::{Procedure, ReplyWait, Verifier};
use journal_rpc::Call;
use journal_world::{Moment, Refusal};
use journal_xdr::Writer;
use std::alloc::{AllocError, Global};
use std::sync::Wait;

/// The nine procedures of NFS version 3.
#[derive(Clone, Copy, Debug)]
pub struct NineProcedures {
    /// What is told with each WRITE and COMMIT.
    pub verifier: Verifier,
}

impl<V: Version> FileProtocol<V> for NineProcedures {
    ghost use Rattle.journal_server.specs.Output.{nine};
    ghost use Rattle.journal_server.specs.NineLaws.{nine_lawful};

    ghost answers = { λ p. nine V.VERSION p.verifier.0 };

    ghost lawful = { λ p. nine_lawful V.VERSION p.verifier.0 };

    fn uses_moment(&self, call: &Call<'_>) -> bool {
        journal_nfs3::uses_moment(call)
    }

    fn answer_no_wait<'b, D: BlockDisk, J: Naming, W: Wait>(
        &self,
        rt: &W,
        _alloc: Global,
        session: &mut Session<'b, J, SoundFiles<V>>,
        call: &Call<'_>,
        files: &FileStore<'b, D, J, V>,
        moment: Moment,
        writer: &mut Writer,
    ) -> Result<Option<ReplyWait<Receipt<'b, J, SoundFiles<V>>>>, AllocError> {
        match journal_nfs3::answer_no_wait::<D, J, V, W, ()>(
            rt,
            writer,
            session,
            call,
            files,
            moment,
            self.verifier,
        ) {
            Ok(soon) => Ok(soon),
            Err(_) => Err(AllocError),
        }
    }

    fn refused_reply<E>(
        &self,
        writer: &mut Writer,
        xid: u32,
        procedure: Procedure,
        why: &Refusal<E>,
    ) -> Result<(), AllocError> {
        match journal_nfs3::refused_reply::<E, ()>(writer, xid, procedure, why) {
            Ok(()) => Ok(()),
            Err(_) => Err(AllocError),
        }
    }
}
