// NFS and MOUNT where the files are only read.
ghost use Rattle.std.specs.Prelude.{◌≡◌, ◌++◌, ℕ, List, Ok, IfOk, IfSome, IfNone, OnErr, OnOk};
ghost use Rattle.journal_nfs3_wire.specs.Arguments.{operation_of};
ghost use Rattle.journal_nfs3_wire.specs.Queries.{Access};
ghost use Rattle.journal_mount3.specs.Calls.{query, decided};
ghost use Rattle.journal_mount3.specs.Answers.{sent_text};
ghost use Rattle.journal_mount3.specs.Readers.{changes_files, is_denied, reading_of, denied_text, GrantsReader};

use crate::arguments::Requested;
use crate::decision::decide;
use crate::replying::{Exported, answer_no_wait};
use crate::results::Told;
use crate::serving::serve_query;
use journal_disk::BlockDisk;
use journal_filestore::FileStore;
use journal_history::{Naming, Receipt, Session};
use journal_inode::{SoundFiles, Time, Version};
use journal_nfs3::ReplyWait;
use journal_nfs3_wire::{NfsError, Operation, Procedure, Query, Verifier};
use journal_rpc::{Call, CallRefused, Results, write_reply};
use journal_server::{FileProtocol, Programs};
use journal_world::{Layout, Moment, Refusal};
use journal_xdr::Writer;
use std::alloc::{AllocError, Global};
use std::sync::Wait;

// The rights of ACCESS that change nothing: READ 1 and LOOKUP 2 (RFC 1813, section 3.3.4).
const READING: u32 = 0x03;

/// NFS and MOUNT on a disk whose files are only read. SETATTR, WRITE, CREATE and REMOVE are
/// answered by NFS3ERR_ROFS, with nothing done, and ACCESS grants no right to change anything. Each
/// other call is answered as by `Exported`.
#[derive(Clone, Copy, Debug)]
pub struct ExportedToRead {
    /// The two programs, and the disk.
    pub exported: Exported,
}

// The reason for which a call is denied: the files are only read.
#[derive(Clone, Copy, Debug)]
struct Denied;

// The rights that a call of ACCESS asks for, and of what.
#[derive(Clone, Copy, Debug)]
struct RightsAsked<'a> {
    handle: &'a [u8],
    rights: u32,
}

impl Results for Denied {
    ghost use Rattle.journal_mount3.specs.Readers.{denied_text};

    ghost spelling = { λ _. denied_text };

    fn write(&self, writer: &mut Writer) -> Result<(), AllocError> {
        writer.word(NfsError::ReadOnly as u32)?;
        writer.boolean(false)?;
        writer.boolean(false)
    }
}

impl<V: Version> FileProtocol<V> for ExportedToRead {
    ghost use Rattle.journal_mount3.specs.Readers.{reader_programs};
    ghost use Rattle.journal_mount3.specs.ReaderLaws.{reader_lawful};

    ghost answers = { λ p. reader_programs V.VERSION p.exported.layout.blocks p.exported.verifier.0 };

    ghost lawful = { λ p. reader_lawful V.VERSION p.exported.layout.blocks p.exported.verifier.0 };

    // The root has the moment as its times.
    fn uses_moment(&self, _call: &Call<'_>) -> bool {
        true
    }

    fn answer_no_wait<'b, D: BlockDisk, J: Naming, W: Wait>(
        &self,
        rt: &W,
        alloc: Global,
        session: &mut Session<'b, J, SoundFiles<V>>,
        call: &Call<'_>,
        files: &FileStore<'b, D, J, V>,
        moment: Moment,
        writer: &mut Writer,
    ) -> Result<Option<ReplyWait<Receipt<'b, J, SoundFiles<V>>>>, AllocError> {
        let exported = &self.exported;
        let requested = decide(call);
        if is_denied(&requested) {
            deny(writer, call.xid)?;
            return Ok(None);
        }
        match rights_asked(&requested) {
            Some(asked) => {
                let now = Time::at(moment);
                let xid = call.xid;
                grant(rt, alloc, session, files, exported, xid, asked, now, writer)?;
                Ok(None)
            }
            None => answer_no_wait(rt, alloc, session, call, files, exported, moment, writer),
        }
    }

    fn refused_reply<E>(
        &self,
        writer: &mut Writer,
        xid: u32,
        procedure: Procedure,
        why: &Refusal<E>,
    ) -> Result<(), AllocError> {
        match journal_nfs3::refused_reply::<E, ()>(writer, xid, procedure, why) {
            Ok(()) => Ok(()),
            Err(_) => Err(AllocError),
        }
    }
}

impl Programs for ExportedToRead {
    ghost told = { λ p. p.exported.verifier.0 };

    ghost fits = { λ p blocks. p.exported.layout.blocks ≡ blocks };

    fn on(layout: Layout, verifier: Verifier) -> ExportedToRead {
        ExportedToRead {
            exported: Exported { verifier, layout },
        }
    }
}

// True if the call asks to change files.
fn is_denied(requested: &Result<Requested<'_>, CallRefused>) -> bool
    ensures { result ≡ is_denied (decided requested.now) }
{
    match requested {
        Ok(Requested::Nine(operation)) => changes_files(operation),
        Ok(Requested::Query(_) | Requested::Mount(_)) | Err(_) => false,
    }
}

// True if the procedure changes files.
fn changes_files(operation: &Operation<'_>) -> bool
    ensures { result ≡ changes_files (operation_of operation.now) }
{
    match operation {
        Operation::SetAttributes(_)
        | Operation::Write(_)
        | Operation::Create(_)
        | Operation::Remove(_) => true,
        Operation::Null
        | Operation::GetAttributes(_)
        | Operation::Lookup(_)
        | Operation::Read(_)
        | Operation::Commit(_) => false,
    }
}

// The rights that the call asks for, if it is one of ACCESS.
fn rights_asked<'a>(requested: &Result<Requested<'a>, CallRefused>) -> Option<RightsAsked<'a>>
    ensures access { IfSome result (λ asked. decided requested.now ≡ Ok (query (Access asked.handle.now asked.rights))) }
    ensures other { IfNone result (reading_of (decided requested.now) ≡ decided requested.now) }
{
    match requested {
        Ok(Requested::Query(query)) => match query {
            Query::Access(handle, rights) => Some(RightsAsked {
                handle: *handle,
                rights: *rights,
            }),
            Query::ReadDirectory(_)
            | Query::ReadDirectoryPlus(_)
            | Query::FileSystemStatus(_)
            | Query::FileSystemInformation(_)
            | Query::PathConfiguration(_) => None,
        },
        Ok(Requested::Nine(_) | Requested::Mount(_)) | Err(_) => None,
    }
}

// Writes the reply that the files are only read.
fn deny(writer: &mut Writer, xid: u32) -> Result<(), AllocError>
    ensures { OnOk result (writer.new ≡ writer.old ++ sent_text xid (Ok denied_text)) }
{
    let outcome: Result<Denied, CallRefused> = Ok(Denied);
    write_reply(writer, xid, &outcome)
}

// Writes the reply to ACCESS. Refused where memory for the reply is, and then the attributes were
// read all the same.
fn grant<'b, D: BlockDisk, J: Naming, V: Version, W: Wait>(
    rt: &W,
    alloc: Global,
    session: &mut Session<'b, J, SoundFiles<V>>,
    files: &FileStore<'b, D, J, V>,
    exported: &Exported,
    xid: u32,
    asked: RightsAsked<'_>,
    now: Time,
    writer: &mut Writer,
) -> Result<(), AllocError>
    ensures granted { OnOk result ((text : List ℕ) × GrantsReader V.VERSION exported.now.layout.blocks now asked.entry.handle.now asked.entry.rights session.old text session.new
        × (writer.new ≡ writer.old ++ sent_text xid (Ok text))) }
    ensures lost { OnErr result ((text : List ℕ) × GrantsReader V.VERSION exported.now.layout.blocks now asked.entry.handle.now asked.entry.rights session.old text session.new) }
{
    let RightsAsked { handle, rights } = asked;
    let query = Query::Access(handle, rights & READING);
    let results = serve_query(rt, alloc, session, files, exported.layout, &query, now);
    let outcome: Result<Told, CallRefused> = Ok(Told::Query(files.version(), results));
    write_reply(writer, xid, &outcome)
}
