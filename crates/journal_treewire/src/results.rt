// The results of procedures.
ghost use Rattle.std.specs.Prelude.{◌≡◌, ◌++◌};

use crate::listing::{write_lines, write_lines_plus};
use crate::parts::{FilePart, Lines, ShortText};
use crate::space::{write_information, write_path_configuration, write_space};
use crate::writing::{
    write_access, write_attributes_of, write_changed, write_commit, write_found, write_link_text,
    write_made, write_not_linked, write_read, write_renamed, write_write,
};
use journal_nfs3_wire::{NfsError, StableHow, Verifier};
use journal_tree::{Changed, Found, Made, Renamed, Space, Told};
use journal_treecalls::{AccessReply, FactsReply, NameFactsReply};
use journal_xdr::Writer;
use std::alloc::AllocError;

/// The results of a procedure, by their form (RFC 1813, section 3.3).
#[derive(Drop)]
pub enum TreeResults {
    Null,
    /// GETATTR.
    Attributes(Result<Told, NfsError>),
    /// SETATTR, REMOVE and RMDIR.
    Changed(Result<Changed, NfsError>),
    /// LOOKUP.
    Found(Result<Found, NfsError>),
    Access(Result<AccessReply, NfsError>),
    /// READLINK.
    LinkText(Result<ShortText, NfsError>),
    Read(Result<FilePart, NfsError>),
    Write {
        outcome: Result<Changed, NfsError>,
        count: u32,
        how: StableHow,
        verifier: Verifier,
    },
    /// CREATE, MKDIR, SYMLINK and MKNOD.
    Made(Result<Made, NfsError>),
    /// RENAME.
    Renamed(Result<Renamed, NfsError>),
    /// LINK, which is refused.
    NotLinked(NfsError),
    Directory(Result<Lines, NfsError>),
    DirectoryPlus(Result<Lines, NfsError>),
    FileSystemStatus(Result<Space, NfsError>),
    FileSystemInformation(Result<FactsReply, NfsError>),
    PathConfiguration(Result<NameFactsReply, NfsError>),
    Commit {
        outcome: Result<Changed, NfsError>,
        verifier: Verifier,
    },
}

/// The results, with the number of the disk's own, which handles and file systems have.
#[derive(Drop)]
pub struct DiskResults {
    pub disk: u64,
    pub results: TreeResults,
}

impl journal_rpc::Results for DiskResults {
    ghost use Rattle.journal_treewire.specs.CodeViews.{results_of};
    ghost use Rattle.journal_treewire.specs.Results.{results_text};

    ghost spelling = { λ r. results_text (results_of r.disk r.results) };

    fn write(&self, writer: &mut Writer) -> Result<(), AllocError> {
        let disk = self.disk;
        match &self.results {
            TreeResults::Null => Ok(()),
            TreeResults::Attributes(outcome) => write_attributes_of(writer, disk, outcome),
            TreeResults::Changed(outcome) => write_changed(writer, disk, outcome),
            TreeResults::Found(outcome) => write_found(writer, disk, outcome),
            TreeResults::Access(outcome) => write_access(writer, disk, outcome),
            TreeResults::LinkText(outcome) => write_link_text(writer, disk, outcome),
            TreeResults::Read(outcome) => write_read(writer, disk, outcome),
            TreeResults::Write {
                outcome,
                count,
                how,
                verifier,
            } => write_write(writer, disk, outcome, *count, *how, *verifier),
            TreeResults::Made(outcome) => write_made(writer, disk, outcome),
            TreeResults::Renamed(outcome) => write_renamed(writer, disk, outcome),
            TreeResults::NotLinked(why) => write_not_linked(writer, *why),
            TreeResults::Directory(outcome) => write_lines(writer, disk, outcome),
            TreeResults::DirectoryPlus(outcome) => write_lines_plus(writer, disk, outcome),
            TreeResults::FileSystemStatus(outcome) => write_space(writer, disk, outcome),
            TreeResults::FileSystemInformation(outcome) => write_information(writer, disk, outcome),
            TreeResults::PathConfiguration(outcome) => {
                write_path_configuration(writer, disk, outcome)
            }
            TreeResults::Commit { outcome, verifier } => {
                write_commit(writer, disk, outcome, *verifier)
            }
        }
    }
}
