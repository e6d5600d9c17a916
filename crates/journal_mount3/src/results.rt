// The answers of the procedures beside the nine.
ghost use Rattle.std.specs.Prelude.{◌≡◌, ◌≤◌, ◌++◌, OnOk};
ghost use Rattle.journal_mount3.specs.Results.{query_text};
ghost use Rattle.journal_mount3.specs.CodeViews.{query_results_of};

use crate::entry::{PlainEntry, PlusEntry};
use crate::page::Listing;
use crate::writing::{
    write_access, write_information, write_listing, write_path_configuration, write_use,
};
use journal_filestore::Attributes;
use journal_inode::FormatVersion;
use journal_mount_wire::MountReply;
use journal_nfs3_wire::{FormatResults, NfsError};
use journal_xdr::Writer;
use std::alloc::AllocError;

// The rights that ACCESS grants of those that it is asked for.
#[derive(Clone, Copy, Debug)]
pub(crate) struct Granted {
    pub attributes: Attributes,
    pub rights: u32,
}

// How much of a disk its files use.
#[derive(Clone, Copy, Debug)]
pub(crate) struct SpaceUse {
    pub attributes: Attributes,
    // The bytes of all blocks of data.
    pub bytes: u64,
    // Those that the files use.
    pub used: u64,
    // How many files there are.
    pub files: u64,
}

// The answer of a procedure that only tells of the files.
#[derive(Debug, Drop)]
pub(crate) enum QueryResults {
    Access(Result<Granted, NfsError>),
    ReadDirectory(Result<Listing<PlainEntry>, NfsError>),
    ReadDirectoryPlus(Result<Listing<PlusEntry>, NfsError>),
    FileSystemStatus(Result<SpaceUse, NfsError>),
    FileSystemInformation(Result<Attributes, NfsError>),
    PathConfiguration(Result<Attributes, NfsError>),
}

// The answer of a call.
#[derive(Debug, Drop)]
pub(crate) enum Told {
    Nine(FormatResults),
    Query(FormatVersion, QueryResults),
    Mount(MountReply<'static>),
}

impl journal_rpc::Results for Told {
    ghost use Rattle.journal_mount3.specs.CodeViews.{told_text};

    ghost spelling = { told_text };

    fn write(&self, writer: &mut Writer) -> Result<(), AllocError> {
        match self {
            Told::Nine(results) => journal_rpc::Results::write(results, writer),
            Told::Query(version, results) => results.write(writer, *version),
            Told::Mount(reply) => journal_rpc::Results::write(reply, writer),
        }
    }
}

impl QueryResults {
    fn write(&self, writer: &mut Writer, version: FormatVersion) -> Result<(), AllocError>
        ensures { OnOk result (writer.new ≡ writer.old ++ query_text (query_results_of version self.now)) }
    {
        match self {
            QueryResults::Access(outcome) => write_access(writer, version, outcome),
            QueryResults::ReadDirectory(outcome) => write_listing(writer, outcome),
            QueryResults::ReadDirectoryPlus(outcome) => write_listing(writer, outcome),
            QueryResults::FileSystemStatus(outcome) => write_use(writer, version, outcome),
            QueryResults::FileSystemInformation(outcome) => {
                write_information(writer, version, outcome)
            }
            QueryResults::PathConfiguration(outcome) => {
                write_path_configuration(writer, version, outcome)
            }
        }
    }

    // Room for them: a listing has at most 512 entries.
    pub(crate) fn room(&self) -> usize
        ensures { result ≤ 69632 }
    {
        match self {
            QueryResults::ReadDirectory(Ok(listing)) => listing.entries.len() * 28,
            QueryResults::ReadDirectoryPlus(Ok(listing)) => listing.entries.len() * 136,
            _ => 0,
        }
    }
}
