// The results of procedures.
ghost use Rattle.std.specs.Prelude.{◌≡◌, ◌++◌, OnOk};
ghost use Rattle.journal_inode.specs.declared.version.FormatVersion.{FormatVersion};
ghost use Rattle.journal_nfs3_wire.specs.Results.{procedure_of_results};
ghost use Rattle.journal_nfs3_wire.specs.Profile.{results_of, refused_results};

use crate::arguments::StableHow;
use crate::procedure::Procedure;
use crate::writing::{
    write_commit, write_create, write_get_attributes, write_lookup, write_read, write_remove,
    write_set_attributes, write_write,
};
use journal_file_types::{Attributes, Changed, Found, Portion};
use journal_inode::FormatVersion;
use journal_xdr::Writer;
use std::alloc::AllocError;

/// The number that a server gives with each WRITE and COMMIT (RFC 1813, section 3.3.7, writeverf3).
/// It stays the same as long as the server runs. It is another once the server began anew and may
/// have lost writes that were not stable.
#[derive(Clone, Copy, Debug, PartialEq, Eq)]
pub struct Verifier(pub [u8; 8]);

/// Why a procedure is refused, with its number (RFC 1813, section 2.6, nfsstat3).
#[derive(Clone, Copy, Debug, PartialEq, Eq)]
pub enum NfsError {
    NotOwner = 1,
    NoEntry = 2,
    Io = 5,
    NoAccess = 13,
    Exists = 17,
    NotDirectory = 20,
    IsDirectory = 21,
    Invalid = 22,
    TooBig = 27,
    NoSpace = 28,
    ReadOnly = 30,
    NameTooLong = 63,
    NotEmpty = 66,
    Stale = 70,
    BadHandle = 10001,
    NotSync = 10002,
    NotSupported = 10004,
    TooSmall = 10005,
    ServerFault = 10006,
    Jukebox = 10008,
}

/// The results of a procedure, each in the order of RFC 1813, section 3.3.
#[derive(Debug, Drop)]
pub enum Results {
    Null,
    GetAttributes(Result<Attributes, NfsError>),
    SetAttributes(Result<Changed, NfsError>),
    Lookup(Result<Found, NfsError>),
    Read(Result<Portion, NfsError>),
    Write {
        outcome: Result<Changed, NfsError>,
        count: u32,
        how: StableHow,
        verifier: Verifier,
    },
    Create(Result<Found, NfsError>),
    Remove(Result<Attributes, NfsError>),
    Commit {
        outcome: Result<Attributes, NfsError>,
        verifier: Verifier,
    },
}

impl Results {
    /// The results of a procedure that is refused for this reason: they describe no file, and
    /// nothing of what was asked.
    pub fn refused(procedure: Procedure, why: NfsError) -> Results
        ensures { (version : FormatVersion) → results_of version result ≡ refused_results procedure why }
    {
        match procedure {
            Procedure::Null => Results::Null,
            Procedure::GetAttributes => Results::GetAttributes(Err(why)),
            Procedure::SetAttributes => Results::SetAttributes(Err(why)),
            Procedure::Lookup => Results::Lookup(Err(why)),
            Procedure::Read => Results::Read(Err(why)),
            Procedure::Write => Results::Write {
                outcome: Err(why),
                count: 0,
                how: StableHow::Unstable,
                verifier: Verifier([0; 8]),
            },
            Procedure::Create => Results::Create(Err(why)),
            Procedure::Remove => Results::Remove(Err(why)),
            Procedure::Commit => Results::Commit {
                outcome: Err(why),
                verifier: Verifier([0; 8]),
            },
        }
    }
}

// With the version, because the file store's answer has a size and no blocks. A refusal has no
// file, so `refused_reply` asks for no version.
/// The results, with the version of the format, which says how many bytes files use.
#[derive(Debug, Drop)]
pub struct FormatResults {
    pub version: FormatVersion,
    pub results: Results,
}

impl FormatResults {
    /// The procedure of these results.
    pub fn procedure(&self) -> Procedure
        ensures { result ≡ procedure_of_results (results_of self.now.version self.now.results) }
    {
        match &self.results {
            Results::Null => Procedure::Null,
            Results::GetAttributes(_) => Procedure::GetAttributes,
            Results::SetAttributes(_) => Procedure::SetAttributes,
            Results::Lookup(_) => Procedure::Lookup,
            Results::Read(_) => Procedure::Read,
            Results::Write { .. } => Procedure::Write,
            Results::Create(_) => Procedure::Create,
            Results::Remove(_) => Procedure::Remove,
            Results::Commit { .. } => Procedure::Commit,
        }
    }
}

impl journal_rpc::Results for FormatResults {
    ghost use Rattle.journal_nfs3_wire.specs.Profile.{results_of};
    ghost use Rattle.journal_nfs3_wire.specs.Results.{results_text};

    ghost spelling = { λ r. results_text (results_of r.version r.results) };

    #[tactic(auto, unfolding(crate::specs::Results::results))]
    fn write(&self, writer: &mut Writer) -> Result<(), AllocError> {
        let version = self.version;
        match &self.results {
            Results::Null => Ok(()),
            Results::GetAttributes(outcome) => write_get_attributes(writer, version, outcome),
            Results::SetAttributes(outcome) => write_set_attributes(writer, version, outcome),
            Results::Lookup(outcome) => write_lookup(writer, version, outcome),
            Results::Read(outcome) => write_read(writer, version, outcome),
            Results::Write {
                outcome,
                count,
                how,
                verifier,
            } => write_write(writer, version, outcome, *count, *how, *verifier),
            Results::Create(outcome) => write_create(writer, version, outcome),
            Results::Remove(outcome) => write_remove(writer, version, outcome),
            Results::Commit { outcome, verifier } => write_commit(
                writer, version, outcome, *verifier,
            ),
        }
    }
}
