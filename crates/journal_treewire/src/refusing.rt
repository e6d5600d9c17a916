// Requests that are refused.
ghost use Rattle.std.specs.Prelude.{◌≡◌, ℕ};
ghost use Rattle.journal_nfs3_wire.specs.Arguments.{operation_of};
ghost use Rattle.journal_nfs3_wire.specs.Queries.{query_of};
ghost use Rattle.journal_treewire.specs.CodeViews.{results_of};
ghost use Rattle.journal_treewire.specs.Directories.{directory_operation_of};
ghost use Rattle.journal_treewire.specs.Refusals.{refused_request, refused_file, refused_query, refused_directory};
ghost use Rattle.journal_treewire.specs.Requests.{request_of};

use crate::arguments::{DirectoryOperation, Requested};
use crate::results::TreeResults;
use journal_nfs3_wire::{NfsError, Operation, Query, StableHow, Verifier};

impl<'a> Requested<'a> {
    /// The results of the request where it is refused for this reason: they have the status alone.
    /// NULL is never refused.
    pub fn refused(&self, why: NfsError) -> TreeResults
        ensures { (disk : ℕ) → results_of disk result ≡ refused_request (request_of self.now) why }
    {
        match self {
            Requested::File(operation) => refused_operation(operation, why),
            Requested::Query(query) => refused_query(query, why),
            Requested::Directory(operation) => refused_directory_operation(operation, why),
        }
    }
}

// The same of the nine procedures of a flat directory.
fn refused_operation(operation: &Operation<'_>, why: NfsError) -> TreeResults
    ensures { (disk : ℕ) → results_of disk result ≡ refused_file (operation_of operation.now) why }
{
    match operation {
        Operation::Null => TreeResults::Null,
        Operation::GetAttributes(_) => TreeResults::Attributes(Err(why)),
        Operation::SetAttributes(_) => TreeResults::Changed(Err(why)),
        Operation::Lookup(_) => TreeResults::Found(Err(why)),
        Operation::Read(_) => TreeResults::Read(Err(why)),
        Operation::Write(_) => TreeResults::Write {
            outcome: Err(why),
            count: 0,
            how: StableHow::Unstable,
            verifier: Verifier([0; 8]),
        },
        Operation::Create(_) => TreeResults::Made(Err(why)),
        Operation::Remove(_) => TreeResults::Changed(Err(why)),
        Operation::Commit(_) => TreeResults::Commit {
            outcome: Err(why),
            verifier: Verifier([0; 8]),
        },
    }
}

// The same of queries.
fn refused_query(query: &Query<'_>, why: NfsError) -> TreeResults
    ensures { (disk : ℕ) → results_of disk result ≡ refused_query (query_of query.now) why }
{
    match query {
        Query::Access(_, _) => TreeResults::Access(Err(why)),
        Query::ReadDirectory(_) => TreeResults::Directory(Err(why)),
        Query::ReadDirectoryPlus(_) => TreeResults::DirectoryPlus(Err(why)),
        Query::FileSystemStatus(_) => TreeResults::FileSystemStatus(Err(why)),
        Query::FileSystemInformation(_) => TreeResults::FileSystemInformation(Err(why)),
        Query::PathConfiguration(_) => TreeResults::PathConfiguration(Err(why)),
    }
}

// The same of those of directories and links.
fn refused_directory_operation(operation: &DirectoryOperation<'_>, why: NfsError) -> TreeResults
    ensures { (disk : ℕ) → results_of disk result ≡ refused_directory (directory_operation_of operation.now) why }
{
    match operation {
        DirectoryOperation::ReadLink(_) => TreeResults::LinkText(Err(why)),
        DirectoryOperation::MakeDirectory(_, _) => TreeResults::Made(Err(why)),
        DirectoryOperation::MakeLink(_) => TreeResults::Made(Err(why)),
        DirectoryOperation::MakeNode(_, _) => TreeResults::Made(Err(why)),
        DirectoryOperation::RemoveDirectory(_) => TreeResults::Changed(Err(why)),
        DirectoryOperation::Rename(_, _) => TreeResults::Renamed(Err(why)),
        DirectoryOperation::Link(_, _) => TreeResults::NotLinked(why),
    }
}
