// Calls whose replies wait.
ghost use Rattle.std.specs.Prelude.{◌≡◌, ℕ};
ghost use Rattle.journal_nfs3_wire.specs.Arguments.{operation_of};
ghost use Rattle.journal_treewire.specs.CodeViews.{results_of};
ghost use Rattle.journal_treewire.specs.Directories.{directory_operation_of};
ghost use Rattle.journal_treewire.specs.Requests.{Requested, file, directory, request_of};
ghost use Rattle.journal_treeserver.specs.Forms.{how_of, write_form, form_of, refused_form};

use journal_nfs3_wire::{NfsError, Operation, StableHow, Verifier};
use journal_treewire::{DirectoryOperation, Requested, TreeResults};

/// The form of the results of a call that waits.
#[derive(Clone, Copy, Debug, PartialEq, Eq, Drop)]
pub enum AwaitedForm {
    /// SETATTR, REMOVE and RMDIR.
    Changed,
    /// WRITE.
    Write,
    /// CREATE, MKDIR and SYMLINK.
    Made,
    /// RENAME.
    Renamed,
    /// COMMIT.
    Commit,
}

/// A call whose reply waits.
#[derive(Clone, Copy, Debug, PartialEq, Eq, Drop)]
pub struct AwaitedCall {
    /// The call's number.
    pub xid: u32,
    /// The form of its results.
    pub form: AwaitedForm,
}

// The commit that a reply waits for, and the form of its results.
#[derive(Drop)]
pub(crate) struct Owed<P> {
    pub(crate) form: AwaitedForm,
    pub(crate) receipt: P,
}

impl AwaitedForm {
    // The results in place of those whose wait is refused.
    pub(crate) fn refused(self, why: NfsError) -> TreeResults
        ensures { (disk : ℕ) → results_of disk result ≡ refused_form self why }
    {
        match self {
            AwaitedForm::Changed => TreeResults::Changed(Err(why)),
            AwaitedForm::Write => TreeResults::Write {
                outcome: Err(why),
                count: 0,
                how: StableHow::Unstable,
                verifier: Verifier([0; 8]),
            },
            AwaitedForm::Made => TreeResults::Made(Err(why)),
            AwaitedForm::Renamed => TreeResults::Renamed(Err(why)),
            AwaitedForm::Commit => TreeResults::Commit {
                outcome: Err(why),
                verifier: Verifier([0; 8]),
            },
        }
    }
}

// How stable a request is asked to be.
pub(crate) fn how_of(requested: &Requested<'_>) -> StableHow
    ensures { result ≡ how_of (request_of requested.now) }
{
    match requested {
        Requested::File(Operation::Write(write)) => write.how,
        _ => StableHow::FileSync,
    }
}

// The form of the results of a request, if it waits.
pub(crate) fn form_of(requested: &Requested<'_>) -> Option<AwaitedForm>
    ensures { result ≡ form_of (request_of requested.now) }
{
    match requested {
        Requested::File(operation) => form_of_operation(operation),
        Requested::Query(_) => None,
        Requested::Directory(operation) => form_of_directory_operation(operation),
    }
}

// The same of the nine procedures of a flat directory.
fn form_of_operation(operation: &Operation<'_>) -> Option<AwaitedForm>
    ensures { result ≡ form_of (file (operation_of operation.now)) }
{
    match operation {
        Operation::SetAttributes(_) => Some(AwaitedForm::Changed),
        Operation::Write(write) => write_form(write.how),
        Operation::Create(_) => Some(AwaitedForm::Made),
        Operation::Remove(_) => Some(AwaitedForm::Changed),
        Operation::Commit(_) => Some(AwaitedForm::Commit),
        _ => None,
    }
}

// The same of WRITE.
fn write_form(how: StableHow) -> Option<AwaitedForm>
    ensures { result ≡ write_form how }
{
    match how {
        StableHow::Unstable => None,
        StableHow::DataSync | StableHow::FileSync => Some(AwaitedForm::Write),
    }
}

// The same of the procedures of directories and links.
fn form_of_directory_operation(operation: &DirectoryOperation<'_>) -> Option<AwaitedForm>
    ensures { result ≡ form_of (directory (directory_operation_of operation.now)) }
{
    match operation {
        DirectoryOperation::MakeDirectory(_, _) => Some(AwaitedForm::Made),
        DirectoryOperation::MakeLink(_) => Some(AwaitedForm::Made),
        DirectoryOperation::RemoveDirectory(_) => Some(AwaitedForm::Changed),
        DirectoryOperation::Rename(_, _) => Some(AwaitedForm::Renamed),
        _ => None,
    }
}
