// The calls of a tree, as callers ask them.
ghost use Rattle.std.specs.Prelude.{◌≡◌, Ok, Err, IfOk, IfErr};
ghost use Rattle.journal_nfs3_wire.specs.Arguments.{operation_of};
ghost use Rattle.journal_nfs3_wire.specs.Queries.{query_of};
ghost use Rattle.journal_treewire.specs.Calls.{call_on, file_call, query_call, directory_call, resolved};
ghost use Rattle.journal_treewire.specs.Directories.{directory_operation_of};
ghost use Rattle.journal_treewire.specs.Handles.{handle_in};
ghost use Rattle.journal_treewire.specs.Requests.{request_of};

use crate::arguments::{DirectoryOperation, Requested};
use crate::handle::read_handle;
use crate::values::{create_mode_in, settings_in, some_time_in};
use journal_nfs3_wire::{DirectoryEntry, NfsError, Operation, Query, StableHow};
use journal_tree::{CreateMode, Handle, Settings, TRANSFER_BYTES, Time};

/// A name in a directory of the tree.
#[derive(Clone, Copy, Debug)]
pub struct NameIn<'a> {
    pub directory: Handle,
    pub name: &'a [u8],
}

/// SETATTR.
#[derive(Clone, Copy, Debug)]
pub struct SetCall {
    pub handle: Handle,
    pub settings: Settings,
    /// The ctime that the node is to have.
    pub guard: Option<Time>,
}

/// SYMLINK.
#[derive(Clone, Copy, Debug)]
pub struct LinkCall<'a> {
    pub entry: NameIn<'a>,
    pub settings: Settings,
    /// The text: where the link leads.
    pub text: &'a [u8],
}

/// READ.
#[derive(Clone, Copy, Debug)]
pub struct ReadCall {
    pub handle: Handle,
    pub offset: u64,
    pub count: u32,
}

/// WRITE.
#[derive(Clone, Copy, Debug)]
pub struct WriteCall<'a> {
    pub handle: Handle,
    pub offset: u64,
    pub count: u32,
    pub how: StableHow,
    pub bytes: &'a [u8],
}

/// READDIR.
#[derive(Clone, Copy, Debug)]
pub struct ListCall {
    pub directory: Handle,
    pub cookie: u64,
    /// The most bytes of the results after their status: at most `TRANSFER_BYTES`.
    pub count: u32,
}

/// READDIRPLUS.
#[derive(Clone, Copy, Debug)]
pub struct ListPlusCall {
    pub directory: Handle,
    pub cookie: u64,
    /// The most bytes of the numbers, names and cookies: at most `TRANSFER_BYTES`.
    pub names_count: u32,
    /// The most bytes of the results after their status: at most `TRANSFER_BYTES`.
    pub count: u32,
}

/// A call of a tree, with handles of its own disk, or NULL, which asks nothing.
#[derive(Clone, Copy, Debug)]
pub enum TreeCall<'a> {
    Null,
    GetAttributes(Handle),
    SetAttributes(SetCall),
    Lookup(NameIn<'a>),
    /// The handle, and the rights that are asked for.
    Access(Handle, u32),
    ReadLink(Handle),
    Read(ReadCall),
    Write(WriteCall<'a>),
    Create(NameIn<'a>, CreateMode),
    MakeDirectory(NameIn<'a>, Settings),
    MakeLink(LinkCall<'a>),
    MakeNode(NameIn<'a>),
    Remove(NameIn<'a>),
    RemoveDirectory(NameIn<'a>),
    /// The old name, and the new one.
    Rename(NameIn<'a>, NameIn<'a>),
    /// The file, and its new name.
    Link(Handle, NameIn<'a>),
    ReadDirectory(ListCall),
    ReadDirectoryPlus(ListPlusCall),
    FileSystemStatus(Handle),
    FileSystemInformation(Handle),
    PathConfiguration(Handle),
    Commit(Handle),
}

/// The call that a request is on the disk with this number of its own.
///
/// # Errors
/// The first that holds is answered, by the handles in their order. Nothing was done.
/// - `BadHandle`: a handle's bytes are none.
/// - `Stale`: a handle is of another disk.
pub fn resolve<'a>(disk: u64, requested: &Requested<'a>) -> Result<TreeCall<'a>, NfsError>
    ensures { resolved result ≡ call_on disk (request_of requested.now) }
{
    match requested {
        Requested::File(operation) => resolve_operation(disk, operation),
        Requested::Query(query) => resolve_query(disk, query),
        Requested::Directory(operation) => resolve_directory_operation(disk, operation),
    }
}

// The call of one of the nine procedures of a flat directory.
fn resolve_operation<'a>(disk: u64, operation: &Operation<'a>) -> Result<TreeCall<'a>, NfsError>
    ensures { resolved result ≡ file_call disk (operation_of operation.now) }
{
    Ok(match operation {
        Operation::Null => TreeCall::Null,
        Operation::GetAttributes(bytes) => TreeCall::GetAttributes(read_handle(disk, bytes)?),
        Operation::SetAttributes(set) => TreeCall::SetAttributes(SetCall {
            handle: read_handle(disk, set.handle)?,
            settings: settings_in(set.attributes),
            guard: some_time_in(set.guard),
        }),
        Operation::Lookup(entry) => TreeCall::Lookup(name_in(disk, entry)?),
        Operation::Read(range) => TreeCall::Read(ReadCall {
            handle: read_handle(disk, range.handle)?,
            offset: range.offset,
            count: range.count,
        }),
        Operation::Write(write) => TreeCall::Write(WriteCall {
            handle: read_handle(disk, write.handle)?,
            offset: write.offset,
            count: write.count,
            how: write.how,
            bytes: write.bytes,
        }),
        Operation::Create(create) => {
            TreeCall::Create(name_in(disk, &create.entry)?, create_mode_in(&create.how))
        }
        Operation::Remove(entry) => TreeCall::Remove(name_in(disk, entry)?),
        Operation::Commit(range) => TreeCall::Commit(read_handle(disk, range.handle)?),
    })
}

// The call of a query.
fn resolve_query<'a>(disk: u64, query: &Query<'a>) -> Result<TreeCall<'a>, NfsError>
    ensures { resolved result ≡ query_call disk (query_of query.now) }
{
    Ok(match query {
        Query::Access(bytes, rights) => TreeCall::Access(read_handle(disk, bytes)?, *rights),
        Query::ReadDirectory(page) => TreeCall::ReadDirectory(ListCall {
            directory: read_handle(disk, page.handle)?,
            cookie: page.cookie,
            count: page.count.min(TRANSFER_BYTES),
        }),
        Query::ReadDirectoryPlus(page) => TreeCall::ReadDirectoryPlus(ListPlusCall {
            directory: read_handle(disk, page.handle)?,
            cookie: page.cookie,
            names_count: page.names_count.min(TRANSFER_BYTES),
            count: page.count.min(TRANSFER_BYTES),
        }),
        Query::FileSystemStatus(bytes) => TreeCall::FileSystemStatus(read_handle(disk, bytes)?),
        Query::FileSystemInformation(bytes) => {
            TreeCall::FileSystemInformation(read_handle(disk, bytes)?)
        }
        Query::PathConfiguration(bytes) => TreeCall::PathConfiguration(read_handle(disk, bytes)?),
    })
}

// The call of one of directories and links.
fn resolve_directory_operation<'a>(
    disk: u64,
    operation: &DirectoryOperation<'a>,
) -> Result<TreeCall<'a>, NfsError>
    ensures { resolved result ≡ directory_call disk (directory_operation_of operation.now) }
{
    Ok(match operation {
        DirectoryOperation::ReadLink(bytes) => TreeCall::ReadLink(read_handle(disk, bytes)?),
        DirectoryOperation::MakeDirectory(entry, attributes) => {
            TreeCall::MakeDirectory(name_in(disk, entry)?, settings_in(*attributes))
        }
        DirectoryOperation::MakeLink(link) => TreeCall::MakeLink(LinkCall {
            entry: name_in(disk, &link.entry)?,
            settings: settings_in(link.attributes),
            text: link.path,
        }),
        DirectoryOperation::MakeNode(entry, _) => TreeCall::MakeNode(name_in(disk, entry)?),
        DirectoryOperation::RemoveDirectory(entry) => {
            TreeCall::RemoveDirectory(name_in(disk, entry)?)
        }
        DirectoryOperation::Rename(old, new) => {
            TreeCall::Rename(name_in(disk, old)?, name_in(disk, new)?)
        }
        DirectoryOperation::Link(bytes, entry) => {
            TreeCall::Link(read_handle(disk, bytes)?, name_in(disk, entry)?)
        }
    })
}

// A name in the directory of a handle.
fn name_in<'a>(disk: u64, entry: &DirectoryEntry<'a>) -> Result<NameIn<'a>, NfsError>
    ensures found { IfOk result (λ found. (handle_in disk entry.now.directory.now ≡ Ok found.directory) × (found.name.now ≡ entry.now.name.now)) }
    ensures none { IfErr result (λ why. handle_in disk entry.now.directory.now ≡ Err why) }
{
    Ok(NameIn {
        directory: read_handle(disk, entry.directory)?,
        name: entry.name,
    })
}
