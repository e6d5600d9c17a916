// The questions beside the nine procedures are answered.
ghost use Rattle.std.specs.Prelude.{◌≡◌, ◌≤◌, ℕ, Result, length, IfOk, IfErr};
ghost use Rattle.journal_file_types.specs.declared.reply.Attributes.{Attributes};
ghost use Rattle.journal_nfs3_wire.specs.declared.results.NfsError.{NfsError};
ghost use Rattle.journal_nfs3_wire.specs.Queries.{query_of};
ghost use Rattle.journal_mount_wire.specs.Arguments.{mount_call_of};
ghost use Rattle.journal_mount3.specs.Mounts.{mount_text};
ghost use Rattle.journal_mount3.specs.Listings.{IsCutShort};
ghost use Rattle.journal_mount3.specs.Served.{Queries, TellsThen, TellsNow, StatusOf, FindsAll, access_of, rights_of, shown};
ghost use Rattle.journal_mount3.specs.CodeViews.{query_results_of, told_of, access_seen, status_seen};

use crate::entry::{PlainEntry, PlusEntry};
use crate::listing::{FIRST_FILE, LAST_FILE, ROOT_HANDLE, find_file, list, plain_room, plus_room};
use crate::results::{Granted, QueryResults, SpaceUse};
use crate::root::{ROOT, attributes_at};
use journal_disk::BlockDisk;
use journal_filestore::{Attributes, FileStore};
use journal_history::{Naming, Session};
use journal_inode::{SoundFiles, Time, Version};
use journal_mount_wire::{MountCall, MountReply, answer};
use journal_nfs3::get_attributes;
use journal_nfs3_wire::{NfsError, Query, used_bytes};
use journal_world::{BLOCK_BYTES, FIRST_DATA, Layout};
use std::alloc::Global;
use std::sync::Wait;

// The rights that the root and a file grant, as far as they are asked for: a file cannot be run or
// deleted, which its directory grants.
const ROOT_RIGHTS: u32 = 0x1f;

const FILE_RIGHTS: u32 = 0x0d;

// The answer of a query at a moment, on a disk of this layout.
pub(crate) fn serve_query<'b, D: BlockDisk, J: Naming, V: Version, W: Wait>(
    rt: &W,
    alloc: Global,
    session: &mut Session<'b, J, SoundFiles<V>>,
    files: &FileStore<'b, D, J, V>,
    layout: Layout,
    query: &Query<'_>,
    now: Time,
) -> QueryResults
    ensures { Queries V.VERSION layout.blocks now (query_of query.now) session.old (query_results_of V.VERSION result) session.new }
{
    match query {
        Query::Access(handle, asked) => {
            QueryResults::Access(grant(rt, session, files, handle, *asked, now))
        }
        // The verifier of a cookie is not looked at, because no cookie ends.
        Query::ReadDirectory(page) => {
            let room = plain_room(page.count);
            QueryResults::ReadDirectory(list::<D, J, V, W, PlainEntry>(
                rt,
                alloc,
                session,
                files,
                page.handle,
                page.cookie,
                room,
                now,
            ))
        }
        Query::ReadDirectoryPlus(page) => {
            let room = plus_room(page.names_count, page.count);
            QueryResults::ReadDirectoryPlus(list::<D, J, V, W, PlusEntry>(
                rt,
                alloc,
                session,
                files,
                page.handle,
                page.cookie,
                room,
                now,
            ))
        }
        Query::FileSystemStatus(handle) => {
            QueryResults::FileSystemStatus(measure(rt, session, files, layout, handle, now))
        }
        Query::FileSystemInformation(handle) => {
            QueryResults::FileSystemInformation(tell(rt, session, files, handle, now))
        }
        Query::PathConfiguration(handle) => {
            QueryResults::PathConfiguration(tell(rt, session, files, handle, now))
        }
    }
}

// The attributes of what a handle names.
fn tell<'b, D: BlockDisk, J: Naming, V: Version, W: Wait>(
    rt: &W,
    session: &mut Session<'b, J, SoundFiles<V>>,
    files: &FileStore<'b, D, J, V>,
    handle: &[u8],
    now: Time,
) -> Result<Attributes, NfsError>
    ensures { TellsNow V.VERSION now handle.now session.old session.new result }
{
    let attributes = get_attributes(rt, session, files, handle)?;
    Ok(attributes_at(now, attributes))
}

// ACCESS: the rights of those that are asked for.
fn grant<'b, D: BlockDisk, J: Naming, V: Version, W: Wait>(
    rt: &W,
    session: &mut Session<'b, J, SoundFiles<V>>,
    files: &FileStore<'b, D, J, V>,
    handle: &[u8],
    asked: u32,
    now: Time,
) -> Result<Granted, NfsError>
    ensures { TellsThen V.VERSION handle.now session.old
        (λ told mid. (session.new ≡ mid) × (told_of (access_seen V.VERSION) result ≡ shown (access_of V.VERSION asked) now told)) }
{
    let attributes = tell(rt, session, files, handle, now)?;
    Ok(Granted {
        attributes,
        rights: asked & rights_of(&attributes),
    })
}

// The rights that the root or a file grants.
fn rights_of(attributes: &Attributes) -> u32
    ensures { result ≡ rights_of attributes.now }
{
    if attributes.number == ROOT {
        ROOT_RIGHTS
    } else {
        FILE_RIGHTS
    }
}

// FSSTAT: what the files use, each as it is found when it is looked up.
fn measure<'b, D: BlockDisk, J: Naming, V: Version, W: Wait>(
    rt: &W,
    session: &mut Session<'b, J, SoundFiles<V>>,
    files: &FileStore<'b, D, J, V>,
    layout: Layout,
    handle: &[u8],
    now: Time,
) -> Result<SpaceUse, NfsError>
    ensures { TellsThen V.VERSION handle.now session.old
        (λ told mid. StatusOf V.VERSION layout.blocks now told mid session.new (told_of (status_seen V.VERSION) result)) }
{
    let attributes = tell(rt, session, files, handle, now)?;
    let space = SpaceUse {
        attributes,
        bytes: BLOCK_BYTES as u64 * (layout.blocks - FIRST_DATA),
        used: 0,
        files: 0,
    };
    count_files(rt, session, files, space)
}

// Adds what the files use to what nothing is counted of yet.
fn count_files<'b, D: BlockDisk, J: Naming, V: Version, W: Wait>(
    rt: &W,
    session: &mut Session<'b, J, SoundFiles<V>>,
    files: &FileStore<'b, D, J, V>,
    space: SpaceUse,
) -> Result<SpaceUse, NfsError>
    requires { (space.files ≡ 0) × (space.used ≡ 0) }
    ensures counts { IfOk result (λ counted. FindsAll V.VERSION session.old session.new counted.files counted.used) }
    ensures same { IfOk result (λ counted. (counted.attributes ≡ space.attributes) × (counted.bytes ≡ space.bytes)) }
    ensures cut { IfErr result (IsCutShort V.VERSION 2 session.old session.new) }
{
    let mut counted = space;
    for number in FIRST_FILE..LAST_FILE + 1 {
        let Some(found) = find_file(rt, session, files, number)? else {
            continue;
        };
        counted.files += 1;
        counted.used += used_bytes(files.version(), found.file.size);
    }
    Ok(counted)
}

// The answer of a call of MOUNT.
pub(crate) fn serve_mount(call: &MountCall<'_>) -> MountReply<'static>
    ensures exact { result ≡ mount_text (mount_call_of call.now) }
    ensures short { length result ≤ 84 }
{
    answer(call, ROOT_HANDLE)
}
