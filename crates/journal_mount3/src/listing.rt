// Listings: what stands behind a cookie, a page at a time.
ghost use Rattle.std.specs.Prelude.{◌≡◌, ◌≤◌, ◌<◌, ◌-◌, ◌/◌, min, ℕ, List, [], length, IfOk, IfSome, IfNone, Result};
ghost use Rattle.std.specs.List.{All};
ghost use Rattle.journal_file_types.specs.declared.reply.Attributes.{Attributes};
ghost use Rattle.journal_nfs3_wire.specs.declared.results.NfsError.{NfsError};
ghost use Rattle.journal_mount3.specs.declared.page.TheConstants.{LAST_COOKIE};
ghost use Rattle.journal_mount3.specs.Listings.{Seen, LooksFor, Finds, Fills};
ghost use Rattle.journal_mount3.specs.Served.{TellsThen, Lists};
ghost use Rattle.journal_mount3.specs.CodeViews.{listed_of, seen_of, outcome_seen, HasRoom};

use crate::entry::{PARENT, ROOT_GENERATION, Shown, file_name};
use crate::page::{Entry, LAST_COOKIE, Listing};
use crate::root::{ROOT, attributes_at};
use journal_disk::BlockDisk;
use journal_filestore::{Attributes, FileStore, Found};
use journal_history::{Naming, Session};
use journal_inode::{SoundFiles, Time, Version};
use journal_nfs3::{get_attributes, look_up};
use journal_nfs3_wire::{DirectoryEntry, NfsError};
use std::alloc::Global;
use std::sync::Wait;

// The handle of the root.
pub(crate) const ROOT_HANDLE: &[u8] = b"JNL1\0\0\0\x01\0\0\0\x01";

// The numbers of the files.
pub(crate) const FIRST_FILE: u32 = 2;

pub(crate) const LAST_FILE: u32 = 511;

// The bytes of the results of a listing without entries: that no attributes are told, the verifier,
// the list's end, and whether it is the last.
const BARE_BYTES: u32 = 20;

// The bytes of an entry of READDIR, of one of READDIRPLUS, and of the number, name and cookie of
// one. Each name takes four.
const PLAIN_BYTES: u32 = 28;

const PLUS_BYTES: u32 = 136;

const NAMES_BYTES: u32 = 24;

// How many entries results of at most so many bytes have room for, or `None` where not even results
// without any fit.
pub(crate) fn plain_room(count: u32) -> Option<usize>
    ensures some { IfSome result (λ room. (20 ≤ count) × (room ≡ (count - 20) / 28)) }
    ensures none { IfNone result (count < 20) }
{
    let rest = count.checked_sub(BARE_BYTES)?;
    Some((rest / PLAIN_BYTES) as usize)
}

// The same with attributes and handles, and with at most so many bytes of numbers, names and
// cookies.
pub(crate) fn plus_room(names_count: u32, count: u32) -> Option<usize>
    ensures some { IfSome result (λ room. (20 ≤ count) × (room ≡ min ((count - 20) / 136) (names_count / 24))) }
    ensures none { IfNone result (count < 20) }
{
    let rest = count.checked_sub(BARE_BYTES)?;
    Some((rest / PLUS_BYTES).min(names_count / NAMES_BYTES) as usize)
}

// The entries of the directory behind the cookie, as many as there is room for. It looks each file
// up until one has no room. Refused where the handle names no directory, where there is no room for
// even one entry and there is one, and where a LOOKUP is refused for another reason than that the
// file is not there.
pub(crate) fn list<'b, D: BlockDisk, J: Naming, V: Version, W: Wait, E: Shown + Drop>(
    rt: &W,
    alloc: Global,
    session: &mut Session<'b, J, SoundFiles<V>>,
    files: &FileStore<'b, D, J, V>,
    handle: &[u8],
    cookie: u64,
    room: Option<usize>,
    now: Time,
) -> Result<Listing<E>, NfsError>
    ensures lists { TellsThen V.VERSION handle.now session.old
        (λ told mid. Lists V.VERSION now cookie (HasRoom room) told mid session.new (outcome_seen (seen_of E.entry_in) result)) }
    ensures shown { IfOk result (λ listing. All (E.shows V.VERSION) listing.entries.items) }
{
    let directory = get_attributes(rt, session, files, handle)?;
    if directory.number != ROOT {
        return Err(NfsError::NotDirectory);
    }
    let directory = attributes_at(now, directory);
    let Some(room) = room else {
        return Err(NfsError::TooSmall);
    };
    // It is refused as a LOOKUP is for which there is no memory.
    let Ok(mut entries) = Vec::with_capacity(alloc, room.min(LAST_COOKIE as usize)) else {
        return Err(NfsError::ServerFault);
    };
    let is_end = fill(rt, session, files, &directory, cookie, room, &mut entries)?;
    if entries.is_empty() && !is_end {
        return Err(NfsError::TooSmall);
    }
    Ok(Listing { entries, is_end })
}

// Adds the entries behind the cookie until there is no room for one. Answers whether there is none
// behind them.
fn fill<'b, D: BlockDisk, J: Naming, V: Version, W: Wait, E: Shown + Drop>(
    rt: &W,
    session: &mut Session<'b, J, SoundFiles<V>>,
    files: &FileStore<'b, D, J, V>,
    directory: &Attributes,
    cookie: u64,
    room: usize,
    entries: &mut Vec<E>,
) -> Result<bool, NfsError>
    requires { entries.old.items ≡ [] }
    ensures fills { Fills V.VERSION cookie directory.now (λ es. length es ≤ room) session.old session.new (λ e. listed_of (E.entry_in e)) entries.new.items result }
    ensures few { IfOk result (λ is_end. length entries.new.items ≤ LAST_COOKIE) }
    ensures shown { IfOk result (λ is_end. All (E.shows V.VERSION) entries.new.items) }
{
    for next in cookie.min(LAST_COOKIE) + 1..LAST_COOKIE + 1 {
        let Some(entry) = find_entry(rt, session, files, directory, next)? else {
            continue;
        };
        if entries.len() >= room {
            return Ok(false);
        }
        if entries.push(E::show(files.version(), entry)).is_err() {
            return Err(NfsError::ServerFault);
        }
    }
    Ok(true)
}

// The entry of a cookie, if it is there.
fn find_entry<'b, D: BlockDisk, J: Naming, V: Version, W: Wait>(
    rt: &W,
    session: &mut Session<'b, J, SoundFiles<V>>,
    files: &FileStore<'b, D, J, V>,
    directory: &Attributes,
    cookie: u64,
) -> Result<Option<Entry>, NfsError>
    requires { (1 ≤ cookie) × (cookie ≤ LAST_COOKIE) }
    ensures { Finds V.VERSION cookie directory.now session.old session.new listed_of result }
{
    // The first two are `.` and `..`, which are both the root.
    if cookie <= PARENT {
        return Ok(Some(Entry {
            cookie,
            generation: ROOT_GENERATION,
            attributes: *directory,
        }));
    }
    match find_file(rt, session, files, (cookie - 1) as u32)? {
        None => Ok(None),
        Some(found) => Ok(Some(Entry {
            cookie,
            generation: found.generation,
            attributes: found.file,
        })),
    }
}

// The file of a number, if it is there.
pub(crate) fn find_file<'b, D: BlockDisk, J: Naming, V: Version, W: Wait>(
    rt: &W,
    session: &mut Session<'b, J, SoundFiles<V>>,
    files: &FileStore<'b, D, J, V>,
    number: u32,
) -> Result<Option<Found>, NfsError>
    ensures { LooksFor V.VERSION number session.old session.new result }
{
    let name = file_name(number);
    let place = DirectoryEntry {
        directory: ROOT_HANDLE,
        name: &name,
    };
    match look_up(rt, session, files, &place) {
        Ok(found) => Ok(Some(found)),
        Err(why) => match why {
            NfsError::NoEntry => Ok(None),
            other => Err(other),
        },
    }
}
