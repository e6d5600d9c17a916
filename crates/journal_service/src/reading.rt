// The files of a disk are read.
ghost use Rattle.std.specs.Prelude.{◌≡◌};
ghost use Rattle.journal_world.specs.Files.{files};

use crate::checking::{ROOT, name_of};
use crate::mounting::{Tried, mount, slot_cell};
use crate::serving::close;
use journal_clients::{ServiceFault, begin_session};
use journal_filestore::{Answer, Attributes, Fault, FileStore, Found, Handle};
use journal_history::{Book, Naming, Session};
use journal_inode::{INODES, SoundFiles, Time, Version, VersionOne, VersionTwo};
use journal_lockmap::SlotCell;
use journal_program::{Settled, SharedDisk, SizedDisk};
use journal_world::{Moment, Refusal};
use std::alloc::Global;
use std::marker::Brand;
use std::sync::Wait;

// How many bytes of a file are asked for at once.
const PART_BYTES: u32 = 8192;

/// A file of a flat disk, as it was read.
#[derive(Drop)]
pub struct FlatFile {
    /// Its name.
    pub name: [u8; 4],
    /// When its bytes last changed, or what a client has set in place of that.
    pub mtime: Moment,
    /// All its bytes.
    pub bytes: Vec<u8>,
}

/// The files of the disk, of either version, in the order of their names. Nothing is written to the
/// disk.
///
/// # Errors
/// - `Refused`: J7 `BadLog`, where its log is not well formed; J8 `BadSuper`, where its files are
///   sound in no version, or one of them changes while it is read; J1 `NoMemory`; J6
///   `DeviceFailed`.
pub fn read_files<W: Wait>(
    rt: &W,
    alloc: Global,
    disk: SharedDisk,
) -> Result<Vec<FlatFile>, ServiceFault> {
    let disk = Settled::unwritten(disk.disk());
    match read_in::<VersionTwo, W>(rt, alloc, disk)? {
        Tried::Sound(found) => Ok(found),
        Tried::Other(disk) => read_in::<VersionOne, W>(rt, alloc, disk)?.sound(),
    }
}

// The files of the disk, where they are sound in a version.
fn read_in<V: Version, W: Wait>(
    rt: &W,
    alloc: Global,
    settled: Settled,
) -> Result<Tried<Vec<FlatFile>>, ServiceFault> {
    let book: Book<SoundFiles<V>> = Book::open::<()>().unwrap();
    let cell = slot_cell(alloc)?;
    read_mounted::<Brand, V, W>(rt, alloc, &book, cell, settled.disk())
}

// Mounts the disk, and reads its files.
fn read_mounted<J: Naming, V: Version, W: Wait>(
    rt: &W,
    alloc: Global,
    book: &Book<SoundFiles<V>>,
    cell: SlotCell,
    disk: SizedDisk,
) -> Result<Tried<Vec<FlatFile>>, ServiceFault>
    requires book { book.now ≡ J.book }
    requires cell { cell ≡ J.cell }
    requires layout { J.layout ≡ files disk.size }
{
    let store: FileStore<SizedDisk, J, V> = match mount(alloc, book, cell, disk)? {
        Tried::Sound(store) => store,
        Tried::Other(disk) => return Ok(Tried::Other(disk)),
    };
    let read = read_all(rt, alloc, &store);
    close(rt, store)?;
    Ok(Tried::Sound(read?))
}

// The files of a mounted disk.
fn read_all<'b, J: Naming, V: Version, W: Wait>(
    rt: &W,
    alloc: Global,
    store: &FileStore<'b, SizedDisk, J, V>,
) -> Result<Vec<FlatFile>, ServiceFault> {
    let mut session = begin_session(rt, store.journal())?;
    let mut read = Vec::new(alloc);
    for number in ROOT + 1..INODES {
        if let Some(file) = read_file(rt, alloc, store, &mut session, number)?
            && read.push(file).is_err()
        {
            return Err(ServiceFault::Refused(Refusal::NoMemory));
        }
    }
    Ok(read)
}

// The file of the name of this number, if there is one.
fn read_file<'b, J: Naming, V: Version, W: Wait>(
    rt: &W,
    alloc: Global,
    store: &FileStore<'b, SizedDisk, J, V>,
    session: &mut Session<'b, J, SoundFiles<V>>,
    number: u32,
) -> Result<Option<FlatFile>, ServiceFault> {
    let name = name_of(number);
    let Some(root) = Handle::new(ROOT, ROOT) else {
        return Ok(None);
    };
    let Ok(found) = answer(store.lookup(rt, session, root, &name))? else {
        return Ok(None);
    };
    let Found {
        generation,
        file,
        ..
    } = found;
    let Some(handle) = Handle::new(file.number, generation) else {
        return Ok(None);
    };
    Ok(Some(FlatFile {
        name,
        mtime: moment_of(file.mtime),
        bytes: read_bytes(rt, alloc, store, session, handle, file)?,
    }))
}

// All bytes of the file.
fn read_bytes<'b, J: Naming, V: Version, W: Wait>(
    rt: &W,
    alloc: Global,
    store: &FileStore<'b, SizedDisk, J, V>,
    session: &mut Session<'b, J, SoundFiles<V>>,
    handle: Handle,
    file: Attributes,
) -> Result<Vec<u8>, ServiceFault> {
    let mut bytes = Vec::new(alloc);
    for _ in 0..file.size.div_ceil(u64::from(PART_BYTES)) {
        let offset = bytes.len() as u64;
        let Ok(part) = answer(store.read(rt, session, handle, offset, PART_BYTES))? else {
            return Err(ServiceFault::Refused(Refusal::BadSuper));
        };
        if bytes.extend_from_slice(part.bytes()).is_err() {
            return Err(ServiceFault::Refused(Refusal::NoMemory));
        }
    }
    if bytes.len() as u64 != file.size {
        return Err(ServiceFault::Refused(Refusal::BadSuper));
    }
    Ok(bytes)
}

// The answer of a call.
fn answer<A: Drop, C: Drop>(
    called: Result<Answer<A>, Fault<C>>,
) -> Result<Answer<A>, ServiceFault> {
    match called {
        Ok(answer) => Ok(answer),
        Err(Fault::Refused(why) | Fault::Unsure(why)) => Err(ServiceFault::refused(why)),
    }
}

// The time as a moment. One that is none within its second is the second's beginning.
fn moment_of(time: Time) -> Moment {
    Moment::new(time.secs, time.nanos).unwrap_or(Moment {
        secs: time.secs,
        nanos: 0,
    })
}
