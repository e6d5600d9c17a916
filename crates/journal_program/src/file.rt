// Disks in files.
ghost use Rattle.std.specs.Prelude.{◌≡◌, ◌≤◌, IfOk};
ghost use Rattle.journal_world.specs.declared.layout.TheConstants.{MIN_BLOCKS, MAX_LAYOUT_BLOCKS};
ghost use Rattle.journal_program.specs.Labels.{IsLabel};

use crate::device::{DeviceLock, lock_medium, medium_of};
use crate::disk::SizedDisk;
use crate::fault::OpenFault;
use crate::label::Label;
use crate::labeling::write_label;
use crate::room::{Room, sync_folder, take_room};
use crate::streams::above_streams;
use journal_world::BLOCK_BYTES;
use os::RangeLock;
use std::alloc::Global;
use std::fs::{File, Files, OpenFile, OpenOptions};
use std::os::fd::AsRawFd;
use std::os::unix::fs::OpenOptionsExt;
use std::{fs, io};

// Who may use a new disk: its owner.
const NEW_MODE: u32 = 0o600;

/// Makes a new file of so many blocks of zeros at the path, and answers it as a disk without a
/// label that no other program uses as long as it is open. Its owner alone may read and write it.
/// Its name is stable then, and its log and what describes it have their room in the file system.
///
/// # Errors
/// - `AlreadyExists`: anything is at the path. It stays as it is.
/// - The system's reason: the file cannot be made, locked, filled or synced. It is removed, unless
///   another program has locked it already.
pub fn create_new_disk<R: Files<File = File>>(
    rt: &R,
    alloc: Global,
    path: &str,
    blocks: u64,
) -> io::Result<SizedDisk>
    requires { (MIN_BLOCKS ≤ blocks) × (blocks ≤ MAX_LAYOUT_BLOCKS) }
{
    let file = create_new_file(rt, path)?;
    let made = fill_named(rt, path, &file, blocks);
    remove_unless(rt, path, made.is_ok());
    made?;
    SizedDisk::over(alloc, file, blocks)
}

/// Makes a new file of zeros at the path, but for this label, and answers it as a disk as
/// `create_new_disk` does, with this room in its file system. The label is stable once the name is.
///
/// # Errors
/// - `File`: those of `create_new_disk`.
/// - `Refused`: J1 `NoMemory`. The file is removed.
pub fn create_labeled_disk<R: Files<File = File>>(
    rt: &R,
    alloc: Global,
    path: &str,
    label: &Label,
    room: Room,
) -> Result<SizedDisk, OpenFault>
    requires { IsLabel label.now }
{
    let file = create_new_file(rt, path)?;
    let made = fill_labeled(rt, alloc, path, &file, label, room);
    remove_unless(rt, path, made.is_ok());
    made?;
    let disk = SizedDisk::over(alloc, file, label.blocks)?;
    Ok(disk)
}

/// Makes the file at the path one of so many blocks of zeros, and answers it as a disk without a
/// label that no other program uses as long as it is open. A file that was there loses its content.
/// Its name is stable then, and its log and what describes it have their room in the file system.
///
/// # Errors
/// - `WouldBlock`: another program has its lock. Its content is as it was.
/// - The system's reason: the file cannot be made, filled or synced. Its old content may be gone.
pub fn create_disk<R: Files<File = File>>(
    rt: &R,
    alloc: Global,
    path: &str,
    blocks: u64,
) -> io::Result<SizedDisk>
    requires { (MIN_BLOCKS ≤ blocks) × (blocks ≤ MAX_LAYOUT_BLOCKS) }
    ensures { IfOk result (λ disk. disk.size ≡ blocks) }
{
    // It is not truncated as it is opened, since it is not locked yet.
    let file = open_file(rt, OpenOptions::new().write(true).create(true), path)?;
    lock(&file, RangeLock::Exclusive)?;
    fill_named(rt, path, &file, blocks)?;
    SizedDisk::over(alloc, file, blocks)
}

/// Gives a file that is whole and stable another path in its folder, and makes that stable. It has
/// its old path no longer then.
///
/// # Errors
/// - `AlreadyExists`: anything is at the other path. It stays as it is, and the file keeps its own.
/// - The system's reason: the other path was not given to it, or it has both, or the other one may
///   not be stable.
pub fn rename_new_file<R: Files<File = File>>(rt: &R, old: &str, new: &str) -> io::Result<()> {
    fs::hard_link(rt, old, new)?;
    fs::remove_file(rt, old)?;
    sync_folder(rt, new)
}

/// Makes a new file at the path that its owner alone may read and write, and locks it.
pub(crate) fn create_new_file<R: Files<File = File>>(rt: &R, path: &str) -> io::Result<File> {
    let mut options = OpenOptions::new();
    let options = options.write(true).create_new(true).mode(NEW_MODE);
    let file = open_file(rt, options, path)?;
    lock(&file, RangeLock::Exclusive)?;
    Ok(file)
}

/// Removes a file that was begun, unless it was made to the end. The first fault is answered,
/// whether this succeeds or not.
pub(crate) fn remove_unless<R: Files<File = File>>(rt: &R, path: &str, is_made: bool) {
    if !is_made {
        let _ = fs::remove_file(rt, path);
    }
}

// Makes a file that is locked a disk of zeros, and makes its name stable.
fn fill_named<R: Files<File = File>>(rt: &R, path: &str, file: &File, blocks: u64) -> io::Result<()>
    requires { (MIN_BLOCKS ≤ blocks) × (blocks ≤ MAX_LAYOUT_BLOCKS) }
{
    fill(file, blocks, Room::Log)?;
    keep(rt, path, file)
}

// Makes a file that is locked a disk of zeros with this label, and makes its name stable.
fn fill_labeled<R: Files<File = File>>(
    rt: &R,
    alloc: Global,
    path: &str,
    file: &File,
    label: &Label,
    room: Room,
) -> Result<(), OpenFault>
    requires { IsLabel label.now }
{
    fill(file, label.blocks, room)?;
    write_label(alloc, file, label)?;
    keep(rt, path, file)?;
    Ok(())
}

// Makes a file that is locked one of so many blocks of zeros, with this room.
fn fill(file: &File, blocks: u64, room: Room) -> io::Result<()>
    requires { (MIN_BLOCKS ≤ blocks) × (blocks ≤ MAX_LAYOUT_BLOCKS) }
{
    file.set_len(0)?;
    file.set_len(blocks * BLOCK_BYTES as u64)?;
    take_room(file, blocks, room)
}

/// Makes the file and its name stable.
pub(crate) fn keep<R: Files<File = File>>(rt: &R, path: &str, file: &File) -> io::Result<()> {
    file.sync_all()?;
    sync_folder(rt, path)
}

/// A file, or a block device, that is locked as long as it is open.
#[derive(Drop)]
pub(crate) struct LockedFile {
    pub(crate) file: File,
    /// The lock of the device by its number, if it is one.
    pub(crate) lock: Option<DeviceLock>,
}

/// Opens the file or the block device to be read alone, and locks it together with others that read
/// it.
///
/// Refused as `open_to_write` is.
pub(crate) fn open_to_share<R: Files<File = File>>(
    rt: &R,
    alloc: Global,
    path: &str,
) -> Result<LockedFile, OpenFault> {
    let file = open_file(rt, &mut OpenOptions::new(), path)?;
    let medium = medium_of(&file)?;
    lock(&file, RangeLock::Shared)?;
    let lock = lock_medium(rt, alloc, medium, RangeLock::Shared)?;
    Ok(LockedFile { file, lock })
}

/// Opens the file or the block device to be read and written, and locks it: no other program of
/// this machine uses it as long as it is open.
///
/// Refused for the system's reason, which is `WouldBlock` where another program has it; where it is
/// neither; where the lock of a device cannot be had; and by J1 `NoMemory`.
pub(crate) fn open_to_write<R: Files<File = File>>(
    rt: &R,
    alloc: Global,
    path: &str,
) -> Result<LockedFile, OpenFault> {
    let file = open_file(rt, OpenOptions::new().write(true), path)?;
    let medium = medium_of(&file)?;
    lock(&file, RangeLock::Exclusive)?;
    let lock = lock_medium(rt, alloc, medium, RangeLock::Exclusive)?;
    Ok(LockedFile { file, lock })
}

/// Opens the file to be read, and what else the options say.
pub(crate) fn open_file<R: Files<File = File>>(
    rt: &R,
    options: &mut OpenOptions,
    path: &str,
) -> io::Result<File> {
    above_streams(options.read(true).open(rt, path)?)
}

/// Locks the file for as long as it is open. Two programs that write to one disk would each write
/// over what the other has told to be stable, so who may write excludes all others.
pub(crate) fn lock(file: &File, kind: RangeLock) -> io::Result<()> {
    if os::try_lock_range(file.as_raw_fd(), kind, 0, BLOCK_BYTES as u64) != 0 {
        return Err(io::Error::from_raw_os_error(os::errno()));
    }
    Ok(())
}
