// The lock of a block device.
ghost use Rattle.std.specs.Prelude.{◌≡◌};
ghost use Rattle.journal_program.specs.Devices.{number_of};

use crate::fault::{DeviceFault, OpenFault};
use crate::file::{lock, open_file};
use journal_world::Refusal;
use os::RangeLock;
use std::alloc::Global;
use std::fs::{File, Files, OpenFile, OpenOptions, Permissions};
use std::io::ErrorKind;
use std::os::unix::fs::{FileTypeExt, MetadataExt, PermissionsExt};
use std::{fmt, io};

// Each user of the machine may lock the file of a device: who may use the device has to.
const LOCK_MODE: u32 = 0o666;

// How many numbers the low and the high part of a major and of a minor number have, in the system's
// encoding of both: minor low, major low, minor high, major high, from the lowest bits on.
const MINOR_LOW: u64 = 1 << 8;

const MAJOR_LOW: u64 = 1 << 12;

const MINOR_HIGH: u64 = 1 << 24;

/// The number of a device, by which the system knows it: it is the same by each node of the device.
#[derive(Clone, Copy, Debug, PartialEq, Eq)]
pub struct DeviceNumber {
    major: u64,
    minor: u64,
}

impl DeviceNumber {
    /// The number that the system encodes so.
    fn decode(encoded: u64) -> DeviceNumber
        ensures { number_of result ≡ encoded }
    {
        let minor_low = encoded % MINOR_LOW;
        let major_low = encoded / MINOR_LOW % MAJOR_LOW;
        let minor_high = encoded / MINOR_LOW / MAJOR_LOW % MINOR_HIGH;
        let major_high = encoded / MINOR_LOW / MAJOR_LOW / MINOR_HIGH;
        DeviceNumber {
            major: major_low + major_high * MAJOR_LOW,
            minor: minor_low + minor_high * MINOR_LOW,
        }
    }
}

/// The path of the file that is locked for the device.
impl fmt::Display for DeviceNumber {
    fn fmt<W: fmt::Write>(&self, f: &mut fmt::Formatter<W>) -> fmt::Result {
        write!(f, "/run/lock/palkhuveg-{}-{}", self.major, self.minor)
    }
}

/// The lock of a block device by its number, as long as it is open. The lock of a node is not that
/// of another node of the device.
#[derive(Drop)]
pub(crate) struct DeviceLock {
    // It is locked as long as it is open. Nothing is read from it.
    _file: File,
}

/// The media of a disk.
#[derive(Clone, Copy, Debug, PartialEq, Eq)]
pub(crate) enum Medium {
    /// An ordinary file.
    Ordinary,
    /// The block device of this number.
    Device(DeviceNumber),
}

/// The kind of the open file.
///
/// Refused where a disk can be in no such file: it is neither an ordinary file nor a block device.
pub(crate) fn medium_of(file: &File) -> Result<Medium, OpenFault> {
    let found = file.metadata()?;
    if found.is_file() {
        return Ok(Medium::Ordinary);
    }
    if found.file_type().is_block_device() {
        return Ok(Medium::Device(DeviceNumber::decode(found.rdev())));
    }
    Err(OpenFault::Device(DeviceFault::NoMedium))
}

/// Locks the device that the medium is, if it is one.
///
/// Refused as `lock_device` is.
pub(crate) fn lock_medium<R: Files<File = File>>(
    rt: &R,
    alloc: Global,
    medium: Medium,
    kind: RangeLock,
) -> Result<Option<DeviceLock>, OpenFault> {
    match medium {
        Medium::Ordinary => Ok(None),
        Medium::Device(number) => Ok(Some(lock_device(rt, alloc, number, kind)?)),
    }
}

// Locks the device of this number. The file of its lock is made where it is not there.
//
// Refused by `WouldBlock` where another program has the lock, by `NoLock` where the file cannot be
// had, and by J1 `NoMemory`.
fn lock_device<R: Files<File = File>>(
    rt: &R,
    alloc: Global,
    number: DeviceNumber,
    kind: RangeLock,
) -> Result<DeviceLock, OpenFault> {
    let Ok(path) = format!(in alloc; "{number}") else {
        return Err(OpenFault::Refused(Refusal::NoMemory));
    };
    match open_locked(rt, path.as_str(), kind) {
        Ok(file) => Ok(DeviceLock { _file: file }),
        Err(why) if why.kind() == ErrorKind::WouldBlock => Err(OpenFault::File(why)),
        Err(why) => Err(OpenFault::Device(DeviceFault::NoLock { number, why })),
    }
}

// Opens the file of a lock, or makes it, and locks it.
fn open_locked<R: Files<File = File>>(rt: &R, path: &str, kind: RangeLock) -> io::Result<File> {
    let file = match open_file(rt, OpenOptions::new().write(true), path) {
        Err(why) if why.kind() == ErrorKind::NotFound => make_lock_file(rt, path)?,
        opened => opened?,
    };
    lock(&file, kind)?;
    Ok(file)
}

// Makes the file of a lock. It is asked for only where it is not there: in a folder that all users
// may write to, the system refuses to make a file that is there and belongs to another user.
fn make_lock_file<R: Files<File = File>>(rt: &R, path: &str) -> io::Result<File> {
    let file = open_file(rt, OpenOptions::new().write(true).create(true), path)?;
    // Where another program of another user made it meanwhile, that one does this.
    let _ = file.set_permissions(Permissions::from_mode(LOCK_MODE));
    Ok(file)
}
