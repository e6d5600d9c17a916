// Why a disk in a file is not opened.

use crate::device::DeviceNumber;
use journal_world::{MAX_LAYOUT_BLOCKS, MIN_BLOCKS, Refusal};
use std::{fmt, io};

/// Why a disk in a file is not opened.
#[derive(Debug, Drop)]
pub enum OpenFault {
    /// The system refused the file, or a read, a write or a sync of it, for this reason.
    File(io::Error),
    /// The file has this number of blocks, which no disk has.
    NoDisk { blocks: u64 },
    /// The label of the disk is not that of the file.
    Label(LabelFault),
    /// It cannot be used as a block device, or is none.
    Device(DeviceFault),
    /// J1 `NoMemory` where memory is refused, J6 `DeviceFailed` where the device fails, and J7
    /// `BadLog` where the log is not well formed.
    Refused(Refusal<()>),
}

/// Why the label of a disk is not that of the file.
#[derive(Clone, Copy, Debug, PartialEq, Eq)]
pub enum LabelFault {
    /// The file has this number of blocks, fewer than its label says: it was cut.
    Cut { blocks: u64, labeled: u64 },
    /// The label begins with its name, and is not well formed.
    Bad,
}

/// Why something cannot be used as a block device, or is none.
#[derive(Debug, Drop)]
pub enum DeviceFault {
    /// It is neither a file nor a block device.
    NoMedium,
    /// It is no block device.
    NoDevice,
    /// The file of the lock of this device cannot be opened, made or locked, for the system's
    /// reason.
    NoLock {
        number: DeviceNumber,
        why: io::Error,
    },
    /// This block is to be zeros, and has another byte.
    NotZeros {
        block: u64,
    },
}

impl From<io::Error> for OpenFault {
    fn from(why: io::Error) -> OpenFault {
        OpenFault::File(why)
    }
}

/// The words after the path of the file in a line.
impl fmt::Display for OpenFault {
    fn fmt<W: fmt::Write>(&self, f: &mut fmt::Formatter<W>) -> fmt::Result {
        match self {
            OpenFault::File(why) => write!(f, "cannot be used: {why}"),
            OpenFault::NoDisk { blocks } => write!(
                f,
                "has {blocks} blocks, and a disk has {MIN_BLOCKS} to {MAX_LAYOUT_BLOCKS}"
            ),
            OpenFault::Label(why) => write!(f, "{why}"),
            OpenFault::Device(why) => write!(f, "{why}"),
            OpenFault::Refused(why) => write!(f, "is refused: {}", why.name()),
        }
    }
}

/// The words after the path of the file in a line.
impl fmt::Display for LabelFault {
    fn fmt<W: fmt::Write>(&self, f: &mut fmt::Formatter<W>) -> fmt::Result {
        match self {
            LabelFault::Cut { blocks, labeled } => {
                write!(
                    f,
                    "has {blocks} blocks, and its label says {labeled}: it was cut"
                )
            }
            LabelFault::Bad => f.write_str("has a label that is not well formed"),
        }
    }
}

/// The words after the path of the device in a line.
impl fmt::Display for DeviceFault {
    fn fmt<W: fmt::Write>(&self, f: &mut fmt::Formatter<W>) -> fmt::Result {
        match self {
            DeviceFault::NoMedium => f.write_str("is neither a file nor a block device"),
            DeviceFault::NoDevice => f.write_str("is no block device"),
            DeviceFault::NoLock { number, why } => {
                write!(
                    f,
                    "is locked by {number}, which this user must be able to write, or to make: {why}"
                )
            }
            DeviceFault::NotZeros { block } => {
                write!(f, "has other bytes than zeros in block {block}")
            }
        }
    }
}
