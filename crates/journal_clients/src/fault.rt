// Why a disk was not made in a file, or not served.

use crate::mirrored::Explained;
use journal_program::{DeviceFault, LabelFault, OpenFault};
use journal_world::Refusal;
use std::io;

/// Why a disk was not made in a file, or not served to the end.
#[derive(Debug, Drop)]
pub enum ServiceFault {
    /// The file could not be made, opened, read to its end, or made stable, for the system's
    /// reason.
    File(io::Error),
    /// The port is not to be had, or the system refused a connection.
    CannotListen,
    /// The label of the disk is not that of the file.
    Label(LabelFault),
    /// It cannot be used as a block device, or a disk is in no such file.
    Device(DeviceFault),
    /// A need of the service was refused, or the mount, or the close.
    Refused(Refusal<()>),
    /// The device failed while the disk was served, for the system's reason.
    DeviceFailed(io::Error),
    /// The output failed.
    CannotWrite,
}

impl ServiceFault {
    /// The disk in a file was not opened. Where no disk has so many blocks, that is a mount's
    /// refusal.
    pub fn unopened(why: OpenFault) -> ServiceFault {
        match why {
            OpenFault::File(why) => ServiceFault::File(why),
            OpenFault::NoDisk { .. } => ServiceFault::Refused(Refusal::BadSuper),
            OpenFault::Label(why) => ServiceFault::Label(why),
            OpenFault::Device(why) => ServiceFault::Device(why),
            OpenFault::Refused(why) => ServiceFault::Refused(why),
        }
    }

    /// The same fault, or where a call of the disk failed, the reason for that.
    pub fn or_of_device<D: Explained>(self, disk: D) -> ServiceFault {
        match disk.into_reason() {
            Some(why) => ServiceFault::DeviceFailed(why),
            None => self,
        }
    }

    /// It was refused.
    pub fn refused<C: Drop>(why: Refusal<C>) -> ServiceFault {
        ServiceFault::Refused(why.with_cause(()))
    }
}
