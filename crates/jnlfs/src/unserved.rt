// Why a disk of files is not made, checked or served.

use journal_clients::ServiceFault;
use journal_commands::Fault;

/// The fault by which the program ends where the disk in the file at the path was not made,
/// checked, migrated or served to the end.
pub fn unserved<'w>(path: &'w str, why: ServiceFault) -> Fault<'w> {
    match why {
        ServiceFault::File(why) => Fault::File { path, why },
        ServiceFault::CannotListen => Fault::CannotListen,
        ServiceFault::Label(why) => Fault::Label { path, why },
        ServiceFault::Device(why) => Fault::Device { path, why },
        ServiceFault::Refused(why) => Fault::Refused { path, why },
        ServiceFault::DeviceFailed(why) => Fault::DeviceFailed { path, why },
        ServiceFault::CannotWrite => Fault::CannotWrite,
    }
}
