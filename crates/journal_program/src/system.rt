// The refusals of the system, and their reasons.

use std::io;
use std::io::ErrorKind;

/// Why a file system takes no lock that keeps none: EINVAL, ENOLCK, ENOSYS and EOPNOTSUPP.
pub(crate) const KEEPS_NO_LOCKS: &[i32] = &[22, 37, 38, 95];

/// Why it takes no sync of what can only be read, or of a folder: EBADF, EINVAL, EROFS, ENOSYS and
/// EOPNOTSUPP.
pub(crate) const TAKES_NO_SYNC: &[i32] = &[9, 22, 30, 38, 95];

/// Whether it was done. `false` says that the system refused it for one of these reasons.
pub(crate) fn is_done(done: io::Result<()>, unless: &[i32]) -> io::Result<bool> {
    match done {
        Ok(()) => Ok(true),
        Err(e) => match e.raw_os_error() {
            Some(number) if unless.contains(&number) => Ok(false),
            _ => Err(e),
        },
    }
}

/// Whether it says that the file cannot be opened to be written, but maybe to be read.
pub(crate) fn may_only_be_read(fault: &io::Error) -> bool {
    matches!(
        fault.kind(),
        ErrorKind::PermissionDenied | ErrorKind::ReadOnlyFilesystem
    )
}

/// Whether it says that another program has the file's lock.
pub(crate) fn is_locked(fault: &io::Error) -> bool {
    fault.kind() == ErrorKind::WouldBlock
}
