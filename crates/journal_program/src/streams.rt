// The numbers of the standard streams.

use std::fs::{File, Files, OpenFile};
use std::io;
use std::os::fd::{AsRawFd, IntoRawFd, RawFd};

// The number of standard error, the last of the three standard streams.
const LAST_STREAM: RawFd = 2;

/// The file under a number above those of the standard streams. Where one of these is closed the
/// system gives its number to the next file, and what is printed there would be written over the
/// disk.
pub(crate) fn above_streams(file: File) -> io::Result<File> {
    if file.as_raw_fd() > LAST_STREAM {
        return Ok(file);
    }
    // The number of a clone is above them whichever are closed.
    file.try_clone()
}

/// Gives the number of each standard stream that is closed to a folder, until the program ends.
/// Else the system gives it to the next file or connection, and what is printed would be written
/// there. A program that prints to such a stream fails all the same, because no folder can be
/// written.
pub fn hold_closed_streams<R: Files<File = File>>(rt: &R) {
    for _ in 0..=LAST_STREAM {
        let Ok(folder) = File::open(rt, "/") else {
            return;
        };
        if folder.as_raw_fd() > LAST_STREAM {
            return;
        }
        let _number = folder.into_raw_fd();
    }
}
