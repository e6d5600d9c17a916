// The file of the disk.

use journal_world::BLOCK_BYTES;
use std::fs::{File, Files, OpenFile, OpenOptions};
use std::{fs, io};

// The number of blocks of the disk: 4 TiB. The file takes room only for those that were written.
const BLOCKS: u64 = 1 << 30;

// The number of blocks if the file system takes no file of that size: 256 GiB.
const FEWER_BLOCKS: u64 = 1 << 26;

/// Makes a new file of zeros at the path, which is a disk whose objects are all zeros. False if the
/// file system takes no file of 4 TiB. The file then has 256 GiB.
///
/// # Errors
/// - Something is at the path already. It is as it was.
/// - The system refuses the file. A file that was begun is removed.
pub fn make<R: Files<File = File>>(rt: &R, path: &str) -> io::Result<bool> {
    let file = OpenOptions::new()
        .write(true)
        .create_new(true)
        .open(rt, path)?;
    if file.set_len(BLOCKS * BLOCK_BYTES as u64).is_ok() {
        return Ok(true);
    }
    let made = file.set_len(FEWER_BLOCKS * BLOCK_BYTES as u64);
    if made.is_err() {
        // The first fault is answered, whether this succeeds or not.
        let _ = fs::remove_file(rt, path);
    }
    made?;
    Ok(false)
}
