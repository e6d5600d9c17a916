// Disks are opened, and what was done is printed.

use crate::fault::Fault;
use journal_program::{FoundDisk, SizedDisk, ToCheck, find_disk, open_to_check};
use std::alloc::Global;
use std::fs::{File, Files};
use std::io::Write;

/// Looks at the disk in the file at the path, which no other program uses as long as it is open.
/// Nothing is written to it.
///
/// # Errors
/// - Those of `find_disk`.
pub fn find<'w, R: Files<File = File>>(
    rt: &R,
    alloc: Global,
    path: &'w str,
) -> Result<FoundDisk, Fault<'w>> {
    match find_disk(rt, alloc, path) {
        Ok(found) => Ok(found),
        Err(why) => Err(Fault::unopened(path, why)),
    }
}

/// The disk that was found in the file at the path, once what it reads is stable.
///
/// # Errors
/// - Those of `FoundDisk::settle`.
pub fn settle<'w>(alloc: Global, path: &'w str, found: FoundDisk) -> Result<SizedDisk, Fault<'w>> {
    match found.settle(alloc) {
        Ok(settled) => Ok(settled.disk()),
        Err(why) => Err(Fault::unopened(path, why)),
    }
}

/// Opens the disk in the file at the path to be read, and reads what it is.
///
/// # Errors
/// - Those of `open_to_check`.
pub fn open_to_read<'w, R: Files<File = File>, E: Write>(
    rt: &R,
    alloc: Global,
    path: &'w str,
    faults: &mut E,
) -> Result<ToCheck, Fault<'w>> {
    match open_to_check(rt, alloc, path, faults) {
        Ok(opened) => Ok(opened),
        Err(why) => Err(Fault::unopened(path, why)),
    }
}

/// Prints a line, and writes the output out.
///
/// # Errors
/// - `CannotWrite`: the output fails.
pub fn print_line<'w, O: Write>(output: &mut O, word: &str, more: &str) -> Result<(), Fault<'w>> {
    match writeln!(output, "{word}{more}").and_then(|()| output.flush()) {
        Ok(()) => Ok(()),
        Err(_) => Err(Fault::CannotWrite),
    }
}
