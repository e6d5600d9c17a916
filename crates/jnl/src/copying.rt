// A disk is copied.

use journal_commands::Fault;
use journal_program::{CopyFault, CopyPaths, copy_disk};
use std::alloc::Global;
use std::fs::{File, Files};
use std::io::Write;

/// Copies the disk in the file at the path to a new file, and prints what that is. Nobody writes
/// the disk meanwhile, so the copy is one image of it.
///
/// # Errors
/// The disk is as it was.
/// - Those of a disk that is opened to be read: a program that writes the disk has it, or its log
///   is not well formed.
/// - Anything is at the path of the copy, and the copy is not to replace it. It stays as it is.
/// - `HasPart`: a copy that was begun is beside the path of the copy. It stays as it is.
/// - The system's reason: the copy cannot be made. One that was to be replaced stays as it is.
/// - `CannotWrite`: the output fails. The copy is there.
pub fn back_up<'w, R: Files<File = File>, O: Write>(
    rt: &R,
    alloc: Global,
    path: &'w str,
    copy: &'w str,
    replaces: bool,
    output: &mut O,
) -> Result<(), Fault<'w>> {
    let Ok(part) = format!(in alloc; "{copy}.part") else {
        return Err(Fault::NoMemory);
    };
    let paths = CopyPaths {
        copy,
        part: part.as_str(),
        replaces,
    };
    let blocks = match copy_disk(rt, alloc, path, paths) {
        Ok(blocks) => blocks,
        Err(CopyFault::Disk(why)) => return Err(Fault::unopened(path, why)),
        Err(CopyFault::HasPart) => return Err(Fault::HasPart { copy }),
        Err(CopyFault::Copy(why)) => return Err(Fault::File { path: copy, why }),
    };
    let printed = writeln!(
        output,
        "{copy} is a copy of {path}: {blocks} blocks, log well formed"
    );
    match printed.and_then(|()| output.flush()) {
        Ok(()) => Ok(()),
        Err(_) => Err(Fault::CannotWrite),
    }
}
