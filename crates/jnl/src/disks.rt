// The subcommands on disks in files.

use crate::labels::print_label;
use journal_commands::{
    Fault, RegionWords, Regions, find, label_of, open_to_read, print_line, settle,
};
use journal_disk::BlockDisk;
use journal_form::{FileFormat, LogForm, change_form};
use journal_program::{
    DiskFacts, Room, SizedDisk, Zeros, create_labeled_disk, find_device, is_disk_size,
};
use journal_world::Refused;
use std::alloc::Global;
use std::fs::{File, Files};
use std::io::Write;
use std::{fs, io};

// The line of a disk that was checked. A copy of a disk that was written meanwhile may have
// such a log too.
const WELL_FORMED: &str = "log well formed";

// The end of that line for a disk with files, which another program reads.
const UNCHECKED: &str = "; its files are checked by jnlfs check FILE";

// The words for the files of a disk.
const NO_FILES: &str = "no";

const FLAT_FILES: &str = "yes, of jnlfs";

const TREE: &str = "a tree, of jnlfs";

/// A disk on a block device that is asked for.
#[derive(Clone, Copy)]
pub struct AskedDevice<'w> {
    /// The path of the device.
    pub path: &'w str,
    /// The regions of its layout, where any are named.
    pub regions: Option<Regions>,
    /// How its blocks come to be zeros.
    pub zeros: Zeros,
    /// Whether what the device holds is to be destroyed.
    pub force: bool,
}

/// Makes an empty disk of this number of blocks, 532 to 2^40, in a new file at the path, with this
/// room in its file system. Its log is sealed, and its label has the number of blocks and the
/// regions of its layout. Where none are named, these are those of files if so few blocks have
/// them, and else the label has none.
///
/// # Errors
/// - `NoDisk`: no disk of these regions has this number of blocks. Nothing was made.
/// - `File`: the system's reason, as where anything is at the path, which stays as it is. A file
///   that was begun is removed.
/// - `Refused`: memory is refused, or the device fails. The file is removed.
pub fn create<'w, R: Files<File = File>>(
    rt: &R,
    alloc: Global,
    path: &'w str,
    blocks: u64,
    regions: Option<Regions>,
    room: Room,
) -> Result<(), Fault<'w>> {
    let Some(label) = label_of(blocks, regions) else {
        return Err(Fault::NoDisk { path, blocks });
    };
    let disk = match create_labeled_disk(rt, alloc, path, &label, room) {
        Ok(disk) => disk,
        Err(why) => return Err(Fault::unopened(path, why)),
    };
    let sealed = give_form(alloc, path, disk, LogForm::Sealed);
    if sealed.is_err() {
        // The first fault is answered, whether this succeeds or not.
        let _ = fs::remove_file(rt, path);
    }
    sealed?;
    Ok(())
}

/// Makes an empty disk of all blocks of the block device at the path, and prints its label. The log
/// and the label are as by `create`. What was on the device is gone. A line in `faults` after each
/// tenth says how far it is.
///
/// Where it does not come to its end, no program uses the device as a disk.
///
/// # Errors
/// - The path is not that of a block device, another program has it, or its lock cannot be had.
/// - It has fewer blocks than a disk.
/// - It holds something, and this is not to be destroyed.
/// - It is to have zeros already, and a block has others. Nothing was written until then.
/// - The system's reason, where the device cannot be read or written; and J1 `NoMemory`.
pub fn create_on_device<'w, R: Files<File = File>, O: Write, E: Write>(
    rt: &R,
    alloc: Global,
    device: AskedDevice<'w>,
    output: &mut O,
    faults: &mut E,
) -> Result<(), Fault<'w>> {
    let path = device.path;
    let found = match find_device(rt, alloc, path) {
        Ok(found) => found,
        Err(why) => return Err(Fault::unopened(path, why)),
    };
    let blocks = found.blocks;
    if let Some(content) = found.content
        && !device.force
    {
        return Err(Fault::Holds { path, content });
    }
    let Some(label) = label_of(blocks, device.regions) else {
        return Err(Fault::NoDisk { path, blocks });
    };
    match found.make(alloc, path, &label, device.zeros, faults) {
        Ok(disk) => give_form(alloc, path, disk, LogForm::Sealed)?,
        Err(why) => return Err(Fault::unopened(path, why)),
    };
    print_label(&label, output)
}

/// Prints the number of blocks of the disk, the form of its log, the format of its files if it is a
/// disk of the file service, whether it has a label, and the regions that this has. Nothing is
/// written to it.
///
/// # Errors
/// - Those of a disk that is opened to be read.
/// - `CannotWrite`: the output fails.
pub fn info<'w, R: Files<File = File>, O: Write, E: Write>(
    rt: &R,
    alloc: Global,
    path: &'w str,
    output: &mut O,
    faults: &mut E,
) -> Result<(), Fault<'w>> {
    let facts = open_to_read(rt, alloc, path, faults)?.facts;
    match print_facts(&facts, output).and_then(|()| output.flush()) {
        Ok(()) => Ok(()),
        Err(_) => Err(Fault::CannotWrite),
    }
}

fn print_facts<O: Write>(facts: &DiskFacts, output: &mut O) -> io::Result<()> {
    let form = facts.form.name();
    let files = match facts.files {
        None => NO_FILES,
        Some(FileFormat::Flat) => FLAT_FILES,
        Some(FileFormat::Tree) => TREE,
    };
    writeln!(output, "blocks {}\nlog {form}\nfiles {files}", facts.blocks)?;
    match facts.label {
        Some(label) => writeln!(output, "label yes\nregions {}", RegionWords(label.told())),
        None => writeln!(output, "label no"),
    }
}

/// Prints that the log of the disk is well formed, and of a disk of the file service which program
/// checks its files. Nothing is written to it.
///
/// # Errors
/// - Those of a disk that is opened to be read.
/// - `CannotWrite`: the output fails.
pub fn check<'w, R: Files<File = File>, O: Write, E: Write>(
    rt: &R,
    alloc: Global,
    path: &'w str,
    output: &mut O,
    faults: &mut E,
) -> Result<(), Fault<'w>> {
    let facts = open_to_read(rt, alloc, path, faults)?.facts;
    let more = if facts.files.is_some() { UNCHECKED } else { "" };
    print_line(output, WELL_FORMED, more)
}

/// Gives the log of the disk this form, and prints the form. Where the log has it already, that is
/// printed, and no byte is changed.
///
/// # Errors
/// - Those of a disk that is opened to be written. Its log has the form before.
/// - `Refused`: memory is refused, or the device fails. Its log has the one form or the other.
/// - `CannotWrite`: the output fails. The log has the form.
pub fn seal<'w, R: Files<File = File>, O: Write>(
    rt: &R,
    alloc: Global,
    path: &'w str,
    form: LogForm,
    output: &mut O,
) -> Result<(), Fault<'w>> {
    let disk = settle(alloc, path, find(rt, alloc, path)?)?;
    let was = give_form(alloc, path, disk, form)?;
    let already = if was == form { " already" } else { "" };
    print_line(output, form.name(), already)
}

// Gives the log of the disk this form, and answers the form that it had.
fn give_form<'w>(
    alloc: Global,
    path: &'w str,
    disk: SizedDisk,
    form: LogForm,
) -> Result<LogForm, Fault<'w>> {
    let blocks = disk.size();
    if !is_disk_size(blocks) {
        return Err(Fault::NoDisk { path, blocks });
    }
    match change_form(alloc, disk, form) {
        Ok(changed) => Ok(changed.was),
        Err(Refused { refusal, .. }) => Err(Fault::Refused { path, why: refusal }),
    }
}
