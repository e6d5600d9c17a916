// A disk with a tree gets more blocks.
ghost use Rattle.std.specs.Prelude.{◌≡◌, ◌≤◌, IfOk, IfSome};
ghost use Rattle.journal_treestore.specs.Places.{IsCut};
ghost use Rattle.journal_treestore.specs.Growths.{IsGrowth};

use crate::disks::{HeldFiles, files_of};
use crate::making::TREE_BLOCKS;
use crate::unserved::unserved;
use journal_commands::Fault;
use journal_program::{DiskToLabel, LabelFault, OpenFault, Zeros, find_disk_to_label};
use journal_treeservice::{label_of_cut, move_records};
use journal_treestore::{Cut, NoGrowth, grown};
use std::alloc::Global;
use std::fs::{File, Files};
use std::io;
use std::io::{ErrorKind, Write};

// Why a disk does not grow by so few blocks.
const TOO_FEW: &str =
    "so few blocks have no room for the records of later blocks: jnlfs grow --help says how many a growth takes";

/// Gives the disk with a tree in the file at the path `blocks` blocks, and prints their number. Its
/// files stay as they are, with their handles and the numbers of their inodes.
///
/// # Errors
/// The disk has the same files, and its old number of blocks or the new one. Whatever the refusal,
/// and wherever the program is stopped, the growth may be asked for again.
/// - Those of a disk that is opened to be written, as where it is served.
/// - Those of `files_of`. `CannotGrow`: it has flat files.
/// - `Smaller`: it has more blocks.
/// - `NoSuchDisk`: no disk has this number of blocks, or they are too few for a growth.
/// - `File`: the system's reason, as where the file cannot be so long. Nothing of the disk has
///   changed then.
/// - `Refused`, `DeviceFailed`: memory is refused, its log is not well formed, or its device fails.
/// - `CannotWrite`: the output fails. The disk has its new blocks.
pub fn grow<'w, R: Files<File = File>, O: Write, E: Write>(
    rt: &R,
    alloc: Global,
    path: &'w str,
    blocks: u64,
    output: &mut O,
    faults: &mut E,
) -> Result<(), Fault<'w>> {
    let found = find_to_grow(rt, alloc, path)?;
    let HeldFiles::Tree(cut) = files_of(path, &found.facts)? else {
        return Err(Fault::CannotGrow { path });
    };
    if blocks < found.facts.blocks {
        return Err(Fault::Smaller {
            path,
            blocks: found.facts.blocks,
        });
    }
    if let Some(new) = grown_cut(path, cut.cut, blocks)? {
        widen(rt, alloc, path, found, cut.cut, new, faults)?;
    }
    print_blocks(blocks, output)
}

// How the disk at the path is cut once it has this number of blocks. `None` where it is cut so
// already.
fn grown_cut<'w>(path: &'w str, old: Cut, blocks: u64) -> Result<Option<Cut>, Fault<'w>>
    requires cut { IsCut old }
    ensures growth { IfOk result (λ new. IfSome new (IsGrowth old)) }
    ensures size { IfOk result (λ new. IfSome new (λ new. new.size ≡ blocks)) }
{
    match grown(old, blocks) {
        Ok(new) => Ok(Some(new)),
        Err(NoGrowth::TooFew) if blocks == old.size => Ok(None),
        Err(NoGrowth::TooFew) => Err(Fault::NoSuchDisk { why: TOO_FEW }),
        Err(NoGrowth::TooMany) => Err(Fault::NoSuchDisk { why: TREE_BLOCKS }),
        Err(NoGrowth::Fewer) => Err(Fault::Smaller {
            path,
            blocks: old.size,
        }),
    }
}

// Gives the disk at the path its new cut. One that grew before gets its blocks first, as a disk
// that is cut as before but for its end, and then the records of later blocks are moved.
fn widen<'w, R: Files<File = File>, E: Write>(
    rt: &R,
    alloc: Global,
    path: &'w str,
    found: DiskToLabel,
    old: Cut,
    new: Cut,
    faults: &mut E,
) -> Result<(), Fault<'w>>
    requires cut { IsCut old }
    requires growth { IsGrowth old new }
    requires longer { found.facts.blocks ≤ new.size }
{
    if !old.grew() {
        return lengthen(alloc, path, found, new, faults);
    }
    let longer = Cut {
        size: new.size,
        ..old
    };
    lengthen(alloc, path, found, longer, faults)?;
    match move_records(rt, alloc, path, longer, new) {
        Ok(()) => Ok(()),
        Err(why) => Err(unserved(path, why)),
    }
}

// Looks at the disk at the path, which is to get more blocks.
fn find_to_grow<'w, R: Files<File = File>>(
    rt: &R,
    alloc: Global,
    path: &'w str,
) -> Result<DiskToLabel, Fault<'w>> {
    match find_disk_to_label(rt, alloc, path) {
        Ok(found) if found.has_bad_label => Err(Fault::Label {
            path,
            why: LabelFault::Bad,
        }),
        Ok(found) => Ok(found),
        Err(why) => Err(Fault::unopened(path, why)),
    }
}

// Gives the disk the blocks of a cut, zeros at first, and then its label.
fn lengthen<'w, E: Write>(
    alloc: Global,
    path: &'w str,
    found: DiskToLabel,
    cut: Cut,
    faults: &mut E,
) -> Result<(), Fault<'w>>
    requires cut { IsCut cut }
    requires longer { found.facts.blocks ≤ cut.size }
{
    let Some(label) = label_of_cut(cut) else {
        return Err(Fault::NotCut { path });
    };
    let done = if !found.is_device {
        found.grow(alloc, &label)
    } else if found.in_file < label.blocks {
        Err(OpenFault::File(io::Error::from(ErrorKind::UnexpectedEof)))
    } else {
        found.grow_device(alloc, path, &label, Zeros::Written, faults)
    };
    match done {
        Ok(()) => Ok(()),
        Err(why) => Err(Fault::unopened(path, why)),
    }
}

// Prints how many blocks the disk has.
fn print_blocks<'w, O: Write>(blocks: u64, output: &mut O) -> Result<(), Fault<'w>> {
    match writeln!(output, "blocks {blocks}").and_then(|()| output.flush()) {
        Ok(()) => Ok(()),
        Err(_) => Err(Fault::CannotWrite),
    }
}
