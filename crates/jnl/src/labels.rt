// The labels of disks are written, and the number of their blocks is raised.
ghost use Rattle.std.specs.Prelude.{◌≡◌, IfSome};
ghost use Rattle.journal_program.specs.Labels.{IsLabel};

use journal_commands::{Fault, RegionWords, Regions, label_of, regions_of_files, told};
use journal_form::FileFormat;
use journal_program::{
    DeviceFault, DiskFacts, DiskToLabel, Label, LabelFault, OpenFault, Zeros, find_disk_to_label,
};
use journal_world::MAX_LAYOUT_BLOCKS;
use std::alloc::Global;
use std::fs::{File, Files};
use std::io::Write;

/// Gives the disk in the file at the path a label with these regions, and prints them. Where none
/// are named, it has those of the label before it, or those of a new disk.
///
/// # Errors
/// The disk has the label that it had, unless the system stops the writing of the new one.
/// - Those of a disk that is opened to be written.
/// - `Label`: its label is not well formed, and it is not to have one again.
/// - `HasLabel`: it has a label, and is not to have one again.
/// - `NoDisk`: no disk of these regions has its number of blocks.
/// - `HasFiles`: a disk of the file service is to have other regions than those of files.
/// - `CannotWrite`: the output fails. The label is written.
pub fn label<'w, R: Files<File = File>, O: Write>(
    rt: &R,
    alloc: Global,
    path: &'w str,
    regions: Option<Regions>,
    again: bool,
    output: &mut O,
) -> Result<(), Fault<'w>> {
    let found = find_to_label(rt, alloc, path)?;
    let facts = found.facts;
    if !again && found.has_bad_label {
        return Err(Fault::Label {
            path,
            why: LabelFault::Bad,
        });
    }
    if !again && facts.label.is_some() {
        return Err(Fault::HasLabel { path });
    }
    let Some(label) = label_of(facts.blocks, regions.or(told(&facts))) else {
        return Err(Fault::NoDisk {
            path,
            blocks: facts.blocks,
        });
    };
    refuse_other_files(path, &facts, &label)?;
    done(path, found.put(alloc, &label))?;
    print_label(&label, output)
}

/// Gives the disk in the file at the path `blocks` blocks, and prints its label. The new blocks are
/// zeros. A disk without a label gets one, with the regions of files.
///
/// # Errors
/// The disk has its blocks and its label as before, unless the system stops the growth.
/// - Those of a disk that is opened to be written.
/// - `OnDevice`: it is on a block device.
/// - `Smaller`: it has more blocks already.
/// - `TellsNoRegions`: it would have more than 33299 blocks, and no label names its regions.
/// - `CannotGrow`: it is a disk of the file service.
/// - `CannotWrite`: the output fails. The disk has its new blocks.
pub fn grow<'w, R: Files<File = File>, O: Write>(
    rt: &R,
    alloc: Global,
    path: &'w str,
    blocks: u64,
    output: &mut O,
) -> Result<(), Fault<'w>> {
    let found = find_to_grow(rt, alloc, path)?;
    let facts = found.facts;
    if found.is_device {
        return Err(Fault::OnDevice { path });
    }
    if blocks < facts.blocks {
        return Err(Fault::Smaller {
            path,
            blocks: facts.blocks,
        });
    }
    let Some(label) = grown_label(&facts, blocks) else {
        return Err(Fault::TellsNoRegions { path });
    };
    done(path, found.grow(alloc, &label))?;
    print_label(&label, output)
}

/// Gives the disk on the block device at the path all blocks of the device, and prints its label.
/// The new blocks are zeros. A line in `faults` after each tenth says how far it is.
///
/// Where it does not come to its end, the disk has its old number of blocks.
///
/// # Errors
/// - As for a disk that is opened to be written.
/// - It is not on a block device, it is a disk of the file service, or it has no label.
/// - It would have more than 33299 blocks, and its label does not tell its regions.
/// - The new blocks are to be zeros already, and one is not. Nothing was written.
pub fn grow_on_device<'w, R: Files<File = File>, O: Write, E: Write>(
    rt: &R,
    alloc: Global,
    path: &'w str,
    zeros: Zeros,
    output: &mut O,
    faults: &mut E,
) -> Result<(), Fault<'w>> {
    let found = find_to_grow(rt, alloc, path)?;
    let facts = found.facts;
    if !found.is_device {
        return Err(Fault::Device {
            path,
            why: DeviceFault::NoDevice,
        });
    }
    if facts.label.is_none() {
        return Err(Fault::HasNoLabel { path });
    }
    let blocks = found.in_file.min(MAX_LAYOUT_BLOCKS);
    let Some(label) = grown_label(&facts, blocks) else {
        return Err(Fault::TellsNoRegions { path });
    };
    if label.blocks < found.facts.blocks {
        // Its file has as many blocks as its label says, so no disk comes here.
        return Err(Fault::TellsNoRegions { path });
    }
    done(path, found.grow_device(alloc, path, &label, zeros, faults))?;
    print_label(&label, output)
}

// Looks at the disk at the path, which is to get more blocks: its label is well formed or is not
// there, and it is no disk of the file service.
fn find_to_grow<'w, R: Files<File = File>>(
    rt: &R,
    alloc: Global,
    path: &'w str,
) -> Result<DiskToLabel, Fault<'w>> {
    let found = find_to_label(rt, alloc, path)?;
    if found.has_bad_label {
        return Err(Fault::Label {
            path,
            why: LabelFault::Bad,
        });
    }
    if found.facts.files.is_some() {
        return Err(Fault::CannotGrow { path });
    }
    Ok(found)
}

// The label of a disk that is to have `blocks` blocks. A disk without a label has the regions of
// files. `None` where the regions are not known.
fn grown_label(facts: &DiskFacts, blocks: u64) -> Option<Label>
    ensures label { IfSome result IsLabel }
    ensures blocks { IfSome result (λ label. label.blocks ≡ blocks) }
{
    let regions = match facts.label {
        Some(label) => label.told(),
        None => regions_of_files(facts.blocks),
    };
    Label::new(blocks, regions?)
}

// Refuses a label by which a disk of the file service would have other objects. This program does
// not read how a tree is cut, so a tree keeps the regions of its label.
fn refuse_other_files<'w>(
    path: &'w str,
    facts: &DiskFacts,
    label: &Label,
) -> Result<(), Fault<'w>> {
    let regions = match facts.files {
        None => return Ok(()),
        Some(FileFormat::Flat) => regions_of_files(facts.blocks),
        Some(FileFormat::Tree) => told(facts),
    };
    if label.told() != regions {
        return Err(Fault::HasFiles { path });
    }
    Ok(())
}

// Looks at the disk in the file at the path, whose label is to be written.
fn find_to_label<'w, R: Files<File = File>>(
    rt: &R,
    alloc: Global,
    path: &'w str,
) -> Result<DiskToLabel, Fault<'w>> {
    match find_disk_to_label(rt, alloc, path) {
        Ok(found) => Ok(found),
        Err(why) => Err(Fault::unopened(path, why)),
    }
}

// Says why the label of the disk at the path was not written, if it was not.
fn done<'w>(path: &'w str, written: Result<(), OpenFault>) -> Result<(), Fault<'w>> {
    match written {
        Ok(()) => Ok(()),
        Err(why) => Err(Fault::unopened(path, why)),
    }
}

/// Prints the number of blocks and the regions of a label.
///
/// # Errors
/// - `CannotWrite`: the output fails.
pub fn print_label<'w, O: Write>(label: &Label, output: &mut O) -> Result<(), Fault<'w>> {
    let regions = RegionWords(label.told());
    let printed = writeln!(output, "blocks {}\nregions {regions}", label.blocks);
    match printed.and_then(|()| output.flush()) {
        Ok(()) => Ok(()),
        Err(_) => Err(Fault::CannotWrite),
    }
}
