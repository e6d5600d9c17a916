// Disks whose label is written.
ghost use Rattle.std.specs.Prelude.{◌≤◌, IfOk};
ghost use Rattle.std.specs.Option.{ForSome};
ghost use Rattle.journal_program.specs.Labels.{IsLabel};

use crate::device::DeviceLock;
use crate::disk::SizedDisk;
use crate::fault::{LabelFault, OpenFault};
use crate::file::{LockedFile, open_to_write};
use crate::inspecting::{DiskFacts, InspectedDisk, blocks_in, inspect_labeled};
use crate::label::Label;
use crate::labeling::{read_label, write_label};
use crate::making::refuse_others;
use crate::opening::settle;
use crate::zeros::{Span, Zeros, zero_by_tenths};
use journal_world::BLOCK_BYTES;
use std::alloc::Global;
use std::fs::{File, Files, OpenFile};
use std::io::Write;

/// A disk in a file that no other program uses as long as it is open, and that is to have another
/// label. Its log is well formed, and nothing was written to it.
#[derive(Drop)]
pub struct DiskToLabel {
    /// The facts that its blocks have. It counts as one without a label where that is not well
    /// formed.
    pub facts: DiskFacts,
    /// Whether it has a label that is not well formed.
    pub has_bad_label: bool,
    /// How many whole blocks its file or its device has.
    pub in_file: u64,
    /// Whether it is on a block device.
    pub is_device: bool,
    // The file of the disk, and the lock of its device.
    file: File,
    _lock: Option<DeviceLock>,
}

impl DiskToLabel {
    /// Writes the label, stable. The log is written as it reads before.
    ///
    /// # Errors
    /// The disk has the label, or the one before it.
    /// - `File`: the system's reason.
    /// - `Refused`: J1 `NoMemory`.
    pub fn put(self, alloc: Global, label: &Label) -> Result<(), OpenFault> {
        self.settle(alloc)?;
        self.label(alloc, label)
    }

    /// Gives the disk as many blocks as the label says, zeros at first, and the label. The log is
    /// written as it reads before. The label is written once the longer file is stable, so that no
    /// moment leaves a label of more blocks than the file has.
    ///
    /// # Errors
    /// The disk has the label, or the one before it. Its file may be longer.
    /// - `File`: the system's reason.
    /// - `Refused`: J1 `NoMemory`.
    pub fn grow(self, alloc: Global, label: &Label) -> Result<(), OpenFault>
        requires label { IsLabel label.now }
        requires longer { self.facts.blocks ≤ label.now.blocks }
    {
        self.settle(alloc)?;
        // What lies behind the disk in the file is no object of it, and new objects are zeros.
        self.file.set_len(self.facts.blocks * BLOCK_BYTES as u64)?;
        self.file.set_len(label.blocks * BLOCK_BYTES as u64)?;
        self.file.sync_all()?;
        self.label(alloc, label)
    }

    /// Gives the disk on a block device as many blocks as the label says, which are zeros, and the
    /// label. The log is written as it reads before. The label is written once the zeros are
    /// stable, so that no moment leaves a disk with other new blocks. `progress` gets a line after
    /// each tenth of the zeros that are written.
    ///
    /// # Errors
    /// - The new blocks are to be zeros already, and one is not. Nothing was written.
    /// - The system's reason, and J1 `NoMemory`. The disk has the label or not.
    pub fn grow_device<E: Write>(
        self,
        alloc: Global,
        path: &str,
        label: &Label,
        zeros: Zeros,
        progress: &mut E,
    ) -> Result<(), OpenFault>
        requires label { IsLabel label.now }
        requires longer { self.facts.blocks ≤ label.now.blocks }
    {
        let added = Span {
            first: self.facts.blocks,
            end: label.blocks,
        };
        if zeros == Zeros::Found {
            refuse_others(&self.file, added)?;
        }
        self.settle(alloc)?;
        if zeros == Zeros::Written {
            zero_by_tenths(path, &self.file, added, progress)?;
        }
        self.label(alloc, label)
    }

    // Makes stable what the disk reads.
    fn settle(&self, alloc: Global) -> Result<(), OpenFault> {
        let disk = SizedDisk::over(alloc, self.file.try_clone()?, self.facts.blocks)?;
        settle(alloc, disk)?;
        Ok(())
    }

    // Writes the label, stable.
    fn label(&self, alloc: Global, label: &Label) -> Result<(), OpenFault> {
        write_label(alloc, &self.file, label)?;
        self.file.sync_data()?;
        Ok(())
    }
}

/// Looks at the disk in the file at the path, which no other program uses as long as it is open,
/// and whose label is to be written. Nothing is written.
///
/// # Errors
/// - Those of `find_disk`, but for a label that is not well formed.
pub fn find_disk_to_label<R: Files<File = File>>(
    rt: &R,
    alloc: Global,
    path: &str,
) -> Result<DiskToLabel, OpenFault> {
    let LockedFile { file, lock } = open_to_write(rt, alloc, path)?;
    let in_file = blocks_in(&file)?;
    let OldLabel { label, is_bad } = read_old_label(alloc, &file, in_file)?;
    let InspectedDisk { facts, disk: _ } = inspect_labeled(
        alloc,
        file.try_clone()?,
        label,
        in_file,
    )?;
    Ok(DiskToLabel {
        facts,
        has_bad_label: is_bad,
        in_file,
        is_device: lock.is_some(),
        file,
        _lock: lock,
    })
}

// A label that another one may stand for.
#[derive(Clone, Copy)]
struct OldLabel {
    label: Option<Label>,
    is_bad: bool,
}

// Reads the label of a file of so many blocks. One that is not well formed counts as none.
fn read_old_label(alloc: Global, file: &File, in_file: u64) -> Result<OldLabel, OpenFault>
    ensures { IfOk result (λ old. ForSome old.label IsLabel) }
{
    match read_label(alloc, file, in_file) {
        Ok(label) => Ok(OldLabel {
            label,
            is_bad: false,
        }),
        Err(OpenFault::Label(LabelFault::Bad)) => Ok(OldLabel {
            label: None,
            is_bad: true,
        }),
        Err(why) => Err(why),
    }
}
