// Block devices that become disks.
ghost use Rattle.std.specs.Prelude.{◌≡◌, ◌≤◌};
ghost use Rattle.journal_world.specs.declared.layout.TheConstants.{MIN_BLOCKS, MAX_LAYOUT_BLOCKS};
ghost use Rattle.journal_program.specs.Labels.{IsLabel};

use crate::device::DeviceLock;
use crate::disk::SizedDisk;
use crate::fault::{DeviceFault, OpenFault};
use crate::file::{LockedFile, open_to_write};
use crate::inspecting::blocks_in;
use crate::label::{Label, is_disk_size};
use crate::labeling::{write_label, write_unfinished_label};
use crate::signatures::find_content;
use crate::zeros::{Span, Zeros, find_by_samples, zero, zero_by_tenths};
use journal_world::{FIRST_DATA, MAX_LAYOUT_BLOCKS};
use std::alloc::Global;
use std::fs::{File, Files, OpenFile};
use std::io::Write;

// The block of the label.
const LABEL_BLOCK: u64 = 1;

/// A block device that is to become a disk, and that no other program of this machine uses as long
/// as it is open. Nothing was written to it.
#[derive(Drop)]
pub struct FoundDevice {
    /// How many blocks the disk has: all whole ones of the device, and at most 2^40.
    pub blocks: u64,
    /// The content of the device, in words that follow the word `holds`. `None` where nothing is.
    pub content: Option<&'static str>,
    file: File,
    lock: Option<DeviceLock>,
    ghost in_range: { (MIN_BLOCKS ≤ blocks) × (blocks ≤ MAX_LAYOUT_BLOCKS) },
}

impl FoundDevice {
    /// Makes the device a disk of zeros, but for this label, and answers it. What was on it is
    /// gone. `progress` gets a line after each tenth of the zeros that are written.
    ///
    /// Where it does not come to its end, each program refuses the device, because its label is not
    /// well formed, or nothing was written to it.
    ///
    /// # Errors
    /// - The blocks are to be zeros already, and one is not. Nothing was written.
    /// - The system's reason, where the device cannot be read, written or synced.
    /// - J1 `NoMemory`.
    pub fn make<E: Write>(
        self,
        alloc: Global,
        path: &str,
        label: &Label,
        zeros: Zeros,
        progress: &mut E,
    ) -> Result<SizedDisk, OpenFault>
        requires label { IsLabel label.now }
        requires blocks { label.now.blocks ≡ self.blocks }
    {
        let file = &self.file;
        let end = self.blocks;
        if zeros == Zeros::Found {
            refuse_others(file, Span { first: 0, end })?;
        }
        write_unfinished_label(alloc, file)?;
        file.sync_data()?;
        // Block 1 stays as long as another one may not be zeros.
        let (first, after) = (LABEL_BLOCK, LABEL_BLOCK + 1);
        zero(
            file,
            Span {
                first: 0,
                end: first,
            },
        )?;
        match zeros {
            Zeros::Written => zero_by_tenths(path, file, Span { first: after, end }, progress)?,
            Zeros::Found => zero(
                file,
                Span {
                    first: after,
                    end: FIRST_DATA,
                },
            )?,
        }
        file.sync_data()?;
        write_label(alloc, file, label)?;
        file.sync_data()?;
        Ok(SizedDisk::over(alloc, self.file, end)?.locked(self.lock))
    }
}

/// Looks at the block device at the path, which is to become a disk, and which no other program of
/// this machine uses as long as it is open. Nothing is written.
///
/// # Errors
/// - The system's reason, which is `WouldBlock` where another program has the device.
/// - The path is not that of a block device, or the lock of its number cannot be had.
/// - It has fewer blocks than a disk.
/// - J1 `NoMemory`.
pub fn find_device<R: Files<File = File>>(
    rt: &R,
    alloc: Global,
    path: &str,
) -> Result<FoundDevice, OpenFault> {
    let LockedFile { file, lock } = open_to_write(rt, alloc, path)?;
    if lock.is_none() {
        return Err(OpenFault::Device(DeviceFault::NoDevice));
    }
    let blocks = blocks_in(&file)?.min(MAX_LAYOUT_BLOCKS);
    if !is_disk_size(blocks) {
        return Err(OpenFault::NoDisk { blocks });
    }
    let content = find_content(&file, blocks)?;
    Ok(FoundDevice {
        blocks,
        content,
        file,
        lock,
    })
}

/// Refuses blocks that are to be zeros, where one of up to 1024 is not.
pub(crate) fn refuse_others(file: &File, span: Span) -> Result<(), OpenFault> {
    match find_by_samples(file, span)? {
        Some(block) => Err(OpenFault::Device(DeviceFault::NotZeros { block })),
        None => Ok(()),
    }
}
