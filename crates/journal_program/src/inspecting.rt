// The facts that the blocks of a disk in a file have.
ghost use Rattle.std.specs.Prelude.{◌≡◌, ◌≢◌, ◌≤◌, Some, IfOk};
ghost use Rattle.std.specs.Option.{ForSome};
ghost use Rattle.journal_world.specs.declared.layout.TheConstants.{MIN_BLOCKS, MAX_BLOCKS, MAX_LAYOUT_BLOCKS};
ghost use Rattle.journal_form.specs.declared.inspecting.FileFormat.TheVariants.{Flat};
ghost use Rattle.journal_program.specs.Labels.{IsLabel};

use crate::disk::SizedDisk;
use crate::fault::{LabelFault, OpenFault};
use crate::label::{Label, is_disk_size};
use crate::labeling::read_label;
use journal_disk::{BlockDisk, FileDisk};
use journal_form::{FileFormat, Inspected, LogForm, inspect};
use journal_world::{MAX_BLOCKS, Refused};
use std::alloc::Global;
use std::fs::{File, OpenFile};
use std::io;

/// The facts that the blocks of a disk in a file have.
#[derive(Clone, Copy, Debug)]
pub struct DiskFacts {
    /// How many blocks it has: as its label says, or where it has none, all whole ones of the file.
    pub blocks: u64,
    /// Its label.
    pub label: Option<Label>,
    /// The form of its log.
    pub form: LogForm,
    /// The format of its files, where it is a disk of files. One of more than 33299 blocks has no
    /// flat files, whatever its blocks have.
    pub files: Option<FileFormat>,
    pub ghost in_range: { (MIN_BLOCKS ≤ blocks) × (blocks ≤ MAX_LAYOUT_BLOCKS) },
    pub ghost labeled: { ForSome label IsLabel },
}

/// A disk in a file, and what its blocks tell of it.
#[derive(Drop)]
pub(crate) struct InspectedDisk {
    pub(crate) facts: DiskFacts,
    /// The disk. It holds the blocks of the log that were read.
    pub(crate) disk: SizedDisk,
    ghost sized: { disk.size ≡ facts.blocks },
}

/// Reads what the disk in a file is. Nothing is written.
///
/// The first that applies of these refuses it: the system's reason, where it does not let the file
/// be read; a label that is not well formed, or that says more blocks than the file has; a number
/// of blocks that no disk has; J1 `NoMemory` where memory is refused, J6 `DeviceFailed` where the
/// device fails, and J7 `BadLog` where the log is not well formed.
pub(crate) fn inspect_file(alloc: Global, file: File) -> Result<InspectedDisk, OpenFault>
    ensures files { IfOk result (λ found. found.facts.files ≡ Some Flat → found.facts.blocks ≤ MAX_BLOCKS) }
    ensures label { IfOk result (λ found. ForSome found.facts.label (λ label. label.blocks ≡ found.facts.blocks)) }
{
    let in_file = blocks_in(&file)?;
    let label = read_label(alloc, &file, in_file)?;
    inspect_labeled(alloc, file, label, in_file)
}

/// The same of a file of so many blocks, which has this label.
pub(crate) fn inspect_labeled(
    alloc: Global,
    file: File,
    label: Option<Label>,
    in_file: u64,
) -> Result<InspectedDisk, OpenFault>
    requires { ForSome label IsLabel }
    ensures files { IfOk result (λ found. found.facts.files ≡ Some Flat → found.facts.blocks ≤ MAX_BLOCKS) }
    ensures label { IfOk result (λ found. ForSome found.facts.label (λ label. label.blocks ≡ found.facts.blocks)) }
{
    let blocks = blocks_by(label, in_file)?;
    let disk = SizedDisk::over(alloc, file, blocks)?;
    match inspect(alloc, disk.holding_log(alloc)) {
        Ok(Inspected { disk, form, files }) => Ok(InspectedDisk {
            facts: DiskFacts {
                blocks,
                label,
                form,
                files: files_in(files, blocks),
            },
            disk,
        }),
        Err(Refused { refusal, .. }) => Err(OpenFault::Refused(refusal)),
    }
}

// The format of the files of a disk of so many blocks, of which its first home block tells this
// one.
fn files_in(told: Option<FileFormat>, blocks: u64) -> Option<FileFormat>
    ensures flat { result ≡ Some Flat → blocks ≤ MAX_BLOCKS }
    ensures other { told ≢ Some Flat → result ≡ told }
{
    match told {
        Some(FileFormat::Flat) if blocks > MAX_BLOCKS => None,
        other => other,
    }
}

/// How many whole blocks there are up to the file's end.
pub(crate) fn blocks_in(file: &File) -> io::Result<u64> {
    Ok(FileDisk::over(file.try_clone()?)?.size())
}

/// How many blocks a disk has with this label in a file of so many.
pub(crate) fn blocks_by(label: Option<Label>, in_file: u64) -> Result<u64, OpenFault>
    ensures blocks { IfOk result (λ blocks. (MIN_BLOCKS ≤ blocks) × (blocks ≤ MAX_LAYOUT_BLOCKS)) }
    ensures inside { IfOk result (λ blocks. blocks ≤ in_file) }
    ensures label { IfOk result (λ blocks. ForSome label (λ label. label.blocks ≡ blocks)) }
{
    let blocks = match label {
        Some(label) if label.blocks > in_file => {
            return Err(OpenFault::Label(LabelFault::Cut {
                blocks: in_file,
                labeled: label.blocks,
            }));
        }
        Some(label) => label.blocks,
        None => in_file,
    };
    if !is_disk_size(blocks) {
        return Err(OpenFault::NoDisk { blocks });
    }
    Ok(blocks)
}
