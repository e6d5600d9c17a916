// The label of a disk in a file.
ghost use Rattle.std.specs.Prelude.{IfOk};
ghost use Rattle.std.specs.Option.{ForSome};
ghost use Rattle.journal_program.specs.Labels.{IsLabel};

use crate::fault::{LabelFault, OpenFault};
use crate::label::{BadLabel, Label};
use journal_block::Block;
use journal_world::{BLOCK_BYTES, Refusal};
use std::alloc::Global;
use std::fs::File;
use std::os::unix::fs::FileExt;

// Where block 1 begins in the file: the start of the log, and behind it the label.
const LABEL_AT: u64 = BLOCK_BYTES as u64;

// The fewest blocks of a file that has a label.
const LABELED_BLOCKS: u64 = 2;

/// Reads the label of a disk in a file of so many blocks, or `None` where it has none.
///
/// Refused where the label is not well formed, for the system's reason, and by J1 `NoMemory`.
pub(crate) fn read_label(
    alloc: Global,
    file: &File,
    blocks: u64,
) -> Result<Option<Label>, OpenFault>
    ensures { IfOk result (λ found. ForSome found IsLabel) }
{
    if blocks < LABELED_BLOCKS {
        return Ok(None);
    }
    match Label::read(&read_label_block(alloc, file)?) {
        Ok(label) => Ok(label),
        Err(BadLabel) => Err(OpenFault::Label(LabelFault::Bad)),
    }
}

/// Writes the label into block 1 of a file. The start of the log stays.
///
/// Refused for the system's reason, and by J1 `NoMemory`.
pub(crate) fn write_label(alloc: Global, file: &File, label: &Label) -> Result<(), OpenFault> {
    let mut block = read_label_block(alloc, file)?;
    label.write(&mut block);
    file.write_all_at(block.as_bytes(), LABEL_AT)?;
    Ok(())
}

/// Writes block 1 of a file as that of a disk which is not made to its end: each program refuses
/// the label. The start of the log becomes 0.
///
/// Refused for the system's reason, and by J1 `NoMemory`.
pub(crate) fn write_unfinished_label(alloc: Global, file: &File) -> Result<(), OpenFault> {
    let mut block = new_block(alloc)?;
    Label::write_unfinished(&mut block);
    file.write_all_at(block.as_bytes(), LABEL_AT)?;
    Ok(())
}

// Reads block 1.
fn read_label_block(alloc: Global, file: &File) -> Result<Block, OpenFault> {
    let mut block = new_block(alloc)?;
    file.read_exact_at(block.as_mut_bytes(), LABEL_AT)?;
    Ok(block)
}

// A block of zeros.
fn new_block(alloc: Global) -> Result<Block, OpenFault> {
    match Block::try_new::<()>(alloc) {
        Ok(block) => Ok(block),
        Err(_) => Err(OpenFault::Refused(Refusal::NoMemory)),
    }
}
