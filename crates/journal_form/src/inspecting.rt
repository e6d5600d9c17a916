// The form of a disk's log, and the format of its files, as its first home block tells it.
ghost use Rattle.std.specs.Prelude.{◌≡◌, ◌≤◌, ◌↔◌, take, drop, IsTrue, IfOk, IfErr, MatchResult};
ghost use Rattle.journal_world.specs.declared.layout.TheConstants.{MIN_BLOCKS};
ghost use Rattle.journal_block.specs.Updates.{Content};
ghost use Rattle.journal_disk.specs.Disks.{Keeps, IsSettled, read_of};
ghost use Rattle.journal_disk.specs.Images.{EveryImage};
ghost use Rattle.journal_circ.specs.StandsFor.{StandsFor};
ghost use Rattle.journal_circ.specs.Ring.{IsOpenRefusal};
ghost use Rattle.journal_form.specs.Forms.{form_of};
ghost use Rattle.journal_form.specs.Inspections.{HasFormat, TellsFiles};

use crate::form::LogForm;
use journal_block::Block;
use journal_disk::BlockDisk;
use journal_wal::Wal;
use journal_world::{FIRST_HOME, Refusal, Refused};
use std::alloc::Global;

/// The first bytes of the first home block of a disk of files, in each version of its format.
pub const FILES_MAGIC: [u8; 8] = *b"GJNLDSK1";

/// The next bytes of that block where the files are a tree: the number 3 of the version,
/// little-endian.
pub const TREE_VERSION: [u8; 8] = [3, 0, 0, 0, 0, 0, 0, 0];

// The byte of the version.
const VERSION_AT: usize = 8;

/// The format of the files of a disk.
#[derive(Clone, Copy, Debug, PartialEq, Eq)]
pub enum FileFormat {
    /// Files of fixed names in one directory: version 1 or 2, or another that no program knows.
    Flat,
    /// A tree of directories and files: version 3.
    Tree,
}

/// A disk, and the facts that its blocks show.
#[derive(Drop)]
pub struct Inspected<D> {
    /// The disk, as it was.
    pub disk: D,
    /// The form of its log.
    pub form: LogForm,
    /// The format of its files, or `None` where it is no disk of files: its first home block does
    /// not begin with the name of the formats.
    pub files: Option<FileFormat>,
}

/// Reads the form of the log of a disk on which nothing is pending, and the format of its files, if
/// it is a disk of files. The first home block is read with the updates that the log has of it.
/// Nothing is written.
///
/// # Errors
/// A refusal gives the disk back, and nothing was written.
/// - `J1 NoMemory`: memory is refused.
/// - `J7 BadLog`: the log is not well formed.
/// - `J6 DeviceFailed`: the device fails.
pub fn inspect<D: BlockDisk>(alloc: Global, disk: D) -> Result<Inspected<D>, Refused<D, ()>>
    requires in_range { MIN_BLOCKS ≤ (D.state disk).past.size }
    requires settled { IsTrue (D.state disk).honest → IsSettled (D.state disk).past }
    ensures refusal { IfErr result (λ refused. IsOpenRefusal (D.state disk) (D.state refused.disk) refused.refusal) }
    ensures keeps { MatchResult result
        (λ told. Keeps (D.state disk) (D.state told.disk))
        (λ refused. Keeps (D.state disk) (D.state refused.disk)) }
    ensures same { IsTrue (D.state disk).honest → MatchResult result
        (λ told. (D.state told.disk).past ≡ (D.state disk).past)
        (λ refused. (D.state refused.disk).past ≡ (D.state disk).past) }
    ensures form { IsTrue (D.state disk).honest → IfOk result (λ told. told.form ≡ form_of (read_of (D.state disk).past 0)) }
    ensures files { IsTrue (D.state disk).honest → IfOk result (λ told. TellsFiles (D.state disk).past told.files) }
{
    let Ok(mut first) = Block::try_new::<()>(alloc) else {
        return Err(Refused {
            refusal: Refusal::NoMemory,
            disk,
        });
    };
    let mut wal = Wal::open(alloc, disk)?;
    let form = LogForm::of(wal.is_sealed());
    match wal.read(FIRST_HOME, &mut first) {
        Ok(()) => Ok(Inspected {
            disk: wal.into_disk(),
            form,
            files: format_of(&first),
        }),
        Err(refusal) => Err(Refused {
            refusal,
            disk: wal.into_disk(),
        }),
    }
}

// The format of the files of a disk whose first home block this is.
fn format_of(block: &Block) -> Option<FileFormat>
    ensures { HasFormat block.now result }
{
    if !has_name(block) {
        return None;
    }
    if has_tree_version(block) {
        Some(FileFormat::Tree)
    } else {
        Some(FileFormat::Flat)
    }
}

// True if a block begins with the name of the formats.
fn has_name(block: &Block) -> bool
    ensures { IsTrue result ↔ (take 8 block.now ≡ FILES_MAGIC) }
{
    block.as_bytes().starts_with(&FILES_MAGIC)
}

// True if the version of a tree lies behind the name.
fn has_tree_version(block: &Block) -> bool
    ensures { IsTrue result ↔ (take 8 (drop 8 block.now) ≡ TREE_VERSION) }
{
    let rest = &block.as_bytes()[VERSION_AT..];
    is_tree_version(rest)
}

// True if bytes begin with the version of a tree.
fn is_tree_version(bytes: &[u8]) -> bool
    ensures { IsTrue result ↔ (take 8 bytes.now ≡ TREE_VERSION) }
{
    bytes.starts_with(&TREE_VERSION)
}
