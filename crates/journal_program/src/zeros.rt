// Zeros on a block device.
ghost use Rattle.std.specs.Prelude.{◌<◌, ◌≤◌, ◌*◌};
ghost use Rattle.journal_world.specs.declared.layout.TheConstants.{BLOCK_BYTES, MAX_LAYOUT_BLOCKS};

use journal_world::BLOCK_BYTES;
use std::fs::{File, OpenFile};
use std::io;
use std::io::Write;
use std::os::unix::fs::FileExt;

// How many blocks are written at once.
const PIECE_BLOCKS: u64 = 32;

const PIECE_BYTES: usize = PIECE_BLOCKS as usize * BLOCK_BYTES;

// In how many parts zeros are written. A line is printed after each.
const PARTS: u64 = 10;

// How many blocks are read of those that are said to be zeros.
const SAMPLES: u64 = 1024;

/// How the blocks of a device come to be zeros.
#[derive(Clone, Copy, Debug, PartialEq, Eq)]
pub enum Zeros {
    /// They are written.
    Written,
    /// They are there, as the caller says. Up to 1024 blocks are read, at equal distances.
    Found,
}

/// Blocks of a device: from the first to before the end.
#[derive(Clone, Copy)]
pub(crate) struct Span {
    pub(crate) first: u64,
    pub(crate) end: u64,
    pub(crate) ghost order: { (first ≤ end) × (end ≤ MAX_LAYOUT_BLOCKS) },
}

/// Writes zeros over the blocks of the span, and makes them stable. After each tenth it prints how
/// far it is.
///
/// Refused for the system's reason where a block cannot be written, or the sync fails. A line that
/// cannot be printed is left out.
pub(crate) fn zero_by_tenths<E: Write>(
    path: &str,
    file: &File,
    span: Span,
    progress: &mut E,
) -> io::Result<()> {
    let Span { first, end } = span;
    let part = (end - first + PARTS - 1) / PARTS;
    let mut from = first;
    for _ in 0..PARTS {
        if from == end {
            return Ok(());
        }
        let to = (from + part).min(end);
        zero(
            file,
            Span {
                first: from,
                end: to,
            },
        )?;
        file.sync_data()?;
        let _ = writeln!(progress, "{path} has zeros up to block {to} of {end}");
        from = to;
    }
    Ok(())
}

/// Writes zeros over the blocks of the span.
///
/// Refused for the system's reason where a block cannot be written.
pub(crate) fn zero(file: &File, span: Span) -> io::Result<()> {
    let Span { first, end } = span;
    let zeros = [0u8; PIECE_BYTES];
    for piece in 0..(end - first + PIECE_BLOCKS - 1) / PIECE_BLOCKS {
        let at = first + piece * PIECE_BLOCKS;
        let bytes = piece_bytes(end - at);
        file.write_all_at(&zeros[..bytes], at * BLOCK_BYTES as u64)?;
    }
    Ok(())
}

// How many bytes are written at once where so many blocks are left.
fn piece_bytes(left: u64) -> usize
    ensures few { result ≤ PIECE_BYTES }
    ensures left { result ≤ BLOCK_BYTES * left }
{
    left.min(PIECE_BLOCKS) as usize * BLOCK_BYTES
}

/// A block of the span which has another byte than zero, where one is found. Up to 1024 blocks are
/// read, at equal distances, the first and the last among them.
///
/// Refused for the system's reason where a block cannot be read.
pub(crate) fn find_by_samples(file: &File, span: Span) -> io::Result<Option<u64>> {
    let Span { first, end } = span;
    if first == end {
        return Ok(None);
    }
    let last = end - 1;
    let step = (last - first + SAMPLES - 2) / (SAMPLES - 1);
    let mut block = first;
    for _ in 0..SAMPLES {
        if !has_zeros(file, block)? {
            return Ok(Some(block));
        }
        block = (block + step).min(last);
    }
    Ok(None)
}

/// The first block of the span which has another byte than zero.
///
/// Refused for the system's reason where a block cannot be read.
pub(crate) fn find_other(file: &File, span: Span) -> io::Result<Option<u64>> {
    for block in span.first..span.end {
        if !has_zeros(file, block)? {
            return Ok(Some(block));
        }
    }
    Ok(None)
}

// True if the block has zeros alone.
fn has_zeros(file: &File, block: u64) -> io::Result<bool>
    requires { block < MAX_LAYOUT_BLOCKS }
{
    let mut bytes = [0u8; BLOCK_BYTES];
    file.read_exact_at(&mut bytes, block * BLOCK_BYTES as u64)?;
    Ok(bytes.iter().all(|byte| *byte == 0))
}
