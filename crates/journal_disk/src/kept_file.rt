// A file that keeps what is written to it.
ghost use Rattle.std.specs.Prelude.{◌≡◌, ℕ, ◌<◌, ◌/◌, true, IsTrue, IfOk};
ghost use Rattle.journal_world.specs.Addresses.{zeros_of};
ghost use Rattle.journal_disk.specs.Disks.{Past, read_of, IsSettled};
ghost use Rattle.journal_disk.specs.Images.{IsImage};
ghost use Rattle.journal_disk.specs.FileDisks.{file_state};

use crate::{BlockDisk, BlockFile, FileDisk, MemDisk};
use journal_block::Block;
use journal_world::{BLOCK_BYTES, Kind, Refusal};
use std::alloc::Global;
use std::io;
use std::io::ErrorKind;

/// A file of whole blocks in memory, which keeps what is written to it. It shows that the premise
/// of [`BlockFile`] can be met, and a disk in such a file is honest.
#[derive(Drop)]
pub struct KeptFile {
    blocks: MemDisk,
}

impl KeptFile {
    fn block_at(&self, offset: u64) -> io::Result<u64>
        ensures block { IfOk result (λ block. block ≡ offset / BLOCK_BYTES) }
        ensures within { IfOk result (λ block. block < self.now.blocks.past.size) }
    {
        let block = offset / BLOCK_BYTES as u64;
        if block >= self.blocks.size() {
            return Err(ErrorKind::UnexpectedEof.into());
        }
        Ok(block)
    }
}

impl BlockFile for KeptFile {
    ghost told = { λ file. record { past = file.blocks.past; keeps = true } };

    ghost leaves = { λ file image. IsImage file.blocks.past image };

    ghost crash = { λ _ _ _ left. left };

    fn end(&mut self) -> io::Result<u64> {
        match self.blocks.size().checked_mul(BLOCK_BYTES as u64) {
            Some(end) => Ok(end),
            None => Err(ErrorKind::Unsupported.into()),
        }
    }

    fn read_block(&mut self, into: &mut Block, offset: u64) -> io::Result<()> {
        let block = self.block_at(offset)?;
        match self.blocks.read(block, into) {
            Ok(()) => Ok(()),
            Err(_fault) => Err(ErrorKind::Other.into()),
        }
    }

    fn write_block(&mut self, from: &Block, offset: u64) -> io::Result<()> {
        let block = self.block_at(offset)?;
        match self.blocks.write(block, from) {
            Ok(()) => Ok(()),
            Err(_fault) => Err(ErrorKind::Other.into()),
        }
    }

    fn sync(&mut self) -> io::Result<()> {
        match self.blocks.barrier() {
            Ok(()) => Ok(()),
            Err(_fault) => Err(ErrorKind::Other.into()),
        }
    }
}

/// A disk in such a file: honest, settled and all zeros.
///
/// # Errors
/// - The memory for its blocks is refused. Nothing was made.
pub fn kept_disk(alloc: Global, blocks: u64) -> io::Result<FileDisk<KeptFile>>
    ensures honest { IfOk result (λ disk. IsTrue (file_state disk).honest) }
    ensures size { IfOk result (λ disk. (file_state disk).past.size ≡ blocks) }
    ensures settled { IfOk result (λ disk. IsSettled (file_state disk).past) }
    ensures zeros { IfOk result (λ disk. (b : ℕ) → b < blocks → read_of (file_state disk).past b ≡ zeros_of Kind.Block) }
{
    let made: Result<MemDisk, Refusal<()>> = MemDisk::new(alloc, blocks);
    match made {
        Ok(blocks) => FileDisk::on(KeptFile { blocks }),
        Err(_refusal) => Err(ErrorKind::OutOfMemory.into()),
    }
}
