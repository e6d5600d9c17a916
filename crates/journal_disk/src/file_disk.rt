// A disk in a file.
ghost use Rattle.std.specs.Prelude.{◌≡◌, ◌<◌, ◌*◌, ◌^◌, List, IsSome, IsTrue, IsOk, IsErr, OnOk, OnErr, IfOk};
ghost use Rattle.journal_disk.specs.Disks.{Keeps, HasFailed, write, barrier, read_of, past_after, MayHaveHappened};
ghost use Rattle.journal_block.specs.Block.{Bytes};
ghost use Rattle.journal_disk.specs.Images.{IsImage};
ghost use Rattle.journal_disk.specs.FileDisks.{file_state, with_told, with_failure, HasWholeBlocks};

use crate::{BlockDisk, BlockFile, DiskFault, System};
use journal_block::Block;
use journal_world::BLOCK_BYTES;
use std::fs::{File, Files, OpenFile, OpenOptions};
use std::io;
use std::io::{Seek, SeekFrom};
use std::marker::Model;
use std::os::unix::fs::FileExt;

// A field of its invariant ties its number of blocks to the file's past, so that what `into_file`
// says of a crash is about the disk's own past.
/// A disk in a file, or on a block device.
///
/// Block `b` is the 4096 bytes from byte `4096 * b` on. Blocks are read into the caller's and
/// written from it, with no copy beside the kernel's, and a barrier is an fdatasync. A call that
/// the system cuts short or interrupts is carried on; one that the system refuses fails. The disk
/// is honest if its file keeps what is written to it. A file of the system, [`System`], states
/// nothing of that. So nothing is promised of the blocks of a disk in it.
#[derive(Drop)]
pub struct FileDisk<B: BlockFile = System<File>> {
    file: B,
    blocks: u64,
    failures: u64,
    ghost fits: { blocks * 4096 < 2 ^ 64 },
    ghost tied: { IsTrue (B.told file).keeps → blocks ≡ (B.told file).past.size },
}

impl<B: BlockFile> Model for FileDisk<B> {
    ghost use Rattle.journal_disk.specs.FileDisks.{FileState};

    ghost Value = { FileState };

    ghost view = { λ d. record { told = B.told d.file; size = d.blocks; failures = d.failures } };
}

impl<F: FileExt + OpenFile + Seek + Drop> FileDisk<System<F>> {
    /// Opens the disk in the file at a path, to be read and written. Its size is the number of
    /// whole 4096 bytes up to the file's end.
    ///
    /// # Errors
    /// - The system refuses to open the file. No file is ever made.
    /// - The system does not give the file's end. The file is closed.
    pub fn open<R: Files<File = F>>(rt: &R, path: &str) -> io::Result<FileDisk<System<F>>>
        ensures { IfOk result (λ disk. disk.failures ≡ 0) }
    {
        let file = OpenOptions::new().read(true).write(true).open(rt, path)?;
        FileDisk::over(file)
    }

    /// The disk in a file that was opened to be read and written, as of `open`.
    ///
    /// # Errors
    /// - The system does not give the file's end. The file is closed.
    pub fn over(file: F) -> io::Result<FileDisk<System<F>>>
        ensures failures { IfOk result (λ disk. disk.failures ≡ 0) }
        ensures blocks { IsSome (F.stream_position file) →
            IfOk result (λ disk. HasWholeBlocks (F.stream_bytes file) disk.size) }
    {
        let mut file = file;
        // By a seek to the end, because a device file gives 0 as its length.
        let end = file.seek(SeekFrom::End(0))?;
        Ok(FileDisk {
            file: System { file },
            blocks: end / BLOCK_BYTES as u64,
            failures: 0,
        })
    }
}

impl<B: BlockFile + Drop> FileDisk<B> {
    /// The disk in a file of any kind. Its size is the number of whole 4096 bytes up to the file's
    /// end. It is honest if the file keeps what is written to it.
    ///
    /// # Errors
    /// - The file does not give its end. It is closed.
    pub fn on(file: B) -> io::Result<FileDisk<B>>
        ensures failures { IfOk result (λ disk. disk.failures ≡ 0) }
        ensures told { IfOk result (λ disk. disk.told ≡ B.told file) }
        ensures size { IsTrue (B.told file).keeps → IfOk result (λ disk. disk.size ≡ (B.told file).past.size) }
    {
        let mut file = file;
        let end = file.end()?;
        Ok(FileDisk {
            file,
            blocks: end / BLOCK_BYTES as u64,
            failures: 0,
        })
    }

    /// Gives the file up, with all that is pending on it. If the file keeps what is written to it,
    /// a crash leaves an image of the disk's past in it.
    pub fn into_file(self) -> B
        ensures told { B.told result ≡ self.told }
        ensures crash { IsTrue self.told.keeps → (image : List Bytes) → B.leaves result image → IsImage (file_state self).past image }
    {
        let FileDisk { file, .. } = self;
        file
    }

    // Counts a call that failed.
    fn count(&mut self, done: io::Result<()>) -> Result<(), DiskFault>
        ensures ok { OnOk done (IsOk result × (self.new ≡ self.old)) }
        ensures failed { OnErr done (IsErr result × (self.new ≡ with_failure self.old)) }
        ensures keeps { Keeps (file_state self.old) (file_state self.new) }
        ensures cause { OnErr result (HasFailed (file_state self.old) (file_state self.new)) }
    {
        if done.is_err() {
            self.failures = self.failures.saturating_add(1);
            return Err(DiskFault);
        }
        Ok(())
    }
}

impl<B: BlockFile + Drop> BlockDisk for FileDisk<B> {
    ghost state = { file_state };

    fn size(&self) -> u64 {
        self.blocks
    }

    fn failures(&self) -> u64 {
        self.failures
    }

    fn read(&mut self, block: u64, into: &mut Block) -> Result<(), DiskFault>
        requires { block < self.old.size }
        ensures keeps { Keeps (file_state self.old) (file_state self.new) }
        ensures cause { OnErr result (HasFailed (file_state self.old) (file_state self.new)) }
        ensures value { IsTrue self.old.told.keeps → OnOk result (into.new ≡ read_of (file_state self.old).past block) }
        ensures same { IsTrue self.old.told.keeps → (file_state self.new).past ≡ (file_state self.old).past }
        ensures ok { OnOk result (self.new ≡ with_told self.old self.new.told) }
        ensures failed { OnErr result (self.new ≡ with_failure (with_told self.old self.new.told)) }
    {
        let read = self.file.read_block(into, block * BLOCK_BYTES as u64);
        self.count(read)
    }

    fn write(&mut self, block: u64, from: &Block) -> Result<(), DiskFault>
        requires { block < self.old.size }
        ensures keeps { Keeps (file_state self.old) (file_state self.new) }
        ensures cause { OnErr result (HasFailed (file_state self.old) (file_state self.new)) }
        ensures written { IsTrue self.old.told.keeps →
            OnOk result ((file_state self.new).past ≡ past_after (write block from.now) (file_state self.old).past) }
        ensures written_or_not { IsTrue self.old.told.keeps →
            MayHaveHappened (write block from.now) (file_state self.old).past (file_state self.new).past }
        ensures ok { OnOk result (self.new ≡ with_told self.old self.new.told) }
        ensures failed { OnErr result (self.new ≡ with_failure (with_told self.old self.new.told)) }
    {
        let written = self.file.write_block(from, block * BLOCK_BYTES as u64);
        self.count(written)
    }

    fn barrier(&mut self) -> Result<(), DiskFault>
        ensures keeps { Keeps (file_state self.old) (file_state self.new) }
        ensures cause { OnErr result (HasFailed (file_state self.old) (file_state self.new)) }
        ensures synced { IsTrue self.old.told.keeps →
            OnOk result ((file_state self.new).past ≡ past_after barrier (file_state self.old).past) }
        ensures not_synced { IsTrue self.old.told.keeps →
            OnErr result ((file_state self.new).past ≡ (file_state self.old).past) }
        ensures ok { OnOk result (self.new ≡ with_told self.old self.new.told) }
        ensures failed { OnErr result (self.new ≡ with_failure (with_told self.old self.new.told)) }
    {
        let synced = self.file.sync();
        self.count(synced)
    }
}
