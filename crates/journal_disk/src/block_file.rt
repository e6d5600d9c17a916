// The file under a disk.
ghost use Rattle.std.specs.Prelude.{◌≡◌, ◌/◌, ◌%◌, List, IsTrue, IfOk, OnOk, OnErr};
ghost use Rattle.journal_world.specs.declared.layout.TheConstants.{BLOCK_BYTES};
ghost use Rattle.journal_disk.specs.Disks.{write, barrier, read_of, past_after, MayHaveHappened};
ghost use Rattle.journal_block.specs.Block.{Bytes};
ghost use Rattle.journal_disk.specs.Images.{IsImage};
ghost use Rattle.journal_disk.specs.FileDisks.{Told, KeepsTold, untold, untold_keeps_nothing};

use journal_block::Block;
use std::fs::{File, OpenFile};
use std::io;
use std::io::{Seek, SeekFrom};
use std::os::unix::fs::FileExt;

/// A file of blocks, which states whether it keeps what is written to it.
///
/// This trait states the premise about a device. The premise has two halves. *Reads*: while the
/// program runs, a read that the system answers gives the last write (`read_block` `value`).
/// *Crashes*: a crash leaves of each block, on its own, what it held at the last sync that
/// succeeded or what some later write put there (`crash`). Only a file that keeps what is written
/// to it owes what the clauses say of the blocks. Offsets are bytes from the file's beginning.
pub trait BlockFile {
    /// The file's state, as contracts see it.
    ghost told: { Self → Told };

    /// A crash at this moment may leave these blocks in it.
    ghost leaves: { Self → List Bytes → Type 0 };

    /// The file's end, in bytes.
    ///
    /// # Errors
    /// - The system does not give the end. The file is as it was.
    fn end(&mut self) -> io::Result<u64>
        ensures same { told self.new ≡ told self.old }
        ensures size { IsTrue (told self.old).keeps →
            IfOk result (λ end. end / BLOCK_BYTES ≡ (told self.old).past.size) };

    /// Copies the block that begins at a byte.
    ///
    /// # Errors
    /// - The system refuses the read, or the file ends before. The content of `into` is not
    ///   specified.
    fn read_block(&mut self, into: &mut Block, offset: u64) -> io::Result<()>
        requires { offset % BLOCK_BYTES ≡ 0 }
        ensures keeps { KeepsTold (told self.old) (told self.new) }
        ensures value { IsTrue (told self.old).keeps →
            OnOk result (into.new ≡ read_of (told self.old).past (offset / BLOCK_BYTES)) }
        ensures same { IsTrue (told self.old).keeps → (told self.new).past ≡ (told self.old).past };

    /// Overwrites the block that begins at a byte. The write is pending until a sync succeeds.
    ///
    /// # Errors
    /// - The system refuses the write. It may be pending or not.
    fn write_block(&mut self, from: &Block, offset: u64) -> io::Result<()>
        requires { offset % BLOCK_BYTES ≡ 0 }
        ensures keeps { KeepsTold (told self.old) (told self.new) }
        ensures written { IsTrue (told self.old).keeps →
            OnOk result ((told self.new).past ≡ past_after (write (offset / BLOCK_BYTES) from.now) (told self.old).past) }
        ensures written_or_not { IsTrue (told self.old).keeps →
            MayHaveHappened (write (offset / BLOCK_BYTES) from.now) (told self.old).past (told self.new).past };

    /// Makes the pending writes stable.
    ///
    /// # Errors
    /// - The system refuses the sync. The pending writes are still pending.
    fn sync(&mut self) -> io::Result<()>
        ensures keeps { KeepsTold (told self.old) (told self.new) }
        ensures synced { IsTrue (told self.old).keeps →
            OnOk result ((told self.new).past ≡ past_after barrier (told self.old).past) }
        ensures not_synced { IsTrue (told self.old).keeps →
            OnErr result ((told self.new).past ≡ (told self.old).past) };

    /// A file that keeps what is written to it leaves, after a crash, an image of its past.
    ghost crash: { (file : Self) (image : List Bytes) → IsTrue (told file).keeps
        → leaves file image → IsImage (told file).past image };
}

/// A file of the system. It states nothing, because no contract can say what a file keeps.
///
/// A call that the system cuts short or interrupts is carried on.
#[derive(Drop)]
pub struct System<F = File> {
    /// The file, opened to be read and written.
    pub file: F,
}

impl<F: FileExt + OpenFile + Seek + Drop> BlockFile for System<F> {
    ghost told = { λ _. untold };

    ghost leaves = { λ _ _. Unit {0} };

    ghost crash = { λ _ image keeps left. untold_keeps_nothing image keeps left };

    // By a seek to the end, because a device file gives 0 as its length.
    fn end(&mut self) -> io::Result<u64> {
        self.file.seek(SeekFrom::End(0))
    }

    fn read_block(&mut self, into: &mut Block, offset: u64) -> io::Result<()> {
        self.file.read_exact_at(into.as_mut_bytes(), offset)
    }

    fn write_block(&mut self, from: &Block, offset: u64) -> io::Result<()> {
        self.file.write_all_at(from.as_bytes(), offset)
    }

    fn sync(&mut self) -> io::Result<()> {
        self.file.sync_data()
    }
}
