// The disk in a file, as large as its label says.
ghost use Rattle.std.specs.Prelude.{◌≡◌, ◌<◌, ◌≤◌, IsTrue, OnOk, OnErr, IfOk};
ghost use Rattle.journal_disk.specs.Disks.{Keeps, HasFailed, MayHaveHappened, write, barrier, read_of, past_after};
ghost use Rattle.journal_disk.specs.FileDisks.{file_state, with_told, with_failure};
ghost use Rattle.journal_program.specs.Held.{AreCurrent};

use crate::device::DeviceLock;
use crate::held::HeldBlocks;
use crate::noted::NotedFile;
use journal_block::Block;
use journal_disk::{BlockDisk, BlockFile, DiskFault, FileDisk};
use std::alloc::Global;
use std::fs::File;
use std::io;
use std::io::ErrorKind;
use std::marker::Model;

/// The first blocks of a file, as a disk. What comes after them is not read and not written.
///
/// It is honest as far as the disk of the whole file is: where the file keeps what it is told,
/// which is stated of no file of the system.
///
/// One that is opened reads the blocks of the log once: until the journal is open it holds blocks
/// 0 to 512 in memory as they were read or written last.
#[derive(Drop)]
pub struct SizedDisk<B: BlockFile = NotedFile> {
    file: FileDisk<B>,
    blocks: u64,
    held: HeldBlocks,
    // The lock of the device by its number, where the file is one. It is held as long as the disk
    // is open.
    _lock: Option<DeviceLock>,
    ghost inside: { blocks ≤ file.size },
    ghost current: { IsTrue file.told.keeps → AreCurrent held.blocks.items file.told.past },
}

impl<B: BlockFile> Model for SizedDisk<B> {
    ghost use Rattle.journal_disk.specs.FileDisks.{FileState};

    ghost Value = { FileState };

    ghost view = { λ d. record { told = d.file.told; size = d.blocks; failures = d.file.failures } };
}

impl SizedDisk {
    /// The first blocks of the file.
    ///
    /// Refused where the system does not tell where the file ends, and by `UnexpectedEof` where it
    /// has fewer blocks.
    pub(crate) fn over(alloc: Global, file: File, blocks: u64) -> io::Result<SizedDisk>
        ensures { IfOk result (λ disk. disk.size ≡ blocks) }
    {
        SizedDisk::on(alloc, NotedFile::new(file), blocks)
    }

    /// The system's reason for which the first call of the disk failed that did. The file is
    /// closed.
    pub fn into_failure(self) -> Option<io::Error> {
        self.file.into_file().into_failure()
    }
}

impl<B: BlockFile + Drop> SizedDisk<B> {
    /// The first blocks of a file of any kind, as of `over`.
    #[tactic(auto, using(crate::proofs::Current::current_nothing))]
    pub(crate) fn on(alloc: Global, file: B, blocks: u64) -> io::Result<SizedDisk<B>>
        ensures size { IfOk result (λ disk. disk.size ≡ blocks) }
        ensures told { IfOk result (λ disk. disk.told ≡ B.told file) }
    {
        let file = FileDisk::on(file)?;
        if file.size() < blocks {
            return Err(io::Error::from(ErrorKind::UnexpectedEof));
        }
        Ok(SizedDisk {
            file,
            blocks,
            held: HeldBlocks::none(alloc),
            _lock: None,
        })
    }

    /// The same disk, which has the lock of its device.
    pub(crate) fn locked(self, lock: Option<DeviceLock>) -> SizedDisk<B>
        ensures { result ≡ self }
    {
        SizedDisk {
            file: self.file,
            blocks: self.blocks,
            held: self.held,
            _lock: lock,
        }
    }

    /// The same disk, which holds the blocks of the log from now on, as they are read or written.
    /// Where memory is refused, it does not.
    #[tactic(auto, using(crate::proofs::Current::current_nothing))]
    pub(crate) fn holding_log(self, alloc: Global) -> SizedDisk<B>
        ensures { result ≡ self }
    {
        SizedDisk {
            file: self.file,
            blocks: self.blocks,
            held: HeldBlocks::begin(alloc),
            _lock: self._lock,
        }
    }

    /// The same disk, of which a journal is to be opened. That reads what the disk holds and makes
    /// no other call, so the first other call of the file frees it.
    pub(crate) fn to_be_opened(self) -> SizedDisk<B>
        ensures { result ≡ self }
    {
        SizedDisk {
            file: self.file,
            blocks: self.blocks,
            held: self.held.until_next_call(),
            _lock: self._lock,
        }
    }
}

impl<B: BlockFile + Drop> BlockDisk for SizedDisk<B> {
    ghost state = { file_state };

    fn size(&self) -> u64 {
        self.blocks
    }

    fn failures(&self) -> u64 {
        self.file.failures()
    }

    #[tactic(auto, using(crate::proofs::Current::current_held))]
    fn read(&mut self, block: u64, into: &mut Block) -> Result<(), DiskFault>
        requires { block < self.old.size }
        ensures keeps { Keeps (file_state self.old) (file_state self.new) }
        ensures cause { OnErr result (HasFailed (file_state self.old) (file_state self.new)) }
        ensures value { IsTrue self.old.told.keeps → OnOk result (into.new ≡ read_of (file_state self.old).past block) }
        ensures same { IsTrue self.old.told.keeps → (file_state self.new).past ≡ (file_state self.old).past }
        ensures ok { OnOk result (self.new ≡ with_told self.old self.new.told) }
        ensures failed { OnErr result (self.new ≡ with_failure (with_told self.old self.new.told)) }
    {
        if let Some(bytes) = self.held.get(block) {
            into.copy_from(bytes);
            return Ok(());
        }
        self.held.note_call();
        self.file.read(block, into)?;
        self.held.hold(block, into);
        Ok(())
    }

    fn write(&mut self, block: u64, from: &Block) -> Result<(), DiskFault>
        requires { block < self.old.size }
        ensures keeps { Keeps (file_state self.old) (file_state self.new) }
        ensures cause { OnErr result (HasFailed (file_state self.old) (file_state self.new)) }
        ensures written { IsTrue self.old.told.keeps →
            OnOk result ((file_state self.new).past ≡ past_after (write block from.now) (file_state self.old).past) }
        ensures written_or_not { IsTrue self.old.told.keeps →
            MayHaveHappened (write block from.now) (file_state self.old).past (file_state self.new).past }
        ensures ok { OnOk result (self.new ≡ with_told self.old self.new.told) }
        ensures failed { OnErr result (self.new ≡ with_failure (with_told self.old self.new.told)) }
    {
        self.held.note_call();
        // A write that fails may have reached the file, so the block is held again only after it.
        self.held.forget(block);
        self.file.write(block, from)?;
        self.held.hold(block, from);
        Ok(())
    }

    #[tactic(auto, using(crate::proofs::Current::current_synced))]
    fn barrier(&mut self) -> Result<(), DiskFault>
        ensures keeps { Keeps (file_state self.old) (file_state self.new) }
        ensures cause { OnErr result (HasFailed (file_state self.old) (file_state self.new)) }
        ensures synced { IsTrue self.old.told.keeps →
            OnOk result ((file_state self.new).past ≡ past_after barrier (file_state self.old).past) }
        ensures not_synced { IsTrue self.old.told.keeps →
            OnErr result ((file_state self.new).past ≡ (file_state self.old).past) }
        ensures ok { OnOk result (self.new ≡ with_told self.old self.new.told) }
        ensures failed { OnErr result (self.new ≡ with_failure (with_told self.old self.new.told)) }
    {
        self.held.note_call();
        self.file.barrier()
    }
}
