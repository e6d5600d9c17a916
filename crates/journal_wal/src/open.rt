// Recovery: the log on the disk is read into memory, and nothing is written.
ghost use Rattle.std.specs.Prelude.{ℕ, ◌≡◌, ◌≤◌, ◌<◌, ◌+◌, ◌-◌, ◌^◌, ◌∷◌, ◌++◌, [], false, IsTrue, OnOk, OnErr, IfOk, IfErr, MatchResult, slice_get, Some};
ghost use Rattle.journal_world.specs.declared.layout.TheConstants.{MIN_BLOCKS, LOG_POSITIONS};
ghost use Rattle.journal_disk.specs.Disks.{Keeps, IsSettled, read_of};
ghost use Rattle.journal_disk.specs.Images.{EveryImage, reading};
ghost use Rattle.journal_circ.specs.Log.{is_sealed, label_of, HasLabel, IsWellFormed};
ghost use Rattle.journal_circ.specs.StandsFor.{StandsFor};
ghost use Rattle.journal_circ.specs.Ring.{IsOpenRefusal, log_of};
ghost use Rattle.journal_tail.specs.Homes.{AreHomes};
ghost use Rattle.journal_wal.specs.Wal.{IsAtRest, HasBoundsIn, size_of, blocks_now};
ghost use Rattle.journal_wal.specs.Recovery.{OnlyReadsRing, IsRecovered};

use crate::disk_log::{DiskLog, Installer, Logger};
use crate::wal::Wal;
use journal_block::{Block, Update};
use journal_circ::{Circ, Opened};
use journal_disk::BlockDisk;
use journal_memlog::MemLog;
use journal_world::{Refusal, Refused};
use std::alloc::Global;

impl<D: BlockDisk> Wal<D> {
    /// Opens the log of a disk, on which nothing is pending: reads its updates into memory, writes
    /// nothing and makes no barrier.
    ///
    /// # Errors
    /// A refusal gives the disk back, and nothing was written.
    /// - `J1 NoMemory`: memory is refused.
    /// - `J6 DeviceFailed`: the device fails in this call.
    /// - `J7 BadLog`: the disk's log is not well formed.
    pub fn open(alloc: Global, disk: D) -> Result<Wal<D>, Refused<D, ()>>
        requires in_range { MIN_BLOCKS ≤ (D.state disk).past.size }
        requires settled { IsTrue (D.state disk).honest → IsSettled (D.state disk).past }
        ensures refusal { IfErr result (λ refused.
            IsOpenRefusal (D.state disk) (D.state refused.disk) refused.refusal) }
        ensures keeps { MatchResult result
            (λ wal. Keeps (D.state disk) wal.ring.disk)
            (λ refused. Keeps (D.state disk) (D.state refused.disk)) }
        ensures same { IsTrue (D.state disk).honest → MatchResult result
            (λ wal. wal.ring.disk.past ≡ (D.state disk).past)
            (λ refused. (D.state refused.disk).past ≡ (D.state disk).past) }
        ensures well_formed { IsTrue (D.state disk).honest → IfOk result (λ _. IsWellFormed (reading (D.state disk).past)) }
        ensures opened { IfOk result IsAtRest }
        // The bounds and the form are those on the disk.
        ensures bounds { IsTrue (D.state disk).honest → IfOk result (HasBoundsIn (reading (D.state disk).past)) }
        ensures form { IsTrue (D.state disk).honest → IfOk result (λ wal. wal.ring.sealed ≡ is_sealed (read_of (D.state disk).past 0)) }
        ensures label { IsTrue (D.state disk).honest → IfOk result (λ wal. wal.ring.label ≡ label_of (read_of (D.state disk).past 1)) }
        ensures labels { IsTrue (D.state disk).honest → IfOk result (λ wal. EveryImage wal.ring.disk.past (HasLabel wal.ring.label)) }
        ensures images { IsTrue (D.state disk).honest → IfOk result (λ wal.
            EveryImage wal.ring.disk.past (StandsFor (size_of wal) (blocks_now wal))) }
    {
        let Opened {
            mut circ,
            logger,
            installer,
        } = Circ::open(alloc, disk)?;
        match recover(alloc, &mut circ) {
            Ok(memory) => Ok(Wal {
                alloc,
                memory,
                on_disk: DiskLog {
                    circ,
                    logger: Logger::Blocks(logger),
                    installer: Installer::Resting(installer),
                },
            }),
            Err(refusal) => Err(Refused {
                refusal,
                disk: circ.into_disk(),
            }),
        }
    }
}

// The updates of the log on the disk, in memory.
fn recover<D: BlockDisk>(alloc: Global, circ: &mut Circ<D>) -> Result<MemLog, Refusal<()>>
    requires fine { circ.old.faulted ≡ false }
    requires rest { circ.old.next ≡ circ.old.extent.end }
    ensures disk { OnlyReadsRing circ.old circ.new }
    ensures refusal { IfErr result (IsOpenRefusal circ.old.disk circ.new.disk) }
    ensures memory { IfOk result (IsRecovered circ.old circ.old.extent.end) }
    ensures fine { IfOk result (λ _. circ.new.faulted ≡ false) }
    ensures ordered { circ.old.extent.start ≤ circ.old.extent.end }
    ensures fits { circ.old.extent.end ≤ circ.old.extent.start + LOG_POSITIONS }
    ensures small { circ.old.extent.end < 2 ^ 62 }
{
    let (start, end) = (circ.start(), circ.end());
    let mut memory = MemLog::new(alloc, circ.size(), start)?;
    for position in start..end {
        recover_update(alloc, circ, &mut memory, position)?;
    }
    Ok(memory)
}

// The update at one position.
fn recover_update<D: BlockDisk>(
    alloc: Global,
    circ: &mut Circ<D>,
    memory: &mut MemLog,
    position: u64,
) -> Result<(), Refusal<()>>
    requires fine { circ.old.faulted ≡ false }
    requires from_start { circ.old.extent.start ≤ position }
    requires put { position < circ.old.next }
    requires small { position + 1 < 2 ^ 62 }
    requires recovered { IsRecovered circ.old position memory.old }
    ensures disk { OnlyReadsRing circ.old circ.new }
    ensures refusal { IfErr result (IsOpenRefusal circ.old.disk circ.new.disk) }
    ensures fine { OnOk result (circ.new.faulted ≡ false) }
    ensures memory { OnOk result (IsRecovered circ.old (position + 1) memory.new) }
{
    let mut bytes = Block::try_new(alloc)?;
    let block = circ.read_logged(position, &mut bytes)?;
    memory.push_logged(Update { block, bytes })
}
