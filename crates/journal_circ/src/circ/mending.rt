// How a disk is made settled after a failed barrier, a kill or a crash.
ghost use Rattle.std.specs.Prelude.{ℕ, ◌≡◌, ◌<◌, ◌≤◌, false, IsTrue, IfOk, IfErr, OnOk, OnErr, MatchResult};
ghost use Rattle.journal_world.specs.declared.layout.TheConstants.{MIN_BLOCKS};
ghost use Rattle.journal_disk.specs.Disks.{Keeps, HasFailed, IsSettled, IsKeptAt};
ghost use Rattle.journal_disk.specs.Images.{IsRewritten};
ghost use Rattle.journal_circ.specs.Log.{home_by, DescribesLog};
ghost use Rattle.journal_circ.specs.Ring.{IsOpenRefusal};
ghost use Rattle.journal_circ.specs.Mending.{IsMendable, IsLogOf};

use crate::Circ;
use crate::circ::opening::{Headers, read_headers};
use crate::fail_stop::FailStop;
use crate::layout::home_at;
use journal_block::Block;
use journal_disk::{BlockDisk, DiskFault, rewrite, rewrite_first};
use journal_world::{FIRST_HOME, Refusal, Refused};
use std::alloc::Global;

impl<D: BlockDisk> Circ<D> {
    /// Makes a disk settled whose log is to be opened: one that a failed barrier, a kill or a crash
    /// left. It looks at the log as `open` does. Then it writes blocks 0 to 512, and each home
    /// block that the log names, as they read, and makes one barrier. At each moment each image is
    /// one that a crash might have left before, and reads give the same as before.
    ///
    /// # Errors
    /// A refusal gives the disk back.
    /// - `J1 NoMemory`: memory for four blocks is refused. Nothing is written.
    /// - `J6 DeviceFailed`: the device failed in this call. The disk can be mended again.
    /// - `J7 BadLog`: the disk's log is not well formed. Nothing is written.
    pub fn mend(alloc: Global, disk: D) -> Result<D, Refused<D, ()>>
        requires in_range { MIN_BLOCKS ≤ (D.state disk).past.size }
        requires mendable { IsTrue (D.state disk).honest → IsMendable (D.state disk).past }
        ensures refusal { IfErr result (λ refused.
            IsOpenRefusal (D.state disk) (D.state refused.disk) refused.refusal) }
        ensures keeps { MatchResult result
            (λ mended. Keeps (D.state disk) (D.state mended))
            (λ refused. Keeps (D.state disk) (D.state refused.disk)) }
        ensures rewritten { IsTrue (D.state disk).honest → MatchResult result
            (λ mended. IsRewritten (D.state disk).past (D.state mended).past)
            (λ refused. IsRewritten (D.state disk).past (D.state refused.disk).past) }
        ensures settled { IsTrue (D.state disk).honest → IfOk result (λ mended. IsSettled (D.state mended).past) }
        ensures looked { IsTrue (D.state disk).honest → IfErr result (λ refused.
            refused.refusal ≡ Refusal.BadLog → (D.state refused.disk).past ≡ (D.state disk).past) }
    {
        let mut device = FailStop {
            disk,
            faulted: false,
        };
        match mend_log(alloc, &mut device) {
            Ok(()) => Ok(device.disk),
            Err(refusal) => Err(Refused {
                refusal,
                disk: device.disk,
            }),
        }
    }
}

// Looks at the log, and then writes again.
fn mend_log<D: BlockDisk>(alloc: Global, device: &mut FailStop<D>) -> Result<(), Refusal<()>>
    requires in_range { MIN_BLOCKS ≤ (D.state device.old.disk).past.size }
    requires sound { device.old.faulted ≡ false }
    requires mendable { IsTrue (D.state device.old.disk).honest → IsMendable (D.state device.old.disk).past }
    ensures refusal { IfErr result (IsOpenRefusal (D.state device.old.disk) (D.state device.new.disk)) }
    ensures keeps { Keeps (D.state device.old.disk) (D.state device.new.disk) }
    ensures rewritten { IsTrue (D.state device.old.disk).honest →
        IsRewritten (D.state device.old.disk).past (D.state device.new.disk).past }
    ensures settled { IsTrue (D.state device.old.disk).honest → OnOk result (IsSettled (D.state device.new.disk).past) }
    ensures looked { IsTrue (D.state device.old.disk).honest → IfErr result (λ why.
        why ≡ Refusal.BadLog → (D.state device.new.disk).past ≡ (D.state device.old.disk).past) }
{
    let Headers {
        header,
        scratch,
        start,
        end,
        ..
    } = read_headers(alloc, device)?;
    let mut scratch = scratch;
    match write_again(&mut device.disk, &header, start, end, &mut scratch) {
        Ok(()) => Ok(()),
        Err(_) => Err(Refusal::DeviceFailed(())),
    }
}

// Writes the blocks of the log, and the home blocks from start to end, as they read, and makes them
// stable.
fn write_again<D: BlockDisk>(
    disk: &mut D,
    header: &Block,
    start: u64,
    end: u64,
    scratch: &mut Block,
) -> Result<(), DiskFault>
    requires in_range { MIN_BLOCKS ≤ (D.state disk.old).past.size }
    requires log { DescribesLog header.now start end (D.state disk.old).past.size }
    ensures keeps { Keeps (D.state disk.old) (D.state disk.new) }
    ensures cause { OnErr result (HasFailed (D.state disk.old) (D.state disk.new)) }
    ensures rewritten { IsTrue (D.state disk.old).honest →
        IsRewritten (D.state disk.old).past (D.state disk.new).past }
    ensures settled { IsTrue (D.state disk.old).honest → IsMendable (D.state disk.old).past → IsLogOf (D.state disk.old).past header.now start end
        → OnOk result (IsSettled (D.state disk.new).past) }
{
    rewrite_first(disk, FIRST_HOME, scratch)?;
    rewrite_homes(disk, header, start, end, scratch)?;
    disk.barrier()
}

// Writes the home block of each position from start to end as it reads.
fn rewrite_homes<D: BlockDisk>(
    disk: &mut D,
    header: &Block,
    start: u64,
    end: u64,
    scratch: &mut Block,
) -> Result<(), DiskFault>
    requires ordered { start ≤ end }
    requires homes { (q : ℕ) → start ≤ q → q < end → home_by header.now q < (D.state disk.old).past.size }
    ensures keeps { Keeps (D.state disk.old) (D.state disk.new) }
    ensures cause { OnErr result (HasFailed (D.state disk.old) (D.state disk.new)) }
    ensures rewritten { IsTrue (D.state disk.old).honest →
        IsRewritten (D.state disk.old).past (D.state disk.new).past }
    ensures kept { IsTrue (D.state disk.old).honest → OnOk result
        ((q : ℕ) → start ≤ q → q < end → IsKeptAt (D.state disk.new).past (home_by header.now q)) }
{
    for position in start..end {
        rewrite(disk, home_at(header, position), scratch)?;
    }
    Ok(())
}
