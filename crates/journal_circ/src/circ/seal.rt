// How an empty log changes its form.
ghost use Rattle.std.specs.Prelude.{◌≡◌, ◌<◌, ◌≤◌, false, true, IsTrue, OnOk, IfOk, IfErr, MatchResult};
ghost use Rattle.journal_disk.specs.Disks.{Past, write, barrier, IsSettled, Keeps, read_of, past_after, MayHaveHappened};
ghost use Rattle.journal_circ.specs.Log.{is_sealed};
ghost use Rattle.journal_circ.specs.Ring.{ChangesForm, IsFault};
ghost use Rattle.journal_circ.specs.Mending.{IsMendable};
ghost use Rattle.journal_circ.specs.declared.layout.TheConstants.{MAX_SEALED_BLOCKS};

use crate::Circ;
use crate::fail_stop::FailStop;
use crate::layout::{BOUND_AT, HEADER};
use crate::tag::put_group;
use journal_block::Block;
use journal_disk::BlockDisk;
use journal_world::{Refusal, Refused};

impl<D: BlockDisk> Circ<D> {
    /// Makes the log, which is empty, a sealed one, by one write and a barrier, and gives the disk
    /// up. Its form before does not matter. At each moment each image stands for the home blocks.
    ///
    /// # Errors
    /// - `J6 DeviceFailed`: the device failed, in this call or before. The disk is given back and
    ///   can be mended. Its log then has either form.
    pub fn seal(self) -> Result<D, Refused<D, ()>>
        requires empty { self.extent.start ≡ self.next }
        requires narrow { self.disk.past.size ≤ MAX_SEALED_BLOCKS }
        ensures refusal { IfErr result (λ refused. IsFault self.faulted self.disk (D.state refused.disk) refused.refusal) }
        ensures crash { IsTrue self.disk.honest → MatchResult result
            (λ disk. ChangesForm self (D.state disk).past)
            (λ refused. ChangesForm self (D.state refused.disk).past) }
        ensures keeps { MatchResult result
            (λ disk. Keeps self.disk (D.state disk))
            (λ refused. Keeps self.disk (D.state refused.disk)) }
        ensures mendable { IsTrue self.disk.honest → IfErr result (λ refused. IsMendable (D.state refused.disk).past) }
        ensures sealed { IsTrue self.disk.honest → IfOk result (λ disk.
            IsSettled (D.state disk).past × (is_sealed (read_of (D.state disk).past 0) ≡ true)) }
    {
        let Circ {
            mut device,
            mut header,
            next,
            ..
        } = self;
        // A group of no position ends where it begins, whatever the log blocks hold.
        put_group(&mut header, next, 0);
        match put_stable(&mut device, &header) {
            Ok(()) => Ok(device.disk),
            Err(refusal) => Err(Refused {
                refusal,
                disk: device.disk,
            }),
        }
    }

    /// Makes the log, which is empty, a plain one, by one write and a barrier, and gives the disk
    /// up. Its form before does not matter. At each moment each image stands for the home blocks.
    ///
    /// # Errors
    /// - `J6 DeviceFailed`: the device failed, in this call or before. The disk is given back and
    ///   can be mended. Its log then has either form.
    pub fn unseal(self) -> Result<D, Refused<D, ()>>
        requires empty { self.extent.start ≡ self.next }
        ensures refusal { IfErr result (λ refused. IsFault self.faulted self.disk (D.state refused.disk) refused.refusal) }
        ensures crash { IsTrue self.disk.honest → MatchResult result
            (λ disk. ChangesForm self (D.state disk).past)
            (λ refused. ChangesForm self (D.state refused.disk).past) }
        ensures keeps { MatchResult result
            (λ disk. Keeps self.disk (D.state disk))
            (λ refused. Keeps self.disk (D.state refused.disk)) }
        ensures mendable { IsTrue self.disk.honest → IfErr result (λ refused. IsMendable (D.state refused.disk).past) }
        ensures plain { IsTrue self.disk.honest → IfOk result (λ disk.
            IsSettled (D.state disk).past × (is_sealed (read_of (D.state disk).past 0) ≡ false)) }
    {
        let Circ {
            mut device,
            mut header,
            next,
            ..
        } = self;
        header.put_u64(BOUND_AT, next);
        match put_stable(&mut device, &header) {
            Ok(()) => Ok(device.disk),
            Err(refusal) => Err(Refused {
                refusal,
                disk: device.disk,
            }),
        }
    }
}

// Puts block 0 and makes it stable.
fn put_stable<D: BlockDisk>(device: &mut FailStop<D>, header: &Block) -> Result<(), Refusal<()>>
    requires { 0 < (D.state device.old.disk).past.size }
    ensures refusal { IfErr result (IsFault device.old.faulted (D.state device.old.disk) (D.state device.new.disk)) }
    ensures keeps { Keeps (D.state device.old.disk) (D.state device.new.disk) }
    ensures tries { IsTrue (D.state device.old.disk).honest → (mid : Past)
        × (MayHaveHappened (write 0 header.now) (D.state device.old.disk).past mid
        × MayHaveHappened barrier mid (D.state device.new.disk).past) }
    ensures makes { IsTrue (D.state device.old.disk).honest → OnOk result
        ((D.state device.new.disk).past ≡ past_after barrier (past_after (write 0 header.now) (D.state device.old.disk).past)) }
{
    match device.write(HEADER, header) {
        Ok(()) => device.barrier(),
        Err(refusal) => Err(refusal),
    }
}
