// The bits of a block at one moment.
//
// Each hold is like one of a read: one of the memory lock alone if the block is in memory, else one
// of the disk's lock with holds of the memory lock inside. No slot is taken. A hold copies the
// block, and the bits are looked at in the copy, with no lock held.
ghost use Rattle.std.specs.Prelude.{◌≡◌, ◌<◌, IsTrue, IfOk, IfErr, OnOk};
ghost use Rattle.journal_world.specs.Histories.{is_trusted, latest};
ghost use Rattle.journal_history.specs.Tokens.{OnlyExtends};
ghost use Rattle.journal_memory.specs.Bits.{AreBitsOf, AreInOrder, found_bits, is_scan};
ghost use Rattle.journal_twophase.specs.Journals.{IsScanRefusal};

use crate::journal::Journal;
use crate::locked_parts::{JournalRefusal, LockedParts};
use journal_block::Block;
use journal_disk::BlockDisk;
use journal_history::{Naming, Session};
use journal_memory::{BitScan, Fetched};
use journal_world::{MapRule, Refusal};
use std::alloc::Global;
use std::sync::Wait;

impl<'b, D: BlockDisk, R: MapRule, J: Naming> Journal<'b, D, R, J> {
    // No transaction remembers it, so the next commit may change what it found. A caller that takes
    // a bit reads it in the transaction that writes it.
    /// The numbers of the bits of one block that are asked for, ascending, at one moment: as the
    /// map has them after the history that the session has then seen, which is the whole history at
    /// that moment. No commit comes in between two of them.
    ///
    /// It takes no slot, so it neither waits for a transaction nor keeps one waiting, and the bits
    /// may change at once. A caller that writes a bit reads it in a transaction first. A block that
    /// is not in memory is read from the disk. A scan is allowed under a fence of the session.
    ///
    /// # Errors
    /// The first that applies is answered, and of the last two the one that occurs. The journal is
    /// as it was, and the session may have seen more.
    /// - `J13 Closed`: the journal was stopped.
    /// - `J6 DeviceFailed`: the device failed before.
    /// - `J2 BadAddress`: the block has no bits, or the first bit is above 32767.
    /// - `J9 Stale`: the session has seen more of the history than the core.
    /// - `J1 NoMemory`: memory is refused.
    /// - `J6 DeviceFailed`: the device fails in this call.
    pub fn scan<W: Wait>(
        &self,
        rt: &W,
        alloc: Global,
        session: &mut Session<'b, J, R>,
        scan: BitScan,
    ) -> Result<Vec<u32>, JournalRefusal<'b, J, R>>
        ensures found { IfOk result (λ bits. IsTrue (is_trusted session.new.seen) → bits.items ≡ found_bits (latest session.new.seen) scan) }
        ensures order { IfOk result (λ bits. AreInOrder scan bits.items) }
        ensures valid { OnOk result (IsTrue (is_scan J.layout scan)) }
        ensures session { OnlyExtends session.old session.new }
        ensures refusal { IfErr result (IsScanRefusal J.layout scan) }
    {
        // The memory is taken under no lock.
        let mut copy = match Block::try_new(alloc) {
            Ok(copy) => copy,
            Err(refusal) => {
                self.core.check_scan(rt, session, scan)?;
                return Err(refusal);
            }
        };
        self.core.copy_bits(rt, session, scan, &mut copy)?;
        Ok(scan.bits_in(alloc, &copy)?)
    }
}

impl<'b, D: BlockDisk, R: MapRule, J: Naming> LockedParts<'b, D, R, J> {
    // Refuses a scan by what is known before its block is looked up: J13, J6 of an earlier fault,
    // J2, J9.
    fn check_scan<W: Wait>(
        &self,
        rt: &W,
        session: &Session<'b, J, R>,
        scan: BitScan,
    ) -> Result<(), JournalRefusal<'b, J, R>>
        ensures bits { OnOk result (IsTrue (is_scan J.layout scan)) }
        ensures refusal { IfErr result (IsScanRefusal J.layout scan) }
    {
        self.lock_memory(rt).volatile.check_scan(session, scan)
    }

    // Copies the block of the scan, as the history has it that the session has then seen.
    fn copy_bits<W: Wait>(
        &self,
        rt: &W,
        session: &mut Session<'b, J, R>,
        scan: BitScan,
        into: &mut Block,
    ) -> Result<(), JournalRefusal<'b, J, R>>
        ensures bits { IsTrue (is_trusted session.new.seen) → OnOk result (AreBitsOf (latest session.new.seen) scan.block into.new) }
        ensures valid { OnOk result (IsTrue (is_scan J.layout scan)) }
        ensures session { OnlyExtends session.old session.new }
        ensures refusal { IfErr result (IsScanRefusal J.layout scan) }
    {
        let answer = self.copy_or_fetch(rt, session, scan, into);
        self.wake_after_fault(&answer);
        answer
    }

    // Copies it as memory has it, or if memory lacks the block, fetches the block first.
    fn copy_or_fetch<W: Wait>(
        &self,
        rt: &W,
        session: &mut Session<'b, J, R>,
        scan: BitScan,
        into: &mut Block,
    ) -> Result<(), JournalRefusal<'b, J, R>>
        ensures bits { IsTrue (is_trusted session.new.seen) → OnOk result (AreBitsOf (latest session.new.seen) scan.block into.new) }
        ensures valid { OnOk result (IsTrue (is_scan J.layout scan)) }
        ensures session { OnlyExtends session.old session.new }
        ensures refusal { IfErr result (IsScanRefusal J.layout scan) }
    {
        // Called for its contract: the session has seen an opening.
        let _seen = session.seen();
        let nothing = Fetched::empty(self.alloc, session.front());
        if self.copy_in(rt, session, scan, &nothing, into)? {
            return Ok(());
        }
        self.copy_fetched(rt, session, scan, nothing, into)
    }

    // Copies it in one hold of the memory lock. False if the block has to be fetched.
    fn copy_in<W: Wait>(
        &self,
        rt: &W,
        session: &mut Session<'b, J, R>,
        scan: BitScan,
        fetched: &Fetched<'b, J, R>,
        into: &mut Block,
    ) -> Result<bool, JournalRefusal<'b, J, R>>
        ensures bits { IsTrue (is_trusted session.new.seen) → IfOk result (λ found. IsTrue found → AreBitsOf (latest session.new.seen) scan.block into.new) }
        ensures valid { OnOk result (IsTrue (is_scan J.layout scan)) }
        ensures below { OnOk result (scan.block < J.layout.blocks) }
        ensures session { OnlyExtends session.old session.new }
        ensures refusal { IfErr result (IsScanRefusal J.layout scan) }
    {
        let mut memory = self.lock_memory(rt);
        let answer = memory.volatile.scan(session, scan, fetched, into);
        memory.volatile.touch(scan.block);
        answer
    }

    // Copies it, and fetches the block if memory still lacks it. The disk's lock is held from the
    // fetch to the next look in memory, as for a read.
    fn copy_fetched<W: Wait>(
        &self,
        rt: &W,
        session: &mut Session<'b, J, R>,
        scan: BitScan,
        nothing: Fetched<'b, J, R>,
        into: &mut Block,
    ) -> Result<(), JournalRefusal<'b, J, R>>
        requires below { scan.block < J.layout.blocks }
        requires valid { IsTrue (is_scan J.layout scan) }
        ensures bits { IsTrue (is_trusted session.new.seen) → OnOk result (AreBitsOf (latest session.new.seen) scan.block into.new) }
        ensures session { OnlyExtends session.old session.new }
        ensures refusal { IfErr result (IsScanRefusal J.layout scan) }
    {
        let mut fetched = nothing;
        let mut durable = self.durable.lock(rt);
        for _ in rt.forever() {
            if self.copy_with(rt, session, scan, fetched, into)? {
                return Ok(());
            }
            fetched = self.fetch(rt, &mut durable, &[scan.block])?;
        }
        unreachable!()
    }

    // Copies it as `copy_in` does, with the fetched block, and keeps that in memory if it is used.
    fn copy_with<W: Wait>(
        &self,
        rt: &W,
        session: &mut Session<'b, J, R>,
        scan: BitScan,
        fetched: Fetched<'b, J, R>,
        into: &mut Block,
    ) -> Result<bool, JournalRefusal<'b, J, R>>
        ensures bits { IsTrue (is_trusted session.new.seen) → IfOk result (λ found. IsTrue found → AreBitsOf (latest session.new.seen) scan.block into.new) }
        ensures session { OnlyExtends session.old session.new }
        ensures refusal { IfErr result (IsScanRefusal J.layout scan) }
    {
        let mut memory = self.lock_memory(rt);
        let found = memory.volatile.scan(session, scan, &fetched, into)?;
        if found {
            memory.volatile.keep(fetched);
        }
        Ok(found)
    }
}
