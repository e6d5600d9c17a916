// Scans of a block's bits in memory.
ghost use Rattle.std.specs.Prelude.{◌≡◌, Some, false, IsTrue, IfOk, IfErr, OnOk, OnErr};
ghost use mathlib.Core.List.{IsPrefix};
ghost use Rattle.journal_world.specs.Addresses.{kind_of};
ghost use Rattle.journal_world.specs.Histories.{is_trusted, latest};
ghost use Rattle.journal_block.specs.Updates.{updates_block};
ghost use Rattle.journal_tail.specs.ObjectTails.{known_updates};
ghost use Rattle.journal_history.specs.Tokens.{OnlyExtends};
ghost use Rattle.journal_memory.specs.Bits.{AreBitsOf, is_scan};
ghost use Rattle.journal_memory.specs.Scans.{MayScan, IsScanCheckRefusal};
ghost use Rattle.journal_memory.specs.Volatiles.{IsFrontRefusal, outset_of, usable};
ghost use Rattle.journal_memory.specs.VolatileHolds.{AnswersScan};

use crate::bit_scan::BitScan;
use crate::cause::Cause;
use crate::fetched::Fetched;
use crate::volatile::Volatile;
use journal_block::Block;
use journal_history::{Naming, Session};
use journal_world::{MapRule, Refusal};

impl<'b, R: MapRule, J: Naming> Volatile<'b, R, J> {
    /// A hold of memory alone: copies a block of bits. Each bit of the copy is the one that the map
    /// gives after the history, which the session has then seen. The block is as memory has it, or
    /// if memory has no update of it, as it was fetched. Answers false if it has to be fetched, as
    /// `read` does. The session is then as it was. The call takes no memory, and the memory part
    /// stays as it is.
    ///
    /// # Errors
    /// The first that applies is answered. The session is as it was.
    /// - `J13 Closed`: it was stopped.
    /// - `J6 DeviceFailed`: the device failed before.
    /// - `J2 BadAddress`: the block has no bits, or the first bit is above 32767.
    /// - `J9 Stale`: the session or the fetch has seen more of the history.
    pub fn scan(
        &self,
        session: &mut Session<'b, J, R>,
        scan: BitScan,
        fetched: &Fetched<'b, J, R>,
        into: &mut Block,
    ) -> Result<bool, Refusal<Cause<'b, J, R>>>
        ensures event { AnswersScan J.layout self.now session.old scan fetched.now result into.new session.new }
    {
        self.check_scan(session, scan)?;
        self.copy_bits(session, scan, fetched, into)
    }

    /// Refuses a scan by what is known before its block is looked up. Nothing changes.
    ///
    /// # Errors
    /// The first that applies is answered.
    /// - `J13 Closed`: it was stopped.
    /// - `J6 DeviceFailed`: the device failed before.
    /// - `J2 BadAddress`: the block has no bits, or the first bit is above 32767.
    /// - `J9 Stale`: the session has seen more of the history.
    pub fn check_scan(
        &self,
        session: &Session<'b, J, R>,
        scan: BitScan,
    ) -> Result<(), Refusal<Cause<'b, J, R>>>
        ensures may { OnOk result (MayScan J.layout (outset_of self.now) session.now scan) }
        ensures refusal { IfErr result (IsScanCheckRefusal J.layout (outset_of self.now) session.now scan) }
    {
        self.check_running()?;
        if !scan.is_within(self.layout.get()) {
            return Err(Refusal::BadAddress);
        }
        let _front = self.front_over(&session.front())?;
        Ok(())
    }

    // Copies the block, once the scan was checked.
    fn copy_bits(
        &self,
        session: &mut Session<'b, J, R>,
        scan: BitScan,
        fetched: &Fetched<'b, J, R>,
        into: &mut Block,
    ) -> Result<bool, Refusal<Cause<'b, J, R>>>
        requires bits { IsTrue (is_scan J.layout scan) }
        requires later { IsPrefix session.old.seen self.now.ledger.history }
        ensures bits { IsTrue (is_trusted self.now.ledger.history) → IfOk result (λ found. IsTrue found → AreBitsOf (latest self.now.ledger.history) scan.block into.new) }
        ensures lacks { IfOk result (λ found. found ≡ false → updates_block (known_updates (usable self.now fetched.now) self.now.tail) scan.block ≡ false) }
        ensures shown { IfOk result (λ found. IsTrue found → session.new.seen ≡ self.now.ledger.history) }
        ensures extends { OnlyExtends session.old session.new }
        ensures stays { IfOk result (λ found. found ≡ false → session.new ≡ session.old) }
        ensures same { OnErr result (session.new ≡ session.old) }
        ensures refusal { IfErr result (IsFrontRefusal self.now.ledger.history fetched.now.front) }
    {
        let blocks = self.usable(fetched)?;
        let Some(found) = self.tail.get(blocks, scan.block) else {
            return Ok(false);
        };
        into.copy_from(found);
        session.see(&self.ledger.front());
        Ok(true)
    }
}
