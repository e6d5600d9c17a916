// Reads of the objects in memory.
ghost use Rattle.std.specs.Prelude.{◌≡◌, Some, None, length, IsTrue, IsSome, IfOk, IfErr, IfSome, OnOk};
ghost use mathlib.Core.List.{IsPrefix};
ghost use Rattle.journal_world.specs.Addresses.{is_valid};
ghost use Rattle.journal_world.specs.Maps.{value_at, is_object};
ghost use Rattle.journal_world.specs.Histories.{is_trusted, latest};
ghost use Rattle.journal_object.specs.Objects.{size_at};
ghost use Rattle.journal_tail.specs.ObjectTails.{known_at, known_updates};
ghost use Rattle.journal_memory.specs.SlotCounts.{AgreeUpTo, AgreeWith, AreUnder};
ghost use Rattle.journal_memory.specs.Transactions.{AreUnmoved};
ghost use Rattle.journal_memory.specs.Updates.{AreObjectsOf};
ghost use Rattle.journal_memory.specs.Outsets.{MayRead, IsCheckRefusal};
ghost use Rattle.journal_memory.specs.Volatiles.{IsReadRefusal, IsFrontRefusal, outset_of, usable};
ghost use Rattle.journal_memory.specs.VolatileHolds.{AnswersRead};

use crate::cause::{Cause, raise};
use crate::fetched::Fetched;
use crate::transaction::{ReadResult, Transaction};
use crate::volatile::Volatile;
use journal_block::Update;
use journal_history::Naming;
use journal_lockmap::Held;
use journal_world::{Addr, MapRule, Refusal};
use std::sync::Wait;

impl<'b, R: MapRule, J: Naming> Volatile<'b, R, J> {
    // The held slots are looked at, whatever is asked. So the clause `agree` holds at every hold,
    // and of a refused call too.
    /// A hold of memory alone: reads the value that the map after the history gives the address,
    /// into bytes that are as many as its object has. It is read as memory has it, or if memory has
    /// no update of its block, as it was fetched. Answers none if the block has to be fetched: it
    /// was not, or memory has dropped writes after the fetch. The call takes no memory.
    ///
    /// The slots of all earlier reads are held. Their tokens are verified first. Where nothing was
    /// added to the history that the transaction has seen, those of the first `known` slots agree
    /// with it, and are not looked at. That shows that no commit touched these slots since. It does
    /// not block and compares no value. Nothing changes.
    ///
    /// # Errors
    /// The first that applies is answered. The transaction is as it was.
    /// - `J13 Closed`: it was stopped.
    /// - `J6 DeviceFailed`: the device failed before.
    /// - `J2 BadAddress`: the address is not valid.
    /// - `J9 Stale`: the transaction or the fetch has seen more of the history.
    pub fn read<W: Wait>(
        &mut self,
        rt: &W,
        transaction: &Transaction<'b, J, R>,
        held: &mut [Held<J>],
        known: usize,
        addr: Addr,
        fetched: &Fetched<'b, J, R>,
        into: &mut [u8],
    ) -> Result<Option<ReadResult<'b, J, R>>, Refusal<Cause<'b, J, R>>>
        requires size { IsTrue (is_valid J.layout addr) → length into.old ≡ size_at J.layout addr }
        requires under { AreUnder J.layout held.old transaction.now.seen transaction.now.reads }
        requires known { AgreeUpTo J.layout transaction.now.seen known held.old }
        ensures agree { AgreeWith J.layout self.new.ledger.history held.new }
        ensures held { held.new ≡ held.old }
        ensures stays { IfOk result (λ found. found ≡ None → into.new ≡ into.old) }
        ensures refusal { IfErr result (IsReadRefusal J.layout self.old transaction.now addr fetched.now) }
        ensures event { AnswersRead J.layout self.old transaction.now addr fetched.now result into.new self.new }
    {
        self.verify_new_tokens(rt, &transaction.front, known, held);
        self.read_verified(transaction, addr, fetched, into)
    }

    /// Verifies the tokens, and refuses a read by what is known before its value is looked up.
    /// Nothing changes.
    ///
    /// # Errors
    /// The first that applies is answered.
    /// - `J13 Closed`: it was stopped.
    /// - `J6 DeviceFailed`: the device failed before.
    /// - `J2 BadAddress`: the address is not valid.
    /// - `J9 Stale`: the transaction has seen more of the history.
    pub fn check_read<W: Wait>(
        &mut self,
        rt: &W,
        transaction: &Transaction<'b, J, R>,
        held: &mut [Held<J>],
        known: usize,
        addr: Addr,
    ) -> Result<(), Refusal<Cause<'b, J, R>>>
        requires under { AreUnder J.layout held.old transaction.now.seen transaction.now.reads }
        requires known { AgreeUpTo J.layout transaction.now.seen known held.old }
        ensures agree { AgreeWith J.layout self.new.ledger.history held.new }
        ensures held { held.new ≡ held.old }
        ensures same { self.new ≡ self.old }
        ensures may { OnOk result (MayRead J.layout (outset_of self.old) transaction.now addr) }
        ensures refusal { IfErr result (IsCheckRefusal J.layout (outset_of self.old) transaction.now addr) }
    {
        self.verify_new_tokens(rt, &transaction.front, known, held);
        self.check_verified(transaction, addr)
    }

    /// Reads as `read` does, once it was verified that no other commit touched the slots of its
    /// reads.
    ///
    /// # Errors
    /// Those of `read`. Nothing changed.
    pub fn read_verified(
        &self,
        transaction: &Transaction<'b, J, R>,
        addr: Addr,
        fetched: &Fetched<'b, J, R>,
        into: &mut [u8],
    ) -> Result<Option<ReadResult<'b, J, R>>, Refusal<Cause<'b, J, R>>>
        requires size { IsTrue (is_valid J.layout addr) → length into.old ≡ size_at J.layout addr }
        requires unmoved { AreUnmoved J.layout self.now.ledger.history transaction.now }
        ensures value { IsTrue (is_trusted self.now.ledger.history) → IfOk result (λ found. IsSome found → into.new ≡ value_at (latest self.now.ledger.history) addr) }
        ensures object { IfOk result (λ found. IsSome found → IsTrue (is_object J.layout (addr, into.new))) }
        ensures found { IfOk result (λ found. IfSome found (λ found. found ≡ record { addr = addr; seen = self.now.ledger.history })) }
        ensures stays { IfOk result (λ found. found ≡ None → into.new ≡ into.old) }
        ensures lacks { IfOk result (λ found. found ≡ None → known_at J.layout (usable self.now fetched.now) self.now.tail addr ≡ None) }
        ensures may { OnOk result (MayRead J.layout (outset_of self.now) transaction.now addr) }
        ensures refusal { IfErr result (IsReadRefusal J.layout self.now transaction.now addr fetched.now) }
    {
        self.check_verified(transaction, addr)?;
        let blocks = self.usable(fetched)?;
        let layout = self.layout.get();
        if !raise(self.tail.read(layout, addr, blocks, into))? {
            return Ok(None);
        }
        Ok(Some(ReadResult {
            addr,
            front: self.ledger.front(),
        }))
    }

    // Refuses a read as `check_read` does, once it was verified that no other commit touched the
    // slots of its reads.
    pub(crate) fn check_verified(
        &self,
        transaction: &Transaction<'b, J, R>,
        addr: Addr,
    ) -> Result<(), Refusal<Cause<'b, J, R>>>
        requires unmoved { AreUnmoved J.layout self.now.ledger.history transaction.now }
        ensures may { OnOk result (MayRead J.layout (outset_of self.now) transaction.now addr) }
        ensures refusal { IfErr result (IsCheckRefusal J.layout (outset_of self.now) transaction.now addr) }
    {
        self.check_running()?;
        if !self.layout.get().is_valid(addr) {
            return Err(Refusal::BadAddress);
        }
        self.ledger.check_transaction(transaction)
    }

    // The fetched blocks that may be used. Refuses by J9 if the fetch has seen more of the history.
    // A stale fetch is ignored, not refused: memory alone is used then, and the answer names the
    // missing blocks. So the caller's loop has one path.
    pub(crate) fn usable<'a>(
        &self,
        fetched: &'a Fetched<'b, J, R>,
    ) -> Result<&'a [Update], Refusal<Cause<'b, J, R>>>
        ensures blocks { IfOk result (λ blocks. blocks.now ≡ usable self.now fetched.now) }
        ensures latest { IsTrue (is_trusted self.now.ledger.history) → IfOk result (λ blocks.
            AreObjectsOf J.layout (latest self.now.ledger.history) (known_updates blocks.now self.now.tail)) }
        ensures begins { OnOk result (IsPrefix fetched.now.front self.now.ledger.history) }
        ensures refusal { IfErr result (IsFrontRefusal self.now.ledger.history fetched.now.front) }
    {
        self.front_over(&fetched.front)?;
        if self.tail.trimmed() <= fetched.commits {
            Ok(&fetched.updates)
        } else {
            Ok(&[])
        }
    }
}
