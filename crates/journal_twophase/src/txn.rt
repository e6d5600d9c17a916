// Open transactions.
ghost use Rattle.std.specs.Prelude.{◌≡◌, ◌⊎◌, ◌<◌, [], ◌∷◌, ◌++◌, ℕ, List, length, Some, IsTrue, IfSome, IfOk, IfErr, OnOk, OnErr, IsOkUnless, option_copied, if◌then◌else◌};
ghost use mathlib.Core.List.{IsPrefix};
ghost use Rattle.journal_world.specs.Addresses.{is_valid, kind_of, bytes_of, slot_of as slot_number};
ghost use Rattle.journal_world.specs.Maps.{is_object, value_among, Agrees};
ghost use Rattle.journal_object.specs.Objects.{size_at};
ghost use Rattle.journal_world.specs.Histories.{is_trusted, latest};
ghost use Rattle.journal_twophase.specs.Transactions.{TxnState, core_of, begun, holding, holds, holds_above, with_slot, IsClearOf, Learns, ReadsValue, Overwrites, IsSlotRefusal, IsCheckRefusal, IsEndRefusal, IsReadRefusal, IsOverwriteRefusal};

use crate::journal::Journal;
use crate::locked_parts::JournalRefusal;
use journal_disk::BlockDisk;
use journal_history::{Front, Naming, Session};
use journal_lockmap::{Held, LockMap};
use journal_memory::Transaction;
use journal_world::{Addr, Kind, MapRule, Refusal, Value};
use std::alloc::{AllocError, AllocFailed, Global};
use std::marker::Model;
use std::sync::Wait;

// Each address that it read or overwrote has its slot held (`KeepsHeld`), and no slot is held
// twice. So a commit has nothing to test, and a refused call gives back only the slot that it took.
/// An open transaction. Contracts see the history that its session had seen when it began, its
/// reads and overwrites, a history at whose end the map gives all that it read, and the slots that
/// it holds.
///
/// It must be ended, by `commit`, `try_commit` or `abort`: it cannot be dropped.
#[must_use]
pub struct Txn<'j, 'b, D: BlockDisk, R: MapRule, J: Naming> {
    pub(crate) journal: &'j Journal<'b, D, R, J>,
    pub(crate) alloc: Global,
    pub(crate) began: Front<'b, J, R>,
    pub(crate) transaction: Transaction<'b, J, R>,
    pub(crate) held: Vec<Held<J>>,
    // How many of these agree with what it has seen, from the first on. Its last read looked at
    // them.
    pub(crate) known: usize,
    // The block that its last look-up read, or 0, which has no objects.
    pub(crate) last_block: u64,
}

impl<'j, 'b, D: BlockDisk, R: MapRule, J: Naming> Model for Txn<'j, 'b, D, R, J> {
    ghost use mathlib.Core.List.{IsPrefix};
    ghost use Rattle.journal_lockmap.specs.Numbers.{slots_of};
    ghost use Rattle.journal_twophase.specs.Transactions.{TxnState, KeepsHeld, KnowsHeld};

    ghost Value = { TxnState };

    ghost view = { λ t. record {
      began = t.began;
      reads = t.transaction.reads;
      writes = t.transaction.writes;
      seen = t.transaction.seen;
      held = slots_of t.held.items;
    } };

    ghost invariant = { λ t. IsPrefix t.began t.transaction.seen × KeepsHeld J.layout t.held.items t.transaction × KnowsHeld J.layout t.held.items t.transaction.seen t.known };
}

impl<'j, 'b, D: BlockDisk, R: MapRule, J: Naming> Txn<'j, 'b, D, R, J> {
    // A transaction that has done nothing yet, after all that the session has seen.
    pub(crate) fn new(
        journal: &'j Journal<'b, D, R, J>,
        alloc: Global,
        session: &Session<'b, J, R>,
    ) -> Txn<'j, 'b, D, R, J>
        ensures { result ≡ begun session.now.seen }
    {
        Txn {
            journal,
            alloc,
            began: session.front(),
            transaction: Transaction::begin(alloc, session),
            held: Vec::new(alloc),
            known: 0,
            last_block: 0,
        }
    }

    /// The history that it has seen last, which goes on from the one at its beginning. The map at
    /// its end gives all that the transaction has read, whether it is committed later or not.
    pub fn front(&self) -> &Front<'b, J, R>
        ensures seen { result.now ≡ self.now.seen }
        ensures began { IsPrefix self.now.began self.now.seen }
        ensures agrees { IsTrue (is_trusted self.now.seen) → Agrees (latest self.now.seen) self.now.reads }
    {
        self.transaction.front()
    }

    /// The address's value: the transaction's own, if it has overwritten it, else the one that the
    /// map gives, which it remembers. It takes the address's slot: it waits for one that is greater
    /// than all that it holds, and tries a lower one once. The map at the end of one history, which
    /// it has then seen, gives all that it has read, with each value that it had read before this
    /// one, of the same address too.
    ///
    /// # Errors
    /// The first that applies is answered, and of the last two the one that occurs. The transaction
    /// is as it was, with the slots that it held.
    /// - `J13 Closed`: the journal was stopped.
    /// - `J6 DeviceFailed`: the device failed before.
    /// - `J2 BadAddress`: the address is not valid.
    /// - `J5 Busy`: another transaction holds the slot, and this one holds a greater one.
    /// - `J9 Stale`: the transaction has seen more of the history than the core.
    /// - `J1 NoMemory`: memory is refused.
    /// - `J6 DeviceFailed`: the device fails in this call.
    pub fn read<W: Wait>(&mut self, rt: &W, addr: Addr) -> Result<Value, JournalRefusal<'b, J, R>>
        ensures reads { IfOk result (λ value. ReadsValue (holding J.layout self.old addr) addr value self.new) }
        ensures object { IfOk result (λ value. IsTrue (is_object J.layout (addr, value))) }
        ensures agrees { OnOk result (IsTrue (is_trusted self.new.seen) → Agrees (latest self.new.seen) self.new.reads) }
        ensures kept { OnOk result (IsTrue (is_trusted self.new.seen) → Agrees (latest self.new.seen) self.old.reads) }
        ensures refusal { IfErr result (IsReadRefusal J.layout self.old addr) }
        ensures same { OnErr result (self.new ≡ self.old) }
    {
        let journal = self.journal;
        let Some(kind) = journal.layout.kind_at(addr) else {
            return Err(self.unless_ended(rt, Refusal::BadAddress));
        };
        let took = match self.take(rt, journal.slot_of(addr)) {
            Ok(took) => took,
            Err(Refusal::NoMemory) => return Err(self.no_memory(rt, addr)),
            Err(refusal) => return Err(self.unless_ended(rt, refusal)),
        };
        let answer = self.find_value(rt, addr, kind);
        if answer.is_err() {
            self.give_back(rt, took);
        }
        // Called for its contract: one map gives all that was read.
        let _front = self.front();
        answer
    }

    // The refusal of a read that the core was not asked for. A stop or a fault of the journal comes
    // before it. Asked only where the read answers without a look-up. Else the look-up asks, so
    // that a read takes the memory lock once.
    fn unless_ended<W: Wait>(
        &self,
        rt: &W,
        refusal: JournalRefusal<'b, J, R>,
    ) -> JournalRefusal<'b, J, R>
        ensures { (result ≡ refusal.entry) ⊎ IsEndRefusal result }
    {
        let journal = self.journal;
        match journal.core.check_running(rt) {
            Ok(()) => refusal,
            Err(ended) => ended,
        }
    }

    // The refusal of a read for which there is no memory. All other refusals come before it.
    fn no_memory<W: Wait>(&mut self, rt: &W, addr: Addr) -> JournalRefusal<'b, J, R>
        requires valid { IsTrue (is_valid J.layout addr) }
        ensures refusal { IsCheckRefusal (core_of self.old) result }
        ensures same { self.new ≡ self.old }
    {
        let journal = self.journal;
        let Txn {
            transaction,
            held,
            known,
            ..
        } = self;
        match journal.core.check_read(rt, transaction, held, *known, addr) {
            Ok(()) => Refusal::NoMemory,
            Err(refusal) => refusal,
        }
    }

    // Its own overwrite, else the value that the map gives, which it remembers. `kind` is that of
    // the address's object.
    fn find_value<W: Wait>(
        &mut self,
        rt: &W,
        addr: Addr,
        kind: Kind,
    ) -> Result<Value, JournalRefusal<'b, J, R>>
        requires valid { IsTrue (is_valid J.layout addr) }
        requires kind { kind_of J.layout addr.block ≡ Some kind }
        requires slot { IsTrue (holds self.old.held (slot_number J.layout addr)) }
        ensures reads { IfOk result (λ value. ReadsValue self.old addr value self.new) }
        ensures object { IfOk result (λ value. IsTrue (is_object J.layout (addr, value))) }
        ensures kept { OnOk result (IsTrue (is_trusted self.new.seen) → Agrees (latest self.new.seen) self.old.reads) }
        ensures refusal { IfErr result (IsCheckRefusal (core_of self.old)) }
        ensures same { OnErr result (self.new ≡ self.old) }
    {
        let journal = self.journal;
        // Called for its contract: one map gives all that was read.
        let _front = self.front();
        if let Some(own) = self.own(addr) {
            journal.core.check_running(rt)?;
            return Ok(own.clone()?);
        }
        match self.room_for(kind) {
            Ok(room) => self.read_map(rt, addr, room),
            Err(_) => Err(self.no_memory(rt, addr)),
        }
    }

    // Zeros in the number of bytes that an object of the kind has.
    pub(crate) fn room_for(&self, kind: Kind) -> Result<Vec<u8>, AllocError>
        ensures { IfOk result (λ room. length room.items ≡ bytes_of kind) }
    {
        Ok(vec![in self.alloc; 0u8; kind.bytes()]?)
    }

    // The value that the map gives, which it remembers. Only the look-up has a lock of the core:
    // the value's memory is made outside of it.
    fn read_map<W: Wait>(
        &mut self,
        rt: &W,
        addr: Addr,
        room: Vec<u8>,
    ) -> Result<Value, JournalRefusal<'b, J, R>>
        requires valid { IsTrue (is_valid J.layout addr) }
        requires size { length room.items ≡ size_at J.layout addr }
        requires slot { IsTrue (holds self.old.held (slot_number J.layout addr)) }
        ensures learns { IfOk result (λ value. Learns self.old addr value self.new) }
        ensures object { IfOk result (λ value. IsTrue (is_object J.layout (addr, value))) }
        ensures kept { OnOk result (IsTrue (is_trusted self.new.seen) → Agrees (latest self.new.seen) self.old.reads) }
        ensures refusal { IfErr result (IsCheckRefusal (core_of self.old)) }
        ensures same { OnErr result (self.new ≡ self.old) }
    {
        let journal = self.journal;
        // Called for its contract: the map gave all that was read before.
        let _before = self.transaction.front();
        let mut bytes = room;
        let Txn {
            transaction,
            held,
            known,
            last_block,
            ..
        } = self;
        let is_other = addr.block != *last_block;
        *last_block = addr.block;
        let found = journal
            .core
            .read(rt, transaction, held, *known, addr, is_other, &mut bytes)?;
        let value = Value::new(bytes);
        transaction.remember(found, &value);
        *known = held.len();
        Ok(value)
    }

    // The value that it gave the address, if it has overwritten it.
    fn own(&self, addr: Addr) -> Option<&Value>
        ensures own { option_copied result ≡ value_among self.now.writes addr }
        ensures object { IfSome (option_copied result) (λ value. IsTrue (is_object J.layout (addr, value))) }
    {
        // Called for its contract: its overwrites are objects.
        let _front = self.transaction.front();
        self.transaction.own(addr)
    }

    /// Overwrites the address, in this transaction alone until it is committed. It takes the
    /// address's slot, as `read` does. It makes no device call, and goes on after a fault.
    ///
    /// # Errors
    /// The first that applies is answered. The transaction is as it was, with the slots that it
    /// held.
    /// - `J2 BadAddress`: the address is not valid.
    /// - `J3 BadSize`: the bytes are no value of its kind.
    /// - `J5 Busy`: another transaction holds the slot, and this one holds a greater one.
    /// - `J1 NoMemory`: memory is refused.
    pub fn overwrite<W: Wait>(
        &mut self,
        rt: &W,
        addr: Addr,
        bytes: &[u8],
    ) -> Result<(), JournalRefusal<'b, J, R>>
        ensures overwrites { OnOk result (Overwrites (holding J.layout self.old addr) addr bytes.now self.new) }
        ensures object { OnOk result (IsTrue (is_object J.layout (addr, bytes.now))) }
        ensures refusal { IfErr result (IsOverwriteRefusal J.layout self.old addr bytes.now) }
        ensures same { OnErr result (self.new ≡ self.old) }
    {
        let journal = self.journal;
        let Some(kind) = journal.layout.kind_at(addr) else {
            return Err(Refusal::BadAddress);
        };
        if !kind.admits(bytes) {
            return Err(Refusal::BadSize);
        }
        let took = self.take(rt, journal.slot_of(addr))?;
        let answer = self.remember(addr, bytes);
        if answer.is_err() {
            self.give_back(rt, took);
        }
        answer
    }

    // Remembers the value that is to be written.
    fn remember(&mut self, addr: Addr, bytes: &[u8]) -> Result<(), JournalRefusal<'b, J, R>>
        requires object { IsTrue (is_object J.layout (addr, bytes.now)) }
        requires slot { IsTrue (holds self.old.held (slot_number J.layout addr)) }
        ensures overwrites { OnOk result (Overwrites self.old addr bytes.now self.new) }
        ensures refusal { IsOkUnless result Refusal.NoMemory }
        ensures same { OnErr result (self.new ≡ self.old) }
    {
        let value = Value::new(bytes.to_vec(self.alloc)?);
        self.transaction.overwrite(addr, value)?;
        Ok(())
    }

    // Takes the slot. True if the transaction did not hold it already. The slot is tried before
    // memory for it is asked, so that J5 comes before J1.
    pub(crate) fn take<W: Wait>(
        &mut self,
        rt: &W,
        slot: u16,
    ) -> Result<bool, JournalRefusal<'b, J, R>>
        requires in_range { slot < J.layout.slots }
        ensures taken { OnOk result (self.new ≡ record self.old { held = with_slot self.old.held slot }) }
        ensures took { IfOk result (λ took. self.new.held ≡ (if took then self.old.held ++ slot ∷ [] else self.old.held)) }
        ensures clear { IfOk result (λ took. IsTrue took → IsClearOf J.layout slot self.new.reads × IsClearOf J.layout slot self.new.writes) }
        ensures refusal { IfErr result (IsSlotRefusal self.old.held slot) }
        ensures same { OnErr result (self.new ≡ self.old) }
    {
        if self.holds(slot) {
            return Ok(false);
        }
        let journal = self.journal;
        let held = if self.holds_above(slot) {
            journal.slots.try_acquire(rt, slot)?
        } else {
            journal.slots.acquire(rt, slot)
        };
        match self.held.push(held) {
            Ok(()) => Ok(true),
            Err(AllocFailed { value: held }) => {
                journal.slots.release(rt, held);
                Err(Refusal::NoMemory)
            }
        }
    }

    // True if it holds the slot.
    fn holds(&self, slot: u16) -> bool
        ensures { result ≡ holds self.now.held slot }
    {
        self.held.iter().any(|held| held.slot() == slot)
    }

    // True if it holds a greater one.
    fn holds_above(&self, slot: u16) -> bool
        ensures { result ≡ holds_above self.now.held slot }
    {
        self.held.iter().any(|held| held.slot() > slot)
    }

    // Releases the slot that a refused call took, if it took one. No read and no overwrite is under
    // it. After the core was asked: the held slots are lent to each hold of the lock, and come back
    // as they were.
    fn give_back<W: Wait>(&mut self, rt: &W, took: bool)
        requires clear { IsTrue took → (before : List ℕ) (slot : ℕ) → self.old.held ≡ before ++ slot ∷ [] → IsClearOf J.layout slot self.old.reads × IsClearOf J.layout slot self.old.writes }
        ensures { (t : TxnState) (slot : ℕ) → self.old ≡ record t { held = (if took then t.held ++ slot ∷ [] else t.held) } → self.new ≡ t }
    {
        if !took {
            return;
        }
        let journal = self.journal;
        if let Some(held) = self.held.pop() {
            journal.slots.release(rt, held);
        }
        self.known = self.known.min(self.held.len());
    }

    /// Ends the transaction without a commit, and releases its slots. The call takes no memory.
    pub fn abort<W: Wait>(self, rt: &W) {
        let Txn {
            journal,
            alloc: _,
            began: _,
            transaction: _,
            held,
            known: _,
            last_block: _,
        } = self;
        release_all(rt, &journal.slots, held);
    }
}

// Releases all these slots.
pub(crate) fn release_all<J: Naming, W: Wait>(rt: &W, slots: &LockMap<J>, held: Vec<Held<J>>) {
    let mut held = held;
    while let Some(last) = held.pop() {
        slots.release(rt, last);
    }
    held.destroy_empty();
}
