// A read.
ghost use Rattle.std.specs.Prelude.{◌≡◌, ◌∷◌, [], length, map, IsTrue, IfOk, IfErr, OnOk};
ghost use Rattle.journal_world.specs.Addresses.{is_valid};
ghost use Rattle.journal_world.specs.Maps.{value_at, is_object};
ghost use Rattle.journal_world.specs.Histories.{is_trusted, latest};
ghost use Rattle.journal_object.specs.Objects.{size_at};
ghost use Rattle.journal_memory.specs.SlotCounts.{AgreeWith, AreUnder};
ghost use Rattle.journal_memory.specs.Transactions.{AreUnmoved};
ghost use Rattle.journal_parts.specs.CoreStates.{Crashes, IsRunning, OnlyReads};
ghost use Rattle.journal_core.specs.Steps.{MayRead, IsReadRefusal};
ghost use Rattle.journal_core.specs.Interleavings.{AnswersRead};

use crate::pair_steps::fetch_step;
use crate::state::Core;
use journal_block::Update;
use journal_disk::BlockDisk;
use journal_history::Naming;
use journal_lockmap::Held;
use journal_memory::{Cause, Fetched, ReadResult, Transaction};
use journal_world::{Addr, MapRule, Refusal};
use std::mem;
use std::sync::Wait;

impl<'b, D: BlockDisk, R: MapRule, J: Naming> Core<'b, D, R, J> {
    /// Reads the value that the map after the history gives the address, into bytes that are as
    /// many as its object has. The transaction remembers the result once the core is released. The
    /// history stays. It takes no memory, and the address's block is read from the device only if
    /// it is not in memory.
    ///
    /// The slots of all earlier reads are held. Their tokens are verified first. That shows that no
    /// commit touched these slots since. It does not block and compares no value.
    ///
    /// # Errors
    /// The first that applies is answered. The history is as it was.
    /// - `J13 Closed`: the core was stopped.
    /// - `J6 DeviceFailed`: the device failed before.
    /// - `J2 BadAddress`: the address is not valid.
    /// - `J9 Stale`: the transaction has seen more of the history than the core.
    /// - `J6 DeviceFailed`: the device fails in this call.
    pub fn read_step<W: Wait>(
        &mut self,
        rt: &W,
        transaction: &Transaction<'b, J, R>,
        held: &mut [Held<J>],
        addr: Addr,
        into: &mut [u8],
    ) -> Result<ReadResult<'b, J, R>, Refusal<Cause<'b, J, R>>>
        requires size { IsTrue (is_valid J.layout addr) → length into.old ≡ size_at J.layout addr }
        requires under { AreUnder J.layout held.old transaction.now.seen transaction.now.reads }
        ensures agree { AgreeWith J.layout self.new.history held.new }
        ensures held { held.new ≡ held.old }
        ensures value { IsTrue (is_trusted self.old.history) → OnOk result (into.new ≡ value_at (latest self.old.history) addr) }
        ensures object { OnOk result (IsTrue (is_object J.layout (addr, into.new))) }
        ensures found { IfOk result (λ found. found ≡ record { addr = addr; seen = self.old.history }) }
        ensures may { OnOk result (MayRead J.layout self.old transaction.now addr) }
        ensures running { OnOk result (IsRunning self.new) }
        ensures refusal { IfErr result (IsReadRefusal J.layout self.old transaction.now addr self.new) }
        ensures reads { OnlyReads self.old.objects self.new.objects }
        ensures others { self.new ≡ record self.old { objects = self.new.objects } }
        ensures crash { Crashes self.old self.new }
        ensures event { AnswersRead J.layout self.old transaction.now addr result into.new self.new }
    {
        self.verify_tokens(rt, held);
        self.read_verified(transaction, addr, into)
    }

    // Reads as `read_step` does, once it was verified that no other commit touched the slots of its
    // reads.
    fn read_verified(
        &mut self,
        transaction: &Transaction<'b, J, R>,
        addr: Addr,
        into: &mut [u8],
    ) -> Result<ReadResult<'b, J, R>, Refusal<Cause<'b, J, R>>>
        requires size { IsTrue (is_valid J.layout addr) → length into.old ≡ size_at J.layout addr }
        requires unmoved { AreUnmoved J.layout self.old.history transaction.now }
        ensures value { IsTrue (is_trusted self.old.history) → OnOk result (into.new ≡ value_at (latest self.old.history) addr) }
        ensures object { OnOk result (IsTrue (is_object J.layout (addr, into.new))) }
        ensures found { IfOk result (λ found. found ≡ record { addr = addr; seen = self.old.history }) }
        ensures may { OnOk result (MayRead J.layout self.old transaction.now addr) }
        ensures running { OnOk result (IsRunning self.new) }
        ensures refusal { IfErr result (IsReadRefusal J.layout self.old transaction.now addr self.new) }
        ensures reads { OnlyReads self.old.objects self.new.objects }
        ensures others { self.new ≡ record self.old { objects = self.new.objects } }
        ensures crash { Crashes self.old self.new }
        ensures event { AnswersRead J.layout self.old transaction.now addr result into.new self.new }
    {
        let nothing = Fetched::empty(self.alloc, self.volatile.front());
        if let Some(found) = self
            .volatile
            .read_verified(transaction, addr, &nothing, into)?
        {
            return Ok(found);
        }
        let room = mem::replace(&mut self.spare, Vec::new(self.alloc));
        let Core {
            durable,
            volatile,
            ..
        } = self;
        let fetched = fetch_step(durable, volatile, fetch_buffer(room, addr.block))?;
        let answer = self
            .volatile
            .read_verified(transaction, addr, &fetched, into);
        self.spare = fetched.into_updates();
        match answer {
            Ok(Some(found)) => Ok(found),
            // Its block was just fetched, and nothing else refuses it.
            Ok(None) => unreachable!(),
            Err(_) => unreachable!(),
        }
    }
}

// The memory of one block, as that of this one.
fn fetch_buffer(mut room: Vec<Update>, block: u64) -> Vec<Update>
    requires { length room.items ≡ 1 }
    ensures { map (λ u. u.block) result.items ≡ block ∷ [] }
{
    room[0].block = block;
    room
}
