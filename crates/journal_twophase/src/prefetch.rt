// Objects that are read ahead, several in one hold of the memory lock.
//
// A read takes the lock for itself. Where several threads read many objects, most of their time
// goes into taking it from one another.
ghost use Rattle.std.specs.Prelude.{◌≡◌, ◌⊎◌, None, length, IsTrue, IfSome, All};
ghost use mathlib.Core.List.{IsPrefix};
ghost use Rattle.journal_world.specs.Addresses.{slot_of as slot_number};
ghost use Rattle.journal_world.specs.Maps.{Agrees, value_among, is_object, are_objects};
ghost use Rattle.journal_object.specs.Objects.{size_at};
ghost use Rattle.journal_world.specs.Histories.{is_trusted, latest};
ghost use Rattle.journal_memory.specs.SlotCounts.{AgreeUpTo, AreUnder};
ghost use Rattle.journal_twophase.specs.Transactions.{Learns, ReadsObject, holding, holds};
ghost use Rattle.journal_twophase.specs.Prefetches.{IsAmong, ReadsOnly, PassesOver, IsNew, IsReady, IsWanted, HoldsMore, LearnsAll, AddsAll};

use crate::locked_parts::UnderMemoryLock;
use crate::txn::Txn;
use journal_disk::BlockDisk;
use journal_history::Naming;
use journal_lockmap::Held;
use journal_memory::{Fetched, ReadResult, Transaction};
use journal_world::{Addr, MapRule, Objects, Value};
use std::sync::Wait;

// An object that is to be read ahead, and room for its bytes.
#[derive(Drop)]
pub(crate) struct Wanted {
    pub(crate) addr: Addr,
    pub(crate) room: Vec<u8>,
}

impl<'j, 'b, D: BlockDisk, R: MapRule, J: Naming> Txn<'j, 'b, D, R, J> {
    /// Reads objects ahead, and adds them to `found`: of these addresses, in their order, as many
    /// as it can without a wait for the device. It passes over an address that `found` has, and one
    /// that the transaction has overwritten. All are read in one hold of the memory lock, so that
    /// many reads cost less than by `read`, and each is remembered as by `read`.
    ///
    /// It takes the slots of all these addresses first, as `read` does, and keeps them. It goes no
    /// further than the first address that is not valid, whose slot another transaction holds while
    /// this one holds a greater one, or for which memory is refused, and reads no further than the
    /// first whose block is not in memory. It reads nothing once the journal was stopped or the
    /// device failed. The call refuses nothing: why it read fewer, the next `read` says.
    pub fn prefetch<W: Wait>(&mut self, rt: &W, addrs: &[Addr], found: &mut Objects)
        ensures found { IsAmong found.old self.old.reads → IsAmong found.new self.new.reads }
        ensures kept { IsAmong found.old found.new }
        ensures objects { IsTrue (are_objects J.layout found.old) → IsTrue (are_objects J.layout found.new) }
        ensures added { ReadsOnly addrs.now found.old found.new }
        ensures asked { ReadsOnly addrs.now self.old.reads self.new.reads }
        ensures unfound { PassesOver found.old self.old.reads self.new.reads }
        ensures unwritten { PassesOver self.old.writes self.old.reads self.new.reads }
        ensures holds { HoldsMore J.layout addrs.now self.old.held self.new.held }
        ensures later { IsPrefix self.old.seen self.new.seen }
        ensures others { self.new ≡ record self.old { reads = self.new.reads; seen = self.new.seen; held = self.new.held } }
        ensures agrees { IsTrue (is_trusted self.new.seen) → Agrees (latest self.new.seen) self.new.reads }
    {
        let wanted = self.want_all(rt, addrs, found);
        let read = self.read_wanted(rt, wanted);
        add_all(found, read);
        // Called for its contract: one map gives all that was read.
        let _front = self.front();
    }

    // Takes the slots of these addresses, and room for their values, as far as it can.
    fn want_all<W: Wait>(&mut self, rt: &W, addrs: &[Addr], found: &Objects) -> Vec<Wanted>
        ensures all_new { All (λ one. IsNew addrs.now found.now self.old.writes one.addr) result.items }
        ensures ready { All (IsReady J.layout self.new.held) result.items }
        ensures holds { HoldsMore J.layout addrs.now self.old.held self.new.held }
        ensures others { self.new ≡ record self.old { held = self.new.held } }
    {
        let Ok(mut wanted) = Vec::with_capacity(self.alloc, addrs.len()) else {
            return Vec::new(self.alloc);
        };
        for addr in addrs {
            if !self.is_new(*addr, found) {
                continue;
            }
            let Some(one) = self.want(rt, *addr) else {
                break;
            };
            if wanted.push(one).is_err() {
                break;
            }
        }
        wanted
    }

    // True if the address was not found before, and has no overwrite.
    fn is_new(&self, addr: Addr, found: &Objects) -> bool
        ensures absent { IsTrue result → value_among found.now addr ≡ None }
        ensures unwritten { IsTrue result → value_among self.now.writes addr ≡ None }
    {
        found.get(addr).is_none() && self.transaction.own(addr).is_none()
    }

    // Takes the slot of an address, and room for its value.
    fn want<W: Wait>(&mut self, rt: &W, addr: Addr) -> Option<Wanted>
        ensures addr { IfSome result (λ one. one.addr ≡ addr) }
        ensures ready { IfSome result (IsReady J.layout self.new.held) }
        ensures took { (self.new ≡ self.old) ⊎ (self.new ≡ holding J.layout self.old addr) }
    {
        let journal = self.journal;
        let Some(kind) = journal.layout.kind_at(addr) else {
            return None;
        };
        let Ok(room) = self.room_for(kind) else {
            return None;
        };
        match self.take(rt, journal.slot_of(addr)) {
            Ok(_took) => Some(Wanted { addr, room }),
            Err(_) => None,
        }
    }

    // Reads what is wanted, in one hold of the memory lock, up to the first whose block is not in
    // memory. The memory for what is read is taken before.
    fn read_wanted<W: Wait>(&mut self, rt: &W, wanted: Vec<Wanted>) -> Vec<(Addr, Value)>
        requires ready { All (IsReady J.layout self.old.held) wanted.items }
        ensures learns { LearnsAll J.layout self.old result.items self.new }
        ensures wanted { All (λ p. IsWanted wanted.items p.0) result.items }
    {
        let Ok(mut read) = Vec::with_capacity(self.alloc, wanted.len()) else {
            return Vec::new(self.alloc);
        };
        let journal = self.journal;
        let nothing = journal.core.empty_fetch(&self.transaction);
        let mut memory = journal.core.lock_memory(rt);
        for one in wanted {
            let Wanted { addr, room } = one;
            let Some(value) = self.read_under(rt, &mut memory, &nothing, addr, room) else {
                break;
            };
            read.push_reserved((addr, value));
        }
        read
    }

    // Reads an object as memory has it, and remembers it. None if its block is not in memory, or
    // the read is refused.
    fn read_under<W: Wait>(
        &mut self,
        rt: &W,
        memory: &mut UnderMemoryLock<'b, R, J>,
        nothing: &Fetched<'b, J, R>,
        addr: Addr,
        room: Vec<u8>,
    ) -> Option<Value>
        requires size { length room.items ≡ size_at J.layout addr }
        requires slot { IsTrue (holds self.old.held (slot_number J.layout addr)) }
        ensures learns { IfSome result (λ value. Learns self.old addr value self.new) }
        ensures object { IfSome result (λ value. IsTrue (is_object J.layout (addr, value))) }
        ensures same { result ≡ None → self.new ≡ self.old }
    {
        let mut bytes = room;
        let Txn {
            transaction,
            held,
            known,
            last_block,
            ..
        } = self;
        let is_other = addr.block != *last_block;
        *last_block = addr.block;
        let found = memory.find(
            rt,
            transaction,
            held,
            *known,
            addr,
            is_other,
            nothing,
            &mut bytes,
        )?;
        let value = Value::new(bytes);
        transaction.remember(found, &value);
        *known = held.len();
        Some(value)
    }
}

impl<'b, R: MapRule, J: Naming> UnderMemoryLock<'b, R, J> {
    // Reads the value that the map gives the address, for the transaction to remember. None if its
    // block is not in memory, or the read is refused. If `touches`, the block is then the one that
    // was used last.
    fn find<W: Wait>(
        &mut self,
        rt: &W,
        transaction: &Transaction<'b, J, R>,
        held: &mut [Held<J>],
        known: usize,
        addr: Addr,
        touches: bool,
        nothing: &Fetched<'b, J, R>,
        into: &mut Vec<u8>,
    ) -> Option<ReadResult<'b, J, R>>
        requires under { AreUnder J.layout held.old transaction.now.seen transaction.now.reads }
        requires known { AgreeUpTo J.layout transaction.now.seen known held.old }
        requires size { length into.old.items ≡ size_at J.layout addr }
        ensures read { IfSome result (ReadsObject J.layout transaction.now addr held.new into.new.items) }
        ensures held { held.new ≡ held.old }
    {
        let answer = self
            .volatile
            .read(rt, transaction, held, known, addr, nothing, into);
        if touches {
            self.volatile.touch(addr.block);
        }
        answer.unwrap_or(None)
    }
}

// Adds what was read to what was found. One for which memory is refused is left out.
fn add_all(found: &mut Objects, read: Vec<(Addr, Value)>)
    requires absent { All (λ p. value_among found.old p.0 ≡ None) read.items }
    ensures { AddsAll found.old read.items found.new }
{
    for pair in read {
        let (addr, value) = pair;
        let _is_added = found.insert(addr, value).is_ok();
    }
}
