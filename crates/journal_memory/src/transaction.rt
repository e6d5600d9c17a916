// The reads and overwrites of an open transaction.
ghost use Rattle.std.specs.Prelude.{◌≡◌, ◌≢◌, [], IsTrue, OnOk, OnErr};
ghost use mathlib.Core.List.{IsPrefix};
ghost use Rattle.std.specs.Option.{option_copied};
ghost use Rattle.journal_world.specs.Maps.{is_object, are_objects, value_among, value_at, Agrees};
ghost use Rattle.journal_world.specs.Histories.{is_trusted, latest};
ghost use Rattle.journal_memory.specs.Transactions.{begun, AreUnmoved, Remembers, Overwrites};

use crate::known::KnownPairs;
use journal_history::{Front, Naming, Recorded, Session};
use journal_tail::Spares;
use journal_world::{Addr, MapRule, Objects, Value};
use std::alloc::{AllocError, Global};
use std::marker::Model;

/// The reads and overwrites of an open transaction. Contracts see both, by address, and a history
/// at whose end the map gives all that it read: a transaction sees one map, whether it is committed
/// or not.
///
/// Its reads exist in proofs alone: no code looks at them, and nothing of them is copied.
#[derive(Drop)]
pub struct Transaction<'b, J: Naming, R: MapRule> {
    pub(crate) reads: KnownPairs,
    pub(crate) writes: Objects,
    pub(crate) front: Front<'b, J, R>,
}

impl<'b, J: Naming, R: MapRule> Model for Transaction<'b, J, R> {
    ghost use Rattle.journal_memory.specs.Transactions.{TransactionState, IsTransaction};

    ghost Value = { TransactionState };

    ghost view = { λ t. record { reads = t.reads; writes = t.writes; seen = t.front } };

    ghost invariant = { λ t. IsTransaction J.layout (record { reads = t.reads; writes = t.writes; seen = t.front }) };
}

/// The result of a read, until its transaction remembers it: the address, and the history at whose
/// end its value was looked up.
#[derive(Drop)]
pub struct ReadResult<'b, J: Naming, R: MapRule> {
    pub(crate) addr: Addr,
    pub(crate) front: Front<'b, J, R>,
}

impl<'b, J: Naming, R: MapRule> Model for ReadResult<'b, J, R> {
    ghost use Rattle.journal_memory.specs.Transactions.{ReadResultState};

    ghost Value = { ReadResultState };

    ghost view = { λ f. record { addr = f.addr; seen = f.front } };
}

impl<'b, J: Naming, R: MapRule> Recorded for Transaction<'b, J, R> {
    ghost reads = { λ t. t.reads };

    ghost writes = { λ t. t.writes };
}

impl<'b, J: Naming, R: MapRule> Transaction<'b, J, R> {
    /// A transaction that has done nothing yet, after all that the session has seen. The call takes
    /// no memory.
    pub fn begin(alloc: Global, session: &Session<'b, J, R>) -> Transaction<'b, J, R>
        ensures { result ≡ begun session.now.seen }
    {
        // Called for its contract: the session has seen an opening.
        let _seen = session.seen();
        Transaction {
            reads: KnownPairs::none(),
            writes: Objects::new(alloc),
            front: session.front(),
        }
    }

    /// The history at whose end the map gives all that it read.
    pub fn front(&self) -> &Front<'b, J, R>
        ensures seen { result.now ≡ self.now.seen }
        ensures begun { self.now.seen ≢ [] }
        ensures agrees { IsTrue (is_trusted self.now.seen) → Agrees (latest self.now.seen) self.now.reads }
        ensures reads { IsTrue (are_objects J.layout self.now.reads) }
        ensures writes { IsTrue (are_objects J.layout self.now.writes) }
    {
        &self.front
    }

    /// The value that it gave the address, if it has overwritten it.
    pub fn own(&self, addr: Addr) -> Option<&Value>
        ensures { option_copied result ≡ value_among self.now.writes addr }
    {
        self.writes.get(addr)
    }

    /// Memory in which its writes are made ready, as far as there is any.
    pub fn spares(&self, alloc: Global) -> Spares {
        Spares::for_writes(alloc, &self.writes)
    }

    /// Gives the address this value, in place of one that it gave it before.
    ///
    /// # Errors
    /// - Memory is refused. The transaction is as it was.
    pub fn overwrite(&mut self, addr: Addr, value: Value) -> Result<(), AllocError>
        requires object { IsTrue (is_object J.layout (addr, value)) }
        ensures ok { OnOk result (Overwrites self.old addr value self.new) }
        ensures err { OnErr result (self.new ≡ self.old) }
    {
        self.writes.insert(addr, value)
    }

    /// Remembers the value that a read found. Nothing is copied, and it takes no memory.
    pub fn remember(&mut self, found: ReadResult<'b, J, R>, value: &Value)
        requires object { IsTrue (is_object J.layout (found.addr, value.now)) }
        requires value { IsTrue (is_trusted found.seen) → value.now ≡ value_at (latest found.seen) found.addr }
        requires later { IsPrefix self.old.seen found.seen }
        requires unmoved { AreUnmoved J.layout found.seen self.old }
        ensures remembered { Remembers self.old found.entry.addr value.now found.entry.seen self.new }
    {
        let ReadResult { addr, front } = found;
        self.reads = self.reads.with(addr, value);
        self.front = front;
    }
}
