// A transaction on a disk with a tree.
ghost use Rattle.std.specs.Prelude.{◌≡◌, ◌∷◌, [], Some, IsTrue, IfOk, IfErr, IfSome, OnOk, OnErr, length};
ghost use Rattle.journal_world.specs.Maps.{SamePairs, value_among, is_object};
ghost use Rattle.journal_treestore.specs.Places.{shape_of, IsCut, addr_of, IsOnDisk};
ghost use Rattle.journal_tree.specs.declared.time.Time.{Time};
ghost use Rattle.journal_tree.specs.declared.caller.Caller.{Caller};
ghost use Rattle.journal_tree.specs.Op.{Call, Reply};
ghost use Rattle.journal_treecalls.specs.Disks.{Does};
ghost use Rattle.journal_treeobjects.specs.Maps.{IsWhole};
ghost use Rattle.journal_treeobjects.specs.Effects.{object_of, value_of, pairs_of, AreOnDisk, DoesOnMaps};
ghost use Rattle.journal_treeobjects.specs.States.{write_of, last_first, IsSized, AreSized, AreBytesAt, may_be, Keeps};

use crate::{ObjectTransaction, TreeFault};
use journal_treestore::{Cut, INODE_BYTES, OWNER_BYTES};
use journal_world::{Addr, Objects, Value};
use std::alloc::Global;
use std::marker::Model;

// A write that waits for the end of the call.
#[derive(Drop)]
pub enum KeptWrite {
    Inode(u32, [u8; INODE_BYTES]),
    Owner(u32, [u8; OWNER_BYTES]),
    Block(u32, Value),
}

// It keeps what it read, and not the transaction alone: on a disk that is not honest, a second read
// of an object could else give another value than the one by which the call went. The writes wait,
// since a transaction has them by address, and a call's contract has them in their order. It keeps
// the reason of a refusal too, since a call's contract says nothing of the fault that it passes on.
/// A transaction on a disk with a tree, for one call. Contracts see how the disk is cut, the
/// objects that were read, and the writes, the last first.
///
/// It must be ended, by `finish` or `give_up`, where the transaction below must be.
pub struct TreeTransaction<T: ObjectTransaction> {
    pub(crate) alloc: Global,
    pub(crate) cut: Cut,
    transaction: T,
    kept: Objects,
    waiting: Vec<KeptWrite>,
    fault: Option<T::Fault>,
}

impl<T: ObjectTransaction> Model for TreeTransaction<T> {
    ghost use Rattle.std.specs.Prelude.{[]};
    ghost use Rattle.journal_treeobjects.specs.States.{TreeState, last_first, IsOpen};

    ghost Value = { TreeState };

    ghost view = { λ t. record { cut = t.cut; kept = t.kept; writes = last_first t.waiting.items [] } };

    ghost invariant = { λ t. IsOpen T.is_fault t.cut (T.layout t.transaction) (T.reads t.transaction) (T.writes t.transaction) t.kept (last_first t.waiting.items []) t.fault };
}

/// A transaction to which all writes of a call were given, or the reason why that was refused. Then
/// it is to be given up.
pub struct Finished<T: ObjectTransaction> {
    /// The transaction.
    pub transaction: T,
    /// `Ok` if it has all writes.
    pub outcome: Result<(), T::Fault>,
    /// The objects that the call had read.
    pub read: Objects,
}

/// The transaction of a call that is given up. It has no writes.
pub struct GivenUp<T: ObjectTransaction> {
    /// The transaction.
    pub transaction: T,
    /// Why it refused, if it did.
    pub fault: Option<T::Fault>,
    /// The objects that the call had read.
    pub read: Objects,
}

impl<T: ObjectTransaction> TreeTransaction<T> {
    /// A transaction on a disk that is cut so, for one call. It has read and written nothing. The
    /// call takes no memory.
    pub fn begin(alloc: Global, cut: Cut, transaction: T) -> TreeTransaction<T>
        requires cut { IsCut cut }
        requires whole { IsWhole cut }
        requires layout { T.layout transaction ≡ shape_of cut }
        requires unwritten { T.writes transaction ≡ [] }
        ensures { result ≡ record { cut = cut; kept = []; writes = [] } }
    {
        TreeTransaction {
            alloc,
            cut,
            transaction,
            kept: Objects::new(alloc),
            waiting: Vec::new(alloc),
            fault: None,
        }
    }

    /// Gives all writes to the transaction. A call that was done on the disk is then done on each
    /// map that the transaction may be committed over, and the transaction overwrites the objects
    /// that the call wrote, and no others.
    pub fn finish(self) -> Finished<T>
        ensures cut { IsCut self.cut }
        ensures whole { IsWhole self.cut }
        ensures layout { T.layout result.transaction ≡ shape_of self.cut }
        ensures calls { (call : Call) (caller : Caller) (now : Time) (reply : Reply) → Does (may_be self) self.writes call caller now reply
            → OnOk result.outcome (DoesOnMaps self.cut (T.reads result.transaction) (T.writes result.transaction) call caller now reply) }
        ensures writes { OnOk result.outcome (SamePairs (T.writes result.transaction) (pairs_of self.cut self.writes)) }
        ensures fault { IfErr result.outcome T.is_fault }
    {
        let TreeTransaction {
            alloc: _,
            cut,
            transaction,
            kept,
            waiting,
            fault: _,
        } = self;
        let mut transaction = transaction;
        let outcome = overwrite_all(&mut transaction, &cut, &waiting);
        Finished {
            transaction,
            outcome,
            read: kept,
        }
    }

    /// Gives the transaction back without a write, and the reason why it refused, if it did.
    pub fn give_up(self) -> GivenUp<T>
        ensures unwritten { T.writes result.transaction ≡ [] }
        ensures fault { IfSome result.fault T.is_fault }
    {
        let TreeTransaction {
            alloc: _,
            cut: _,
            transaction,
            kept,
            waiting: _,
            fault,
        } = self;
        GivenUp {
            transaction,
            fault,
            read: kept,
        }
    }

    // Reads an object, if it was not read before, and keeps it.
    pub(crate) fn keep(&mut self, addr: Addr) -> Result<(), TreeFault>
        ensures keeps { OnOk result (Keeps self.old self.new) }
        ensures same { OnErr result (self.new ≡ self.old) }
    {
        if self.kept.get(addr).is_some() {
            return Ok(());
        }
        let value = match self.transaction.read(addr) {
            Ok(value) => value,
            Err(fault) => {
                self.fault = Some(fault);
                return Err(TreeFault::Transaction);
            }
        };
        self.kept.insert(addr, value)?;
        Ok(())
    }

    // The bytes of an object, which it reads and keeps if it was not read before. It looks the
    // object up once, because a listing reads one for each name.
    pub(crate) fn read_bytes<const N: usize>(&mut self, addr: Addr) -> Result<[u8; N], TreeFault>
        ensures keeps { IfOk result (λ bytes. Keeps self.old self.new × (value_among self.new.kept addr ≡ Some bytes)) }
        ensures same { OnErr result (self.new ≡ self.old) }
    {
        if let Some(value) = self.kept.get(addr) {
            return array(value);
        }
        let value = match self.transaction.read(addr) {
            Ok(value) => value,
            Err(refused) => {
                self.fault = Some(refused);
                return Err(TreeFault::Transaction);
            }
        };
        let bytes = array(&value)?;
        self.kept.insert(addr, value)?;
        Ok(bytes)
    }

    // Reads objects ahead, and keeps those that it read.
    pub(crate) fn prefetch(&mut self, addrs: &[Addr])
        ensures { Keeps self.old self.new }
    {
        self.transaction.prefetch(addrs, &mut self.kept);
    }

    // An object that is kept, copied.
    pub(crate) fn kept_value(&self, addr: Addr) -> Result<Value, TreeFault>
        ensures value { IfOk result (λ value. value_among self.now.kept addr ≡ Some value) }
        ensures object { IfOk result (λ value. IsTrue (is_object (shape_of self.now.cut) (addr, value))) }
    {
        match self.kept.get(addr) {
            Some(value) => Ok(value.clone()?),
            None => Err(TreeFault::NoObject),
        }
    }

    // Keeps a write until the end of the call.
    pub(crate) fn put(&mut self, write: KeptWrite) -> Result<(), TreeFault>
        requires on_disk { IsOnDisk self.old.cut (object_of (write_of write)) }
        requires sized { IsSized (write_of write) }
        ensures written { OnOk result (self.new.writes ≡ write_of write ∷ self.old.writes) }
        ensures cut { self.new.cut ≡ self.old.cut }
        ensures kept { self.new.kept ≡ self.old.kept }
    {
        self.waiting.push(write)?;
        Ok(())
    }
}

// The bytes of a value, if they are so many.
fn array<const N: usize>(value: &Value) -> Result<[u8; N], TreeFault>
    ensures { IfOk result (λ bytes. value.now ≡ bytes) }
{
    match <[u8; N]>::try_from(value.bytes()) {
        Ok(bytes) => Ok(bytes),
        Err(_) => Err(TreeFault::NoObject),
    }
}

// Overwrites all that is written, in its order.
fn overwrite_all<T: ObjectTransaction>(
    transaction: &mut T,
    cut: &Cut,
    waiting: &[KeptWrite],
) -> Result<(), T::Fault>
    requires cut { IsCut cut.now }
    requires layout { T.layout transaction.old ≡ shape_of cut.now }
    requires on_disk { AreOnDisk cut.now (last_first waiting.now []) }
    requires sized { AreSized (last_first waiting.now []) }
    requires unwritten { T.writes transaction.old ≡ [] }
    ensures same_layout { T.layout transaction.new ≡ T.layout transaction.old }
    ensures writes { OnOk result (SamePairs (T.writes transaction.new) (pairs_of cut.now (last_first waiting.now []))) }
    ensures same_reads { T.reads transaction.new ≡ T.reads transaction.old }
    ensures fault { IfErr result T.is_fault }
{
    for write in waiting {
        overwrite_one(transaction, cut, write)?;
    }
    Ok(())
}

// Overwrites what one write is of.
fn overwrite_one<T: ObjectTransaction>(
    transaction: &mut T,
    cut: &Cut,
    write: &KeptWrite,
) -> Result<(), T::Fault>
    requires cut { IsCut cut.now }
    requires layout { T.layout transaction.old ≡ shape_of cut.now }
    requires on_disk { IsOnDisk cut.now (object_of (write_of write.now)) }
    requires sized { IsSized (write_of write.now) }
    ensures same_layout { T.layout transaction.new ≡ T.layout transaction.old }
    ensures writes { OnOk result (SamePairs (T.writes transaction.new)
        ((addr_of cut.now (object_of (write_of write.now)), value_of (write_of write.now)) ∷ T.writes transaction.old)) }
    ensures same_reads { T.reads transaction.new ≡ T.reads transaction.old }
    ensures fault { IfErr result T.is_fault }
{
    match write {
        KeptWrite::Inode(number, bytes) => {
            overwrite(transaction, cut.inode_addr(u64::from(*number)), bytes)
        }
        KeptWrite::Owner(block, bytes) => {
            overwrite(transaction, cut.owner_addr(u64::from(*block)), bytes)
        }
        KeptWrite::Block(block, value) => {
            overwrite(
                transaction,
                cut.block_addr(u64::from(*block)),
                value.bytes(),
            )
        }
    }
}

// Overwrites an object by as many bytes as it has.
fn overwrite<T: ObjectTransaction>(
    transaction: &mut T,
    addr: Addr,
    bytes: &[u8],
) -> Result<(), T::Fault>
    requires { AreBytesAt (T.layout transaction.old) addr (length bytes.now) }
    ensures same_layout { T.layout transaction.new ≡ T.layout transaction.old }
    ensures writes { OnOk result (SamePairs (T.writes transaction.new) ((addr, bytes.now) ∷ T.writes transaction.old)) }
    ensures same_reads { T.reads transaction.new ≡ T.reads transaction.old }
    ensures fault { IfErr result T.is_fault }
{
    transaction.overwrite(addr, bytes)
}
