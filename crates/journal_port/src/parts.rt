// The parts of a request, done in an open transaction.
ghost use Rattle.std.specs.Prelude.{◌≡◌, ◌∷◌, [], IfErr, OnOk};
ghost use Rattle.std.specs.List.Sorted.{IsNonDecreasingBy};
ghost use mathlib.Core.List.{IsPrefix};
ghost use Rattle.journal_world.specs.Addresses.{slot_of as slot_number};
ghost use Rattle.journal_twophase.specs.Transactions.{with_slot};
ghost use Rattle.journal_records.specs.declared.request.Action.TheVariants.{Compare, Write};
ghost use Rattle.journal_port.specs.Requests.{order_of};
ghost use Rattle.journal_port.specs.Parts.{Does, IsReady, IsPartFault, IsPartsFault};

use journal_disk::BlockDisk;
use journal_history::Naming;
use journal_memory::Cause;
use journal_records::{Action, Part};
use journal_twophase::Txn;
use journal_world::{AnyMap, Refusal};
use std::sync::Wait;

// Why a part is given up.
#[derive(Debug, Drop)]
pub enum PartFault<C> {
    // The map gives the address another value than the part compares.
    Differs,
    // The journal refuses.
    Refused(Refusal<C>),
}

// Why a part of a transaction of the journal is given up.
pub(crate) type PartEnd<'b, J> = PartFault<Cause<'b, J, AnyMap>>;

// Does the parts, one after another.
pub(crate) fn do_parts<'j, 'b, D: BlockDisk, J: Naming, W: Wait>(
    rt: &W,
    txn: &mut Txn<'j, 'b, D, AnyMap, J>,
    parts: &[Part],
) -> Result<(), PartEnd<'b, J>>
    requires ascending { IsNonDecreasingBy (order_of J.layout) parts.now }
    requires held { txn.old.held ≡ [] }
    requires writes { txn.old.writes ≡ [] }
    ensures does { OnOk result (Does parts.now txn.old txn.new) }
    ensures later { IsPrefix txn.old.seen txn.new.seen }
    ensures fault { IfErr result (IsPartsFault J.layout parts.now txn.new.seen) }
{
    for part in parts {
        do_part(rt, txn, part)?;
    }
    Ok(())
}

// Does a part.
fn do_part<'j, 'b, D: BlockDisk, J: Naming, W: Wait>(
    rt: &W,
    txn: &mut Txn<'j, 'b, D, AnyMap, J>,
    part: &Part,
) -> Result<(), PartEnd<'b, J>>
    requires ready { IsReady J.layout txn.old part.now }
    ensures does { OnOk result (Does (part.now ∷ []) txn.old txn.new) }
    ensures held { OnOk result (txn.new.held ≡ with_slot txn.old.held (slot_number J.layout part.now.addr)) }
    ensures later { IsPrefix txn.old.seen txn.new.seen }
    ensures fault { IfErr result (IsPartFault J.layout part.now txn.new.seen) }
{
    match part.action {
        Action::Compare => compare(rt, txn, part),
        Action::Write => write(rt, txn, part),
    }
}

// Compares a part's value with what the map gives.
fn compare<'j, 'b, D: BlockDisk, J: Naming, W: Wait>(
    rt: &W,
    txn: &mut Txn<'j, 'b, D, AnyMap, J>,
    part: &Part,
) -> Result<(), PartEnd<'b, J>>
    requires ready { IsReady J.layout txn.old part.now }
    requires action { part.now.action ≡ Compare }
    ensures does { OnOk result (Does (part.now ∷ []) txn.old txn.new) }
    ensures held { OnOk result (txn.new.held ≡ with_slot txn.old.held (slot_number J.layout part.now.addr)) }
    ensures later { IsPrefix txn.old.seen txn.new.seen }
    ensures fault { IfErr result (IsPartFault J.layout part.now txn.new.seen) }
{
    match txn.read(rt, part.addr) {
        Ok(value) => {
            if value.bytes() == part.value.bytes() {
                Ok(())
            } else {
                Err(PartFault::Differs)
            }
        }
        Err(why) => Err(PartFault::Refused(why)),
    }
}

// Writes a part's value.
fn write<'j, 'b, D: BlockDisk, J: Naming, W: Wait>(
    rt: &W,
    txn: &mut Txn<'j, 'b, D, AnyMap, J>,
    part: &Part,
) -> Result<(), PartEnd<'b, J>>
    requires ready { IsReady J.layout txn.old part.now }
    requires action { part.now.action ≡ Write }
    ensures does { OnOk result (Does (part.now ∷ []) txn.old txn.new) }
    ensures held { OnOk result (txn.new.held ≡ with_slot txn.old.held (slot_number J.layout part.now.addr)) }
    ensures later { IsPrefix txn.old.seen txn.new.seen }
    ensures fault { IfErr result (IsPartFault J.layout part.now txn.new.seen) }
{
    match txn.overwrite(rt, part.addr, part.value.bytes()) {
        Ok(()) => Ok(()),
        Err(why) => Err(PartFault::Refused(why)),
    }
}
