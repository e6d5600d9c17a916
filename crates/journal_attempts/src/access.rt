// Reads and overwrites of an attempt.
ghost use Rattle.std.specs.Prelude.{◌≡◌, IsTrue, true, IfOk, OnOk, IfErr, OnErr};
ghost use Rattle.journal_world.specs.Addresses.{is_valid, kind_of};
ghost use Rattle.journal_world.specs.Maps.{is_object, is_value_at};
ghost use Rattle.journal_twophase.specs.Transactions.{holding, ReadsValue, Overwrites};
ghost use Rattle.journal_attempts.specs.Refusals.{IsAttemptEnd};

use crate::AttemptFault;
use journal_disk::BlockDisk;
use journal_history::Naming;
use journal_memory::Cause;
use journal_twophase::Txn;
use journal_world::{Addr, MapRule, Value};
use std::sync::Wait;

/// Reads an object, as `Txn::read` does.
///
/// # Errors
/// The transaction is as it was. Those of `Txn::read`: J5 is `AttemptFault::Held`.
pub fn read<'j, 'b, D: BlockDisk, R: MapRule, J: Naming, W: Wait>(
    rt: &W,
    txn: &mut Txn<'j, 'b, D, R, J>,
    addr: Addr,
) -> Result<Value, AttemptFault<Cause<'b, J, R>>>
    ensures reads { IfOk result (λ value. ReadsValue (holding J.layout txn.old addr) addr value txn.new) }
    ensures object { IfOk result (λ value. IsTrue (is_object J.layout (addr, value))) }
    ensures same { OnErr result (txn.new ≡ txn.old) }
    ensures refusal { IfErr result IsAttemptEnd }
{
    match txn.read(rt, addr) {
        Ok(value) => Ok(value),
        Err(refusal) => Err(AttemptFault::at(addr, refusal)),
    }
}

/// Overwrites an object by a value of its kind, as `Txn::overwrite` does.
///
/// # Errors
/// The transaction is as it was. Those of `Txn::overwrite`: J5 is `AttemptFault::Held`.
pub fn overwrite<'j, 'b, D: BlockDisk, R: MapRule, J: Naming, W: Wait>(
    rt: &W,
    txn: &mut Txn<'j, 'b, D, R, J>,
    addr: Addr,
    bytes: &[u8],
) -> Result<(), AttemptFault<Cause<'b, J, R>>>
    requires kind { IsTrue (is_valid J.layout addr) → is_value_at (kind_of J.layout addr.block) bytes.now ≡ true }
    ensures overwrites { OnOk result (Overwrites (holding J.layout txn.old addr) addr bytes.now txn.new) }
    ensures object { OnOk result (IsTrue (is_object J.layout (addr, bytes.now))) }
    ensures same { OnErr result (txn.new ≡ txn.old) }
    ensures refusal { IfErr result IsAttemptEnd }
{
    match txn.overwrite(rt, addr, bytes) {
        Ok(()) => Ok(()),
        Err(refusal) => Err(AttemptFault::at(addr, refusal)),
    }
}
