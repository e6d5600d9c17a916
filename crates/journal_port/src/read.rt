// A request to read.
ghost use Rattle.std.specs.Prelude.{◌≡◌, ◌∷◌, [], IsTrue, All, length, IfOk, IfErr, OnOk};
ghost use Rattle.std.specs.List.{zip};
ghost use Rattle.std.specs.List.Sorted.{IsNonDecreasingBy, IsPermutation};
ghost use mathlib.Core.List.{IsPrefix};
ghost use Rattle.journal_world.specs.Addresses.{slot_of as slot_number};
ghost use Rattle.journal_world.specs.Maps.{SamePairs};
ghost use Rattle.journal_world.specs.Histories.{is_trusted};
ghost use Rattle.journal_twophase.specs.Transactions.{holds, with_slot, IsBelowHeld};
ghost use Rattle.journal_port.specs.Reads.{AreRead, KeepsReads};
ghost use Rattle.journal_port.specs.Answers.{IsAddrRefusal, IsReadRefusal, IsReadAnswer};

use journal_disk::BlockDisk;
use journal_history::{Naming, Session};
use journal_records::{Answer, Refused};
use journal_twophase::{Journal, JournalRefusal, Txn};
use journal_world::{Addr, AnyMap, Value};
use std::alloc::{AllocError, Global};
use std::sync::Wait;

// Reads the addresses at one point of the history, which the session has then seen.
pub(crate) fn read<'b, D: BlockDisk, J: Naming, W: Wait>(
    rt: &W,
    alloc: Global,
    journal: &Journal<'b, D, AnyMap, J>,
    session: &mut Session<'b, J, AnyMap>,
    addrs: &[Addr],
) -> Answer
    ensures { IsReadAnswer J.layout addrs.now session.old session.new result }
{
    let Ok(sorted) = sorted(alloc, journal, addrs) else {
        return Answer::Refused(Refused::NoMemory);
    };
    let mut txn = journal.begin(alloc, session);
    // Called for its contract: the session has seen an opening.
    let _seen = session.seen();
    let values = read_values(rt, alloc, &mut txn, &sorted, addrs);
    session.see(txn.front());
    txn.abort(rt);
    match values {
        Ok(values) => Answer::Values(values),
        Err(why) => Answer::Refused(Refused::of(&why)),
    }
}

// The addresses with their slots ascending.
fn sorted<'b, D: BlockDisk, J: Naming>(
    alloc: Global,
    journal: &Journal<'b, D, AnyMap, J>,
    addrs: &[Addr],
) -> Result<Vec<Addr>, AllocError>
    ensures ascending { IfOk result (λ sorted. IsNonDecreasingBy (slot_number J.layout) sorted.items) }
    ensures permutation { IfOk result (λ sorted. IsPermutation addrs.now sorted.items) }
{
    let mut sorted = addrs.to_vec(alloc)?;
    sorted.sort_by_key(|addr| journal.slot_of(*addr))?;
    Ok(sorted)
}

// Takes the slots of the addresses, which ascend, and then reads the addresses in the order in
// which they are asked for.
fn read_values<'j, 'b, D: BlockDisk, J: Naming, W: Wait>(
    rt: &W,
    alloc: Global,
    txn: &mut Txn<'j, 'b, D, AnyMap, J>,
    sorted: &[Addr],
    addrs: &[Addr],
) -> Result<Vec<Value>, JournalRefusal<'b, J, AnyMap>>
    requires ascending { IsNonDecreasingBy (slot_number J.layout) sorted.now }
    requires permutation { IsPermutation addrs.now sorted.now }
    requires held { txn.old.held ≡ [] }
    requires writes { txn.old.writes ≡ [] }
    ensures reads { IfOk result (λ values. IsTrue (is_trusted txn.old.seen) → AreRead txn.new.reads (zip addrs.now values.items)) }
    ensures counted { IfOk result (λ values. length values.items ≡ length addrs.now) }
    ensures later { IsPrefix txn.old.seen txn.new.seen }
    ensures refusal { IfErr result (IsReadRefusal J.layout addrs.now) }
{
    take_slots(rt, txn, sorted)?;
    let values = read_each(rt, alloc, txn, addrs)?;
    Ok(values)
}

// Reads each address, whose slots ascend, so that the transaction holds them.
fn take_slots<'j, 'b, D: BlockDisk, J: Naming, W: Wait>(
    rt: &W,
    txn: &mut Txn<'j, 'b, D, AnyMap, J>,
    addrs: &[Addr],
) -> Result<(), JournalRefusal<'b, J, AnyMap>>
    requires ascending { IsNonDecreasingBy (slot_number J.layout) addrs.now }
    requires held { txn.old.held ≡ [] }
    requires writes { txn.old.writes ≡ [] }
    ensures held { OnOk result (All (λ a. IsTrue (holds txn.new.held (slot_number J.layout a))) addrs.now) }
    ensures writes { txn.new.writes ≡ [] }
    ensures later { IsPrefix txn.old.seen txn.new.seen }
    ensures refusal { IfErr result (IsReadRefusal J.layout addrs.now) }
{
    for addr in addrs {
        read_one(rt, txn, *addr)?;
    }
    Ok(())
}

// Reads each address, whose slots are held.
fn read_each<'j, 'b, D: BlockDisk, J: Naming, W: Wait>(
    rt: &W,
    alloc: Global,
    txn: &mut Txn<'j, 'b, D, AnyMap, J>,
    addrs: &[Addr],
) -> Result<Vec<Value>, JournalRefusal<'b, J, AnyMap>>
    requires held { All (λ a. IsTrue (holds txn.old.held (slot_number J.layout a))) addrs.now }
    requires writes { txn.old.writes ≡ [] }
    ensures reads { IfOk result (λ values. IsTrue (is_trusted txn.old.seen) → AreRead txn.new.reads (zip addrs.now values.items)) }
    ensures counted { IfOk result (λ values. length values.items ≡ length addrs.now) }
    ensures later { IsPrefix txn.old.seen txn.new.seen }
    ensures refusal { IfErr result (IsReadRefusal J.layout addrs.now) }
{
    let mut values = Vec::new(alloc);
    for addr in addrs {
        match read_one(rt, txn, *addr) {
            Ok(value) => values.push(value)?,
            Err(why) => return Err(why),
        }
    }
    Ok(values)
}

// Reads an address. It is not refused because another has its slot.
fn read_one<'j, 'b, D: BlockDisk, J: Naming, W: Wait>(
    rt: &W,
    txn: &mut Txn<'j, 'b, D, AnyMap, J>,
    addr: Addr,
) -> Result<Value, JournalRefusal<'b, J, AnyMap>>
    requires ascends { IsBelowHeld (slot_number J.layout addr) txn.old.held → ⊥ }
    requires writes { txn.old.writes ≡ [] }
    ensures reads { IfOk result (λ value. SamePairs txn.new.reads ((addr, value) ∷ txn.old.reads)) }
    ensures kept { OnOk result (IsTrue (is_trusted txn.old.seen) → KeepsReads txn.old.reads txn.new.reads) }
    ensures writes { txn.new.writes ≡ [] }
    ensures held { OnOk result (txn.new.held ≡ with_slot txn.old.held (slot_number J.layout addr)) }
    ensures later { IsPrefix txn.old.seen txn.new.seen }
    ensures refusal { IfErr result (IsAddrRefusal J.layout addr) }
{
    txn.read(rt, addr)
}
