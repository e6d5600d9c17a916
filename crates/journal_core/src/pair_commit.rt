// A commit in memory, with what is fetched for it.
ghost use Rattle.std.specs.Prelude.{◌≡◌, ◌⊎◌, ◌<◌, [], map, length, IsTrue, IfOk, IfErr, OnOk, OnErr, All};
ghost use Rattle.journal_world.specs.Maps.{Agrees};
ghost use Rattle.journal_world.specs.Histories.{is_trusted, latest};
ghost use Rattle.journal_tail.specs.ObjectTails.{known_updates, missing_blocks};
ghost use Rattle.journal_history.specs.Tokens.{next_transaction, OnlyExtends, IsReceiptFor};
ghost use Rattle.journal_lockmap.specs.Numbers.{AreApart, HoldsSlots, slots_of};
ghost use Rattle.journal_memory.specs.SlotCounts.{AgreeWith};
ghost use Rattle.journal_parts.specs.CoreStates.{Crashes, IsRunning, OnlyReads};
ghost use Rattle.journal_parts.specs.CoreParts.{IsPair, core_of};
ghost use Rattle.journal_parts.specs.Durables.{IsCallRefusal};
ghost use Rattle.journal_memory.specs.Rules.{KeepsMapRule};
ghost use Rattle.journal_memory.specs.Ledgers.{ShowsLonger};
ghost use Rattle.journal_memory.specs.Transactions.{AreUnmoved};
ghost use Rattle.journal_memory.specs.Outsets.{IsCommitRefusal as IsRefusedFrom};
ghost use Rattle.journal_memory.specs.Volatiles.{outset_of};
ghost use Rattle.journal_core.specs.Commits.{IsCommitted, CanCommit, IsCommitRefusal};

use crate::pair_steps::fetch_step;
use journal_block::Update;
use journal_disk::BlockDisk;
use journal_history::{Naming, Receipt, Session};
use journal_lockmap::Held;
use journal_memory::{Cause, CommitStep, Fetched, Transaction, Volatile, fetch_buffers};
use journal_parts::Durable;
use journal_tail::Spares;
use journal_world::{MapRule, Refusal};
use std::alloc::Global;
use std::sync::Wait;

/// Commits in memory. Blocks that memory lacks are fetched first.
pub(crate) fn commit_step<'b, D: BlockDisk, R: MapRule, J: Naming, W: Wait>(
    rt: &W,
    alloc: Global,
    durable: &mut Durable<'b, D, R, J>,
    volatile: &mut Volatile<'b, R, J>,
    session: &mut Session<'b, J, R>,
    transaction: &Transaction<'b, J, R>,
    held: &mut [Held<J>],
    spares: &mut Spares,
) -> Result<Receipt<'b, J, R>, Refusal<Cause<'b, J, R>>>
    requires rule { KeepsMapRule R.statement volatile.old.ledger.history transaction.now }
    requires unmoved { AreUnmoved J.layout volatile.old.ledger.history transaction.now }
    requires covered { HoldsSlots J.layout held.old transaction.now.writes }
    requires apart { AreApart held.old }
    requires pair { IsPair J.layout volatile.old durable.old }
    ensures agree { OnOk result (AgreeWith J.layout volatile.new.ledger.history held.new) }
    ensures slots { slots_of held.new ≡ slots_of held.old }
    ensures held { OnErr result (held.new ≡ held.old) }
    ensures committed { OnOk result (IsCommitted transaction.now.reads transaction.now.writes session.old session.new (core_of volatile.old durable.old) (core_of volatile.new durable.new)) }
    ensures receipt { IfOk result (IsReceiptFor (next_transaction session.old transaction.now.reads transaction.now.writes) volatile.new.ledger.history (length volatile.old.ledger.history)) }
    ensures can { OnOk result (CanCommit (core_of volatile.old durable.old) session.old transaction.now) }
    ensures agrees { OnOk result (IsTrue (is_trusted volatile.old.ledger.history) → Agrees (latest volatile.old.ledger.history) transaction.now.reads) }
    ensures running { OnOk result (IsRunning (core_of volatile.new durable.new)) }
    ensures refusal { IfErr result (IsCommitRefusal (core_of volatile.old durable.old) session.old transaction.now (core_of volatile.new durable.new)) }
    ensures same { OnErr result (core_of volatile.new durable.new ≡ record (core_of volatile.old durable.old) { objects = (core_of volatile.new durable.new).objects }) }
    ensures left { OnErr result (OnlyReads (core_of volatile.old durable.old).objects (core_of volatile.new durable.new).objects) }
    ensures session { OnErr result (OnlyExtends session.old session.new) }
    ensures longer { IfErr result (ShowsLonger volatile.old.ledger.history session.new) }
    ensures pair { IsPair J.layout volatile.new durable.new }
    ensures crash { Crashes (core_of volatile.old durable.old) (core_of volatile.new durable.new) }
{
    let nothing = Fetched::empty(alloc, volatile.front());
    let answer = volatile.commit_verified(rt, session, transaction, held, spares, &nothing);
    // Called for its contract: memory's invariant.
    volatile.prove_invariant();
    match answer {
        Ok(CommitStep::Done(receipt)) => Ok(receipt),
        Ok(CommitStep::Missing(blocks)) => {
            let rooms = fetch_buffers(alloc, &blocks)?;
            commit_fetched(
                rt,
                durable,
                volatile,
                session,
                transaction,
                held,
                spares,
                rooms,
            )
        }
        Err(why) => Err(why),
    }
}

/// Commits once the missing blocks are fetched, into this memory.
pub(crate) fn commit_fetched<'b, D: BlockDisk, R: MapRule, J: Naming, W: Wait>(
    rt: &W,
    durable: &mut Durable<'b, D, R, J>,
    volatile: &mut Volatile<'b, R, J>,
    session: &mut Session<'b, J, R>,
    transaction: &Transaction<'b, J, R>,
    held: &mut [Held<J>],
    spares: &mut Spares,
    rooms: Vec<Update>,
) -> Result<Receipt<'b, J, R>, Refusal<Cause<'b, J, R>>>
    requires rule { KeepsMapRule R.statement volatile.old.ledger.history transaction.now }
    requires unmoved { AreUnmoved J.layout volatile.old.ledger.history transaction.now }
    requires covered { HoldsSlots J.layout held.old transaction.now.writes }
    requires apart { AreApart held.old }
    requires blocks { All (λ u. u.block < J.layout.blocks) rooms.items }
    requires named { map (λ u. u.block) rooms.items ≡ missing_blocks J.layout (known_updates [] volatile.old.tail) transaction.now.writes }
    requires pair { IsPair J.layout volatile.old durable.old }
    requires running { IsRunning (core_of volatile.old durable.old) }
    ensures agree { OnOk result (AgreeWith J.layout volatile.new.ledger.history held.new) }
    ensures slots { slots_of held.new ≡ slots_of held.old }
    ensures held { OnErr result (held.new ≡ held.old) }
    ensures committed { OnOk result (IsCommitted transaction.now.reads transaction.now.writes session.old session.new (core_of volatile.old durable.old) (core_of volatile.new durable.new)) }
    ensures receipt { IfOk result (IsReceiptFor (next_transaction session.old transaction.now.reads transaction.now.writes) volatile.new.ledger.history (length volatile.old.ledger.history)) }
    ensures agrees { OnOk result (IsTrue (is_trusted volatile.old.ledger.history) → Agrees (latest volatile.old.ledger.history) transaction.now.reads) }
    ensures running { OnOk result (IsRunning (core_of volatile.new durable.new)) }
    ensures refusal { IfErr result (λ why.
        IsCallRefusal durable.old durable.new why ⊎ IsRefusedFrom (outset_of volatile.old) session.old transaction.now why) }
    ensures same { OnErr result (core_of volatile.new durable.new ≡ record (core_of volatile.old durable.old) { objects = (core_of volatile.new durable.new).objects }) }
    ensures left { OnErr result (OnlyReads (core_of volatile.old durable.old).objects (core_of volatile.new durable.new).objects) }
    ensures session { OnErr result (OnlyExtends session.old session.new) }
    ensures longer { IfErr result (ShowsLonger volatile.old.ledger.history session.new) }
    ensures pair { IsPair J.layout volatile.new durable.new }
    ensures crash { Crashes (core_of volatile.old durable.old) (core_of volatile.new durable.new) }
{
    let fetched = fetch_step(durable, volatile, rooms)?;
    let answer = volatile.commit_verified(rt, session, transaction, held, spares, &fetched);
    volatile.prove_invariant();
    match answer {
        Ok(CommitStep::Done(receipt)) => Ok(receipt),
        Ok(CommitStep::Missing(_)) => unreachable!(),
        Err(why) => Err(why),
    }
}
