// The core's volatile part, and its facts that take no step.
ghost use Rattle.std.specs.Prelude.{◌≡◌, ◌<◌, ◌≤◌, ◌+◌, ◌^◌, [], false, true, length, IfOk, IfErr, OnOk, OnErr};
ghost use mathlib.Core.List.{IsPrefix};
ghost use Rattle.journal_world.specs.Histories.{opened, commits_of, is_fenced, count};
ghost use Rattle.journal_world.specs.Files.{shape};
ghost use Rattle.journal_memlog.specs.Logs.{tail_of};
ghost use Rattle.journal_tail.specs.Tails.{empty_tail};
ghost use Rattle.journal_tail.specs.declared.limits.TheConstants.{MAX_TAIL};
ghost use Rattle.journal_history.specs.Soundness.{IsSound};
ghost use Rattle.journal_memory.specs.Ledgers.{IsNumberRefusal};
ghost use Rattle.journal_memory.specs.SlotCounts.{AgreeUpTo, AgreeWith};
ghost use Rattle.journal_memory.specs.Outsets.{GoesOn, IsEndRefusal};
ghost use Rattle.journal_memory.specs.Volatiles.{IsVolatile, IsFrontRefusal, outset_of};
ghost use Rattle.journal_memory.specs.VolatileHolds.{AnswersSession, Stops};

use crate::cause::Cause;
use crate::ledger::Ledger;
use crate::log_key::LogKey;
use crate::named_layout::NamedLayout;
use crate::refusal_number::RefusalNumber;
use journal_history::{Front, Naming, Session};
use journal_lockmap::Held;
use journal_tail::Tail;
use journal_world::{CommitCount, Layout, MapRule, Refusal};
use std::marker::Model;
use std::sync::Wait;

/// The part of the core that is in memory alone, for a lock of its own: the history, the counts
/// beside it, the objects that commits wrote and that are not at home yet, and copies of blocks
/// that are at home.
///
/// It holds no device, so none of its functions waits for a device call. If a read or a commit
/// needs a block that is not here, its answer says so. The caller fetches it from the durable part,
/// and makes the call again with the fetched block.
#[derive(Drop)]
pub struct Volatile<'b, R: MapRule, J: Naming> {
    pub(crate) layout: NamedLayout<J>,
    pub(crate) ledger: Ledger<'b, R, J>,
    pub(crate) tail: Tail,
    // A device call failed.
    pub(crate) faulted: bool,
}

impl<'b, R: MapRule, J: Naming> Model for Volatile<'b, R, J> {
    ghost use Rattle.journal_memory.specs.Volatiles.{VolatileState, IsVolatile};

    ghost Value = { VolatileState };

    ghost view = { λ v. record { ledger = v.ledger; tail = v.tail; faulted = v.faulted } };

    ghost invariant = { λ v. IsVolatile J.layout (record { ledger = v.ledger; tail = v.tail; faulted = v.faulted }) };
}

impl<'b, R: MapRule, J: Naming> Volatile<'b, R, J> {
    /// The volatile part of a mount that begins, over a disk whose log ends at a position: no
    /// commit was made, and no block is known.
    pub fn new(layout: Layout, ledger: Ledger<'b, R, J>, tail: Tail) -> Volatile<'b, R, J>
        requires layout { shape layout ≡ J.layout }
        requires begun { ledger.cut ≡ 0 }
        requires none { count ledger.history ≡ 0 }
        requires on_disk { (opened ledger.history).layout ≡ J.layout }
        requires empty { tail ≡ empty_tail J.layout.blocks tail.log.start tail.log.room }
        requires small { tail.log.start < 2 ^ 62 }
        ensures { result ≡ record { ledger = ledger.entry; tail = tail; faulted = false } }
    {
        // Called for its contract: there is an opening.
        let _len = ledger.len();
        Volatile {
            layout: NamedLayout::new(layout),
            ledger,
            tail,
            faulted: false,
        }
    }

    /// The whole history, which is sound.
    pub fn front(&self) -> Front<'b, J, R>
        ensures history { result ≡ self.now.ledger.history }
        ensures size { (opened self.now.ledger.history).layout ≡ J.layout }
        ensures sound { IsSound R.statement self.now.ledger.history }
    {
        self.ledger.front()
    }

    /// The number of commits at the last cut.
    pub fn last_cut(&self) -> CommitCount
        ensures { result ≡ self.now.ledger.cut }
    {
        self.ledger.cut()
    }

    /// The next cut hands out no more blocks than a tail may have. Called for its contract.
    pub fn prove_short_tail(&self)
        ensures { length (tail_of self.now.tail.log) ≤ MAX_TAIL }
    {
        let _len = self.tail.tail_len();
    }

    /// The layout of the disk.
    pub fn layout(&self) -> Layout
        ensures { shape result ≡ J.layout }
    {
        *self.layout.get()
    }

    /// The invariant of its type. Called for its contract.
    pub fn prove_invariant(&self)
        ensures { IsVolatile J.layout self.now }
    {
        let _faulted = self.faulted;
    }

    /// Checks that neither a stop nor a fault ended it.
    ///
    /// # Errors
    /// The first that applies is answered. Nothing changed.
    /// - `J13 Closed`: it was stopped.
    /// - `J6 DeviceFailed`: the device failed before.
    pub fn check_running(&self) -> Result<(), Refusal<Cause<'b, J, R>>>
        ensures running { OnOk result (GoesOn (outset_of self.now)) }
        ensures refusal { IfErr result (IsEndRefusal (outset_of self.now)) }
    {
        if self.ledger.is_closed() {
            return Err(Refusal::Closed(Cause::none(RefusalNumber::J13)));
        }
        if self.faulted {
            return Err(Refusal::DeviceFailed(Cause::none(RefusalNumber::J6)));
        }
        Ok(())
    }

    /// The whole history, if another part's front begins it.
    ///
    /// # Errors
    /// - `J9 Stale`: that front is the longer. Nothing changed.
    pub fn front_over(
        &self,
        seen: &Front<'b, J, R>,
    ) -> Result<Front<'b, J, R>, Refusal<Cause<'b, J, R>>>
        ensures whole { IfOk result (λ front. front ≡ self.now.ledger.history) }
        ensures begins { OnOk result (IsPrefix seen.now self.now.ledger.history) }
        ensures refusal { IfErr result (IsFrontRefusal self.now.ledger.history seen.now) }
    {
        let mut front = self.ledger.front();
        front.see(seen);
        if front.len() > self.ledger.len() {
            return Err(Refusal::Stale(Cause::of(RefusalNumber::J9, front)));
        }
        Ok(front)
    }

    /// A hold of memory alone: a session of the next number, which no session had before and which
    /// is not fenced. The call takes no memory.
    ///
    /// # Errors
    /// - `J11 Worn`: the number would reach 2^62. Nothing changed.
    pub fn session(&mut self) -> Result<Session<'b, J, R>, Refusal<Cause<'b, J, R>>>
        ensures is { IfOk result (λ session. session ≡ record { number = self.old.ledger.next; mine = self.old.ledger.history; seen = self.old.ledger.history }) }
        ensures fresh { commits_of self.old.ledger.next self.old.ledger.history ≡ [] }
        ensures unfenced { is_fenced self.old.ledger.next self.old.ledger.history ≡ false }
        ensures others { OnOk result (self.new ≡ record self.old { ledger = record self.old.ledger { next = self.old.ledger.next + 1 } }) }
        ensures refusal { IfErr result (IsNumberRefusal self.old.ledger.next) }
        ensures same { OnErr result (self.new ≡ self.old) }
        ensures event { AnswersSession self.old result self.new }
    {
        self.ledger.session()
    }

    /// Shows that the held slots agree with the history: as many commits touched each slot as its
    /// token says. Nothing changes, and the call does not block.
    pub fn verify_tokens<W: Wait>(&mut self, rt: &W, held: &mut [Held<J>])
        ensures same { self.new ≡ self.old }
        ensures held { held.new ≡ held.old }
        ensures agree { AgreeWith J.layout self.old.ledger.history held.old }
    {
        self.ledger.verify_tokens(rt, held);
    }

    /// Shows the same of held slots of which the first `known` agree with the history of a front.
    /// They are not looked at where nothing was added to that history since.
    pub(crate) fn verify_new_tokens<W: Wait>(
        &mut self,
        rt: &W,
        front: &Front<'b, J, R>,
        known: usize,
        held: &mut [Held<J>],
    )
        requires known { AgreeUpTo J.layout front.now known held.old }
        ensures same { self.new ≡ self.old }
        ensures held { held.new ≡ held.old }
        ensures agree { AgreeWith J.layout self.old.ledger.history held.old }
    {
        self.ledger.verify_new_tokens(rt, front, known, held);
    }

    /// Part of a hold of both: notes that a device call failed.
    pub fn fail(&mut self, _key: &LogKey<J>)
        ensures { self.new ≡ record self.old { faulted = true } }
    {
        self.faulted = true;
    }

    /// A hold of memory alone: stops it. Nothing else changes.
    pub fn stop(&mut self)
        ensures event { Stops self.old self.new }
    {
        self.ledger.stop();
    }
}
