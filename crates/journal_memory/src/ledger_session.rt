// The memory part's steps for sessions, and its stop.
ghost use Rattle.std.specs.Prelude.{◌≡◌, ◌+◌, [], true, false, length, IfOk, IfErr, OnOk, OnErr};
ghost use mathlib.Core.List.{IsPrefix};
ghost use Rattle.journal_world.specs.Histories.{commits_of, is_fenced};
ghost use Rattle.journal_history.specs.Tokens.{made, OnlyExtends};
ghost use Rattle.journal_memory.specs.Ledgers.{ShowsLonger, IsNumberRefusal, IsStaleRefusal, IsStrayRefusal};

use crate::cause::Cause;
use crate::ledger::Ledger;
use crate::limits::MAX_HISTORY_LENGTH;
use crate::refusal_number::RefusalNumber;
use journal_history::{Naming, Session};
use journal_world::{MapRule, Refusal};
use std::sync::Wait;

impl<'b, R: MapRule, J: Naming> Ledger<'b, R, J> {
    /// A session of the next number, which no session had before and which is not fenced. Refuses
    /// by J11. The call takes no memory.
    pub(crate) fn session(&mut self) -> Result<Session<'b, J, R>, Refusal<Cause<'b, J, R>>>
        ensures is { IfOk result (λ session. session ≡ record { number = self.old.next; mine = self.old.history; seen = self.old.history }) }
        ensures fresh { commits_of self.old.next self.old.history ≡ [] }
        ensures unfenced { is_fenced self.old.next self.old.history ≡ false }
        ensures others { OnOk result (self.new ≡ record self.old { next = self.old.next + 1 }) }
        ensures history { self.new.history ≡ self.old.history }
        ensures cut { self.new.cut ≡ self.old.cut }
        ensures refusal { IfErr result (IsNumberRefusal self.old.next) }
        ensures same { OnErr result (self.new ≡ self.old) }
    {
        if self.next.get() >= MAX_HISTORY_LENGTH {
            return Err(Refusal::Worn(Cause::none(RefusalNumber::J11)));
        }
        let session = self.writer.session(&mut self.sessions, self.next.get());
        self.next = self.next.following();
        Ok(session)
    }

    /// Shows the session the whole history. Refuses by J9, and the session may then have seen more.
    pub(crate) fn show(
        &self,
        session: &mut Session<'b, J, R>,
    ) -> Result<(), Refusal<Cause<'b, J, R>>>
        ensures extends { OnlyExtends session.old session.new }
        ensures shown { OnOk result (session.new.seen ≡ self.now.history) }
        ensures refusal { IfErr result (IsStaleRefusal self.now.history) }
        ensures longer { IfErr result (ShowsLonger self.now.history session.new) }
    {
        match self.writer.show(session) {
            Ok(()) => Ok(()),
            Err(front) => Err(Refusal::Stale(Cause::of(RefusalNumber::J9, front))),
        }
    }

    /// Refuses by J9 if the history is longer, or the session has seen more. Nothing changes. A
    /// check of the session's token shows that the session made all commits under its number, so
    /// J10 never comes.
    pub(crate) fn check_session<W: Wait>(
        &mut self,
        rt: &W,
        session: &mut Session<'b, J, R>,
    ) -> Result<(), Refusal<Cause<'b, J, R>>>
        ensures same { self.new ≡ self.old }
        ensures session { session.new ≡ session.old }
        ensures seen { OnOk result (IsPrefix session.old.seen self.old.history) }
        ensures own { OnOk result (length (commits_of session.old.number self.old.history) ≡ made session.old) }
        ensures refusal { IfErr result (IsStrayRefusal self.old.history session.old) }
    {
        self.sessions.verify_session(rt, session);
        let mut front = self.writer.front();
        front.see(&session.front());
        front.observe();
        if front.len() > self.writer.len() {
            return Err(Refusal::Stale(Cause::of(RefusalNumber::J9, front)));
        }
        Ok(())
    }

    /// Stops it. Nothing else changes.
    pub(crate) fn stop(&mut self)
        ensures { self.new ≡ record self.old { closed = true } }
    {
        self.closed = true;
    }
}
