// The marks of all that a session has seen, and how they are shown to it.
ghost use Rattle.std.specs.Prelude.{◌≡◌, ◌≤◌, ◌↔◌, IsTrue, length};
ghost use mathlib.Core.List.{IsPrefix};
ghost use Rattle.journal_world.specs.Histories.{commits_of, count, floor};
ghost use Rattle.journal_history.specs.Tokens.{made, IsExact, OnlyExtends};

use crate::ledger::Ledger;
use journal_history::{Naming, Session};
use journal_world::{HistoryLength, MapRule};

impl<'b, R: MapRule, J: Naming> Ledger<'b, R, J> {
    /// True if all commits that the session has seen are marked. The session has seen no more than
    /// the history. The call takes the same time for any length of the history.
    pub(crate) fn has_marked(&self, session: &Session<'b, J, R>) -> bool
        requires { IsPrefix session.now.seen self.now.history }
        ensures { IsTrue result ↔ (count session.now.seen ≤ floor self.now.history) }
    {
        HistoryLength::new(session.seen()) <= self.lengths.marked
    }

    /// Shows the session the whole history. The session made all commits there under its number.
    pub(crate) fn show_whole(&self, session: &mut Session<'b, J, R>)
        requires seen { IsPrefix session.old.seen self.now.history }
        requires own { length (commits_of session.old.number self.now.history) ≡ made session.old }
        ensures shown { session.new.seen ≡ self.now.history }
        ensures exact { IsExact session.new }
        ensures extends { OnlyExtends session.old session.new }
    {
        session.see(&self.writer.front());
    }
}
