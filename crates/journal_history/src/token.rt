// The token of a session.
ghost use Rattle.std.specs.Prelude.{◌≡◌, ◌<◌, ◌+◌, ◌^◌, [], slice_set};
ghost use Rattle.crossbeam_utils.specs.Seq.{cell_view};
ghost use Rattle.journal_history.specs.Counts.{token as token_of, keeper, HasCount};

use crate::book::Naming;
use crate::count_cell::{CountCell, CountPass};
use crate::count_steps::{join, spare, split, touch};
use std::marker::{Model, PhantomData};
use std::mem::replace;
use std::sync::Wait;

/// The token of a session, of which there is one. Contracts see the session's number, and how many
/// commits it has.
#[derive(Drop)]
pub(crate) struct Token<J: Naming> {
    pub(crate) number: u64,
    pub(crate) count: u64,
    pass: CountPass,
    journal: PhantomData<J>,
}

impl<J: Naming> Model for Token<J> {
    ghost use Rattle.std.specs.Prelude.{◌≡◌, []};
    ghost use Rattle.crossbeam_utils.specs.Seq.{cell_view};
    ghost use Rattle.journal_history.specs.Counts.{TokenState, IsToken};

    ghost Value = { TokenState };

    ghost view = { λ t. record { number = t.number; count = t.count } };

    ghost invariant = { λ t. IsToken J.cell.sessions t.pass.table_id (t.pass.me.1 ≡ []) (cell_view t.pass) (record { number = t.number; count = t.count }) };
}

impl<J: Naming> Token<J> {
    // The token of a session without commits. The pass was split off, and only such a pass can be
    // joined again.
    pub(crate) fn new(number: u64, pass: CountPass) -> Token<J>
        requires cell { pass.table_id ≡ J.cell.sessions }
        requires fresh { pass.me.1 ≡ [] }
        requires view { cell_view pass ≡ token_of number 0 }
        ensures { result ≡ record { number = number; count = 0 } }
    {
        Token {
            number,
            count: 0,
            pass,
            journal: PhantomData,
        }
    }

    // The session's number.
    pub(crate) fn number(&self) -> u64
        ensures { result ≡ self.now.number }
    {
        self.number
    }

    // The number of the session's commits.
    pub(crate) fn count(&self) -> u64
        ensures { result ≡ self.now.count }
    {
        self.count
    }

    // Shows that it agrees with the keeper. Nothing changes. `join` takes a pass by value, so an
    // empty pass is here during the call.
    pub(crate) fn verify<W: Wait>(&mut self, rt: &W, cell: &CountCell, all: &mut CountPass)
        requires cell { cell.now.table.shared.table_id ≡ J.cell.sessions }
        requires pass { all.old.table_id ≡ J.cell.sessions }
        requires keeper { cell_view all.old ≡ keeper (cell_view all.old).counts }
        ensures same { self.new ≡ self.old }
        ensures pass { all.new.table_id ≡ J.cell.sessions }
        ensures all { cell_view all.new ≡ cell_view all.old }
        ensures agrees { HasCount (cell_view all.old).counts self.old.number self.old.count }
    {
        let token = replace(&mut self.pass, spare(cell, all));
        join(rt, cell, all, token);
        self.pass = split(cell, all);
    }

    // The session commits: its number of commits rises by one, here and with the keeper.
    pub(crate) fn touch<W: Wait>(&mut self, rt: &W, cell: &CountCell, all: &mut CountPass)
        requires cell { cell.now.table.shared.table_id ≡ J.cell.sessions }
        requires pass { all.old.table_id ≡ J.cell.sessions }
        requires keeper { cell_view all.old ≡ keeper (cell_view all.old).counts }
        requires room { self.old.count + 1 < 2 ^ 64 }
        ensures count { self.new ≡ record { number = self.old.number; count = self.old.count + 1 } }
        ensures pass { all.new.table_id ≡ J.cell.sessions }
        ensures all { cell_view all.new ≡ keeper (slice_set (cell_view all.old).counts self.old.number (self.old.count + 1)) }
        ensures agrees { HasCount (cell_view all.old).counts self.old.number self.old.count }
    {
        let token = replace(&mut self.pass, spare(cell, all));
        join(rt, cell, all, token);
        touch(rt, cell, all);
        self.pass = split(cell, all);
        self.count += 1;
    }
}
