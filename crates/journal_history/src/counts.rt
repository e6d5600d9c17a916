// How many commits each session has.
ghost use Rattle.std.specs.Prelude.{◌≡◌, ◌<◌, ◌≤◌, ◌+◌, ◌^◌, ◌++◌, ◌∷◌, [], length, slice_set};
ghost use Rattle.crossbeam_utils.specs.Seq.{cell_view};
ghost use Rattle.journal_history.specs.Counts.{keeper, raised, HasCount};
ghost use Rattle.journal_history.specs.Tokens.{made};

use crate::book::Naming;
use crate::count_cell::{CountCell, CountPass};
use crate::count_steps::{make, open_cell, raise};
use crate::session::Session;
use crate::token::Token;
use journal_world::MapRule;
use std::alloc::{AllocError, Global};
use std::marker::{Model, PhantomData};
use std::sync::Wait;

/// The cell of the sessions of a journal that has no name yet. Contracts see which cell it is, so
/// whoever opens the journal can name it by the cell.
#[derive(Drop)]
pub struct SessionCell {
    cell: CountCell,
    first: CountPass,
}

impl Model for SessionCell {
    ghost use Rattle.std.specs.Prelude.{◌≡◌};
    ghost use Rattle.atomic_table.specs.Seated.{TableId};
    ghost use Rattle.crossbeam_utils.specs.Seq.{cell_view};
    ghost use Rattle.journal_history.specs.Counts.{first as first_view};

    ghost Value = { TableId };

    ghost view = { λ c. c.cell.table.shared.table_id };

    ghost invariant = { λ c. (c.first.table_id ≡ c.cell.table.shared.table_id) × (cell_view c.first ≡ first_view) };
}

impl SessionCell {
    /// A new cell.
    ///
    /// # Errors
    /// - Memory is refused. Nothing was made.
    pub fn open(alloc: Global) -> Result<SessionCell, AllocError> {
        let (cell, first) = open_cell(alloc)?;
        Ok(SessionCell { cell, first })
    }
}

/// How many commits each session has, by the sessions' numbers, all of which were given. Contracts
/// see them in that order.
///
/// The counts exist in proofs alone: one pass of the cell, the keeper, knows them, and a session's
/// token knows its own. No number has two tokens, so only the session commits under it, and its own
/// count is the history's. The memory does not grow with the number of sessions.
#[derive(Drop)]
pub struct SessionCounts<J: Naming> {
    cell: CountCell,
    keeper: CountPass,
    journal: PhantomData<J>,
}

impl<J: Naming> Model for SessionCounts<J> {
    ghost use Rattle.std.specs.Prelude.{ℕ, List};
    ghost use Rattle.crossbeam_utils.specs.Seq.{cell_view};
    ghost use Rattle.journal_history.specs.Counts.{IsKeeper};

    ghost Value = { List ℕ };

    ghost view = { λ c. (cell_view c.keeper).counts };

    ghost invariant = { λ c. IsKeeper J.cell.sessions c.cell.table.shared.table_id c.keeper.table_id (cell_view c.keeper) };
}

impl<J: Naming> SessionCounts<J> {
    /// The counts of the journal that has this cell: there is no session.
    pub fn begin(cell: SessionCell) -> SessionCounts<J>
        requires { cell ≡ J.cell.sessions }
        ensures { result ≡ [] }
    {
        let SessionCell { cell, first } = cell;
        SessionCounts {
            cell,
            keeper: first,
            journal: PhantomData,
        }
    }

    // Gives the next number, by its token. No session had it before.
    pub(crate) fn give(&mut self, number: u64) -> Token<J>
        requires next { number ≡ length self.old }
        ensures given { self.new ≡ self.old ++ 0 ∷ [] }
        ensures token { result ≡ record { number = number; count = 0 } }
    {
        let pass = make(&self.cell, &mut self.keeper);
        Token::new(number, pass)
    }

    /// Gives all numbers below the bound, to no session. The numbers that were given before stay.
    pub fn raise<W: Wait>(&mut self, rt: &W, bound: u64)
        ensures { self.new ≡ raised self.old bound }
    {
        raise(rt, &self.cell, &mut self.keeper, bound);
    }

    /// Shows that the session made all commits that are counted under its number. Nothing changes,
    /// and the call does not block.
    pub fn verify_session<'b, R: MapRule, W: Wait>(
        &mut self,
        rt: &W,
        session: &mut Session<'b, J, R>,
    )
        ensures same { self.new ≡ self.old }
        ensures session { session.new ≡ session.old }
        ensures own { HasCount self.old session.old.number (made session.old) }
    {
        session.token.verify(rt, &self.cell, &mut self.keeper);
    }

    // Counts one more commit of the session that has this token.
    pub(crate) fn touch<W: Wait>(&mut self, rt: &W, token: &mut Token<J>)
        requires room { token.old.count + 1 < 2 ^ 64 }
        ensures counts { self.new ≡ slice_set self.old token.old.number (token.old.count + 1) }
        ensures token { token.new ≡ record { number = token.old.number; count = token.old.count + 1 } }
        ensures own { HasCount self.old token.old.number token.old.count }
    {
        token.touch(rt, &self.cell, &mut self.keeper);
    }
}
