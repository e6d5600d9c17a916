// How many commits touched each slot, as one pass of the cell knows it.
ghost use Rattle.std.specs.Prelude.{◌≡◌, ◌+◌, length, slice_index, slice_set};
ghost use Rattle.crossbeam_utils.specs.Seq.{cell_view};
ghost use Rattle.journal_history.specs.Counts.{keeper};
ghost use Rattle.journal_lockmap.specs.Numbers.{HasNumber};

use crate::held::Held;
use journal_history::{CountCell, CountPass, Naming};
use std::marker::{Model, PhantomData};
use std::sync::Wait;

/// The cell of a journal, with the pass that knows the numbers of all its slots. Contracts see
/// these in the slots' order.
#[derive(Drop)]
pub(crate) struct Keeper<J: Naming> {
    cell: CountCell,
    pass: CountPass,
    journal: PhantomData<J>,
}

impl<J: Naming> Model for Keeper<J> {
    ghost use Rattle.std.specs.Prelude.{ℕ, List};
    ghost use Rattle.crossbeam_utils.specs.Seq.{cell_view};
    ghost use Rattle.journal_lockmap.specs.Numbers.{IsKeeper};

    ghost Value = { List ℕ };

    ghost view = { λ k. (cell_view k.pass).counts };

    ghost invariant = { λ k. IsKeeper J.cell.slots J.layout.slots k.cell.table.shared.table_id k.pass.table_id (cell_view k.pass) };
}

impl<J: Naming> Keeper<J> {
    // The keeper of a cell whose slots were all made.
    pub(crate) fn new(cell: CountCell, pass: CountPass) -> Keeper<J>
        requires cell { cell.table.shared.table_id ≡ J.cell.slots }
        requires pass { pass.table_id ≡ J.cell.slots }
        requires view { cell_view pass ≡ keeper (cell_view pass).counts }
        requires slots { length (cell_view pass).counts ≡ J.layout.slots }
        ensures { result ≡ (cell_view pass).counts }
    {
        Keeper {
            cell,
            pass,
            journal: PhantomData,
        }
    }

    // Shows that the held slot agrees with the numbers. Nothing changes. Each held slot is looked
    // at by itself: the core's clause `agree` speaks of each slot at the history that was found.
    pub(crate) fn verify_token<W: Wait>(&mut self, rt: &W, held: &mut Held<J>)
        ensures same { self.new ≡ self.old }
        ensures held { held.new ≡ held.old }
        ensures agrees { HasNumber self.old held.old }
    {
        held.token.verify(rt, &self.cell, &mut self.pass);
    }

    // Counts one more commit for a slot that is held.
    pub(crate) fn touch<W: Wait>(&mut self, rt: &W, held: &mut Held<J>)
        ensures count { self.new ≡ slice_set self.old held.old.slot (slice_index self.old held.old.slot + 1) }
        ensures held { held.new ≡ record { slot = held.old.slot; count = slice_index self.old held.old.slot + 1 } }
        ensures slots { length self.old ≡ J.layout.slots }
    {
        held.token.touch(rt, &self.cell, &mut self.pass);
    }
}
