// The token of a slot.
ghost use Rattle.std.specs.Prelude.{◌≡◌, ◌<◌, ◌+◌, [], slice_set};
ghost use Rattle.crossbeam_utils.specs.Seq.{cell_view};
ghost use Rattle.journal_history.specs.Counts.{token as token_of, keeper};
ghost use Rattle.journal_lockmap.specs.Numbers.{HasNumber};

use journal_history::count_steps::{join, spare, split, touch};
use journal_history::{CountCell, CountPass, Naming};
use std::marker::{Model, PhantomData};
use std::mem::replace;
use std::sync::Wait;

/// The token of a slot, with the slot's number. Contracts see the slot, and how many commits
/// touched it.
#[derive(Drop)]
pub(crate) struct Token<J: Naming> {
    slot: u16,
    pass: CountPass,
    journal: PhantomData<J>,
}

impl<J: Naming> Model for Token<J> {
    ghost use Rattle.std.specs.Prelude.{◌≡◌, []};
    ghost use Rattle.crossbeam_utils.specs.Seq.{cell_view};
    ghost use Rattle.journal_lockmap.specs.Numbers.{HeldState, IsToken};

    ghost Value = { HeldState };

    ghost view = { λ t. record { slot = t.slot; count = (cell_view t.pass).count } };

    ghost invariant = { λ t. IsToken J.cell.slots J.layout.slots t.slot t.pass.table_id (t.pass.me.1 ≡ []) (cell_view t.pass) };
}

impl<J: Naming> Token<J> {
    // The slot's token. The pass was split off, and only such a pass can be joined again.
    pub(crate) fn new(slot: u16, pass: CountPass) -> Token<J>
        requires cell { pass.table_id ≡ J.cell.slots }
        requires fresh { pass.me.1 ≡ [] }
        requires view { cell_view pass ≡ token_of slot (cell_view pass).count }
        requires in_range { slot < J.layout.slots }
        ensures { result ≡ record { slot = slot; count = (cell_view pass).count } }
    {
        Token {
            slot,
            pass,
            journal: PhantomData,
        }
    }

    // The number of its slot, below the number of slots.
    pub(crate) fn slot(&self) -> u16
        ensures slot { result ≡ self.now.slot }
        ensures in_range { result < J.layout.slots }
    {
        self.slot
    }

    // Shows that it agrees with the keeper. Nothing changes. `join` takes a pass by value, so an
    // empty pass is here during the call.
    pub(crate) fn verify<W: Wait>(&mut self, rt: &W, cell: &CountCell, all: &mut CountPass)
        requires cell { cell.now.table.shared.table_id ≡ J.cell.slots }
        requires pass { all.old.table_id ≡ J.cell.slots }
        requires keeper { cell_view all.old ≡ keeper (cell_view all.old).counts }
        ensures same { self.new ≡ self.old }
        ensures pass { all.new.table_id ≡ J.cell.slots }
        ensures all { cell_view all.new ≡ cell_view all.old }
        ensures agrees { HasNumber (cell_view all.old).counts self.old }
    {
        let token = replace(&mut self.pass, spare(cell, all));
        join(rt, cell, all, token);
        self.pass = split(cell, all);
    }

    // A commit touches the slot: its number rises by one, here and with the keeper.
    pub(crate) fn touch<W: Wait>(&mut self, rt: &W, cell: &CountCell, all: &mut CountPass)
        requires cell { cell.now.table.shared.table_id ≡ J.cell.slots }
        requires pass { all.old.table_id ≡ J.cell.slots }
        requires keeper { cell_view all.old ≡ keeper (cell_view all.old).counts }
        ensures slot { self.new ≡ record { slot = self.old.slot; count = self.old.count + 1 } }
        ensures pass { all.new.table_id ≡ J.cell.slots }
        ensures all { cell_view all.new ≡ keeper (slice_set (cell_view all.old).counts self.old.slot (self.old.count + 1)) }
        ensures agrees { HasNumber (cell_view all.old).counts self.old }
    {
        let token = replace(&mut self.pass, spare(cell, all));
        join(rt, cell, all, token);
        touch(rt, cell, all);
        self.pass = split(cell, all);
    }
}
