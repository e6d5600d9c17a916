// The table of taken slots.
ghost use Rattle.std.specs.Prelude.{◌≡◌, ◌<◌};
ghost use Rattle.journal_lockmap.specs.Tables.{is_taken};

use crate::token::Token;
use journal_history::Naming;
use std::fmt;
use std::fmt::Debug;
use std::marker::Model;

// A list, because a contract cannot have a function as a value.
/// The table of slots, with the token of each free slot. Contracts see a list that says of each
/// slot whether it is taken.
///
/// `SlotCounts::begin` makes the table of a journal, with the tokens of all its slots.
#[derive(Drop)]
pub struct Slots<J: Naming> {
    pub(crate) free: Vec<Option<Token<J>>>,
}

impl<J: Naming> Model for Slots<J> {
    ghost use Rattle.journal_lockmap.specs.Tables.{Table, taken_of, IsTable};

    ghost Value = { Table };

    ghost view = { λ slots. taken_of slots.free.items };

    ghost invariant = { λ slots. IsTable J.layout.slots slots.free.items };
}

impl<J: Naming> Slots<J> {
    /// True if the slot is taken.
    pub fn is_taken(&self, slot: u16) -> bool
        requires in_range { slot < J.layout.slots }
        ensures { result ≡ is_taken self.now slot }
    {
        self.free[usize::from(slot)].is_none()
    }
}

impl<J: Naming> Debug for Slots<J> {
    fn fmt<W: fmt::Write>(&self, f: &mut fmt::Formatter<W>) -> fmt::Result {
        f.debug_struct("Slots").finish_non_exhaustive()
    }
}
