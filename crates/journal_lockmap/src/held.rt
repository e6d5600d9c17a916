// A slot that its holder took.
ghost use Rattle.std.specs.Prelude.{◌≡◌, ◌<◌, ◌↔◌, false, IsTrue, IsSome, IfSome};
ghost use Rattle.journal_lockmap.specs.Tables.{is_taken, none_free, ChangesOnlySlot};

use crate::place::Place;
use crate::token::Token;
use journal_history::Naming;
use std::fmt;
use std::fmt::Debug;
use std::marker::Model;

/// A slot that its holder took, with the slot's token. Contracts see which slot, and how many
/// commits touched it.
///
/// A `LockMap` gives it, and only `LockMap::release` consumes it. Code that drops a `Held` does not
/// compile. The token takes no memory.
pub struct Held<J: Naming> {
    pub(crate) token: Token<J>,
}

impl<J: Naming> Model for Held<J> {
    ghost use Rattle.std.specs.Prelude.{◌<◌};
    ghost use Rattle.journal_lockmap.specs.Numbers.{HeldState};

    ghost Value = { HeldState };

    ghost view = { λ held. held.token };

    ghost invariant = { λ held. held.token.slot < J.layout.slots };
}

impl<J: Naming> Held<J> {
    /// Which slot it is, below the number of slots.
    pub fn slot(&self) -> u16
        ensures slot { result ≡ self.now.slot }
        ensures in_range { result < J.layout.slots }
    {
        self.token.slot()
    }

    // Takes the slot if its token is in the place.
    pub(crate) fn take(place: &mut Place<J>, slot: u16) -> Option<Held<J>>
        requires in_range { slot < J.layout.slots }
        ensures free { IsSome result ↔ (is_taken place.old slot ≡ false) }
        ensures held { IfSome result (λ held. held.slot ≡ slot) }
        ensures taken { IsTrue (is_taken place.new slot) }
        ensures others { ChangesOnlySlot place.old place.new slot }
    {
        match place.mark(slot) {
            Some(token) => {
                // Called for its contract: the slot is in range.
                let _slot = token.slot();
                Some(Held { token })
            }
            None => None,
        }
    }

    // Frees the slot: its token goes back to the place.
    pub(crate) fn give_back(self, place: &mut Place<J>)
        requires empty { place.old ≡ none_free J.layout.slots }
        ensures free { is_taken place.new self.slot ≡ false }
        ensures others { ChangesOnlySlot place.old place.new self.slot }
    {
        let Held { token } = self;
        place.unmark(token);
    }
}

impl<J: Naming> Debug for Held<J> {
    fn fmt<W: fmt::Write>(&self, f: &mut fmt::Formatter<W>) -> fmt::Result {
        f.debug_struct("Held")
            .field("slot", &self.slot())
            .finish_non_exhaustive()
    }
}
