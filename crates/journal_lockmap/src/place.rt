// The place of a slot.
ghost use Rattle.std.specs.Prelude.{◌≡◌, ◌<◌, ◌↔◌, false, IsTrue, IsSome, IfSome};
ghost use Rattle.journal_lockmap.specs.Tables.{is_taken, none_free, table_with, ChangesOnlySlot};

use crate::token::Token;
use journal_history::Naming;
use std::marker::Model;

/// The place of one slot's token while the slot is free. Contracts see the table of all slots, in
/// which a slot is taken if its token is not here.
#[derive(Drop)]
pub(crate) struct Place<J: Naming> {
    token: Option<Token<J>>,
}

impl<J: Naming> Model for Place<J> {
    ghost use Rattle.journal_lockmap.specs.Tables.{Table, table_with};

    ghost Value = { Table };

    ghost view = { λ place. table_with J.layout.slots place.token };
}

impl<J: Naming> Place<J> {
    // A place with this token, or an empty one.
    pub(crate) fn new(token: Option<Token<J>>) -> Place<J>
        ensures { result ≡ table_with J.layout.slots token }
    {
        Place { token }
    }

    // True if no token is here.
    pub(crate) fn is_empty(&self) -> bool
        ensures { IsTrue result → self.now ≡ none_free J.layout.slots }
    {
        self.token.is_none()
    }

    // True if the slot's token is not here.
    pub(crate) fn is_taken(&self, slot: u16) -> bool
        requires in_range { slot < J.layout.slots }
        ensures { result ≡ is_taken self.now slot }
    {
        match &self.token {
            Some(token) => token.slot() != slot,
            None => true,
        }
    }

    // Takes the slot's token, if it is here. Otherwise nothing changes.
    pub(crate) fn mark(&mut self, slot: u16) -> Option<Token<J>>
        requires in_range { slot < J.layout.slots }
        ensures free { IsSome result ↔ (is_taken self.old slot ≡ false) }
        ensures token { IfSome result (λ token. token.slot ≡ slot) }
        ensures taken { IsTrue (is_taken self.new slot) }
        ensures others { ChangesOnlySlot self.old self.new slot }
    {
        if self.is_taken(slot) {
            None
        } else {
            self.token.take()
        }
    }

    // Frees the slot of the token.
    pub(crate) fn unmark(&mut self, token: Token<J>)
        requires empty { self.old ≡ none_free J.layout.slots }
        ensures free { is_taken self.new token.slot ≡ false }
        ensures others { ChangesOnlySlot self.old self.new token.slot }
    {
        self.token = Some(token);
    }
}
