// How many commits touched each slot.
ghost use Rattle.std.specs.Prelude.{false, ◌≡◌, [], IfOk, length, replicate};
ghost use Rattle.crossbeam_utils.specs.Seq.{cell_view};
ghost use Rattle.journal_world.specs.Files.{shape};
ghost use Rattle.journal_history.specs.Counts.{keeper, first as first_view};
ghost use Rattle.journal_lockmap.specs.Numbers.{Agree, AgreeFrom, AreApart, AreNone, HoldsSlots, slots_of, CountsWrites};

use crate::held::Held;
use crate::keeper::Keeper;
use crate::slot_set::{kept_flags, mark_writes, unmark};
use crate::slots::Slots;
use crate::token::Token;
use journal_history::count_steps::{make, open_cell};
use journal_history::{CountCell, CountPass, Naming, SessionCell, SessionCounts};
use journal_world::{Layout, Objects, SLOTS};
use std::alloc::{AllocError, Global};
use std::marker::Model;
use std::sync::Wait;

/// The cells of a journal that has no name yet: that of its slots, and that of its sessions.
/// Contracts see which cells they are, so whoever opens the journal can name it by them.
#[derive(Drop)]
pub struct SlotCell {
    cell: CountCell,
    first: CountPass,
    sessions: SessionCell,
}

impl Model for SlotCell {
    ghost use Rattle.std.specs.Prelude.{◌≡◌};
    ghost use Rattle.crossbeam_utils.specs.Seq.{cell_view};
    ghost use Rattle.journal_history.specs.Cells.{Cells};
    ghost use Rattle.journal_history.specs.Counts.{first as first_view};

    ghost Value = { Cells };

    ghost view = { λ c. record { slots = c.cell.table.shared.table_id; sessions = c.sessions } };

    ghost invariant = { λ c. (c.first.table_id ≡ c.cell.table.shared.table_id) × (cell_view c.first ≡ first_view) };
}

impl SlotCell {
    /// New cells.
    ///
    /// # Errors
    /// - Memory is refused. Nothing was made.
    pub fn open(alloc: Global) -> Result<SlotCell, AllocError> {
        let (cell, first) = open_cell(alloc)?;
        let sessions = SessionCell::open(alloc)?;
        Ok(SlotCell {
            cell,
            first,
            sessions,
        })
    }
}

/// The numbers of commits that touched each slot. Contracts see them in the slots' order. They
/// exist in proofs alone: one pass of the cell, the keeper, knows them, and a token knows that of
/// its slot.
#[derive(Drop)]
pub struct SlotCounts<J: Naming> {
    keeper: Keeper<J>,
    layout: Layout,
    // A flag for each slot. A commit marks those that it writes while it is counted. The flags are
    // kept from one commit to the next, so that no commit has to make them, however many slots
    // there are. There are none where a commit has its flags on the stack.
    written: Vec<bool>,
}

impl<J: Naming> Model for SlotCounts<J> {
    ghost use Rattle.std.specs.Prelude.{◌≡◌, ◌≢◌, ℕ, List, length};
    ghost use Rattle.journal_world.specs.declared.layout.TheConstants.{SLOTS};
    ghost use Rattle.journal_world.specs.Files.{shape};
    ghost use Rattle.journal_lockmap.specs.Numbers.{AreNone};

    ghost Value = { List ℕ };

    ghost view = { λ c. c.keeper };

    ghost invariant = { λ c. (shape c.layout ≡ J.layout) × AreNone c.written.items × (J.layout.slots ≢ SLOTS → length c.written.items ≡ J.layout.slots) };
}

impl<J: Naming> SlotCounts<J> {
    /// The numbers of the journal that has these cells, and its slots, as many as its layout has,
    /// with a token for each. No commit touched any, and all are free. The numbers of commits of
    /// its sessions are returned too: there is no session.
    ///
    /// # Errors
    /// - Memory is refused. The cells are dropped.
    pub fn begin(
        alloc: Global,
        cell: SlotCell,
        layout: Layout,
    ) -> Result<(SlotCounts<J>, Slots<J>, SessionCounts<J>), AllocError>
        requires cell { cell ≡ J.cell }
        requires layout { shape layout ≡ J.layout }
        ensures counts { IfOk result (λ made. made.0 ≡ replicate J.layout.slots 0) }
        ensures free { IfOk result (λ made. made.1 ≡ replicate J.layout.slots false) }
        ensures sessions { IfOk result (λ made. made.2 ≡ []) }
    {
        let SlotCell {
            cell,
            first,
            sessions,
        } = cell;
        let mut keeper = first;
        let mut free: Vec<Option<Token<J>>> = Vec::new(alloc);
        for slot in 0..layout.slots {
            let token = make(&cell, &mut keeper);
            free.push(Some(Token::new(slot, token)))?;
        }
        let keeper = Keeper::new(cell, keeper);
        let written = kept_flags(alloc, layout.slots)?;
        let counts = SlotCounts {
            keeper,
            layout,
            written,
        };
        let slots = Slots { free };
        Ok((counts, slots, SessionCounts::begin(sessions)))
    }

    // A commit also requires that no slot is held twice (`apart`), though the tokens imply it: the
    // cell's rule speaks of two tokens that are looked at together, and a look takes one.
    /// Shows that the numbers of the held slots from place `from` on are those that are kept here.
    /// Nothing changes, and the call does not block.
    pub fn verify_tokens<W: Wait>(&mut self, rt: &W, held: &mut [Held<J>], from: usize)
        ensures same { self.new ≡ self.old }
        ensures held { held.new ≡ held.old }
        ensures agree { AgreeFrom from self.old held.old }
    {
        for index in from..held.len() {
            self.keeper.verify_token(rt, &mut held[index]);
        }
    }

    /// Counts one more commit, which writes these addresses, of slots that are held. A slot counts
    /// once, however many of its addresses the commit writes. Then the held slots are the same and
    /// agree. The call takes no memory and does not block. It goes over the writes once and over
    /// the held slots once.
    pub fn count_writes<W: Wait>(&mut self, rt: &W, held: &mut [Held<J>], writes: &Objects)
        requires apart { AreApart held.old }
        requires covered { HoldsSlots J.layout held.old writes.now }
        ensures counts { CountsWrites J.layout writes.now self.old self.new }
        ensures agree { Agree self.new held.new }
        ensures slots { slots_of held.new ≡ slots_of held.old }
    {
        let SlotCounts {
            keeper,
            layout,
            written,
        } = self;
        if layout.slots == SLOTS {
            // On the thread's own stack, because flags that all threads share move from one
            // processor to the next. Most layouts have no more slots than this.
            let mut flags = [false; SLOTS as usize];
            count_marked(rt, keeper, layout, &mut flags, held, writes);
        } else {
            count_marked(rt, keeper, layout, written, held, writes);
        }
    }
}

// Counts one more commit, by a flag for each slot. No flag is set before it, and none after it. In
// between, a flag is set if the commit writes the slot and the loop has not reached it yet.
fn count_marked<J: Naming, W: Wait>(
    rt: &W,
    keeper: &mut Keeper<J>,
    layout: &Layout,
    flags: &mut [bool],
    held: &mut [Held<J>],
    writes: &Objects,
)
    requires layout { shape layout.now ≡ J.layout }
    requires none { AreNone flags.old }
    requires room { length flags.old ≡ J.layout.slots }
    requires apart { AreApart held.old }
    requires covered { HoldsSlots J.layout held.old writes.now }
    ensures counts { CountsWrites J.layout writes.now keeper.old keeper.new }
    ensures agree { Agree keeper.new held.new }
    ensures slots { slots_of held.new ≡ slots_of held.old }
    ensures none { AreNone flags.new }
    ensures room { length flags.new ≡ length flags.old }
{
    mark_writes(flags, layout, writes);
    for i in 0..held.len() {
        if unmark(flags, held[i].slot()) {
            keeper.touch(rt, &mut held[i]);
        } else {
            keeper.verify_token(rt, &mut held[i]);
        }
    }
}
