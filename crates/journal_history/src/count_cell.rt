// A cell of counts, of which each number has one: its rule, and its kinds of step. A journal has one
// for its sessions, and one for its slots.
use atomic_table::{Join, Split};
use crossbeam_utils::atomic::seq_cell::{Pass, RuledSeqCell};
use crossbeam_utils::rule::{Outcome, Protocol};
use std::collections::LinkedList;

/// The knowledge of a pass. The keeper knows the count of each number, and a token knows that of its
/// own. No value of this type is made.
pub struct View {
    /// True if it is the keeper: its `counts` are those of the numbers from 0 on.
    pub keeps: bool,
    pub counts: LinkedList<u64>,
    /// True if it has a token: that of this `number`, which has this `count`.
    pub has: bool,
    pub number: u64,
    pub count: u64,
}

// The cell's one word has no content: the passes have all the knowledge. A ledger is named by a
// type, so one for each number could not be in one table.
/// The rule: one pass at most is the keeper, each token agrees with it, and no number has two
/// tokens.
pub struct Counted;

impl Protocol<[u64; 1], View> for Counted {
    ghost use Rattle.journal_history.specs.Counts.{first as first_view, Kept};

    ghost holds = { Kept };

    ghost first = { first_view };
}

/// A pass is verified at the cell.
pub struct Verify;

impl Outcome<[u64; 1], View> for Verify {
    ghost use Rattle.journal_history.specs.Counts.{Verifies};

    ghost then = { Verifies };
}

/// The count of a number rises by one.
pub struct Touch;

impl Outcome<[u64; 1], View> for Touch {
    ghost use Rattle.journal_history.specs.Counts.{Touches};

    ghost then = { Touches };
}

/// Gives numbers without a token, up to the one that is written.
pub struct Raise;

impl Outcome<[u64; 1], View> for Raise {
    ghost use Rattle.journal_history.specs.Counts.{Raises};

    ghost then = { Raises };
}

/// Gives the next number, with its token.
pub struct Make;

impl Split<View> for Make {
    ghost use Rattle.std.specs.Prelude.{◌++◌, ◌∷◌, [], length};
    ghost use Rattle.journal_history.specs.Counts.{keeper, token};

    ghost left = { λ v. keeper (v.counts ++ 0 ∷ []) };

    ghost right = { λ v. token (length v.counts) 0 };
}

/// Makes a pass that knows nothing.
pub struct Spare;

impl Split<View> for Spare {
    ghost use Rattle.journal_history.specs.Counts.{keeper, nobody};

    ghost left = { λ v. keeper v.counts };

    ghost right = { λ v. nobody };
}

/// Takes a token in, or splits it off.
pub struct Off;

impl Split<View> for Off {
    ghost use Rattle.journal_history.specs.Counts.{keeper, token};

    ghost left = { λ v. keeper v.counts };

    ghost right = { λ v. token v.number v.count };
}

impl Join<View> for Off {
    ghost use Rattle.journal_history.specs.Counts.{holder, nobody};

    ghost both = { λ v w. holder v.counts w.number w.count };

    ghost spent = { nobody };
}

/// The cell. Its one word has no meaning: the passes' views have all that is known of the counts.
pub type CountCell = RuledSeqCell<[u64; 1], View, Counted, 1>;

/// A pass of the cell.
pub type CountPass = Pass<[u64; 1], View>;
