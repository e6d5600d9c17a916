// Facts of the history that a caller is given and can keep.
ghost use Rattle.std.specs.Prelude.{◌≡◌, ◌+◌, ◌≤◌, take};
ghost use Rattle.journal_world.specs.Histories.{count, floor};
ghost use Rattle.journal_history.specs.Tokens.{IsCommitAt};

use crate::book::Naming;
use crate::front::Front;
use journal_world::{CommitCount, MapRule};
use std::fmt;
use std::fmt::Debug;
use std::marker::Model;

/// The place of a commit in the history. Contracts see a front, the place in it, and the count of
/// commits.
#[derive(Drop)]
pub struct Receipt<'b, J: Naming, R: MapRule> {
    front: Front<'b, J, R>,
    place: u64,
    commits: CommitCount,
}

impl<'b, J: Naming, R: MapRule> Model for Receipt<'b, J, R> {
    ghost use Rattle.journal_history.specs.Tokens.{CommitPlace, IsReceipt};

    ghost Value = { CommitPlace };

    ghost view = { λ r. record { front = r.front; place = r.place; count = r.commits } };

    ghost invariant = { λ r. IsReceipt (record { front = r.front; place = r.place; count = r.commits }) };
}

impl<'b, J: Naming, R: MapRule> Receipt<'b, J, R> {
    // The receipt of a commit at the end of this front, with this many commits up to it.
    pub(crate) fn new(
        front: &Front<'b, J, R>,
        place: u64,
        commits: CommitCount,
    ) -> Receipt<'b, J, R>
        requires stands { IsCommitAt front.now place }
        requires counted { commits ≡ count (take (place + 1) front.now) }
        ensures { result ≡ record { front = front.now; place = place; count = commits } }
    {
        Receipt {
            front: front.again(),
            place,
            commits,
        }
    }

    /// The commit's index in the history, whose opening has 0.
    pub fn place(&self) -> u64
        ensures place { result ≡ self.now.place }
        ensures stands { IsCommitAt self.now.front result }
    {
        self.place
    }

    /// The number of commits up to it, itself included.
    pub fn count(&self) -> CommitCount
        ensures count { result ≡ self.now.count }
        ensures commits { result ≡ count (take (self.now.place + 1) self.now.front) }
    {
        self.commits
    }

    /// The history that it is in.
    pub fn front(&self) -> Front<'b, J, R>
        ensures { result ≡ self.now.front }
    {
        self.front.again()
    }
}

/// A note that the first n commits are stable. Contracts see a front and the count n, which its
/// greatest mark covers.
#[derive(Drop)]
pub struct StableNote<'b, J: Naming, R: MapRule> {
    seen: Front<'b, J, R>,
    stable: CommitCount,
}

impl<'b, J: Naming, R: MapRule> Model for StableNote<'b, J, R> {
    ghost use Rattle.std.specs.Prelude.{◌≤◌};
    ghost use Rattle.journal_world.specs.Histories.{floor};
    ghost use Rattle.journal_history.specs.Tokens.{StableCount};

    ghost Value = { StableCount };

    ghost view = { λ n. record { front = n.seen; count = n.stable } };

    ghost invariant = { λ n. n.stable ≤ floor n.seen };
}

impl<'b, J: Naming, R: MapRule> StableNote<'b, J, R> {
    /// A note of how many commits the front's greatest mark covers.
    pub fn new(front: &Front<'b, J, R>, commits: CommitCount) -> StableNote<'b, J, R>
        requires { commits ≤ floor front.now }
        ensures { result ≡ record { front = front.now; count = commits } }
    {
        StableNote {
            seen: front.again(),
            stable: commits,
        }
    }

    /// How many commits are stable.
    pub fn count(&self) -> CommitCount
        ensures count { result ≡ self.now.count }
        ensures stable { result ≤ floor self.now.front }
    {
        self.stable
    }

    /// A history that has the mark.
    pub fn front(&self) -> Front<'b, J, R>
        ensures { result ≡ self.now.front }
    {
        self.seen.again()
    }
}

impl<'b, J: Naming, R: MapRule> Debug for Receipt<'b, J, R> {
    fn fmt<W: fmt::Write>(&self, f: &mut fmt::Formatter<W>) -> fmt::Result {
        f.debug_struct("Receipt")
            .field("place", &self.place)
            .field("count", &self.commits.get())
            .finish_non_exhaustive()
    }
}

impl<'b, J: Naming, R: MapRule> Debug for StableNote<'b, J, R> {
    fn fmt<W: fmt::Write>(&self, f: &mut fmt::Formatter<W>) -> fmt::Result {
        f.debug_struct("StableNote")
            .field("count", &self.stable.get())
            .finish_non_exhaustive()
    }
}
