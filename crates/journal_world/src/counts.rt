// Numbers that must not be taken for one another: each counts something else.
ghost use Rattle.std.specs.Prelude.{◌≡◌, ◌+◌, ◌<◌, ◌^◌, max};

use std::marker::Model;

/// How many commits a history has, or how many of its first ones are meant. Contracts see the
/// number.
///
/// Not a position of the log, not a length of a history, which has other entries too, and not a
/// session's number.
#[derive(Clone, Copy, Debug, Default, PartialEq, Eq, PartialOrd, Ord)]
pub struct CommitCount(u64);

/// A place of the log, counted from the first one that a disk ever had. It rises for ever, and at
/// most 511 positions are used at a time. Contracts see the number.
///
/// Not a block number, not a count of commits.
#[derive(Clone, Copy, Debug, PartialEq, Eq, PartialOrd, Ord)]
pub struct Position(u64);

/// The number of a session: sessions are numbered in the order in which they begin. Contracts see
/// the number.
///
/// Not a count of commits, not a length of the history.
#[derive(Clone, Copy, Debug, PartialEq, Eq, PartialOrd, Ord)]
pub struct SessionNumber(u64);

/// The number of entries of a front of a history: its opening, commits, marks and fences. Contracts
/// see the number. It is greater than the number of the front's commits.
#[derive(Clone, Copy, Debug, PartialEq, Eq, PartialOrd, Ord)]
pub struct HistoryLength(u64);

impl Model for CommitCount {
    ghost use Rattle.std.specs.Prelude.{ℕ};

    ghost Value = { ℕ };

    ghost view = { λ commits. commits.0 };

    ghost inverse = { λ commits. record { 0 = commits } };
}

impl Model for Position {
    ghost use Rattle.std.specs.Prelude.{ℕ};

    ghost Value = { ℕ };

    ghost view = { λ position. position.0 };

    ghost inverse = { λ position. record { 0 = position } };
}

impl Model for SessionNumber {
    ghost use Rattle.std.specs.Prelude.{ℕ};

    ghost Value = { ℕ };

    ghost view = { λ number. number.0 };

    ghost inverse = { λ number. record { 0 = number } };
}

impl Model for HistoryLength {
    ghost use Rattle.std.specs.Prelude.{ℕ};

    ghost Value = { ℕ };

    ghost view = { λ entries. entries.0 };

    ghost inverse = { λ entries. record { 0 = entries } };
}

impl CommitCount {
    /// The count of this number.
    pub fn new(commits: u64) -> CommitCount
        ensures { result ≡ commits }
    {
        CommitCount(commits)
    }

    /// The number.
    pub fn get(self) -> u64
        ensures { result ≡ self }
    {
        self.0
    }

    /// One commit more.
    pub fn following(self) -> CommitCount
        requires { self + 1 < 2 ^ 64 }
        ensures { result ≡ self + 1 }
    {
        CommitCount(self.0 + 1)
    }
}

impl Position {
    /// The position of this number.
    pub fn new(number: u64) -> Position
        ensures { result ≡ number }
    {
        Position(number)
    }

    /// The number.
    pub fn get(self) -> u64
        ensures { result ≡ self }
    {
        self.0
    }
}

impl SessionNumber {
    /// The session of this number.
    pub fn new(number: u64) -> SessionNumber
        ensures { result ≡ number }
    {
        SessionNumber(number)
    }

    /// The number.
    pub fn get(self) -> u64
        ensures { result ≡ self }
    {
        self.0
    }

    /// The next session's number.
    pub fn following(self) -> SessionNumber
        requires { self < 2 ^ 62 }
        ensures { result ≡ self + 1 }
    {
        SessionNumber(self.0 + 1)
    }

    /// This number if it is above the other one, else the number after the other one.
    pub fn past(self, taken: SessionNumber) -> SessionNumber
        requires { taken < 2 ^ 62 }
        ensures { result ≡ max self (taken + 1) }
    {
        SessionNumber(self.0.max(taken.0 + 1))
    }
}

impl HistoryLength {
    /// The length of this many entries.
    pub fn new(entries: u64) -> HistoryLength
        ensures { result ≡ entries }
    {
        HistoryLength(entries)
    }

    /// The length with one entry more.
    pub fn following(self) -> HistoryLength
        requires { self < 2 ^ 62 }
        ensures { result ≡ self + 1 }
    {
        HistoryLength(self.0 + 1)
    }
}
