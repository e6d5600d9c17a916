// The work that a device call leaves due: values that only a hold of both parts consumes, because
// none of them can be dropped.
ghost use Rattle.std.specs.Prelude.{◌≡◌};

use journal_history::Naming;
use journal_memory::Cause;
use journal_world::{MapRule, Position, Refusal};
use std::marker::Model;

/// A device call failed, and memory does not know it yet. Only `Durable::note_fault` notes it there
/// and gives the refusal.
#[must_use]
pub struct UnnotedFault<'b, J: Naming, R: MapRule> {
    pub(crate) why: Refusal<Cause<'b, J, R>>,
}

impl<'b, J: Naming, R: MapRule> Model for UnnotedFault<'b, J, R> {
    ghost use Rattle.journal_world.specs.declared.refusal.Refusal.{Refusal};
    ghost use Rattle.journal_memory.specs.Causes.{CauseState};

    ghost Value = { Refusal CauseState };

    ghost view = { λ fault. fault.why };
}

/// Positions of the log that are free while memory still has their updates. `Durable::trim` drops
/// these.
#[must_use]
pub struct FreedLog {
    pub(crate) upto: Position,
}

impl Model for FreedLog {
    ghost use Rattle.std.specs.Prelude.{ℕ};

    ghost Value = { ℕ };

    ghost view = { λ freed. freed.upto };
}

impl FreedLog {
    /// The position up to which all are free.
    pub fn upto(&self) -> Position
        ensures { result ≡ self.now }
    {
        self.upto
    }
}

/// No group is in flight, so that a cut or a mark may be due. `Durable::mark_or_cut` does it.
#[must_use]
pub struct RestingLog {
    pub(crate) made: (),
}

/// The outcome of the logger's device call.
#[must_use]
pub enum LogCall {
    /// It was made, and the group's cycle goes on.
    Put,
    /// It was made, and the group's cycle ended: the group is logged.
    Logged,
    /// None was due.
    AtRest(RestingLog),
}

/// The outcome of the installer's device call.
#[must_use]
pub enum InstallCall {
    /// None was due: all that is logged is at home.
    Idle,
    /// It was made.
    Put,
    /// It was made, and positions are free.
    Freed(FreedLog),
}

/// Why the installer's device call was not made.
#[must_use]
pub enum InstallFault<F> {
    /// Memory for the list of addresses was refused.
    NoMemory,
    /// The device failed.
    Failed(F),
}
