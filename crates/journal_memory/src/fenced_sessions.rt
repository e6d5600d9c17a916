// The sessions that are fenced.
ghost use Rattle.std.specs.Prelude.{◌≡◌, ◌<◌, ◌≤◌, ◌^◌, [], OnOk};
ghost use Rattle.journal_memory.specs.Sessions.{is_in_run, is_in_runs, HasSpareRun, TakesBelow, TakesAbove, NotesFence};

use journal_world::SessionNumber;
use std::alloc::{AllocError, Global};
use std::marker::Model;

// Numbers rise, and a session is fenced at its end, so nearly all are one run. The runs are
// searched from the first on, because there are about as many as open sessions. Room for one more
// is made before the exchange, so that nothing fails after it.
/// The numbers of the sessions that are fenced, as runs of numbers that follow one another.
///
/// Sessions get rising numbers, and one that ended is fenced. So nearly all that were ever fenced
/// are one run. There are about as many runs as sessions that are not fenced, however many sessions
/// there were.
#[derive(Drop)]
pub(crate) struct FencedSessions {
    runs: Vec<Run>,
}

/// The numbers from `first` up to `end`, which is not one of them.
#[derive(Drop)]
pub(crate) struct Run {
    pub(crate) first: SessionNumber,
    pub(crate) end: SessionNumber,
}

impl Run {
    // True if the number is one of them.
    fn has(&self, session: SessionNumber) -> bool
        ensures { result ≡ is_in_run self.now session }
    {
        self.first <= session && session < self.end
    }
}

impl Model for FencedSessions {
    ghost use Rattle.std.specs.Prelude.{◌-◌, length};
    ghost use Rattle.std.specs.Vec.{vec_capacity};
    ghost use Rattle.journal_memory.specs.Sessions.{FencedState};

    ghost Value = { FencedState };

    ghost view = { λ f. record { runs = f.runs.items; spare = vec_capacity f.runs - length f.runs.items } };
}

impl FencedSessions {
    /// No session. The call takes no memory.
    pub(crate) fn new(alloc: Global) -> FencedSessions
        ensures { result.runs ≡ [] }
    {
        FencedSessions {
            runs: Vec::new(alloc),
        }
    }

    /// True if the session is fenced.
    pub(crate) fn has(&self, session: SessionNumber) -> bool
        ensures { result ≡ is_in_runs self.now.runs session }
    {
        for run in self.runs.iter() {
            if run.has(session) {
                return true;
            }
        }
        false
    }

    /// Makes a place, so that `insert` takes no memory.
    ///
    /// # Errors
    /// - Memory is refused. All is as it was.
    pub(crate) fn reserve(&mut self) -> Result<(), AllocError>
        ensures same { self.new.runs ≡ self.old.runs }
        ensures place { OnOk result (HasSpareRun self.new) }
    {
        self.runs.reserve(1)
    }

    /// Adds the session to the fenced ones, in the place that `reserve` made. The runs beside it
    /// become one with it.
    pub(crate) fn insert(&mut self, session: SessionNumber)
        requires place { HasSpareRun self.old }
        requires small { session < 2 ^ 62 }
        ensures { NotesFence session self.old.runs self.new.runs }
    {
        let first = self.take_below(session);
        let end = self.take_above(session);
        self.runs.push_reserved(Run { first, end });
    }

    // Takes out the run that ends just below the session, and returns its beginning. If there is
    // none, returns the session.
    fn take_below(&mut self, session: SessionNumber) -> SessionNumber
        ensures first { result ≤ session }
        ensures takes { TakesBelow session result self.old.runs self.new.runs }
        ensures place { self.old.spare ≤ self.new.spare }
    {
        for index in 0..self.runs.len() {
            let (first, end) = (self.runs[index].first, self.runs[index].end);
            if end == session && first < session {
                self.runs.remove(index);
                return first;
            }
        }
        session
    }

    // Takes out the run that begins just above the session, and returns its end. If there is none,
    // returns the number after the session.
    fn take_above(&mut self, session: SessionNumber) -> SessionNumber
        requires small { session < 2 ^ 62 }
        ensures end { session < result }
        ensures takes { TakesAbove session result self.old.runs self.new.runs }
        ensures place { self.old.spare ≤ self.new.spare }
    {
        for index in 0..self.runs.len() {
            let (first, end) = (self.runs[index].first, self.runs[index].end);
            if first == session.following() && first < end {
                self.runs.remove(index);
                return end;
            }
        }
        session.following()
    }
}
