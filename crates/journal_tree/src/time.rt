// Times of nodes, and how the time of a change grows.
ghost use Rattle.std.specs.Prelude.{◌≡◌};
ghost use Rattle.journal_tree.specs.Times.{IsTime, is_before, following, time_of_change};

/// How many nanoseconds a second has.
pub const NANOS: u32 = 1000000000;

/// The last second of a time.
pub const LAST_SECOND: u32 = 4294967295;

/// A time of a node.
#[derive(Clone, Copy, Debug, PartialEq, Eq)]
pub struct Time {
    /// Seconds since the beginning of 1970.
    pub secs: u32,
    /// Nanoseconds of the second that has begun. Of a node's times they are below `NANOS`.
    pub nanos: u32,
}

impl Time {
    /// True if it is before another.
    pub fn is_before(self, other: Time) -> bool
        ensures { result ≡ is_before self other }
    {
        self.secs < other.secs || self.secs == other.secs && self.nanos < other.nanos
    }

    /// The time one nanosecond later. The greatest time stays.
    pub fn following(self) -> Time
        requires { IsTime self }
        ensures time { result ≡ following self }
        ensures fits { IsTime result }
    {
        if self.nanos + 1 < NANOS {
            return Time {
                secs: self.secs,
                nanos: self.nanos + 1,
            };
        }
        if self.secs < LAST_SECOND {
            return Time {
                secs: self.secs + 1,
                nanos: 0,
            };
        }
        self
    }

    /// The time of a change of a node that was last changed at this time, where the clock shows
    /// `now`. It is after the last change, also where the clock stands or went back.
    pub fn of_change(self, now: Time) -> Time
        requires last { IsTime self }
        requires now { IsTime now }
        ensures time { result ≡ time_of_change self now }
        ensures fits { IsTime result }
    {
        if self.is_before(now) {
            now
        } else {
            self.following()
        }
    }
}
