// The moment of a call, as a time of the tree.
ghost use Rattle.std.specs.Prelude.{◌≡◌};
ghost use Rattle.journal_protocol.specs.Moments.{time_of};
ghost use Rattle.journal_tree.specs.Times.{IsTime};
ghost use Rattle.journal_treewire.specs.Values.{time_in};

use journal_tree::Time;
use journal_world::Moment;

// The time at this moment.
pub(crate) fn time_at(moment: Moment) -> Time
    ensures time { result ≡ time_in (time_of moment) }
    ensures fits { IsTime result }
{
    Time {
        secs: moment.secs,
        nanos: moment.nanos,
    }
}
