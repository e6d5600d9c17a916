// The system's clock, as moments.
ghost use Rattle.std.specs.Prelude.{◌≡◌, ◌++◌};
ghost use Rattle.std.specs.Int.{w32, to_be_bytes};

use journal_world::Moment;
use std::io::Write;
use std::time::{Clock, SystemTime, UNIX_EPOCH};

// A moment has the seconds modulo this.
const SECONDS: u64 = 1 << 32;

/// A clock that a service asks for its moments.
pub struct WallClock<'r, R: Clock>(pub &'r R);

impl<'r, R: Clock> Drop for WallClock<'r, R> {
    fn drop(self) {
        let WallClock(_) = self;
    }
}

impl<'r, R: Clock> journal_protocol::Clock for WallClock<'r, R> {
    ghost some_moment = { λ c. (record { secs = 0; nanos = 0 }, tt) };

    fn now(&self) -> Moment {
        now(self.0)
    }
}

// The moment where the clock cannot be read.
const UNKNOWN: Moment = Moment { secs: 0, nanos: 0 };

/// The moment now, or 0 where the clock cannot be read.
pub fn now<R: Clock>(rt: &R) -> Moment {
    read(rt).unwrap_or(UNKNOWN)
}

/// The moment now, of which a mount makes its verifier. Where the clock cannot be read it is 0, and
/// that is told, since two such mounts have one verifier.
pub fn moment_of_mount<R: Clock, E: Write>(rt: &R, faults: &mut E) -> Moment {
    match read(rt) {
        Some(moment) => moment,
        None => {
            // Where even this cannot be printed, there is nobody to tell.
            let _ = writeln!(faults, "cannot read the clock, so that all times are 0");
            UNKNOWN
        }
    }
}

// The moment now.
fn read<R: Clock>(rt: &R) -> Option<Moment> {
    let time = SystemTime::now(rt).ok()?;
    let since = time.duration_since(UNIX_EPOCH).ok()?;
    Moment::new((since.as_secs() % SECONDS) as u32, since.subsec_nanos())
}

/// The verifier of a mount at this moment: its seconds and its nanoseconds, each with the most
/// significant byte first.
pub fn verifier_of(moment: Moment) -> [u8; 8]
    ensures { result ≡ to_be_bytes w32 moment.secs ++ to_be_bytes w32 moment.nanos }
{
    let [a, b, c, d] = moment.secs.to_be_bytes();
    let [e, f, g, h] = moment.nanos.to_be_bytes();
    [a, b, c, d, e, f, g, h]
}
