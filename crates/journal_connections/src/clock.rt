// Moments in milliseconds.

use std::time::Clock;

// The time of the clock in milliseconds, or 0 where it cannot be read.
pub(crate) fn millis<R: Clock>(rt: &R) -> u64 {
    match rt.monotonic() {
        Ok(time) => time
            .as_secs()
            .saturating_mul(1000)
            .saturating_add(u64::from(time.subsec_millis())),
        Err(_) => 0,
    }
}
