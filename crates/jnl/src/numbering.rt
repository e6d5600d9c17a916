// The number of an opening.

use std::io;
use std::random::RandomSource;

/// 64 random bits of the system, which tell an opening of a disk from the others.
///
/// # Errors
///
/// The system's reason, where it gives none. A clock is no substitute: two openings may have one
/// time.
pub fn opening_number<R: RandomSource>(rt: &R) -> io::Result<u64> {
    let mut bytes = [0u8; 8];
    rt.fill_bytes(&mut bytes)?;
    Ok(u64::from_be_bytes(bytes))
}
