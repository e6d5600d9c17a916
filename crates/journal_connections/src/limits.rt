// How many files the system lets this program have open.

use libc::types::rlimit;

/// How many files this program may have open at once, or `None` where the system does not say.
pub fn file_numbers() -> Option<u64> {
    let mut limit = rlimit {
        rlim_cur: 0,
        rlim_max: 0,
    };
    if libc::getrlimit(libc::RLIMIT_NOFILE, &mut limit) != 0 {
        return None;
    }
    Some(limit.rlim_cur)
}
