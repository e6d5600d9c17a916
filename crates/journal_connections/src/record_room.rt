// Room for long records that have begun to come.

use crate::load::Load;
use std::sync::{Condvar, Mutex, Wait};
use std::time::{Clock, Duration};

// How many connections may have a long record begun at once. One takes at most 2 MiB and a piece of
// 128 KiB, and of those of 64 workers that have none each at most two pieces: so all of them take
// less than 64 MiB.
const LONG_RECORDS: u64 = 22;

// For how many milliseconds it is waited before it is looked whether the service has ended.
const LOOK_MILLIS: u64 = 250;

// Who comes first has room first.
struct Places {
    free: u64,
    // The number of the next one to come, and of the one that has room next.
    next: u64,
    first: u64,
}

impl Drop for Places {
    fn drop(self) {
        let Places {
            free: _,
            next: _,
            first: _,
        } = self;
    }
}

// The room for long records that all connections share.
#[derive(Drop)]
pub(crate) struct RecordRoom {
    places: Mutex<Places>,
    changed: Condvar,
}

impl RecordRoom {
    // No long record has begun.
    pub fn new() -> RecordRoom {
        RecordRoom {
            places: Mutex::new(Places {
                free: LONG_RECORDS,
                next: 0,
                first: 0,
            }),
            changed: Condvar::new(),
        }
    }

    // Waits for room for a long record. `false` says that the service has ended.
    pub fn take<R: Clock + Wait>(&self, rt: &R, load: &Load) -> bool {
        let mut places = self.places.lock(rt);
        let mine = places.next;
        places.next = mine.wrapping_add(1);
        for _ in rt.forever() {
            if load.has_ended() {
                return false;
            }
            if places.first == mine && places.free > 0 {
                places.first = mine.wrapping_add(1);
                places.free -= 1;
                self.changed.notify_all();
                return true;
            }
            let look = Duration::from_millis(LOOK_MILLIS);
            places = self.changed.wait_timeout(rt, places, look).0;
        }
        unreachable!()
    }

    // Gives the room back.
    pub fn give_back<W: Wait>(&self, rt: &W) {
        let mut places = self.places.lock(rt);
        places.free = places.free.saturating_add(1);
        self.changed.notify_all();
    }
}
