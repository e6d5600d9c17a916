// A flag that may be read without a lock.
use std::sync::atomic::{AtomicBool, Ordering};

// The last written state of a flag that a lock guards. A thread that reads it need not take the
// lock only to find that there is nothing to do. No proof speaks of it, because it may be late. So
// nothing is answered from it alone. If it says that there may be something, the lock is taken and
// the state itself is read.
#[derive(Drop)]
pub(crate) struct Hint {
    word: AtomicBool,
}

impl Hint {
    // A flag that is not set.
    pub(crate) fn new() -> Hint {
        Hint {
            word: AtomicBool::new(false),
        }
    }

    pub(crate) fn set(&self, to: bool) {
        self.word.store(to, Ordering::SeqCst);
    }

    pub(crate) fn is_set(&self) -> bool {
        self.word.load(Ordering::SeqCst)
    }
}
