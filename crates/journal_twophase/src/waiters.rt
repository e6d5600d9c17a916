// The threads that wait for a mark, counted.
ghost use Rattle.std.specs.Prelude.{◌≡◌, ◌≤◌, ◌+◌, ◌-◌, ◌^◌, ◌<◌, ◌↔◌, ◌⊎◌, IsTrue};
ghost use Rattle.journal_twophase.specs.declared.waiters.TheConstants.{FEW};

use journal_world::CommitCount;

// The most threads that are few: one of them may make the logger's steps for all, and each may try
// for the lock for a while once a mark wakes it. Of more threads, the last has its own work to do
// beside those steps, and more threads that try keep the lock's word from its holder. With 12
// sixteen threads made 0.98 times as many commits as by the logger alone, with 24 1.05.
pub(crate) const FEW: u64 = 24;

// How many threads sleep until a mark is made, and how many a mark woke that have not had the lock
// again.
//
// A thread is counted in before it sleeps, and out once it has the lock again. One that makes the
// logger's steps meanwhile is counted as if it slept. A spurious wake may be counted out in place
// of a real one; the totals still balance.
//
// Threads that a mark woke are likely to commit again at once. So as many are awaited until a group
// is cut: until as many sleep again, or as many commits have come. One thread may make several
// commits before it sleeps. Then there is enough for a group too.
#[derive(Default, Drop)]
pub(crate) struct MarkWaiters {
    asleep: u64,
    woken: u64,
    awaited: u64,
    // How many threads the last mark woke.
    last: u64,
    // The group is full once the history has this many commits.
    enough: CommitCount,
}

impl MarkWaiters {
    // Counts a thread in that is about to sleep, or to make the logger's steps.
    pub(crate) fn add(&mut self)
        ensures asleep { self.old.asleep + 1 < 2 ^ 64 → self.new.asleep ≡ self.old.asleep + 1 }
        ensures woken { self.new.woken ≡ self.old.woken }
        ensures others { (self.new.awaited ≡ self.old.awaited) × (self.new.enough ≡ self.old.enough) × (self.new.last ≡ self.old.last) }
    {
        self.asleep = self.asleep.saturating_add(1);
    }

    // A mark wakes all sleepers. As many commits are expected from now on.
    pub(crate) fn wake(&mut self, commits: CommitCount)
        ensures asleep { self.new.asleep ≡ 0 }
        ensures awaited { (self.new.awaited ≡ self.old.asleep) × (self.new.last ≡ self.old.asleep) }
        ensures enough { commits + self.old.asleep < 2 ^ 64 → self.new.enough ≡ commits + self.old.asleep }
        ensures woken { self.old.woken + self.old.asleep < 2 ^ 64 → self.new.woken ≡ self.old.woken + self.old.asleep }
    {
        self.woken = self.woken.saturating_add(self.asleep);
        self.awaited = self.asleep;
        self.last = self.asleep;
        self.enough = CommitCount::new(commits.get().saturating_add(self.asleep));
        self.asleep = 0;
    }

    // A group was cut. No thread is awaited: those that sleep from now on wait for the next group.
    pub(crate) fn cut(&mut self)
        ensures awaited { (self.new.awaited ≡ 0) × (self.new.enough ≡ 0) }
        ensures others { (self.new.asleep ≡ self.old.asleep) × (self.new.woken ≡ self.old.woken) × (self.new.last ≡ self.old.last) }
    {
        self.awaited = 0;
        self.enough = CommitCount::new(0);
    }

    // True while neither `awaited` threads sleep nor `enough` commits have come.
    pub(crate) fn should_delay(&self, commits: CommitCount) -> bool
        ensures { IsTrue result ↔ (self.now.asleep < self.now.awaited × commits < self.now.enough) }
    {
        self.asleep < self.awaited && commits < self.enough
    }

    // True if so few threads are awaited that the last of them may make the logger's steps.
    pub(crate) fn may_be_led(&self) -> bool
        ensures { IsTrue result ↔ (self.now.awaited ≤ FEW) }
    {
        self.awaited <= FEW
    }

    // True if few threads sleep, and few did at the last mark, so that each may try for the lock
    // for a while once the next mark wakes it.
    pub(crate) fn are_few(&self) -> bool
        ensures { IsTrue result ↔ (self.now.asleep ≤ FEW × self.now.last ≤ FEW) }
    {
        self.asleep <= FEW && self.last <= FEW
    }

    // True if more than one thread sleeps, or is awaited.
    pub(crate) fn are_several(&self) -> bool
        ensures { IsTrue result ↔ (1 < self.now.asleep ⊎ 1 < self.now.awaited) }
    {
        self.asleep > 1 || self.awaited > 1
    }

    // True if no thread sleeps.
    pub(crate) fn are_none(&self) -> bool
        ensures { IsTrue result ↔ (self.now.asleep ≡ 0) }
    {
        self.asleep == 0
    }

    // Counts a thread out that has the lock again.
    pub(crate) fn remove(&mut self)
        ensures woken { self.new.woken ≡ self.old.woken - 1 }
        ensures asleep { self.old.woken ≡ 0 → self.new.asleep ≡ self.old.asleep - 1 }
        ensures same { 0 < self.old.woken → self.new.asleep ≡ self.old.asleep }
        ensures others { (self.new.awaited ≡ self.old.awaited) × (self.new.enough ≡ self.old.enough) × (self.new.last ≡ self.old.last) }
    {
        match self.woken.checked_sub(1) {
            Some(woken) => self.woken = woken,
            None => self.asleep = self.asleep.saturating_sub(1),
        }
    }
}
