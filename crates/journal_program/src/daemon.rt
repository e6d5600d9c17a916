// The daemon beside a program.

use journal_daemon::{Gate, LOGGER, start};
use journal_disk::BlockDisk;
use journal_history::Naming;
use journal_twophase::Journal;
use journal_world::{MapRule, Refusal, Step};
use std::rt::Clock;
use std::sync::{Condvar, Mutex, Wait};
use std::thread::Threads;

// How many of the daemon's threads have come to their first step, and whether it has ended.
#[derive(Default, Drop)]
struct Progress {
    running: u64,
    has_ended: bool,
}

/// The daemon of a journal: the logger and the installer, and how far they are. As their gate it
/// counts the threads that run, and stops none of them.
#[derive(Drop)]
pub struct Daemon {
    // How many threads it has. With one alone there is no installer.
    threads: u64,
    progress: Mutex<Progress>,
    changed: Condvar,
}

impl Gate for Daemon {
    fn pass<W: Wait>(&self, rt: &W, _who: u64, n: u64) {
        if n == 0 {
            let mut progress = self.progress.lock(rt);
            progress.running = progress.running.saturating_add(1);
            self.changed.notify_all();
        }
    }
}

impl Daemon {
    /// A logger and an installer, of which neither runs.
    pub fn new() -> Daemon {
        Daemon::with_threads(2)
    }

    /// A logger alone, which does not run: for a journal whose commits write nothing. So it makes
    /// no device call, and no installer brings home what the log had.
    pub fn without_installer() -> Daemon {
        Daemon::with_threads(1)
    }

    // So many threads, of which none runs.
    fn with_threads(threads: u64) -> Daemon {
        Daemon {
            threads,
            progress: Mutex::new(Progress::default()),
            changed: Condvar::new(),
        }
    }

    /// Runs the daemon until the journal is stopped or its device fails.
    pub fn run<
        'b,
        D: BlockDisk + Send,
        M: MapRule + Send + Sync,
        J: Naming + Send + Sync,
        R: Threads + Wait + Clock + Sync,
    >(&self, rt: &R, journal: &Journal<'b, D, M, J>) {
        if self.threads == 1 {
            self.run_logger(rt, journal);
        } else {
            // That a thread was refused shows in how many came to a step.
            let _ = start(rt, journal, self);
        }
        self.progress.lock(rt).has_ended = true;
        self.changed.notify_all();
    }

    // Runs the logger in this thread, as `start` does in one of its own.
    fn run_logger<'b, D: BlockDisk, M: MapRule, J: Naming, R: Wait + Clock>(
        &self,
        rt: &R,
        journal: &Journal<'b, D, M, J>,
    ) {
        self.pass(rt, LOGGER, 0);
        for _ in rt.forever() {
            match journal.log_step_grouped(rt) {
                Ok(Step::Moved) | Err(Refusal::NoMemory) => {}
                Ok(Step::Idle) => journal.await_log_work(rt),
                Err(_) => return,
            }
        }
    }

    /// Waits until its threads run. `false` says that one was refused.
    pub fn is_running<W: Wait>(&self, rt: &W) -> bool {
        let mut progress = self.progress.lock(rt);
        for _ in rt.forever() {
            let is_running = progress.running >= self.threads;
            if is_running || progress.has_ended {
                return is_running;
            }
            progress = self.changed.wait(rt, progress);
        }
        unreachable!()
    }
}
