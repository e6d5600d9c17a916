// The two threads.
ghost use Rattle.std.specs.Prelude.{IsOkUnless};

use crate::steps::{INSTALLER, LOGGER, OneStep, run};
use journal_disk::BlockDisk;
use journal_gate::Gate;
use journal_history::Naming;
use journal_memory::Cause;
use journal_twophase::{Journal, JournalRefusal};
use journal_world::{MapRule, Refusal, Step};
use std::rt::Clock;
use std::sync::Wait;
use std::thread;
use std::thread::Threads;

// A journal, whose logger makes the steps.
struct Logger<'j, 'b, D: BlockDisk, R: MapRule, J: Naming> {
    journal: &'j Journal<'b, D, R, J>,
}

impl<'j, 'b, D: BlockDisk, R: MapRule, J: Naming> Drop for Logger<'j, 'b, D, R, J> {
    fn drop(self) {
        let Logger { journal: _ } = self;
    }
}

impl<'j, 'b, D: BlockDisk, R: MapRule, J: Naming> OneStep for Logger<'j, 'b, D, R, J> {
    type Cause = Cause<'b, J, R>;

    fn step<W: Wait + Clock>(&self, rt: &W) -> Result<Step, Refusal<Cause<'b, J, R>>> {
        self.journal.log_step_grouped(rt)
    }

    fn idle<W: Wait>(&self, rt: &W) {
        self.journal.await_log_work(rt);
    }
}

// A journal, whose installer makes the steps. It is lazy: an eager one would take every second pair
// of barriers from the logger, but positions are needed only once the log is past its threshold.
struct Installer<'j, 'b, D: BlockDisk, R: MapRule, J: Naming> {
    journal: &'j Journal<'b, D, R, J>,
}

impl<'j, 'b, D: BlockDisk, R: MapRule, J: Naming> Drop for Installer<'j, 'b, D, R, J> {
    fn drop(self) {
        let Installer { journal: _ } = self;
    }
}

impl<'j, 'b, D: BlockDisk, R: MapRule, J: Naming> OneStep for Installer<'j, 'b, D, R, J> {
    type Cause = Cause<'b, J, R>;

    fn step<W: Wait + Clock>(&self, rt: &W) -> Result<Step, Refusal<Cause<'b, J, R>>> {
        self.journal.install_past_threshold(rt)
    }

    fn idle<W: Wait>(&self, rt: &W) {
        self.journal.await_install_work(rt);
    }
}

/// Runs a logger and an installer for the journal, each in a thread of its own, and returns when
/// both have ended: after `Journal::stop`, or once a step of each was refused by another refusal
/// than J1. A step that J1 refuses is tried again. The logger passes the gate as `LOGGER`, the
/// installer as `INSTALLER`. The clock is used only for the time that the logger lets a group grow
/// (`Journal::log_step_grouped`).
///
/// # Errors
/// - `J1 NoMemory`: a thread was refused. The journal is then stopped, and a thread that was made
///   has ended.
pub fn start<
    'b,
    D: BlockDisk + Send,
    R: MapRule + Send + Sync,
    J: Naming + Send + Sync,
    G: Gate + Sync,
    H: Threads + Wait + Clock + Sync,
>(rt: &H, journal: &Journal<'b, D, R, J>, gate: &G) -> Result<(), JournalRefusal<'b, J, R>>
    ensures { IsOkUnless result Refusal.NoMemory }
{
    let refused = thread::scope(thread::scope_env(), rt, |scope| {
        let logger = scope
            .spawn(move || run(rt, &Logger { journal }, gate, LOGGER))
            .is_err();
        let installer = scope
            .spawn(move || run(rt, &Installer { journal }, gate, INSTALLER))
            .is_err();
        if logger || installer {
            journal.stop(rt);
        }
        logger || installer
    });
    if refused {
        return Err(Refusal::NoMemory);
    }
    Ok(())
}
