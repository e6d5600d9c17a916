// The logger and the installer, driven step by step.
ghost use Rattle.std.specs.Prelude.{◌≤◌, IfOk, IfErr};
ghost use Rattle.journal_script.specs.Clients.{IsStepRefusal};

use journal_disk::MemDisk;
use journal_history::Naming;
use journal_twophase::{Journal, JournalRefusal};
use journal_world::{AnyMap, Step};
use std::sync::Wait;

/// The actor of the steps.
#[derive(Clone, Copy)]
pub enum Actor {
    Logger,
    Installer,
    /// The logger, or the installer if that one is idle, until all commits are marked as stable.
    Waiter,
}

/// Makes steps of the actor until it has nothing to do, at most `most`. Answers how many of them
/// moved.
///
/// # Errors
/// - The refusal of a step. The steps before it are made.
pub fn drive<'b, J: Naming, W: Wait>(
    rt: &W,
    journal: &Journal<'b, MemDisk, AnyMap, J>,
    actor: Actor,
    most: u64,
) -> Result<u64, JournalRefusal<'b, J, AnyMap>>
    ensures moved { IfOk result (λ moved. moved ≤ most) }
    ensures refusal { IfErr result (IsStepRefusal actor) }
{
    for moved in 0..most {
        if let Step::Idle = step(rt, journal, actor)? {
            return Ok(moved);
        }
    }
    Ok(most)
}

// The actor's next step.
fn step<'b, J: Naming, W: Wait>(
    rt: &W,
    journal: &Journal<'b, MemDisk, AnyMap, J>,
    actor: Actor,
) -> Result<Step, JournalRefusal<'b, J, AnyMap>>
    ensures { IfErr result (IsStepRefusal actor) }
{
    match actor {
        Actor::Logger => journal.log_step(rt),
        Actor::Installer => journal.install_step(rt),
        Actor::Waiter => wait_step(rt, journal),
    }
}

// The logger's next step if not all commits are marked, or the installer's if the logger waits for
// room in the log.
fn wait_step<'b, J: Naming, W: Wait>(
    rt: &W,
    journal: &Journal<'b, MemDisk, AnyMap, J>,
) -> Result<Step, JournalRefusal<'b, J, AnyMap>>
    ensures { IfErr result (IsStepRefusal Actor.Waiter) }
{
    let stat = journal.stat(rt);
    if stat.floor == stat.commits {
        return Ok(Step::Idle);
    }
    match journal.log_step(rt)? {
        Step::Moved => Ok(Step::Moved),
        Step::Idle => journal.install_step(rt),
    }
}
