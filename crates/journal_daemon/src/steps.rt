// The repeated steps of a thread of the daemon.
use journal_gate::Gate;
use journal_world::{Refusal, Step};
use std::rt::Clock;
use std::sync::Wait;

/// The logger's number at a gate.
pub const LOGGER: u64 = 0;
/// The installer's number at a gate.
pub const INSTALLER: u64 = 1;

/// An action that is repeated, a step at a time.
pub trait OneStep {
    /// The cause in a refusal.
    type Cause: Drop;

    /// Makes the next step, or is idle if there is none.
    fn step<W: Wait + Clock>(&self, rt: &W) -> Result<Step, Refusal<Self::Cause>>;

    /// Is called after an idle step, and may wait until there is something to do.
    fn idle<W: Wait>(&self, rt: &W);
}

// Makes steps, each after the gate, until one is refused for another reason than memory. If memory
// was refused the step is tried again.
pub(crate) fn run<S: OneStep, G: Gate, W: Wait + Clock>(rt: &W, steps: &S, gate: &G, who: u64) {
    let mut n: u64 = 0;
    for _ in rt.forever() {
        gate.pass(rt, who, n);
        n = n.saturating_add(1);
        match steps.step(rt) {
            Ok(Step::Moved) | Err(Refusal::NoMemory) => {}
            Ok(Step::Idle) => steps.idle(rt),
            Err(_) => return,
        }
    }
}
