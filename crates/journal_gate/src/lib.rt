//! A gate that a thread passes before each of its steps, so that a test can hold it there.
#![tactic(auto)]

use std::sync::Wait;

/// A gate that a thread passes before each of its steps.
pub trait Gate {
    /// Lets the thread `who` make its step number `n`, counted from 0. It may wait.
    fn pass<W: Wait>(&self, rt: &W, who: u64, n: u64);
}

/// A gate that holds nobody.
#[derive(Clone, Copy, Debug, Default, Drop)]
pub struct OpenGate;

impl Gate for OpenGate {
    fn pass<W: Wait>(&self, _rt: &W, _who: u64, _n: u64) {}
}
