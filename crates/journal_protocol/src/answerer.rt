// The answers to the calls of a connection.
use crate::clock::Clock;
use journal_gate::Gate;
use std::alloc::Global;
use std::sync::Wait;

/// The answers to the calls of one connection: by which protocol, at which moments, and after which
/// gate.
pub struct Answerer<'s, P, C: Clock, G: Gate> {
    /// The allocator.
    pub alloc: Global,
    /// The protocol.
    pub protocol: &'s P,
    /// The clock.
    pub clock: &'s C,
    /// The gate that each call passes first.
    pub gate: &'s G,
    /// The number under which the calls pass the gate.
    pub number: u64,
}

impl<'s, P, C: Clock, G: Gate> Drop for Answerer<'s, P, C, G> {
    fn drop(self) {
        let Answerer {
            alloc: _,
            protocol: _,
            clock: _,
            gate: _,
            number: _,
        } = self;
    }
}

// Passes the gate, with the number of calls before this one.
pub(crate) fn pass_gate<P, C: Clock, G: Gate, H: Wait>(
    rt: &H,
    answerer: &Answerer<'_, P, C, G>,
    before: u64,
) {
    answerer.gate.pass(rt, answerer.number, before);
}
