// The logger's cycle: a group becomes durable, whole.
ghost use Rattle.std.specs.Prelude.{ℕ, ◌≡◌, ◌≤◌, ◌<◌, true, false, IsTrue, IsErr, OnOk, OnErr, IfOk, IfErr};
ghost use Rattle.journal_circ.specs.Ring.{IsFault};
ghost use Rattle.journal_wal.specs.Wal.{Crashes, Fails, LogAnswers, TriesDueCall, log_call};

use crate::disk_log::Logger;
use crate::step::GroupStep;
use crate::wal::Wal;
use journal_disk::BlockDisk;
use journal_world::Refusal;
use std::mem;

impl<D: BlockDisk> Wal<D> {
    // No cut here: a cut changes both parts, and is the core's. A group of k blocks is k + 3 calls,
    // and k + 5 steps of a journal with its cut and its mark. A sealed log takes one less.
    /// Makes the next step of the logger for the group that `take_reserved` took. It writes one of
    /// its log blocks, of a plain log makes a barrier, writes block 0, makes a barrier. For a group
    /// of k blocks these are k + 3 steps, and k + 2 of a sealed log. It is idle if no group is in
    /// flight.
    ///
    /// # Errors
    /// - `J6 DeviceFailed`: the device failed, in this call or before. The call that was due may
    ///   have been made, and no other.
    pub fn log_step(&mut self) -> Result<GroupStep, Refusal<()>>
        ensures refusal { IfErr result (IsFault self.old.ring.faulted self.old.ring.disk self.new.ring.disk) }
        ensures faulted { IsTrue self.old.ring.faulted → IsErr result × (self.new ≡ self.old) }
        ensures fine { OnOk result ((self.old.ring.faulted ≡ false) × (self.new.ring.faulted ≡ false)) }
        ensures ok { IfOk result (λ step. LogAnswers self.old step self.new) }
        ensures err { OnErr result (Fails self.old self.new) }
        ensures tries { OnErr result (TriesDueCall (log_call self.old) self.old.ring.disk self.new.ring.disk) }
        ensures crash { Crashes self.old self.new }
    {
        if self.on_disk.circ.is_faulted() {
            return Err(Refusal::DeviceFailed(()));
        }
        if !self.is_logging() {
            return Ok(GroupStep::Idle);
        }
        let bounds = self.memory.bounds();
        let circ = &mut self.on_disk.circ;
        let mut step = GroupStep::Put;
        let next = match mem::replace(&mut self.on_disk.logger, Logger::Spent) {
            Logger::Blocks(state) if circ.next() < bounds.cut => {
                let update = self.memory.at(circ.next());
                Logger::Blocks(circ.put_slot(state, update.block, &update.bytes)?)
            }
            Logger::Blocks(state) if circ.is_sealed() => Logger::EndPut(circ.put_group(state)?),
            Logger::Blocks(state) => Logger::Synced(circ.sync_slots(state)?),
            Logger::Synced(state) => Logger::EndPut(circ.put_end(state)?),
            Logger::EndPut(state) => {
                let state = circ.sync_end(state)?;
                self.memory.logged(circ.end());
                step = GroupStep::Logged;
                Logger::Blocks(state)
            }
            Logger::Spent => return Err(Refusal::DeviceFailed(())),
        };
        self.on_disk.logger = next;
        Ok(step)
    }
}
