// The durable part's device calls, as its log makes them. Their holds are in `holds.rt`.
ghost use Rattle.std.specs.Prelude.{◌≡◌, false, IsTrue, OnOk, OnErr, IfOk, IfErr};
ghost use Rattle.journal_wal.specs.Wal.{TriesDueCall, TriesAhead, log_call};
ghost use Rattle.journal_parts.specs.Durables.{Crashes, LogAnswers, InstallAnswers, IsCallRefusal, IsInstallRefusal, LeavesLog, disk_of, is_faulted};

use crate::durable::Durable;
use journal_disk::BlockDisk;
use journal_history::Naming;
use journal_memory::Cause;
use journal_wal::{GroupStep, InstallStep};
use journal_world::{MapRule, Refusal};

impl<'b, D: BlockDisk, R: MapRule, J: Naming> Durable<'b, D, R, J> {
    /// Makes the device call of the group in flight that is due. Answers `Idle` if no group is in
    /// flight.
    ///
    /// # Errors
    /// - `J6 DeviceFailed`: the device failed, in this call or before. The call that was due may
    ///   have been made, and no other.
    pub(crate) fn advance_log(&mut self) -> Result<GroupStep, Refusal<Cause<'b, J, R>>>
        ensures ok { IfOk result (λ step. LogAnswers self.old step self.new) }
        ensures fine { OnOk result ((is_faulted self.old ≡ false) × (is_faulted self.new ≡ false)) }
        ensures refusal { IfErr result (IsCallRefusal self.old self.new) }
        ensures left { OnErr result (LeavesLog self.old self.new) }
        ensures tries { OnErr result (TriesDueCall (log_call self.old.objects) (disk_of self.old) (disk_of self.new)) }
        ensures crash { Crashes self.old self.new }
    {
        let step = self.key.raise(self.objects.log.log_step())?;
        match step {
            GroupStep::Logged => {
                self.logged = self.coming;
                Ok(GroupStep::Logged)
            }
            step => Ok(step),
        }
    }

    /// Makes the installer's next device call: writes one home block from its last logged copy;
    /// makes a barrier; writes block 1; makes a barrier, after which the positions are free. It is
    /// idle if all that is logged is at home.
    ///
    /// # Errors
    /// - `J6 DeviceFailed`: the device failed, in this call or before. The call that was due may
    ///   have been made, and no other.
    /// - `J1 NoMemory`: memory for the list of addresses is refused, at the first of these calls.
    ///   All is as it was.
    pub(crate) fn advance_install(&mut self) -> Result<InstallStep, Refusal<Cause<'b, J, R>>>
        ensures ok { IfOk result (λ step. InstallAnswers self.old step self.new) }
        ensures fine { OnOk result ((is_faulted self.old ≡ false) × (is_faulted self.new ≡ false)) }
        ensures refusal { IfErr result (IsInstallRefusal self.old self.new) }
        ensures left { OnErr result (LeavesLog self.old self.new) }
        ensures tries { OnErr result (TriesAhead self.old.objects self.new.objects) }
        ensures crash { Crashes self.old self.new }
    {
        self.key.raise(self.objects.log.install_step())
    }
}
