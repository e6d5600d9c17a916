// The installer's cycle: logged blocks come home, and their positions become free.
ghost use Rattle.std.specs.Prelude.{ℕ, ◌≡◌, ◌≤◌, ◌<◌, ◌↔◌, false, IsTrue, IsErr, OnOk, OnErr, IfOk, IfErr};
ghost use Rattle.journal_circ.specs.Ring.{IsFault};
ghost use Rattle.journal_memlog.specs.Logs.{trimmed};
ghost use Rattle.journal_wal.specs.Wal.{Crashes, Fails, InstallAnswers, Installs, install_steps, install_call, IsInstallIdle, IsInstallRefusal, Plans, TriesDueCall, TriesAhead};

use crate::disk_log::Installer;
use crate::plan::Plan;
use crate::step::InstallStep;
use crate::wal::Wal;
use journal_circ::{Freed, HomesPut};
use journal_disk::BlockDisk;
use journal_memlog::MemLog;
use journal_world::Refusal;
use std::mem;

impl<D: BlockDisk> Wal<D> {
    /// Makes the next step of the installer. It writes one home block, the last logged one of its
    /// address, the addresses ascending; makes a barrier; writes block 1; makes a barrier, after
    /// which the positions are free. For h distinct addresses these are h + 3 steps. It is idle if
    /// all that is logged is at home.
    ///
    /// # Errors
    /// - `J6 DeviceFailed`: the device failed, in this call or before. The call that was due may
    ///   have been made, and no other.
    /// - `J1 NoMemory`: memory for the list of addresses is refused, at the first of these steps.
    ///   The log is as it was.
    pub fn install_step(&mut self) -> Result<InstallStep, Refusal<()>>
        ensures refusal { IfErr result (IsInstallRefusal self.old self.new) }
        ensures faulted { IsTrue self.old.ring.faulted → IsErr result × (self.new ≡ self.old) }
        ensures fine { OnOk result ((self.old.ring.faulted ≡ false) × (self.new.ring.faulted ≡ false)) }
        ensures ok { IfOk result (λ step. InstallAnswers self.old step self.new) }
        ensures tries { OnErr result (TriesAhead self.old self.new) }
        ensures crash { Crashes self.old self.new }
    {
        if self.on_disk.circ.is_faulted() {
            return Err(Refusal::DeviceFailed(()));
        }
        if self.is_install_idle() {
            return Ok(InstallStep::Idle);
        }
        self.plan()?;
        self.install_on()
    }

    // True if nothing is being installed, and nothing is to be.
    fn is_install_idle(&self) -> bool
        requires { self.now.ring.faulted ≡ false }
        ensures { IsTrue result ↔ IsInstallIdle self.now }
    {
        let bounds = self.memory.bounds();
        match &self.on_disk.installer {
            Installer::Resting(_) => bounds.start == bounds.logged,
            _ => false,
        }
    }

    // Plans the blocks that are to be put, if nothing is being installed.
    fn plan(&mut self) -> Result<(), Refusal<()>>
        requires fine { self.old.ring.faulted ≡ false }
        requires some { IsInstallIdle self.old → ⊥ }
        ensures ok { OnOk result (Plans self.old self.new) }
        ensures err { IfErr result (λ refusal. (refusal ≡ Refusal.NoMemory) × (install_steps self.old ≡ 0) × (self.new ≡ self.old)
            × (self.old.log.start < self.old.log.logged)) }
    {
        let Installer::Resting(_) = &self.on_disk.installer else {
            return Ok(());
        };
        let upto = self.memory.bounds().logged;
        let plan = Plan::up_to(self.alloc, &self.memory, upto)?;
        // The list is there, so nothing can refuse any more.
        if let Installer::Resting(state) = mem::replace(
            &mut self.on_disk.installer,
            Installer::Spent,
        ) {
            self.on_disk.installer = Installer::Homes(state, plan);
        }
        Ok(())
    }

    // Makes the next step of an installing that began.
    fn install_on(&mut self) -> Result<InstallStep, Refusal<()>>
        requires fine { self.old.ring.faulted ≡ false }
        requires some { 0 < install_steps self.old }
        ensures refusal { IfErr result (IsFault self.old.ring.faulted self.old.ring.disk self.new.ring.disk) }
        ensures fine { OnOk result (self.new.ring.faulted ≡ false) }
        ensures ok { IfOk result (λ step. InstallAnswers self.old step self.new) }
        ensures err { OnErr result (Fails self.old self.new) }
        ensures tries { OnErr result
            (TriesDueCall (install_call self.old.ring.label self.old.log self.old.installing) self.old.ring.disk self.new.ring.disk) }
        ensures crash { Crashes self.old self.new }
    {
        let circ = &mut self.on_disk.circ;
        let mut step = InstallStep::Put;
        let next = match mem::replace(&mut self.on_disk.installer, Installer::Spent) {
            Installer::Homes(state, mut plan) => match plan.next() {
                Some((block, position)) => {
                    let update = self.memory.at(position);
                    Installer::Homes(circ.put_home(state, block, &update.bytes)?, plan)
                }
                None => Installer::Synced(circ.sync_homes(state)?, plan.upto),
            },
            Installer::Synced(state, upto) => {
                Installer::StartPut(circ.put_start(state, upto)?, upto)
            }
            Installer::StartPut(state, upto) => {
                let freed = circ.sync_start(state)?;
                step = InstallStep::Freed(upto);
                Installer::Resting(free(&mut self.memory, freed, upto))
            }
            Installer::Resting(_) | Installer::Spent => return Err(Refusal::DeviceFailed(())),
        };
        self.on_disk.installer = next;
        Ok(step)
    }
}

// Drops from memory the positions that the disk has freed, and nothing else.
fn free(memory: &mut MemLog, freed: Freed, upto: u64) -> HomesPut
    requires from_start { memory.old.start ≤ upto }
    requires to_logged { upto ≤ memory.old.logged }
    ensures { memory.new ≡ trimmed memory.old upto }
{
    memory.trim(upto);
    freed.next_run()
}
