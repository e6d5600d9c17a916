// The holds of the disk's lock, and those of both locks: one function for each, whose clause
// `event` is its event of the law. Those of the memory lock alone are the calls of `Volatile`.
//
// A hold of the disk alone makes at most one device call that changes the disk. Its answer is the
// work that this leaves due of both parts, and cannot be dropped: the memory lock is taken then,
// inside the same hold of the disk.
ghost use Rattle.std.specs.Prelude.{◌≡◌, ◌⊎◌, ◌<◌, ◌≤◌, map, IsTrue, All, IfOk, IfErr, OnOk, OnErr};
ghost use Rattle.journal_world.specs.Histories.{is_trusted};
ghost use Rattle.journal_disk.specs.Images.{EveryImage};
ghost use Rattle.journal_wal.specs.declared.step.InstallStep.TheVariants.{Freed};
ghost use Rattle.journal_objlog.specs.ObjectLogs.{end_of};
ghost use Rattle.journal_history.specs.Tokens.{OnlyExtends};
ghost use Rattle.journal_memory.specs.Ledgers.{IsStaleRefusal};
ghost use Rattle.journal_parts.specs.Durables.{is_faulted, disk_of};
ghost use Rattle.journal_parts.specs.Pairs.{IsUntied};
ghost use Rattle.journal_parts.specs.Cores.{Leaves};
ghost use Rattle.journal_parts.specs.CallAnswers.{log_answer, install_answer, IfFreed, IfFailed};
ghost use Rattle.journal_parts.specs.Holds.{AnswersFetch, AnswersGroupCall, AnswersHomeCall, AnswersMarkOrCut, Trims, NotesFault, AnswersDisk};

use crate::due::{FreedLog, InstallCall, InstallFault, LogCall, RestingLog, UnnotedFault};
use crate::durable::Durable;
use crate::step::LogStep;
use journal_block::Update;
use journal_disk::BlockDisk;
use journal_history::{Naming, Session};
use journal_memory::{Cause, Fetched, Volatile};
use journal_wal::{GroupStep, InstallStep};
use journal_world::{MapRule, Position, Refusal};

impl<'b, D: BlockDisk, R: MapRule, J: Naming> Durable<'b, D, R, J> {
    /// A hold of the disk alone: makes the device call of the group in flight that is due. If no
    /// group is in flight, none is.
    ///
    /// # Errors
    /// - `J6 DeviceFailed`, which memory does not know yet: the device failed, in this call or
    ///   before. The call that was due may have been made, and no other.
    pub fn log_call(&mut self) -> Result<LogCall, UnnotedFault<'b, J, R>>
        ensures event { AnswersGroupCall J.layout self.old (log_answer result) self.new }
        ensures fault { OnErr result (IsTrue (is_faulted self.new)) }
    {
        match self.advance_log() {
            Ok(GroupStep::Put) => {
                self.prove_invariant();
                Ok(LogCall::Put)
            }
            Ok(GroupStep::Logged) => {
                self.prove_invariant();
                Ok(LogCall::Logged)
            }
            Ok(GroupStep::Idle) => {
                self.prove_invariant();
                Ok(LogCall::AtRest(RestingLog { made: () }))
            }
            Err(why) => {
                self.prove_invariant();
                Err(UnnotedFault { why })
            }
        }
    }

    /// A hold of the disk alone: makes the installer's next device call. It writes one home block
    /// from its last logged copy; makes a barrier; writes block 1; makes a barrier, after which the
    /// positions are free. It is idle if all that is logged is at home.
    ///
    /// # Errors
    /// - `J6 DeviceFailed`, which memory does not know yet: the device failed, in this call or
    ///   before. The call that was due may have been made, and no other.
    /// - `J1 NoMemory`: memory for the list of addresses is refused, at the first of these calls.
    ///   All is as it was.
    pub fn install_call(&mut self) -> Result<InstallCall, InstallFault<UnnotedFault<'b, J, R>>>
        ensures event { AnswersHomeCall J.layout self.old (install_answer result) self.new }
        ensures fault { IfErr result (IfFailed (IsTrue (is_faulted self.new))) }
        ensures home { IfOk result (IfFreed (λ upto. upto ≤ end_of self.new.objects)) }
    {
        match self.advance_install() {
            Ok(InstallStep::Idle) => {
                self.prove_invariant();
                Ok(InstallCall::Idle)
            }
            Ok(InstallStep::Put) => {
                self.prove_invariant();
                Ok(InstallCall::Put)
            }
            Ok(InstallStep::Freed(upto)) => {
                self.prove_invariant();
                let upto = Position::new(upto);
                Ok(InstallCall::Freed(FreedLog { upto }))
            }
            Err(Refusal::NoMemory) => {
                self.prove_invariant();
                Err(InstallFault::NoMemory)
            }
            Err(why) => {
                self.prove_invariant();
                Err(InstallFault::Failed(UnnotedFault { why }))
            }
        }
    }

    /// A hold of the disk alone: reads each of these blocks, as it is logged, into its bytes. It is
    /// read from the device only if no logged update of it is in memory. The call takes no memory.
    ///
    /// # Errors
    /// - `J6 DeviceFailed`, which memory does not know yet: the device failed, in this call or
    ///   before. The disk and the log are as before.
    pub fn fetch(
        &mut self,
        updates: Vec<Update>,
    ) -> Result<Fetched<'b, J, R>, UnnotedFault<'b, J, R>>
        requires blocks { All (λ u. u.block < J.layout.blocks) updates.items }
        ensures event { AnswersFetch J.layout self.old (map (λ u. u.block) updates.items) result self.new }
        ensures fault { OnErr result (IsTrue (is_faulted self.new)) }
    {
        match self.fetch_blocks(updates) {
            Ok(fetched) => {
                self.prove_invariant();
                fetched.prove_fetched();
                Ok(fetched)
            }
            Err(why) => {
                self.prove_invariant();
                Err(UnnotedFault { why })
            }
        }
    }

    /// A hold of both, if no group is in flight: marks what is logged; else cuts; else marks
    /// commits that wrote nothing. It is idle if none of these is due. It makes no device call.
    ///
    /// # Errors
    /// Nothing is then marked or cut.
    /// - `J9 Stale`: the history that this part has seen is the longer, the history has a greater
    ///   mark than what is logged, a cut meets a mark that this part lacks, or the history is
    ///   longer than the core's.
    /// - `J6 DeviceFailed`: the device failed before.
    /// - `J11 Worn`: the history's length or a position would reach 2^62.
    /// - `J1 NoMemory`: memory for the group is refused.
    pub fn mark_or_cut(
        &mut self,
        volatile: &mut Volatile<'b, R, J>,
        rest: RestingLog,
    ) -> Result<LogStep, Refusal<Cause<'b, J, R>>>
        ensures event { AnswersMarkOrCut J.layout volatile.old self.old result volatile.new self.new }
    {
        let RestingLog { made: _ } = rest;
        let answer = self.do_due(volatile);
        self.prove_invariant();
        volatile.prove_invariant();
        answer
    }

    /// A hold of both: drops the updates from memory that are at home, those of each cut that ends
    /// at the freed positions or before. It answers the end of the freed positions, as a step of
    /// the installer.
    pub fn trim(&self, volatile: &mut Volatile<'b, R, J>, freed: FreedLog) -> InstallStep
        requires home { freed ≤ end_of self.now.objects }
        ensures event { Trims J.layout volatile.old self.now freed volatile.new }
        ensures told { result ≡ Freed freed }
    {
        let FreedLog { upto } = freed;
        self.trim_memory(volatile, upto);
        volatile.prove_invariant();
        InstallStep::Freed(upto.get())
    }

    /// A hold of both: notes in memory that the device failed, and gives the refusal.
    pub fn note_fault(
        &self,
        volatile: &mut Volatile<'b, R, J>,
        fault: UnnotedFault<'b, J, R>,
    ) -> Refusal<Cause<'b, J, R>>
        requires fault { IsTrue (is_faulted self.now) }
        ensures event { NotesFault volatile.old self.now volatile.new }
        ensures refusal { result ≡ fault.entry }
    {
        volatile.fail(&self.key);
        let UnnotedFault { why } = fault;
        why
    }

    /// A hold of both: shows the session the whole history, and lends the disk, if all marks of
    /// that history are its own. Each image that a crash may leave of it opens then as the map
    /// after a front of the history that has every marked commit.
    ///
    /// # Errors
    /// - `J9 Stale`: the session or the disk's part has seen more of the history than the core, or
    ///   the disk's part lacks a mark. The session may then have seen more.
    pub fn show_disk(
        &self,
        volatile: &Volatile<'b, R, J>,
        session: &mut Session<'b, J, R>,
    ) -> Result<&D, Refusal<Cause<'b, J, R>>>
        ensures disk { IfOk result (λ disk. D.state disk.now ≡ disk_of self.now) }
        ensures session { OnlyExtends session.old session.new }
        ensures trusted { OnOk result (is_trusted session.new.seen ≡ (disk_of self.now).honest) }
        ensures images { OnOk result (IsTrue (disk_of self.now).honest → EveryImage (disk_of self.now).past (Leaves session.new.seen)) }
        ensures refusal { IfErr result (λ why. IsStaleRefusal volatile.now.ledger.history why ⊎ IsUntied volatile.now self.now self.now.marked why) }
        ensures event { AnswersDisk volatile.now self.now session.old result session.new }
    {
        volatile.show_step(session)?;
        self.disk_under(volatile)
    }
}
