// The fetch of blocks from the log and the disk.
ghost use Rattle.std.specs.Prelude.{◌≡◌, ◌<◌, false, map, IsTrue, OnOk, IfOk, IfErr, All};
ghost use Rattle.journal_world.specs.Histories.{is_trusted};
ghost use Rattle.journal_objlog.specs.ObjectLogs.{OnlyReads};
ghost use Rattle.journal_parts.specs.Durables.{Crashes, IsCallRefusal, is_faulted};
ghost use Rattle.journal_memory.specs.Fetches.{IsBlockAfter};

use crate::durable::Durable;
use journal_block::Update;
use journal_disk::BlockDisk;
use journal_history::Naming;
use journal_memory::{Cause, Fetched};
use journal_world::{MapRule, Refusal};

impl<'b, D: BlockDisk, R: MapRule, J: Naming> Durable<'b, D, R, J> {
    // All blocks of a commit in one hold: they have one front and one number of commits, so one
    // test decides about all of them.
    /// Reads each of these blocks, as it is logged, into its bytes. It is read from the device only
    /// if no logged update of it is in memory. The call takes no memory.
    ///
    /// # Errors
    /// - `J6 DeviceFailed`: the device failed, in this call or before. The disk and the log are as
    ///   before.
    pub(crate) fn fetch_blocks(
        &mut self,
        mut updates: Vec<Update>,
    ) -> Result<Fetched<'b, J, R>, Refusal<Cause<'b, J, R>>>
        requires blocks { All (λ u. u.block < J.layout.blocks) updates.items }
        ensures front { IfOk result (λ fetched. fetched.front ≡ self.old.front) }
        ensures commits { IfOk result (λ fetched. fetched.commits ≡ self.old.logged) }
        ensures named { IfOk result (λ fetched. map (λ u. u.block) fetched.updates ≡ map (λ u. u.block) updates.items) }
        ensures fine { is_faulted self.old ≡ false → OnOk result (is_faulted self.new ≡ false) }
        ensures refusal { IfErr result (IsCallRefusal self.old self.new) }
        ensures reads { OnlyReads self.old.objects self.new.objects }
        ensures others { self.new ≡ record self.old { objects = self.new.objects } }
        ensures crash { Crashes self.old self.new }
    {
        let commits = self.logged;
        for place in 0..updates.len() {
            self.fetch_block(&mut updates[place])?;
        }
        Ok(Fetched::new(self.front.again(), commits, updates))
    }

    // Reads this block, as it is logged, into its bytes.
    fn fetch_block(&mut self, update: &mut Update) -> Result<(), Refusal<Cause<'b, J, R>>>
        requires { update.old.block < J.layout.blocks }
        ensures block { update.new.block ≡ update.old.block }
        ensures after { IsTrue (is_trusted self.old.front) → OnOk result (IsBlockAfter J.layout self.old.front self.old.logged update.new) }
        ensures fine { OnOk result (is_faulted self.new ≡ false) }
        ensures refusal { IfErr result (IsCallRefusal self.old self.new) }
        ensures reads { OnlyReads self.old.objects self.new.objects }
        ensures others { self.new ≡ record self.old { objects = self.new.objects } }
        ensures crash { Crashes self.old self.new }
    {
        self.key.raise(
            self.objects
                .log
                .read_logged(update.block, &mut update.bytes),
        )
    }
}
