// An operation on files, as one transaction.
ghost use Rattle.std.specs.Prelude.{◌≡◌, [], Bool, IfOk, IfErr, Result};
ghost use Rattle.journal_inode.specs.Places.{HasFiles};
ghost use Rattle.journal_file_types.specs.declared.status.Status.{Status};
ghost use Rattle.journal_attempts.specs.Refusals.{IsAttemptEnd};
ghost use Rattle.journal_filestore.specs.Files.{Files};
ghost use Rattle.journal_filestore.specs.Doing.{Does};

use crate::Answer;
use crate::block_reservation::BlockReservation;
use crate::store::FileTxn;
use journal_attempts::AttemptFault;
use journal_disk::BlockDisk;
use journal_history::Naming;
use journal_inode::{SoundFiles, Version};
use journal_memory::Cause;
use std::sync::Wait;

// Why an attempt at an operation on files is undone.
pub(crate) type AttemptEnd<'b, J, V> = AttemptFault<Cause<'b, J, SoundFiles<V>>>;

// An operation: the reads and overwrites of one attempt at it, and the case that it then answers.
// An operation reads all that it needs first (inodes, bits, old data), and writes bits, blocks and
// the inode last. So a refusal of memory or of a slot comes before the first overwrite wherever it
// can. Each object is read once: on a disk that is not honest a second read may give another value.
pub(crate) trait Operation<J: Naming, V: Version> {
    type Reply: Drop;

    // The answer fits the files before and after.
    ghost case: { Self → Files → Result Self.Reply Status → Files → Type 0 };

    // True if it waits, after an Ok, until it is stable.
    ghost is_waiting: { Self → Bool };

    fn waits(&self) -> bool
        ensures { result ≡ is_waiting self.now };

    // One attempt. Its transaction, which has done nothing yet, is then committed, or aborted if
    // the attempt is undone.
    fn attempt<'j, 'b, D: BlockDisk, W: Wait>(
        &self,
        rt: &W,
        txn: &mut FileTxn<'j, 'b, D, J, V>,
        space: &mut BlockReservation,
    ) -> Result<Answer<Self::Reply>, AttemptEnd<'b, J, V>>
        requires cut { HasFiles J.layout }
        requires reads { txn.old.reads ≡ [] }
        requires writes { txn.old.writes ≡ [] }
        requires space { space.old.taken.items ≡ [] }
        ensures does { IfOk result (Does V.VERSION J.layout (case self.now) txn.new.reads txn.new.writes) }
        ensures refusal { IfErr result IsAttemptEnd };
}
