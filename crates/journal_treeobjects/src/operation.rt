// A call as one transaction.
ghost use Rattle.std.specs.Prelude.{ℕ, ◌≡◌, ◌≤◌, [], IfOk, length};
ghost use Rattle.journal_tree.specs.Times.{IsTime};
ghost use Rattle.journal_tree.specs.Op.{Call, Reply};
ghost use Rattle.journal_treecalls.specs.Disks.{Does};

use journal_tree::{Caller, Time};
use journal_treecalls::TreeDisk;

/// The caller of a call, and its moment.
#[derive(Clone, Copy, Debug)]
pub struct Asking {
    pub caller: Caller,
    pub now: Time,
}

/// A call on a tree of files: what is asked, and how it is done on a disk.
pub trait TreeOperation {
    /// Its answer.
    type Reply: Drop;

    /// The call by the definitions.
    ghost call: { Self → Call };

    /// The answer by the definitions.
    ghost told: { Self.Reply → Reply };

    /// The most writes that it makes.
    ghost most: { Self → ℕ };

    /// Does the call on a disk of which nothing was read and nothing is written.
    ///
    /// # Errors
    /// - The call is given up.
    fn attempt<T: TreeDisk>(&self, asking: Asking, disk: &mut T) -> Result<Self::Reply, T::Fault>
        requires first { T.writes disk.old ≡ [] }
        requires time { IsTime asking.now }
        ensures does { IfOk result (λ reply. Does (T.may_be disk.new) (T.writes disk.new) (call self.now) asking.caller asking.now (told reply)) }
        ensures few { IfOk result (λ _. length (T.writes disk.new) ≤ most self.now) };
}
