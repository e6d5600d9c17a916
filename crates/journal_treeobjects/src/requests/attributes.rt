// The calls on what a node has.
use crate::{Asking, TreeOperation};
use journal_tree::{Changed, Handle, Settings, Status, Time, Told};
use journal_treecalls::{AccessReply, TreeDisk, access, getattr, setattr};

/// GETATTR: what a node has.
#[derive(Clone, Copy)]
pub struct GetAttr {
    pub handle: Handle,
}

impl TreeOperation for GetAttr {
    ghost use Rattle.journal_tree.specs.Op.Call.{getattr};
    ghost use Rattle.journal_tree.specs.Op.Reply.{got};

    type Reply = Result<Told, Status>;

    ghost call = { λ o. getattr o.handle };

    ghost told = { got };

    ghost most = { λ o. 0 };

    fn attempt<T: TreeDisk>(
        &self,
        _asking: Asking,
        disk: &mut T,
    ) -> Result<Result<Told, Status>, T::Fault> {
        getattr(disk, self.handle)
    }
}

/// SETATTR of a node.
#[derive(Clone, Copy)]
pub struct SetAttr {
    pub handle: Handle,
    pub settings: Settings,
    /// The ctime that the node is to have.
    pub guard: Option<Time>,
}

impl TreeOperation for SetAttr {
    ghost use Rattle.journal_tree.specs.Op.Call.{setattr};
    ghost use Rattle.journal_tree.specs.Op.Reply.{set};

    type Reply = Result<Changed, Status>;

    ghost call = { λ o. setattr o.handle o.settings o.guard };

    ghost told = { set };

    ghost most = { λ o. 3 };

    fn attempt<T: TreeDisk>(
        &self,
        asking: Asking,
        disk: &mut T,
    ) -> Result<Result<Changed, Status>, T::Fault> {
        let Asking { caller, now } = asking;
        setattr(disk, &caller, self.handle, self.settings, self.guard, now)
    }
}

/// ACCESS: which of these rights a caller has.
#[derive(Clone, Copy)]
pub struct Access {
    pub handle: Handle,
    /// The rights that are asked for.
    pub asked: u32,
}

impl TreeOperation for Access {
    ghost use Rattle.journal_tree.specs.Op.Call.{access};
    ghost use Rattle.journal_tree.specs.Op.Reply.{accessed};
    ghost use Rattle.journal_treecalls.specs.Replies.{access_told};

    type Reply = Result<AccessReply, Status>;

    ghost call = { λ o. access o.handle o.asked };

    ghost told = { λ reply. accessed (access_told reply) };

    ghost most = { λ o. 0 };

    fn attempt<T: TreeDisk>(
        &self,
        asking: Asking,
        disk: &mut T,
    ) -> Result<Result<AccessReply, Status>, T::Fault> {
        access(disk, &asking.caller, self.handle, self.asked)
    }
}
