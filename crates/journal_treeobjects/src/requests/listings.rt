// The calls that list a directory.
use crate::{Asking, TreeOperation};
use journal_tree::{Handle, Status};
use journal_treecalls::{ListReply, TreeDisk, readdir, readdirplus};

/// READDIR: lines of a directory after a cookie.
#[derive(Clone, Copy)]
pub struct ReadDir {
    pub handle: Handle,
    pub cookie: u64,
    /// How many bytes the reply may have.
    pub most: u64,
}

impl TreeOperation for ReadDir {
    ghost use Rattle.journal_tree.specs.Op.Call.{readdir};
    ghost use Rattle.journal_tree.specs.Op.Reply.{listed};
    ghost use Rattle.journal_treecalls.specs.Listings.{listed_told};

    type Reply = Result<ListReply, Status>;

    ghost call = { λ o. readdir o.handle o.cookie o.most };

    ghost told = { λ reply. listed (listed_told reply) };

    ghost most = { λ o. 0 };

    fn attempt<T: TreeDisk>(
        &self,
        asking: Asking,
        disk: &mut T,
    ) -> Result<Result<ListReply, Status>, T::Fault> {
        readdir(disk, &asking.caller, self.handle, self.cookie, self.most)
    }
}

/// READDIRPLUS: the same, with what each line's node has.
#[derive(Clone, Copy)]
pub struct ReadDirPlus {
    pub handle: Handle,
    pub cookie: u64,
    /// How many bytes the lines may have as READDIR returns them.
    pub names: u64,
    /// How many bytes the reply may have.
    pub most: u64,
}

impl TreeOperation for ReadDirPlus {
    ghost use Rattle.journal_tree.specs.Op.Call.{readdirplus};
    ghost use Rattle.journal_tree.specs.Op.Reply.{listed_plus};
    ghost use Rattle.journal_treecalls.specs.Listings.{listed_plus_told};

    type Reply = Result<ListReply, Status>;

    ghost call = { λ o. readdirplus o.handle o.cookie o.names o.most };

    ghost told = { λ reply. listed_plus (listed_plus_told reply) };

    ghost most = { λ o. 0 };

    fn attempt<T: TreeDisk>(
        &self,
        asking: Asking,
        disk: &mut T,
    ) -> Result<Result<ListReply, Status>, T::Fault> {
        let (names, most) = (self.names, self.most);
        readdirplus(disk, &asking.caller, self.handle, self.cookie, names, most)
    }
}
