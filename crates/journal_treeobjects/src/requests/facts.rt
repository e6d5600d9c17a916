// The calls that describe a file system.
use crate::{Asking, TreeOperation};
use journal_tree::{Free, Handle, Space, Status};
use journal_treecalls::{FactsReply, NameFactsReply, TreeDisk, fsinfo, fsstat, pathconf};

/// FSSTAT: the space of a file system.
#[derive(Clone, Copy)]
pub struct FsStat {
    pub handle: Handle,
    /// How much may be free.
    pub free: Free,
}

impl TreeOperation for FsStat {
    ghost use Rattle.journal_tree.specs.Op.Call.{fsstat};
    ghost use Rattle.journal_tree.specs.Op.Reply.{space};

    type Reply = Result<Space, Status>;

    ghost call = { λ o. fsstat o.handle };

    ghost told = { space };

    ghost most = { λ o. 0 };

    fn attempt<T: TreeDisk>(
        &self,
        _asking: Asking,
        disk: &mut T,
    ) -> Result<Result<Space, Status>, T::Fault> {
        fsstat(disk, self.handle, self.free)
    }
}

/// FSINFO: what a file system does.
#[derive(Clone, Copy)]
pub struct FsInfo {
    pub handle: Handle,
}

impl TreeOperation for FsInfo {
    ghost use Rattle.journal_tree.specs.Op.Call.{fsinfo};
    ghost use Rattle.journal_tree.specs.Op.Reply.{facts};
    ghost use Rattle.journal_treecalls.specs.Facts.{facts_told};

    type Reply = Result<FactsReply, Status>;

    ghost call = { λ o. fsinfo o.handle };

    ghost told = { λ reply. facts (facts_told reply) };

    ghost most = { λ o. 0 };

    fn attempt<T: TreeDisk>(
        &self,
        _asking: Asking,
        disk: &mut T,
    ) -> Result<Result<FactsReply, Status>, T::Fault> {
        fsinfo(disk, self.handle)
    }
}

/// PATHCONF: what names may be.
#[derive(Clone, Copy)]
pub struct PathConf {
    pub handle: Handle,
}

impl TreeOperation for PathConf {
    ghost use Rattle.journal_tree.specs.Op.Call.{pathconf};
    ghost use Rattle.journal_tree.specs.Op.Reply.{name_facts};
    ghost use Rattle.journal_treecalls.specs.Facts.{name_facts_told};

    type Reply = Result<NameFactsReply, Status>;

    ghost call = { λ o. pathconf o.handle };

    ghost told = { λ reply. name_facts (name_facts_told reply) };

    ghost most = { λ o. 0 };

    fn attempt<T: TreeDisk>(
        &self,
        _asking: Asking,
        disk: &mut T,
    ) -> Result<Result<NameFactsReply, Status>, T::Fault> {
        pathconf(disk, self.handle)
    }
}
