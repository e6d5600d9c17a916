// The calls that look for a name, and those that take one away or give another.
use crate::{Asking, TreeOperation};
use journal_tree::{Changed, Found, Handle, Renamed, Status};
use journal_treecalls::{NameIn, Spare, TreeDisk, lookup, remove, rename, rmdir};

/// LOOKUP of a name in a directory.
#[derive(Clone, Copy)]
pub struct Lookup<'n> {
    pub directory: Handle,
    pub name: &'n [u8],
}

impl<'n> TreeOperation for Lookup<'n> {
    ghost use Rattle.journal_tree.specs.Op.Call.{lookup};
    ghost use Rattle.journal_tree.specs.Op.Reply.{found};

    type Reply = Result<Found, Status>;

    ghost call = { λ o. lookup o.directory o.name.now };

    ghost told = { found };

    ghost most = { λ o. 0 };

    fn attempt<T: TreeDisk>(
        &self,
        asking: Asking,
        disk: &mut T,
    ) -> Result<Result<Found, Status>, T::Fault> {
        lookup(disk, &asking.caller, self.directory, self.name)
    }
}

/// REMOVE of a file.
#[derive(Clone, Copy)]
pub struct Remove<'n> {
    pub directory: Handle,
    pub name: &'n [u8],
}

impl<'n> TreeOperation for Remove<'n> {
    ghost use Rattle.journal_tree.specs.Op.Call.{remove};
    ghost use Rattle.journal_tree.specs.Op.Reply.{removed};

    type Reply = Result<Changed, Status>;

    ghost call = { λ o. remove o.directory o.name.now };

    ghost told = { removed };

    ghost most = { λ o. 4 };

    fn attempt<T: TreeDisk>(
        &self,
        asking: Asking,
        disk: &mut T,
    ) -> Result<Result<Changed, Status>, T::Fault> {
        let Asking { caller, now } = asking;
        remove(disk, &caller, self.directory, self.name, now)
    }
}

/// RMDIR of a directory.
#[derive(Clone, Copy)]
pub struct RmDir<'n> {
    pub directory: Handle,
    pub name: &'n [u8],
}

impl<'n> TreeOperation for RmDir<'n> {
    ghost use Rattle.journal_tree.specs.Op.Call.{rmdir};
    ghost use Rattle.journal_tree.specs.Op.Reply.{removed};

    type Reply = Result<Changed, Status>;

    ghost call = { λ o. rmdir o.directory o.name.now };

    ghost told = { removed };

    ghost most = { λ o. 4 };

    fn attempt<T: TreeDisk>(
        &self,
        asking: Asking,
        disk: &mut T,
    ) -> Result<Result<Changed, Status>, T::Fault> {
        let Asking { caller, now } = asking;
        rmdir(disk, &caller, self.directory, self.name, now)
    }
}

/// RENAME of a node, in its directory or to another.
#[derive(Clone, Copy)]
pub struct Rename<'n> {
    /// The directory of the node.
    pub source: Handle,
    pub name: &'n [u8],
    /// The directory in which it will be.
    pub goal: Handle,
    pub new_name: &'n [u8],
    /// Blocks that may be free.
    pub blocks: &'n [u32],
}

impl<'n> TreeOperation for Rename<'n> {
    ghost use Rattle.journal_tree.specs.Op.Call.{rename};
    ghost use Rattle.journal_tree.specs.Op.Reply.{renamed};

    type Reply = Result<Renamed, Status>;

    ghost call = { λ o. rename o.source o.name.now o.goal o.new_name.now };

    ghost told = { renamed };

    ghost most = { λ o. 11 };

    fn attempt<T: TreeDisk>(
        &self,
        asking: Asking,
        disk: &mut T,
    ) -> Result<Result<Renamed, Status>, T::Fault> {
        let Asking { caller, now } = asking;
        let source = NameIn {
            directory: self.source,
            name: self.name,
        };
        let goal = NameIn {
            directory: self.goal,
            name: self.new_name,
        };
        let spare = Spare {
            numbers: &[],
            blocks: self.blocks,
        };
        rename(disk, &caller, &source, &goal, &spare, now)
    }
}
