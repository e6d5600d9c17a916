// The calls that make a node of a name.
use crate::{Asking, TreeOperation};
use journal_tree::{Handle, Made, Settings, Status};
use journal_treecalls::{
    NewLink, Spare, TreeDisk, create_exclusive, create_guarded, create_unchecked, link, mkdir,
    mknod, symlink,
};

/// CREATE of a name that is not there, in the mode GUARDED.
#[derive(Clone, Copy)]
pub struct CreateGuarded<'n> {
    pub directory: Handle,
    pub name: &'n [u8],
    pub settings: Settings,
    /// Numbers and blocks that may be free.
    pub spare: Spare<'n>,
}

impl<'n> TreeOperation for CreateGuarded<'n> {
    ghost use Rattle.journal_tree.specs.Op.Call.{create};
    ghost use Rattle.journal_tree.specs.Op.Reply.{made};
    ghost use Rattle.journal_tree.specs.declared.settings.CreateMode.TheVariants.{Guarded};

    type Reply = Result<Made, Status>;

    ghost call = { λ o. create o.directory o.name.now (Guarded o.settings) };

    ghost told = { made };

    ghost most = { λ o. 8 };

    fn attempt<T: TreeDisk>(
        &self,
        asking: Asking,
        disk: &mut T,
    ) -> Result<Result<Made, Status>, T::Fault> {
        let Asking { caller, now } = asking;
        let (directory, name) = (self.directory, self.name);
        let settings = self.settings;
        create_guarded(disk, &caller, directory, name, settings, &self.spare, now)
    }
}

/// CREATE of a name, in the mode UNCHECKED.
#[derive(Clone, Copy)]
pub struct CreateUnchecked<'n> {
    pub directory: Handle,
    pub name: &'n [u8],
    pub settings: Settings,
    /// Numbers and blocks that may be free.
    pub spare: Spare<'n>,
}

impl<'n> TreeOperation for CreateUnchecked<'n> {
    ghost use Rattle.journal_tree.specs.Op.Call.{create};
    ghost use Rattle.journal_tree.specs.Op.Reply.{made};
    ghost use Rattle.journal_tree.specs.declared.settings.CreateMode.TheVariants.{Unchecked};

    type Reply = Result<Made, Status>;

    ghost call = { λ o. create o.directory o.name.now (Unchecked o.settings) };

    ghost told = { made };

    ghost most = { λ o. 8 };

    fn attempt<T: TreeDisk>(
        &self,
        asking: Asking,
        disk: &mut T,
    ) -> Result<Result<Made, Status>, T::Fault> {
        let Asking { caller, now } = asking;
        let (directory, name) = (self.directory, self.name);
        let settings = self.settings;
        create_unchecked(disk, &caller, directory, name, settings, &self.spare, now)
    }
}

/// CREATE of a name, in the mode EXCLUSIVE.
#[derive(Clone, Copy)]
pub struct CreateExclusive<'n> {
    pub directory: Handle,
    pub name: &'n [u8],
    /// By which the same call finds the file again.
    pub verifier: u64,
    /// Numbers and blocks that may be free.
    pub spare: Spare<'n>,
}

impl<'n> TreeOperation for CreateExclusive<'n> {
    ghost use Rattle.journal_tree.specs.Op.Call.{create};
    ghost use Rattle.journal_tree.specs.Op.Reply.{made};
    ghost use Rattle.journal_tree.specs.declared.settings.CreateMode.TheVariants.{Exclusive};

    type Reply = Result<Made, Status>;

    ghost call = { λ o. create o.directory o.name.now (Exclusive o.verifier) };

    ghost told = { made };

    ghost most = { λ o. 8 };

    fn attempt<T: TreeDisk>(
        &self,
        asking: Asking,
        disk: &mut T,
    ) -> Result<Result<Made, Status>, T::Fault> {
        let Asking { caller, now } = asking;
        let (directory, name) = (self.directory, self.name);
        let verifier = self.verifier;
        create_exclusive(disk, &caller, directory, name, verifier, &self.spare, now)
    }
}

/// MKDIR of a name.
#[derive(Clone, Copy)]
pub struct MkDir<'n> {
    pub directory: Handle,
    pub name: &'n [u8],
    pub settings: Settings,
    /// Numbers and blocks that may be free.
    pub spare: Spare<'n>,
}

impl<'n> TreeOperation for MkDir<'n> {
    ghost use Rattle.journal_tree.specs.Op.Call.{mkdir};
    ghost use Rattle.journal_tree.specs.Op.Reply.{made};

    type Reply = Result<Made, Status>;

    ghost call = { λ o. mkdir o.directory o.name.now o.settings };

    ghost told = { made };

    ghost most = { λ o. 8 };

    fn attempt<T: TreeDisk>(
        &self,
        asking: Asking,
        disk: &mut T,
    ) -> Result<Result<Made, Status>, T::Fault> {
        let Asking { caller, now } = asking;
        let (directory, name) = (self.directory, self.name);
        let settings = self.settings;
        mkdir(disk, &caller, directory, name, settings, &self.spare, now)
    }
}

/// SYMLINK of a name.
#[derive(Clone, Copy)]
pub struct SymLink<'n> {
    pub directory: Handle,
    pub name: &'n [u8],
    pub link: NewLink<'n>,
    /// Numbers and blocks that may be free.
    pub spare: Spare<'n>,
}

impl<'n> TreeOperation for SymLink<'n> {
    ghost use Rattle.journal_tree.specs.Op.Call.{symlink};
    ghost use Rattle.journal_tree.specs.Op.Reply.{made};

    type Reply = Result<Made, Status>;

    ghost call = { λ o. symlink o.directory o.name.now o.link.settings o.link.text.now };

    ghost told = { made };

    ghost most = { λ o. 11 };

    fn attempt<T: TreeDisk>(
        &self,
        asking: Asking,
        disk: &mut T,
    ) -> Result<Result<Made, Status>, T::Fault> {
        let Asking { caller, now } = asking;
        let (directory, name) = (self.directory, self.name);
        symlink(disk, &caller, directory, name, &self.link, &self.spare, now)
    }
}

/// MKNOD of a name: the reason why it is refused.
#[derive(Clone, Copy)]
pub struct MkNod<'n> {
    pub directory: Handle,
    pub name: &'n [u8],
}

impl<'n> TreeOperation for MkNod<'n> {
    ghost use Rattle.std.specs.Prelude.{Err};
    ghost use Rattle.journal_tree.specs.Op.Call.{mknod};
    ghost use Rattle.journal_tree.specs.Op.Reply.{not_done};

    type Reply = Status;

    ghost call = { λ o. mknod o.directory o.name.now };

    ghost told = { λ status. not_done (Err status) };

    ghost most = { λ o. 0 };

    fn attempt<T: TreeDisk>(&self, asking: Asking, disk: &mut T) -> Result<Status, T::Fault> {
        mknod(disk, &asking.caller, self.directory, self.name)
    }
}

/// LINK of a node: the reason why it is refused. A node has one name.
#[derive(Clone, Copy)]
pub struct Link<'n> {
    pub handle: Handle,
    pub directory: Handle,
    pub name: &'n [u8],
}

impl<'n> TreeOperation for Link<'n> {
    ghost use Rattle.std.specs.Prelude.{Err};
    ghost use Rattle.journal_tree.specs.Op.Call.{link};
    ghost use Rattle.journal_tree.specs.Op.Reply.{not_done};

    type Reply = Status;

    ghost call = { λ o. link o.handle o.directory o.name.now };

    ghost told = { λ status. not_done (Err status) };

    ghost most = { λ o. 0 };

    fn attempt<T: TreeDisk>(&self, asking: Asking, disk: &mut T) -> Result<Status, T::Fault> {
        link(disk, &asking.caller, self.handle, self.directory, self.name)
    }
}
