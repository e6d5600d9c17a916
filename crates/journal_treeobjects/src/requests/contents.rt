// The calls on a file's bytes, and on a link's text.
use crate::{Asking, TreeOperation};
use journal_tree::{Changed, Handle, Status};
use journal_treecalls::{LinkReply, ReadReply, TreeDisk, WriteData, commit, read, readlink, write};

/// READ of bytes of a file.
#[derive(Clone, Copy)]
pub struct Read {
    pub handle: Handle,
    pub offset: u64,
    pub count: u32,
}

impl TreeOperation for Read {
    ghost use Rattle.journal_tree.specs.Op.Call.{read};
    ghost use Rattle.journal_tree.specs.Op.Reply.{bytes_read};
    ghost use Rattle.journal_treecalls.specs.Portions.{portion_told};

    type Reply = Result<ReadReply, Status>;

    ghost call = { λ o. read o.handle o.offset o.count };

    ghost told = { λ reply. bytes_read (portion_told reply) };

    ghost most = { λ o. 0 };

    fn attempt<T: TreeDisk>(
        &self,
        asking: Asking,
        disk: &mut T,
    ) -> Result<Result<ReadReply, Status>, T::Fault> {
        read(disk, &asking.caller, self.handle, self.offset, self.count)
    }
}

/// WRITE of bytes of a file.
#[derive(Clone, Copy)]
pub struct Write<'n> {
    pub handle: Handle,
    pub bytes: WriteData<'n>,
    /// Blocks that may be free.
    pub blocks: &'n [u32],
}

impl<'n> TreeOperation for Write<'n> {
    ghost use Rattle.std.specs.Prelude.{length};
    ghost use Rattle.journal_tree.specs.Op.Call.{write};
    ghost use Rattle.journal_tree.specs.Op.Reply.{wrote};
    ghost use Rattle.journal_treecalls.specs.Counts.{most_written};

    type Reply = Result<Changed, Status>;

    ghost call = { λ o. write o.handle o.bytes.offset o.bytes.count o.bytes.bytes.now };

    ghost told = { wrote };

    ghost most = { λ o. most_written (length o.bytes.bytes.now) };

    fn attempt<T: TreeDisk>(
        &self,
        asking: Asking,
        disk: &mut T,
    ) -> Result<Result<Changed, Status>, T::Fault> {
        let Asking { caller, now } = asking;
        write(disk, &caller, self.handle, &self.bytes, self.blocks, now)
    }
}

/// COMMIT of a file.
#[derive(Clone, Copy)]
pub struct Commit {
    pub handle: Handle,
}

impl TreeOperation for Commit {
    ghost use Rattle.journal_tree.specs.Op.Call.{commit};
    ghost use Rattle.journal_tree.specs.Op.Reply.{committed};

    type Reply = Result<Changed, Status>;

    ghost call = { λ o. commit o.handle };

    ghost told = { committed };

    ghost most = { λ o. 0 };

    fn attempt<T: TreeDisk>(
        &self,
        _asking: Asking,
        disk: &mut T,
    ) -> Result<Result<Changed, Status>, T::Fault> {
        commit(disk, self.handle)
    }
}

/// READLINK of a symbolic link.
#[derive(Clone, Copy)]
pub struct ReadLink {
    pub handle: Handle,
}

impl TreeOperation for ReadLink {
    ghost use Rattle.journal_tree.specs.Op.Call.{readlink};
    ghost use Rattle.journal_tree.specs.Op.Reply.{link_read};
    ghost use Rattle.journal_treecalls.specs.Symlinks.{link_told};

    type Reply = Result<LinkReply, Status>;

    ghost call = { λ o. readlink o.handle };

    ghost told = { λ reply. link_read (link_told reply) };

    ghost most = { λ o. 0 };

    fn attempt<T: TreeDisk>(
        &self,
        _asking: Asking,
        disk: &mut T,
    ) -> Result<Result<LinkReply, Status>, T::Fault> {
        readlink(disk, self.handle)
    }
}
