// The operation of a call of the tree, where it has more than a handle or a name.
ghost use Rattle.std.specs.Prelude.{◌≡◌};

use crate::hints::Drawn;
use journal_tree::{Handle, Settings};
use journal_treecalls::{NewLink, WriteData};
use journal_treeobjects::{
    Access, CreateExclusive, CreateGuarded, CreateUnchecked, Link, MkDir, Read, ReadDir,
    ReadDirPlus, Rename, SetAttr, SymLink, Write,
};
use journal_treewire::{LinkCall, ListCall, ListPlusCall, NameIn, ReadCall, SetCall, WriteCall};

// ACCESS of a node, for these rights.
pub(crate) fn access_of(handle: Handle, rights: u32) -> Access
    ensures { result ≡ record { handle = handle; asked = rights } }
{
    Access {
        handle,
        asked: rights,
    }
}

// READ.
pub(crate) fn read_of(part: ReadCall) -> Read
    ensures { result ≡ record { handle = part.handle; offset = part.offset; count = part.count } }
{
    Read {
        handle: part.handle,
        offset: part.offset,
        count: part.count,
    }
}

// READDIR.
pub(crate) fn readdir_of(page: ListCall) -> ReadDir
    ensures { result ≡ record { handle = page.directory; cookie = page.cookie; most = page.count } }
{
    ReadDir {
        handle: page.directory,
        cookie: page.cookie,
        most: u64::from(page.count),
    }
}

// READDIRPLUS.
pub(crate) fn readdirplus_of(page: ListPlusCall) -> ReadDirPlus
    ensures { result ≡ record { handle = page.directory; cookie = page.cookie; names = page.names_count; most = page.count } }
{
    ReadDirPlus {
        handle: page.directory,
        cookie: page.cookie,
        names: u64::from(page.names_count),
        most: u64::from(page.count),
    }
}

// SETATTR.
pub(crate) fn setattr_of(set: SetCall) -> SetAttr
    ensures { result ≡ record { handle = set.handle; settings = set.settings; guard = set.guard } }
{
    SetAttr {
        handle: set.handle,
        settings: set.settings,
        guard: set.guard,
    }
}

// LINK of a node under this name.
pub(crate) fn link_of(handle: Handle, name: NameIn<'_>) -> Link<'_>
    ensures { result ≡ record { handle = handle; directory = name.entry.directory; name = name.entry.name } }
{
    Link {
        handle,
        directory: name.directory,
        name: name.name,
    }
}

// WRITE.
pub(crate) fn write_of<'n>(write: WriteCall<'n>, drawn: &'n Drawn) -> Write<'n>
    ensures handle { result.handle ≡ write.entry.handle }
    ensures offset { result.bytes.offset ≡ write.entry.offset }
    ensures count { result.bytes.count ≡ write.entry.count }
    ensures bytes { result.bytes.bytes.now ≡ write.entry.bytes.now }
{
    let bytes = WriteData {
        offset: write.offset,
        count: write.count,
        bytes: write.bytes,
    };
    Write {
        handle: write.handle,
        bytes,
        blocks: &drawn.blocks,
    }
}

// CREATE of a file that may be there.
pub(crate) fn unchecked_of<'n>(
    entry: NameIn<'n>,
    settings: Settings,
    drawn: &'n Drawn,
) -> CreateUnchecked<'n>
    ensures directory { result.directory ≡ entry.entry.directory }
    ensures name { result.name.now ≡ entry.entry.name.now }
    ensures settings { result.settings ≡ settings }
{
    CreateUnchecked {
        directory: entry.directory,
        name: entry.name,
        settings,
        spare: drawn.spare(),
    }
}

// CREATE of a file that is not to be there.
pub(crate) fn guarded_of<'n>(
    entry: NameIn<'n>,
    settings: Settings,
    drawn: &'n Drawn,
) -> CreateGuarded<'n>
    ensures directory { result.directory ≡ entry.entry.directory }
    ensures name { result.name.now ≡ entry.entry.name.now }
    ensures settings { result.settings ≡ settings }
{
    CreateGuarded {
        directory: entry.directory,
        name: entry.name,
        settings,
        spare: drawn.spare(),
    }
}

// CREATE of a file that the same call finds again.
pub(crate) fn exclusive_of<'n>(
    entry: NameIn<'n>,
    verifier: u64,
    drawn: &'n Drawn,
) -> CreateExclusive<'n>
    ensures directory { result.directory ≡ entry.entry.directory }
    ensures name { result.name.now ≡ entry.entry.name.now }
    ensures verifier { result.verifier ≡ verifier }
{
    CreateExclusive {
        directory: entry.directory,
        name: entry.name,
        verifier,
        spare: drawn.spare(),
    }
}

// MKDIR.
pub(crate) fn mkdir_of<'n>(entry: NameIn<'n>, settings: Settings, drawn: &'n Drawn) -> MkDir<'n>
    ensures directory { result.directory ≡ entry.entry.directory }
    ensures name { result.name.now ≡ entry.entry.name.now }
    ensures settings { result.settings ≡ settings }
{
    MkDir {
        directory: entry.directory,
        name: entry.name,
        settings,
        spare: drawn.spare(),
    }
}

// SYMLINK.
pub(crate) fn symlink_of<'n>(link: LinkCall<'n>, drawn: &'n Drawn) -> SymLink<'n>
    ensures directory { result.directory ≡ link.entry.entry.directory }
    ensures name { result.name.now ≡ link.entry.entry.name.now }
    ensures settings { result.link.settings ≡ link.entry.settings }
    ensures text { result.link.text.now ≡ link.entry.text.now }
{
    let new = NewLink {
        settings: link.settings,
        text: link.text,
    };
    SymLink {
        directory: link.entry.directory,
        name: link.entry.name,
        link: new,
        spare: drawn.spare(),
    }
}

// RENAME of the one name to the other.
pub(crate) fn rename_of<'n>(old: NameIn<'n>, new: NameIn<'n>, drawn: &'n Drawn) -> Rename<'n>
    ensures source { result.source ≡ old.entry.directory }
    ensures name { result.name.now ≡ old.entry.name.now }
    ensures goal { result.goal ≡ new.entry.directory }
    ensures new_name { result.new_name.now ≡ new.entry.name.now }
{
    Rename {
        source: old.directory,
        name: old.name,
        goal: new.directory,
        new_name: new.name,
        blocks: &drawn.blocks,
    }
}
