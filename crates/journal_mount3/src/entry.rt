// The entries of a listing.
ghost use Rattle.std.specs.Prelude.{◌≡◌, ◌≤◌, ◌+◌, ◌%◌, OnOk, OnErr, List, ℕ, ◌++◌};
ghost use Rattle.journal_xdr.specs.Items.{Writes};
ghost use Rattle.journal_inode.specs.declared.version.FormatVersion.{FormatVersion};
ghost use Rattle.journal_nfs3_wire.specs.Arguments.{name};
ghost use Rattle.journal_nfs3_wire.specs.QueryResults.{entry};
ghost use Rattle.journal_mount3.specs.declared.page.TheConstants.{LAST_COOKIE};
ghost use Rattle.journal_mount3.specs.Entries.{file_name, entry_name, entry_of};

use crate::page::Entry;
use journal_filestore::Attributes;
use journal_inode::FormatVersion;
use journal_nfs3_wire::{write_after, write_handle};
use journal_xdr::{Element, Writer};
use std::alloc::AllocError;

// The cookie of the directory itself, and of the directory above it, which the root is too.
const ITSELF: u64 = 1;

pub(crate) const PARENT: u64 = 2;

// The generation of the root.
pub(crate) const ROOT_GENERATION: u32 = 1;

// The name of a file, of a number below 1000.
pub(crate) fn file_name(number: u32) -> [u8; 4]
    ensures { result ≡ file_name number }
{
    [
        b'f',
        last_digit(number / 100),
        last_digit(number / 10),
        last_digit(number),
    ]
}

// The last decimal digit of a number.
fn last_digit(number: u32) -> u8
    ensures { result ≡ 48 + number % 10 }
{
    b'0' + (number % 10) as u8
}

// Writes the name of an entry, which its cookie says.
fn write_name(writer: &mut Writer, cookie: u64) -> Result<(), AllocError>
    requires { (1 ≤ cookie) × (cookie ≤ LAST_COOKIE) }
    ensures ok { OnOk result (Writes name (entry_name cookie) writer.old writer.new) }
    ensures err { OnErr result (writer.new ≡ writer.old) }
{
    match cookie {
        ITSELF => writer.string(b"."),
        PARENT => writer.string(b".."),
        file => writer.string(&file_name((file - 1) as u32)),
    }
}

// Writes the number, the name and the cookie of an entry (RFC 1813, section 3.3.16, entry3).
#[tactic(auto, unfolding(journal_nfs3_wire::specs::QueryResults::entry))]
fn write_entry(writer: &mut Writer, shown: &Entry) -> Result<(), AllocError>
    ensures ok { OnOk result (Writes entry (entry_of shown.now) writer.old writer.new) }
    ensures err { OnErr result ((front : List ℕ) × (writer.new ≡ writer.old ++ front)) }
{
    writer.hyper(u64::from(shown.attributes.number))?;
    write_name(writer, shown.cookie)?;
    writer.hyper(shown.cookie)
}

// How an entry is shown in a listing.
pub(crate) trait Shown: Element {
    ghost use Rattle.journal_mount3.specs.declared.page.Entry.{Entry};

    // The entry that is shown.
    ghost entry_in: { Self → Entry };

    // It is of files of this version of the format, if it says of which.
    ghost shows: { FormatVersion → Self → Type 0 };

    // The entry, of files of a version of the format.
    fn show(version: FormatVersion, entry: Entry) -> Self
        ensures entry { entry_in result ≡ entry }
        ensures version { shows version result };
}

// An entry of READDIR.
#[derive(Clone, Copy, Debug, Drop)]
pub(crate) struct PlainEntry(pub Entry);

impl Shown for PlainEntry {
    ghost use Rattle.std.specs.Prelude.{⊤};

    ghost entry_in = { λ e. e.0 };

    ghost shows = { λ _ _. ⊤ };

    fn show(_version: FormatVersion, entry: Entry) -> PlainEntry {
        PlainEntry(entry)
    }
}

impl Element for PlainEntry {
    ghost use Rattle.journal_nfs3_wire.specs.QueryResults.{entry};
    ghost use Rattle.journal_mount3.specs.Entries.{entry_of};

    ghost spelling = { λ e. entry.spelling (entry_of e.0) };

    fn write(&self, writer: &mut Writer) -> Result<(), AllocError> {
        write_entry(writer, &self.0)
    }
}

// An entry of READDIRPLUS, with its attributes and its handle (RFC 1813, section 3.3.17,
// entryplus3).
#[derive(Clone, Copy, Debug, Drop)]
pub(crate) struct PlusEntry {
    pub version: FormatVersion,
    pub entry: Entry,
}

impl Shown for PlusEntry {
    ghost entry_in = { λ e. e.entry };

    ghost shows = { λ version e. e.version ≡ version };

    fn show(version: FormatVersion, entry: Entry) -> PlusEntry {
        PlusEntry { version, entry }
    }
}

impl Element for PlusEntry {
    ghost use Rattle.journal_mount3.specs.Entries.{entry_plus, entry_plus_of};

    ghost spelling = { λ e. entry_plus.spelling (entry_plus_of e.version e.entry) };

    #[tactic(auto, unfolding(crate::specs::Entries::entry_plus))]
    fn write(&self, writer: &mut Writer) -> Result<(), AllocError> {
        let Entry {
            generation,
            attributes,
            ..
        } = &self.entry;
        write_entry(writer, &self.entry)?;
        write_after(writer, self.version, attributes)?;
        writer.boolean(true)?;
        write_handle(writer, attributes.number, *generation)
    }
}
