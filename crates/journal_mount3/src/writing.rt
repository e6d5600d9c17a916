// Writing the results of the procedures beside the nine.
ghost use Rattle.std.specs.Prelude.{◌≡◌, ◌++◌, OnOk};
ghost use Rattle.journal_xdr.specs.Items.{Writes};
ghost use Rattle.journal_nfs3_wire.specs.QueryResults.{access_results, status_results, information_results, configuration_results};
ghost use Rattle.journal_mount3.specs.Results.{told};
ghost use Rattle.journal_mount3.specs.Served.{information_of, configuration_of};
ghost use Rattle.journal_mount3.specs.CodeViews.{told_of, access_seen, status_seen, listing_text};

use crate::entry::Shown;
use crate::page::Listing;
use crate::results::{Granted, SpaceUse};
use journal_filestore::Attributes;
use journal_inode::{FormatVersion, Time};
use journal_nfs3_wire::{NfsError, Untold, write_after, write_status, write_time};
use journal_xdr::Writer;
use std::alloc::AllocError;

// The verifier of each cookie, since no cookie ends.
const COOKIE_VERIFIER: [u8; 8] = [0; 8];

// The most bytes that are read, written or listed at once, and of what they should be multiples.
const MOST_BYTES: u32 = 8192;

const READ_MULTIPLE: u32 = 1;

const WRITE_MULTIPLE: u32 = 4096;

// The times of files are kept to the nanosecond.
const TIME_DELTA: Time = Time { secs: 0, nanos: 1 };

// The facts of the file system (RFC 1813, section 3.3.19): PATHCONF tells the same of each file,
// and times can be set.
const PROPERTIES: u32 = 0x18;

// How many files there are at most.
const MOST_FILES: u64 = 510;

// The most bytes of a name, and the most links of a file.
const NAME_BYTES: u32 = 4;

const MOST_LINKS: u32 = 1;

// ACCESS (RFC 1813, section 3.3.4).
#[tactic(auto, unfolding(journal_nfs3_wire::specs::QueryResults::access_results))]
pub(crate) fn write_access(
    writer: &mut Writer,
    version: FormatVersion,
    answer: &Result<Granted, NfsError>,
) -> Result<(), AllocError>
    ensures { OnOk result (Writes (told access_results) (told_of (access_seen version) answer.now) writer.old writer.new) }
{
    write_status(writer, answer, Untold::Attributes)?;
    let Ok(granted) = answer else {
        return Ok(());
    };
    write_after(writer, version, &granted.attributes)?;
    writer.word(granted.rights)
}

// READDIR and READDIRPLUS (RFC 1813, sections 3.3.16 and 3.3.17).
pub(crate) fn write_listing<E: Shown + Drop>(
    writer: &mut Writer,
    answer: &Result<Listing<E>, NfsError>,
) -> Result<(), AllocError>
    ensures { OnOk result (writer.new ≡ writer.old ++ listing_text E.spelling answer.now) }
{
    write_status(writer, answer, Untold::Attributes)?;
    let Ok(listing) = answer else {
        return Ok(());
    };
    // Nothing is told of the root. A client that saw other times of it with each page would begin
    // its listing anew.
    writer.boolean(false)?;
    writer.fixed(&COOKIE_VERIFIER)?;
    writer.list(&listing.entries)?;
    writer.boolean(listing.is_end)
}

// FSSTAT (RFC 1813, section 3.3.18).
#[tactic(auto, unfolding(journal_nfs3_wire::specs::QueryResults::status_results))]
pub(crate) fn write_use(
    writer: &mut Writer,
    version: FormatVersion,
    answer: &Result<SpaceUse, NfsError>,
) -> Result<(), AllocError>
    ensures { OnOk result (Writes (told status_results) (told_of (status_seen version) answer.now) writer.old writer.new) }
{
    write_status(writer, answer, Untold::Attributes)?;
    let Ok(space) = answer else {
        return Ok(());
    };
    write_after(writer, version, &space.attributes)?;
    let free = space.bytes.saturating_sub(space.used);
    let free_files = MOST_FILES.saturating_sub(space.files);
    writer.hyper(space.bytes)?;
    writer.hyper(free)?;
    writer.hyper(free)?;
    writer.hyper(MOST_FILES)?;
    writer.hyper(free_files)?;
    writer.hyper(free_files)?;
    // They may change at once.
    writer.word(0)
}

// FSINFO (RFC 1813, section 3.3.19).
#[tactic(auto, unfolding(journal_nfs3_wire::specs::QueryResults::information_results))]
pub(crate) fn write_information(
    writer: &mut Writer,
    version: FormatVersion,
    answer: &Result<Attributes, NfsError>,
) -> Result<(), AllocError>
    ensures { OnOk result (Writes (told information_results) (told_of (information_of version) answer.now) writer.old writer.new) }
{
    write_status(writer, answer, Untold::Attributes)?;
    let Ok(attributes) = answer else {
        return Ok(());
    };
    write_after(writer, version, attributes)?;
    writer.word(MOST_BYTES)?;
    writer.word(MOST_BYTES)?;
    writer.word(READ_MULTIPLE)?;
    writer.word(MOST_BYTES)?;
    writer.word(MOST_BYTES)?;
    writer.word(WRITE_MULTIPLE)?;
    writer.word(MOST_BYTES)?;
    writer.hyper(version.most_bytes())?;
    write_time(writer, TIME_DELTA)?;
    writer.word(PROPERTIES)
}

// PATHCONF (RFC 1813, section 3.3.20).
#[tactic(auto, unfolding(journal_nfs3_wire::specs::QueryResults::configuration_results))]
pub(crate) fn write_path_configuration(
    writer: &mut Writer,
    version: FormatVersion,
    answer: &Result<Attributes, NfsError>,
) -> Result<(), AllocError>
    ensures { OnOk result (Writes (told configuration_results) (told_of (configuration_of version) answer.now) writer.old writer.new) }
{
    write_status(writer, answer, Untold::Attributes)?;
    let Ok(attributes) = answer else {
        return Ok(());
    };
    write_after(writer, version, attributes)?;
    writer.word(MOST_LINKS)?;
    writer.word(NAME_BYTES)?;
    // A longer name is refused, nobody may give a file away, and case tells names apart and is
    // kept.
    writer.boolean(true)?;
    writer.boolean(true)?;
    writer.boolean(false)?;
    writer.boolean(true)
}
