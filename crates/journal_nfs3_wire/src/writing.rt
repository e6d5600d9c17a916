// Writing the results of the procedures.
ghost use Rattle.std.specs.Prelude.{◌≡◌, ◌++◌, List, ℕ, OnOk, OnErr, Some, None};
ghost use Rattle.journal_xdr.specs.Items.{Writes};
ghost use Rattle.journal_nfs3_wire.specs.Arguments.{time};
ghost use Rattle.journal_nfs3_wire.specs.Results.{given_handle, fattr, post_op_attributes, before, change, lookup_results, read_results, write_results, create_results, commit_results, outcome, nothing};
ghost use Rattle.journal_nfs3_wire.specs.Attributes.{attributes_told};
ghost use Rattle.journal_nfs3_wire.specs.Profile.{used_bytes, fattr_of, before_of, change_of, unchanged_of, no_change, lookup_of, read_results_of, write_of, create_of, commit_of, outcome_of, status_text};

use crate::arguments::StableHow;
use crate::attributes::{FileAttributes, write_file_attributes};
use crate::handle::HANDLE_MARK;
use crate::results::{NfsError, Verifier};
use journal_file_types::{Attributes, Changed, Found, Portion};
use journal_inode::{FormatVersion, Time};
use journal_world::BLOCK_BYTES;
use journal_xdr::Writer;
use std::alloc::AllocError;

// The status of a procedure that is not refused (RFC 1813, section 2.6, NFS3_OK).
const OK: u32 = 0;

// The bytes of a handle.
const HANDLE_LENGTH: u32 = 12;

// The number of the root directory's inode.
const ROOT: u32 = 1;

// The only file system.
const FILE_SYSTEM: u64 = 1;

// The difference between files and the root, beside the fields of a file: the type (RFC 1813,
// section 2.5, ftype3), the mode and the number of links.
#[derive(Clone, Copy)]
struct Shape {
    kind: u32,
    mode: u32,
    links: u32,
}

const FILE_SHAPE: Shape = Shape {
    kind: 1,
    mode: 0o644,
    links: 1,
};

const ROOT_SHAPE: Shape = Shape {
    kind: 2,
    mode: 0o755,
    links: 2,
};

/// The other facts of files in a procedure's results, which a refusal leaves out.
#[derive(Clone, Copy)]
pub enum Untold {
    Nothing,
    Attributes,
    Change,
}

/// Writes a time (RFC 1813, section 2.5, nfstime3).
///
/// # Errors
/// - Memory is refused. Part of the bytes may be written.
#[tactic(auto, unfolding(crate::specs::Arguments::time))]
pub fn write_time(writer: &mut Writer, value: Time) -> Result<(), AllocError>
    ensures ok { OnOk result (Writes time value writer.old writer.new) }
    ensures err { OnErr result ((front : List ℕ) × (writer.new ≡ writer.old ++ front)) }
{
    writer.word(value.secs)?;
    writer.word(value.nanos)
}

// A size above the version's most counts as that most: no sound file has one, and the used bytes of
// 2^64 bytes would not fit in 8 bytes.
/// The number of bytes of the blocks of a file of this size. No file has more bytes than its
/// version's most.
pub fn used_bytes(version: FormatVersion, size: u64) -> u64
    ensures { result ≡ used_bytes version size }
{
    let more = version.extra_count(size.min(version.most_bytes()));
    BLOCK_BYTES as u64 * (1 + more as u64)
}

// The attributes of a file or of the root.
fn file_attributes(version: FormatVersion, attributes: &Attributes) -> FileAttributes
    ensures { attributes_told result ≡ fattr_of version attributes.now }
{
    let (shape, used) = if attributes.number == ROOT {
        (ROOT_SHAPE, 0)
    } else {
        (FILE_SHAPE, used_bytes(version, attributes.size))
    };
    FileAttributes {
        kind: shape.kind,
        mode: shape.mode,
        links: shape.links,
        uid: 0,
        gid: 0,
        size: attributes.size,
        used,
        fsid: FILE_SYSTEM,
        fileid: u64::from(attributes.number),
        atime: attributes.mtime,
        mtime: attributes.mtime,
        ctime: attributes.mtime,
    }
}

// Writes the attributes of a file or of the root (RFC 1813, section 2.5, fattr3).
fn write_attributes(
    writer: &mut Writer,
    version: FormatVersion,
    attributes: &Attributes,
) -> Result<(), AllocError>
    ensures ok { OnOk result (Writes fattr (fattr_of version attributes.now) writer.old writer.new) }
    ensures err { OnErr result ((front : List ℕ) × (writer.new ≡ writer.old ++ front)) }
{
    write_file_attributes(writer, &file_attributes(version, attributes))
}

/// Writes attributes that are there (RFC 1813, section 2.5, post_op_attr).
///
/// # Errors
/// - Memory is refused. Part of the bytes may be written.
pub fn write_after(
    writer: &mut Writer,
    version: FormatVersion,
    attributes: &Attributes,
) -> Result<(), AllocError>
    ensures ok { OnOk result (Writes post_op_attributes (Some (fattr_of version attributes.now)) writer.old writer.new) }
    ensures err { OnErr result ((front : List ℕ) × (writer.new ≡ writer.old ++ front)) }
{
    writer.boolean(true)?;
    write_attributes(writer, version, attributes)
}

// Writes the attributes before a change (RFC 1813, section 2.5, wcc_attr).
#[tactic(auto, unfolding(crate::specs::Results::before))]
fn write_before(writer: &mut Writer, attributes: &Attributes) -> Result<(), AllocError>
    ensures { OnOk result (Writes before (before_of attributes.now) writer.old writer.new) }
{
    writer.hyper(attributes.size)?;
    write_time(writer, attributes.mtime)?;
    write_time(writer, attributes.mtime)
}

// Writes a change (RFC 1813, section 2.5, wcc_data).
#[tactic(auto, unfolding(crate::specs::Results::change))]
fn write_change(
    writer: &mut Writer,
    version: FormatVersion,
    changed: &Changed,
) -> Result<(), AllocError>
    ensures { OnOk result (Writes change (change_of version changed.now) writer.old writer.new) }
{
    writer.boolean(true)?;
    write_before(writer, &changed.before)?;
    write_after(writer, version, &changed.after)
}

/// Writes a handle (RFC 1813, section 2.4, nfs_fh3).
///
/// # Errors
/// - Memory is refused. Part of the bytes may be written.
pub fn write_handle(writer: &mut Writer, number: u32, generation: u32) -> Result<(), AllocError>
    ensures ok { OnOk result (Writes given_handle (record { number = number; generation = generation }) writer.old writer.new) }
    ensures err { OnErr result ((front : List ℕ) × (writer.new ≡ writer.old ++ front)) }
{
    writer.word(HANDLE_LENGTH)?;
    writer.word(HANDLE_MARK)?;
    writer.word(number)?;
    writer.word(generation)
}

// Writes that nothing changed.
fn write_no_change(
    writer: &mut Writer,
    version: FormatVersion,
    attributes: &Attributes,
) -> Result<(), AllocError>
    ensures { OnOk result (Writes change (unchanged_of version attributes.now) writer.old writer.new) }
{
    write_change(
        writer,
        version,
        &Changed {
            before: *attributes,
            after: *attributes,
        },
    )
}

// For each procedure: a trait with a type for each takes more lines than it saves.
/// Writes the status of an outcome, and after one that refuses that the other facts are left out.
///
/// # Errors
/// - Memory is refused. Part of the bytes may be written.
#[tactic(auto, unfolding(crate::specs::Results::change))]
pub fn write_status<T>(
    writer: &mut Writer,
    outcome: &Result<T, NfsError>,
    untold: Untold,
) -> Result<(), AllocError>
    ensures { OnOk result (writer.new ≡ writer.old ++ status_text untold outcome.now) }
{
    let Err(why) = outcome else {
        return writer.word(OK);
    };
    writer.word(*why as u32)?;
    match untold {
        Untold::Nothing => Ok(()),
        Untold::Attributes => writer.boolean(false),
        Untold::Change => {
            writer.boolean(false)?;
            writer.boolean(false)
        }
    }
}

// GETATTR (RFC 1813, section 3.3.1).
pub(crate) fn write_get_attributes(
    writer: &mut Writer,
    version: FormatVersion,
    answer: &Result<Attributes, NfsError>,
) -> Result<(), AllocError>
    ensures { OnOk result (Writes (outcome fattr nothing) (outcome_of (fattr_of version) tt answer.now) writer.old writer.new) }
{
    write_status(writer, answer, Untold::Nothing)?;
    let Ok(file) = answer else {
        return Ok(());
    };
    write_attributes(writer, version, file)
}

// SETATTR (RFC 1813, section 3.3.2).
pub(crate) fn write_set_attributes(
    writer: &mut Writer,
    version: FormatVersion,
    answer: &Result<Changed, NfsError>,
) -> Result<(), AllocError>
    ensures { OnOk result (Writes (outcome change change) (outcome_of (change_of version) no_change answer.now) writer.old writer.new) }
{
    write_status(writer, answer, Untold::Change)?;
    let Ok(changed) = answer else {
        return Ok(());
    };
    write_change(writer, version, changed)
}

// LOOKUP (RFC 1813, section 3.3.3).
#[tactic(auto, unfolding(crate::specs::Results::lookup_results))]
pub(crate) fn write_lookup(
    writer: &mut Writer,
    version: FormatVersion,
    answer: &Result<Found, NfsError>,
) -> Result<(), AllocError>
    ensures { OnOk result (Writes (outcome lookup_results post_op_attributes) (outcome_of (lookup_of version) None answer.now) writer.old writer.new) }
{
    write_status(writer, answer, Untold::Attributes)?;
    let Ok(found) = answer else {
        return Ok(());
    };
    write_handle(writer, found.file.number, found.generation)?;
    write_after(writer, version, &found.file)?;
    write_after(writer, version, &found.root)
}

// READ (RFC 1813, section 3.3.6).
#[tactic(auto, unfolding(crate::specs::Results::read_results))]
pub(crate) fn write_read(
    writer: &mut Writer,
    version: FormatVersion,
    answer: &Result<Portion, NfsError>,
) -> Result<(), AllocError>
    ensures { OnOk result (Writes (outcome read_results post_op_attributes) (outcome_of (read_results_of version) None answer.now) writer.old writer.new) }
{
    write_status(writer, answer, Untold::Attributes)?;
    let Ok(portion) = answer else {
        return Ok(());
    };
    let bytes = portion.bytes();
    write_after(writer, version, &portion.file())?;
    writer.word(bytes.len() as u32)?;
    writer.boolean(portion.is_end())?;
    writer.opaque(bytes)
}

// WRITE (RFC 1813, section 3.3.7).
#[tactic(auto, unfolding(crate::specs::Results::write_results))]
pub(crate) fn write_write(
    writer: &mut Writer,
    version: FormatVersion,
    answer: &Result<Changed, NfsError>,
    count: u32,
    how: StableHow,
    verifier: Verifier,
) -> Result<(), AllocError>
    ensures { OnOk result (Writes (outcome write_results change) (outcome_of (write_of version count how verifier.0) no_change answer.now) writer.old writer.new) }
{
    write_status(writer, answer, Untold::Change)?;
    let Ok(changed) = answer else {
        return Ok(());
    };
    write_change(writer, version, changed)?;
    writer.word(count)?;
    writer.enumeration(how.committed())?;
    writer.fixed(&verifier.0)
}

// CREATE (RFC 1813, section 3.3.8).
#[tactic(auto, unfolding(crate::specs::Results::create_results))]
pub(crate) fn write_create(
    writer: &mut Writer,
    version: FormatVersion,
    answer: &Result<Found, NfsError>,
) -> Result<(), AllocError>
    ensures { OnOk result (Writes (outcome create_results change) (outcome_of (create_of version) no_change answer.now) writer.old writer.new) }
{
    write_status(writer, answer, Untold::Change)?;
    let Ok(found) = answer else {
        return Ok(());
    };
    writer.boolean(true)?;
    write_handle(writer, found.file.number, found.generation)?;
    write_after(writer, version, &found.file)?;
    write_no_change(writer, version, &found.root)
}

// REMOVE (RFC 1813, section 3.3.12).
pub(crate) fn write_remove(
    writer: &mut Writer,
    version: FormatVersion,
    answer: &Result<Attributes, NfsError>,
) -> Result<(), AllocError>
    ensures { OnOk result (Writes (outcome change change) (outcome_of (unchanged_of version) no_change answer.now) writer.old writer.new) }
{
    write_status(writer, answer, Untold::Change)?;
    let Ok(root) = answer else {
        return Ok(());
    };
    write_no_change(writer, version, root)
}

// COMMIT (RFC 1813, section 3.3.21).
#[tactic(auto, unfolding(crate::specs::Results::commit_results))]
pub(crate) fn write_commit(
    writer: &mut Writer,
    version: FormatVersion,
    answer: &Result<Attributes, NfsError>,
    verifier: Verifier,
) -> Result<(), AllocError>
    ensures { OnOk result (Writes (outcome commit_results change) (outcome_of (commit_of version verifier.0) no_change answer.now) writer.old writer.new) }
{
    write_status(writer, answer, Untold::Change)?;
    let Ok(file) = answer else {
        return Ok(());
    };
    write_no_change(writer, version, file)?;
    writer.fixed(&verifier.0)
}
