// Writing the results of the procedures.
ghost use Rattle.std.specs.Prelude.{◌≡◌, OnOk, Some, None};
ghost use Rattle.journal_xdr.specs.Items.{Writes};
ghost use Rattle.journal_nfs3_wire.specs.Results.{fattr, post_op_attributes, change, read_results, write_results, commit_results, outcome, nothing};
ghost use Rattle.journal_nfs3_wire.specs.QueryResults.{access_results};
ghost use Rattle.journal_nfs3_wire.specs.Profile.{no_change, outcome_of};
ghost use Rattle.journal_treewire.specs.CodeViews.{access_seen, link_seen, read_seen};
ghost use Rattle.journal_treewire.specs.Profile.{fattr_of, change_of, found_of, write_of, made_of, renamed_of, no_changes, commit_of};
ghost use Rattle.journal_treewire.specs.Results.{found_results, link_results, made_results, refusal, two_changes, file_and_change};

use crate::attributes::{write_change, write_handle, write_some_told, write_told};
use crate::parts::{FilePart, ShortText};
use journal_nfs3_wire::{NfsError, StableHow, Untold, Verifier, write_status};
use journal_tree::{Changed, Found, Made, Renamed, Told};
use journal_treecalls::AccessReply;
use journal_xdr::Writer;
use std::alloc::AllocError;

// GETATTR (RFC 1813, section 3.3.1).
pub(crate) fn write_attributes_of(
    writer: &mut Writer,
    disk: u64,
    answer: &Result<Told, NfsError>,
) -> Result<(), AllocError>
    ensures { OnOk result (Writes (outcome fattr nothing) (outcome_of (fattr_of disk) tt answer.now) writer.old writer.new) }
{
    write_status(writer, answer, Untold::Nothing)?;
    let Ok(told) = answer else {
        return Ok(());
    };
    write_told(writer, disk, told)
}

// SETATTR, REMOVE and RMDIR (RFC 1813, sections 3.3.2, 3.3.12 and 3.3.13).
pub(crate) fn write_changed(
    writer: &mut Writer,
    disk: u64,
    answer: &Result<Changed, NfsError>,
) -> Result<(), AllocError>
    ensures { OnOk result (Writes (outcome change change) (outcome_of (change_of disk) no_change answer.now) writer.old writer.new) }
{
    write_status(writer, answer, Untold::Change)?;
    let Ok(changed) = answer else {
        return Ok(());
    };
    write_change(writer, disk, changed)
}

// LOOKUP (RFC 1813, section 3.3.3).
#[tactic(auto, unfolding(crate::specs::Results::found_results))]
pub(crate) fn write_found(
    writer: &mut Writer,
    disk: u64,
    answer: &Result<Found, NfsError>,
) -> Result<(), AllocError>
    ensures { OnOk result (Writes (outcome found_results post_op_attributes) (outcome_of (found_of disk) None answer.now) writer.old writer.new) }
{
    write_status(writer, answer, Untold::Attributes)?;
    let Ok(found) = answer else {
        return Ok(());
    };
    write_handle(writer, disk, found.node.number, found.generation)?;
    write_some_told(writer, disk, &found.node)?;
    write_some_told(writer, disk, &found.directory)
}

// ACCESS (RFC 1813, section 3.3.4).
#[tactic(auto, unfolding(journal_nfs3_wire::specs::QueryResults::access_results))]
pub(crate) fn write_access(
    writer: &mut Writer,
    disk: u64,
    answer: &Result<AccessReply, NfsError>,
) -> Result<(), AllocError>
    ensures { OnOk result (Writes (outcome access_results post_op_attributes) (outcome_of (access_seen disk) None answer.now) writer.old writer.new) }
{
    write_status(writer, answer, Untold::Attributes)?;
    let Ok(access) = answer else {
        return Ok(());
    };
    write_some_told(writer, disk, &access.node)?;
    writer.word(access.rights)
}

// READLINK (RFC 1813, section 3.3.5).
#[tactic(auto, unfolding(crate::specs::Results::link_results))]
pub(crate) fn write_link_text(
    writer: &mut Writer,
    disk: u64,
    answer: &Result<ShortText, NfsError>,
) -> Result<(), AllocError>
    ensures { OnOk result (Writes (outcome link_results post_op_attributes) (outcome_of (link_seen disk) None answer.now) writer.old writer.new) }
{
    write_status(writer, answer, Untold::Attributes)?;
    let Ok(text) = answer else {
        return Ok(());
    };
    let reply = &text.reply;
    write_some_told(writer, disk, &reply.node)?;
    writer.string(&reply.text)
}

// READ (RFC 1813, section 3.3.6).
#[tactic(auto, unfolding(journal_nfs3_wire::specs::Results::read_results))]
pub(crate) fn write_read(
    writer: &mut Writer,
    disk: u64,
    answer: &Result<FilePart, NfsError>,
) -> Result<(), AllocError>
    ensures { OnOk result (Writes (outcome read_results post_op_attributes) (outcome_of (read_seen disk) None answer.now) writer.old writer.new) }
{
    write_status(writer, answer, Untold::Attributes)?;
    let Ok(part) = answer else {
        return Ok(());
    };
    let reply = &part.reply;
    write_some_told(writer, disk, &reply.file)?;
    writer.word(reply.bytes.len() as u32)?;
    writer.boolean(reply.is_end)?;
    writer.opaque(&reply.bytes)
}

// WRITE (RFC 1813, section 3.3.7).
#[tactic(auto, unfolding(journal_nfs3_wire::specs::Results::write_results))]
pub(crate) fn write_write(
    writer: &mut Writer,
    disk: u64,
    answer: &Result<Changed, NfsError>,
    count: u32,
    how: StableHow,
    verifier: Verifier,
) -> Result<(), AllocError>
    ensures { OnOk result (Writes (outcome write_results change) (outcome_of (write_of disk count how verifier.0) no_change answer.now) writer.old writer.new) }
{
    write_status(writer, answer, Untold::Change)?;
    let Ok(changed) = answer else {
        return Ok(());
    };
    write_change(writer, disk, changed)?;
    writer.word(count)?;
    writer.enumeration(how.committed())?;
    writer.fixed(&verifier.0)
}

// CREATE, MKDIR, SYMLINK and MKNOD (RFC 1813, sections 3.3.8 to 3.3.11).
#[tactic(auto, unfolding(crate::specs::Results::made_results))]
pub(crate) fn write_made(
    writer: &mut Writer,
    disk: u64,
    answer: &Result<Made, NfsError>,
) -> Result<(), AllocError>
    ensures { OnOk result (Writes (outcome made_results change) (outcome_of (made_of disk) no_change answer.now) writer.old writer.new) }
{
    write_status(writer, answer, Untold::Change)?;
    let Ok(made) = answer else {
        return Ok(());
    };
    writer.boolean(true)?;
    write_handle(writer, disk, made.node.number, made.generation)?;
    write_some_told(writer, disk, &made.node)?;
    write_change(writer, disk, &made.directory)
}

// RENAME (RFC 1813, section 3.3.14).
#[tactic(auto, unfolding(crate::specs::Results::two_changes))]
pub(crate) fn write_renamed(
    writer: &mut Writer,
    disk: u64,
    answer: &Result<Renamed, NfsError>,
) -> Result<(), AllocError>
    ensures { OnOk result (Writes (outcome two_changes two_changes) (outcome_of (renamed_of disk) no_changes answer.now) writer.old writer.new) }
{
    write_status(writer, answer, Untold::Change)?;
    let Ok(renamed) = answer else {
        return write_no_change(writer);
    };
    write_change(writer, disk, &renamed.source)?;
    write_change(writer, disk, &renamed.goal)
}

// A change of which nothing is told (RFC 1813, section 2.5, wcc_data).
#[tactic(auto, unfolding(journal_nfs3_wire::specs::Results::change))]
fn write_no_change(writer: &mut Writer) -> Result<(), AllocError>
    ensures { OnOk result (Writes change no_change writer.old writer.new) }
{
    writer.boolean(false)?;
    writer.boolean(false)
}

// LINK, which is refused (RFC 1813, section 3.3.15), without attributes of either node.
#[tactic(auto, unfolding(journal_nfs3_wire::specs::Results::change))]
pub(crate) fn write_not_linked(writer: &mut Writer, why: NfsError) -> Result<(), AllocError>
    ensures { OnOk result (Writes (refusal file_and_change) (Some why, (None, no_change)) writer.old writer.new) }
{
    writer.word(why as u32)?;
    writer.boolean(false)?;
    writer.boolean(false)?;
    writer.boolean(false)
}

// COMMIT (RFC 1813, section 3.3.21).
#[tactic(auto, unfolding(journal_nfs3_wire::specs::Results::commit_results))]
pub(crate) fn write_commit(
    writer: &mut Writer,
    disk: u64,
    answer: &Result<Changed, NfsError>,
    verifier: Verifier,
) -> Result<(), AllocError>
    ensures { OnOk result (Writes (outcome commit_results change) (outcome_of (commit_of disk verifier.0) no_change answer.now) writer.old writer.new) }
{
    write_status(writer, answer, Untold::Change)?;
    let Ok(changed) = answer else {
        return Ok(());
    };
    write_change(writer, disk, changed)?;
    writer.fixed(&verifier.0)
}
