// Writing listings.
ghost use Rattle.std.specs.Prelude.{◌≡◌, ◌++◌, OnOk, None, false, flat_map};
ghost use Rattle.journal_xdr.specs.Basic.{boolean};
ghost use Rattle.journal_xdr.specs.Items.{Writes};
ghost use Rattle.journal_nfs3_wire.specs.Profile.{outcome_of};
ghost use Rattle.journal_nfs3_wire.specs.QueryResults.{entry, page_results};
ghost use Rattle.journal_nfs3_wire.specs.Results.{outcome, post_op_attributes};
ghost use Rattle.journal_treewire.specs.CodeViews.{line_seen, line_plus_seen, list_seen, list_plus_seen, line_text, line_plus_text};
ghost use Rattle.journal_treewire.specs.Results.{entry_plus};

use crate::attributes::{write_handle, write_optional_told, write_some_told};
use crate::parts::Lines;
use journal_nfs3_wire::{NfsError, Untold, write_status};
use journal_treecalls::Line;
use journal_xdr::Writer;
use std::alloc::AllocError;

// The verifier of each cookie, because no cookie ends.
const COOKIE_VERIFIER: [u8; 8] = [0; 8];

// READDIR (RFC 1813, section 3.3.16).
#[tactic(auto, unfolding(journal_nfs3_wire::specs::QueryResults::page_results))]
pub(crate) fn write_lines(
    writer: &mut Writer,
    disk: u64,
    answer: &Result<Lines, NfsError>,
) -> Result<(), AllocError>
    ensures { OnOk result (Writes (outcome (page_results entry) post_op_attributes) (outcome_of (list_seen disk) None answer.now) writer.old writer.new) }
{
    write_status(writer, answer, Untold::Attributes)?;
    let Ok(lines) = answer else {
        return Ok(());
    };
    let reply = &lines.reply;
    write_some_told(writer, disk, &reply.directory)?;
    writer.fixed(&COOKIE_VERIFIER)?;
    write_each(writer, &reply.lines)?;
    writer.boolean(reply.is_end)
}

// READDIRPLUS (RFC 1813, section 3.3.17).
#[tactic(auto, unfolding(journal_nfs3_wire::specs::QueryResults::page_results))]
pub(crate) fn write_lines_plus(
    writer: &mut Writer,
    disk: u64,
    answer: &Result<Lines, NfsError>,
) -> Result<(), AllocError>
    ensures { OnOk result (Writes (outcome (page_results entry_plus) post_op_attributes) (outcome_of (list_plus_seen disk) None answer.now) writer.old writer.new) }
{
    write_status(writer, answer, Untold::Attributes)?;
    let Ok(lines) = answer else {
        return Ok(());
    };
    let reply = &lines.reply;
    write_some_told(writer, disk, &reply.directory)?;
    writer.fixed(&COOKIE_VERIFIER)?;
    write_each_plus(writer, disk, &reply.lines)?;
    writer.boolean(reply.is_end)
}

// Writes lines, each after `true`, and `false` after the last.
fn write_each(writer: &mut Writer, lines: &[Line]) -> Result<(), AllocError>
    ensures { OnOk result (writer.new ≡ writer.old ++ (flat_map line_text lines.now ++ boolean.spelling false)) }
{
    for line in lines {
        writer.boolean(true)?;
        write_line(writer, line)?;
    }
    writer.boolean(false)
}

// The same with attributes and handles.
fn write_each_plus(writer: &mut Writer, disk: u64, lines: &[Line]) -> Result<(), AllocError>
    ensures { OnOk result (writer.new ≡ writer.old ++ (flat_map (line_plus_text disk) lines.now ++ boolean.spelling false)) }
{
    for line in lines {
        writer.boolean(true)?;
        write_line_plus(writer, disk, line)?;
    }
    writer.boolean(false)
}

// Writes the number, the name and the cookie of a line (RFC 1813, section 3.3.16, entry3).
#[tactic(auto, unfolding(journal_nfs3_wire::specs::QueryResults::entry))]
fn write_line(writer: &mut Writer, line: &Line) -> Result<(), AllocError>
    ensures { OnOk result (Writes entry (line_seen line.now) writer.old writer.new) }
{
    writer.hyper(u64::from(line.number))?;
    writer.string(&line.name[..usize::from(line.name_bytes)])?;
    writer.hyper(line.cookie)
}

// The same with its attributes and its handle (RFC 1813, section 3.3.17, entryplus3).
#[tactic(auto, unfolding(crate::specs::Results::entry_plus))]
fn write_line_plus(writer: &mut Writer, disk: u64, line: &Line) -> Result<(), AllocError>
    ensures { OnOk result (Writes entry_plus (line_plus_seen disk line.now) writer.old writer.new) }
{
    write_line(writer, line)?;
    write_optional_told(writer, disk, &line.node)?;
    writer.boolean(true)?;
    write_handle(writer, disk, line.number, line.generation)
}
