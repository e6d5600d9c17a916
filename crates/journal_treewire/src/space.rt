// Writing the facts of a file system.
ghost use Rattle.std.specs.Prelude.{◌≡◌, OnOk, None};
ghost use Rattle.journal_xdr.specs.Items.{Writes};
ghost use Rattle.journal_nfs3_wire.specs.Profile.{outcome_of};
ghost use Rattle.journal_nfs3_wire.specs.QueryResults.{status_results, information_results, configuration_results};
ghost use Rattle.journal_nfs3_wire.specs.Results.{outcome, post_op_attributes};
ghost use Rattle.journal_treewire.specs.CodeViews.{information_seen, configuration_seen};
ghost use Rattle.journal_treewire.specs.Profile.{status_of, word_of};

use crate::attributes::write_some_told;
use journal_inode::Time;
use journal_nfs3_wire::{NfsError, Untold, write_status, write_time};
use journal_tree::Space;
use journal_treecalls::{FactsReply, NameFactsReply};
use journal_xdr::Writer;
use std::alloc::AllocError;

// FSSTAT (RFC 1813, section 3.3.18).
#[tactic(auto, unfolding(journal_nfs3_wire::specs::QueryResults::status_results))]
pub(crate) fn write_space(
    writer: &mut Writer,
    disk: u64,
    answer: &Result<Space, NfsError>,
) -> Result<(), AllocError>
    ensures { OnOk result (Writes (outcome status_results post_op_attributes) (outcome_of (status_of disk) None answer.now) writer.old writer.new) }
{
    write_status(writer, answer, Untold::Attributes)?;
    let Ok(space) = answer else {
        return Ok(());
    };
    write_some_told(writer, disk, &space.node)?;
    writer.hyper(space.total_bytes)?;
    writer.hyper(space.free_bytes)?;
    writer.hyper(space.free_bytes)?;
    writer.hyper(space.total_nodes)?;
    writer.hyper(space.free_nodes)?;
    writer.hyper(space.free_nodes)?;
    // They may change at once.
    writer.word(0)
}

// FSINFO (RFC 1813, section 3.3.19).
#[tactic(auto, unfolding(journal_nfs3_wire::specs::QueryResults::information_results))]
pub(crate) fn write_information(
    writer: &mut Writer,
    disk: u64,
    answer: &Result<FactsReply, NfsError>,
) -> Result<(), AllocError>
    ensures { OnOk result (Writes (outcome information_results post_op_attributes) (outcome_of (information_seen disk) None answer.now) writer.old writer.new) }
{
    write_status(writer, answer, Untold::Attributes)?;
    let Ok(facts) = answer else {
        return Ok(());
    };
    write_some_told(writer, disk, &facts.node)?;
    let multiple = word_of(facts.multiple);
    // Reading: the most bytes, the best number of them, and of what it is best a multiple.
    writer.word(facts.transfer)?;
    writer.word(facts.transfer)?;
    writer.word(multiple)?;
    // The same of writing, and the best number of bytes of a listing.
    writer.word(facts.transfer)?;
    writer.word(facts.transfer)?;
    writer.word(multiple)?;
    writer.word(facts.transfer)?;
    writer.hyper(facts.file)?;
    write_time(
        writer,
        Time {
            secs: facts.step_secs,
            nanos: facts.step_nanos,
        },
    )?;
    writer.word(facts.properties)
}

// PATHCONF (RFC 1813, section 3.3.20).
#[tactic(auto, unfolding(journal_nfs3_wire::specs::QueryResults::configuration_results))]
pub(crate) fn write_path_configuration(
    writer: &mut Writer,
    disk: u64,
    answer: &Result<NameFactsReply, NfsError>,
) -> Result<(), AllocError>
    ensures { OnOk result (Writes (outcome configuration_results post_op_attributes) (outcome_of (configuration_seen disk) None answer.now) writer.old writer.new) }
{
    write_status(writer, answer, Untold::Attributes)?;
    let Ok(facts) = answer else {
        return Ok(());
    };
    write_some_told(writer, disk, &facts.node)?;
    writer.word(facts.links)?;
    writer.word(word_of(facts.name as u64))?;
    writer.boolean(facts.refuses_long)?;
    writer.boolean(facts.owner_restricted)?;
    writer.boolean(facts.ignores_case)?;
    writer.boolean(facts.keeps_case)
}

// A number of 4 bytes. Greater ones count as the greatest.
fn word_of(number: u64) -> u32
    ensures { result ≡ word_of number }
{
    number.min(u64::from(u32::MAX)) as u32
}
