// A hello, and its answer.
ghost use Rattle.std.specs.Prelude.{◌≡◌, ◌++◌, IfOk, OnOk};
ghost use Rattle.journal_world.specs.Files.{shape};
ghost use Rattle.journal_history.specs.Tokens.{SessionState};
ghost use Rattle.journal_port.specs.Answers.{IsHelloAnswer, TellsOpening, told_regions, told_region};

use crate::respond::Terms;
use journal_records::{Answer, ObjectRegion, Opening, Refused, Version};
use journal_tail::MAX_UPDATES;
use journal_world::{Region, UNUSED};
use journal_xdr::Enumeration;
use std::alloc::{AllocError, Global};

// Says in the version that is asked for what the disk is.
pub(crate) fn greet(alloc: Global, terms: Terms, version: u32) -> Answer
    ensures { (session : SessionState) → IsHelloAnswer (shape terms.layout) terms.number version session session result }
{
    match Version::from_number(version) {
        Some(Version::One) => Answer::Hello {
            blocks: terms.layout.blocks,
        },
        Some(Version::Two) => match opening_of(alloc, terms) {
            Ok(opening) => Answer::Opening(opening),
            Err(_) => Answer::Refused(Refused::NoMemory),
        },
        None => Answer::Refused(Refused::OtherVersion),
    }
}

// The opening by these terms.
fn opening_of(alloc: Global, terms: Terms) -> Result<Opening, AllocError>
    ensures { IfOk result (TellsOpening (shape terms.layout) terms.number) }
{
    let layout = terms.layout;
    Ok(Opening {
        blocks: layout.blocks,
        number: terms.number,
        slots: u32::from(layout.slots),
        most_blocks: MAX_UPDATES as u32,
        regions: regions_of(alloc, &layout.regions)?,
    })
}

// Those of the regions that are in use.
fn regions_of(alloc: Global, regions: &[Region]) -> Result<Vec<ObjectRegion>, AllocError>
    ensures { IfOk result (λ told. told.items ≡ told_regions regions.now) }
{
    let mut told = Vec::new(alloc);
    for region in regions {
        add_region(&mut told, *region)?;
    }
    Ok(told)
}

// Adds the region, if it is in use.
fn add_region(told: &mut Vec<ObjectRegion>, region: Region) -> Result<(), AllocError>
    ensures { OnOk result (told.new.items ≡ told.old.items ++ told_region region) }
{
    if region.first == UNUSED {
        return Ok(());
    }
    told.push(ObjectRegion {
        first: region.first,
        bits: region.kind.bits(),
    })?;
    Ok(())
}
