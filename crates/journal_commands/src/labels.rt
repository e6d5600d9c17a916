// The layout that the label of a disk names.
ghost use Rattle.std.specs.Prelude.{◌≡◌, IsTrue, IfSome};
ghost use Rattle.std.specs.Option.{ForSome};
ghost use Rattle.journal_world.specs.Addresses.{are_regions};
ghost use Rattle.journal_program.specs.Labels.{IsLabel};
ghost use Rattle.journal_commands.specs.Layouts.{told_of};

use crate::fault::Fault;
use crate::regions::{OtherRegions, Regions};
use journal_program::{DiskFacts, Label, UNTOLD};
use journal_world::Layout;

/// The label of a disk of `blocks` blocks, with the regions that were named. Where none were, these
/// are those of files if a disk of that size has them, and else the label has none.
///
/// `None` where no disk has `blocks` blocks, or no layout these regions.
pub fn label_of(blocks: u64, regions: Option<Regions>) -> Option<Label>
    ensures label { IfSome result IsLabel }
    ensures blocks { IfSome result (λ label. label.blocks ≡ blocks) }
{
    let regions = regions.or(regions_of_files(blocks));
    Label::new(blocks, regions.unwrap_or(UNTOLD))
}

/// The regions of files, on a disk of so few blocks that it may have them.
pub fn regions_of_files(blocks: u64) -> Option<Regions> {
    Some(Layout::new(blocks)?.regions)
}

/// The regions that the label of a disk tells, where it has one that tells any.
pub fn told(facts: &DiskFacts) -> Option<Regions>
    ensures told { result ≡ told_of facts.now.label }
    ensures rise { ForSome result (λ regions. IsTrue (are_regions regions)) }
{
    facts.label?.told()
}

/// Refuses a disk of the file service whose label tells other regions than those of files.
///
/// # Errors
/// - `OtherRegions`: the label has other ones.
pub fn refuse_other_regions<'w>(path: &'w str, facts: &DiskFacts) -> Result<(), Fault<'w>> {
    match (told(facts), regions_of_files(facts.blocks)) {
        (Some(told), Some(asked)) if told != asked => {
            let regions = OtherRegions { told, asked };
            Err(Fault::OtherRegions { path, regions })
        }
        _ => Ok(()),
    }
}
