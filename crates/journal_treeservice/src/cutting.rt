// How a disk in a file is cut.
ghost use Rattle.journal_treestore.specs.Places.{IsCut};
ghost use Rattle.journal_treeobjects.specs.Maps.{IsWhole};

use journal_program::DiskFacts;
use journal_treerule::cut_of_layout;
use journal_treestore::{Cut, TREE_SLOTS};
use journal_world::Layout;

/// How a disk is cut that may be mounted as one with a tree.
#[derive(Clone, Copy, Debug)]
pub struct TreeCut {
    pub cut: Cut,
    pub ghost possible: { IsCut cut },
    pub ghost whole: { IsWhole cut },
}

/// How the disk with these facts is cut, by the regions of its label. A mount refuses it where its
/// description says something else.
///
/// `None` where it has no label or one without regions, or with other ones than those of a tree.
pub fn cut_of(facts: &DiskFacts) -> Option<TreeCut> {
    let regions = facts.label?.told()?;
    let layout = Layout::with_regions(facts.blocks, regions)?.with_slots(TREE_SLOTS)?;
    let cut = cut_of_layout(&layout)?;
    Some(TreeCut { cut })
}
