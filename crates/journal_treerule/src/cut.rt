// How a disk is cut, by its layout.
ghost use Rattle.std.specs.Prelude.{◌≡◌, ◌<◌, ◌≤◌, ◌+◌, ◌-◌, ◌*◌, ◌%◌, ◌↔◌, IsTrue, IfSome, Some};
ghost use Rattle.journal_world.specs.Files.{shape};
ghost use Rattle.journal_treestore.specs.declared.place.TheConstants.{BLOCK_INODES, MOST_NUMBERS};
ghost use Rattle.journal_treestore.specs.declared.place.Cut.{Cut};
ghost use Rattle.journal_treestore.specs.Places.{shape_of, IsCut};
ghost use Rattle.journal_treeobjects.specs.Maps.{IsWhole};
ghost use Rattle.journal_treerule.specs.Cuts.{first_at};

use journal_treestore::{BLOCK_INODES, Cut};
use journal_world::{Layout, REGIONS, Region, UNUSED};

// The places of the inodes and of the data among the regions of a layout, and once the disk grew
// those of the later blocks and of their records.
const INODES: usize = 2;

const DATA: usize = 3;

const LATER: usize = 4;

const LATER_OWNERS: usize = 5;

/// How a disk of this layout is cut, if it is one with a tree whose inodes fill their blocks.
pub fn cut_of_layout(layout: &Layout) -> Option<Cut>
    ensures is { IfSome result (λ cut. IsCut cut × IsWhole cut × (shape layout.now ≡ shape_of cut)) }
    ensures found { (cut : Cut) → IsCut cut → IsWhole cut → shape layout.now ≡ shape_of cut → result ≡ Some cut }
{
    let cut = guess(layout);
    if !cut.is_possible() {
        return None;
    }
    if !is_same(&cut.layout(), layout) {
        return None;
    }
    Some(cut)
}

// How a disk of this layout is cut, if it is one with a tree.
fn guess(layout: &Layout) -> Cut
    ensures whole { result.numbers ≤ MOST_NUMBERS → IsWhole result }
    ensures found { (cut : Cut) → IsCut cut → IsWhole cut → shape layout.now ≡ shape_of cut → result ≡ cut }
{
    let inodes = region_first(&layout.regions, INODES);
    let data = region_first(&layout.regions, DATA);
    let numbers = numbers_between(inodes, data);
    let base = region_first(&layout.regions, LATER);
    if base == UNUSED {
        return Cut::new(layout.blocks, numbers);
    }
    let blocks = region_first(&layout.regions, LATER_OWNERS);
    Cut {
        size: layout.blocks,
        blocks,
        numbers,
        base,
    }
}

// The first block of a region.
fn region_first(regions: &[Region; REGIONS], index: usize) -> u64
    requires { index < REGIONS }
    ensures { result ≡ first_at regions.now index }
{
    regions[index].first
}

// How many inodes lie between two blocks. Where there are more than any disk has, more than that.
fn numbers_between(first: u64, next: u64) -> u64
    ensures is { next ≤ first + MOST_NUMBERS → result ≡ BLOCK_INODES * (next - first) }
    ensures whole { result ≤ MOST_NUMBERS → result % BLOCK_INODES ≡ 0 }
{
    next.saturating_sub(first).saturating_mul(BLOCK_INODES)
}

// True if the two are one layout.
fn is_same(left: &Layout, right: &Layout) -> bool
    ensures { IsTrue result ↔ (shape left.now ≡ shape right.now) }
{
    let same = are_same(&left.regions, &right.regions);
    same && left.blocks == right.blocks && left.slots == right.slots
}

// True if the regions are the same.
fn are_same(regions: &[Region; REGIONS], others: &[Region; REGIONS]) -> bool
    ensures { IsTrue result ↔ (regions.now ≡ others.now) }
{
    for index in 0..REGIONS {
        if !is_same_region(regions[index], others[index]) {
            return false;
        }
    }
    true
}

// True if the two are one region. Kinds are compared by their bits.
fn is_same_region(region: Region, other: Region) -> bool
    ensures { IsTrue result ↔ (region ≡ other) }
{
    region.first == other.first && region.kind.bits() == other.kind.bits()
}
