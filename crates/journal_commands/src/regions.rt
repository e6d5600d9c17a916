// The layout that the words of a command line ask for.
ghost use Rattle.std.specs.Prelude.{◌≡◌, ◌≤◌, ◌%◌, ◌↔◌, ◌<◌, IsTrue, IsSome, IfSome, IfOk};
ghost use Rattle.std.specs.Option.{ForSome};
ghost use Rattle.journal_world.specs.Addresses.{are_regions};
ghost use Rattle.journal_world.specs.Files.{shape};
ghost use Rattle.journal_world.specs.declared.layout.TheConstants.{MIN_BLOCKS, MAX_LAYOUT_BLOCKS, MAX_SLOTS};
ghost use Rattle.journal_commands.specs.Layouts.{most_blocks, asked_shape, kind_name, told_or, AreSame};

use crate::fault::Fault;
use journal_world::{
    Kind, Layout, MAX_LAYOUT_BLOCKS, MAX_SLOTS, MIN_BLOCKS, REGIONS, RecordSize, Region, UNUSED,
};
use std::fmt;

// The sign between the first block of a region and its kind.
const SEPARATOR: char = ':';

// A region that is not in use.
const NONE: Region = Region {
    first: UNUSED,
    kind: Kind::Block,
};

/// The regions of a layout.
pub type Regions = [Region; REGIONS];

/// Regions as the words that name them, with spaces between them, or `none`.
#[derive(Clone, Copy, Debug)]
pub struct RegionWords(pub Option<Regions>);

impl fmt::Display for RegionWords {
    fn fmt<W: fmt::Write>(&self, f: &mut fmt::Formatter<W>) -> fmt::Result {
        let Some(regions) = self.0 else {
            return f.write_str("none");
        };
        let mut space = "";
        for region in regions.iter() {
            if region.first != UNUSED {
                let name = name_of(region.kind);
                write!(f, "{space}{}{SEPARATOR}{name}", region.first)?;
                space = " ";
            }
        }
        Ok(())
    }
}

/// The layout by which a disk is to be opened, whatever number of blocks it has.
#[derive(Clone, Copy, Debug)]
pub struct AskedLayout {
    // The regions, where any are named.
    regions: Option<Regions>,
    slots: u16,
    ghost rise: { ForSome regions (λ list. IsTrue (are_regions list)) },
    ghost odd: { slots % 2 ≡ 1 },
    ghost few: { slots ≤ MAX_SLOTS },
}

impl AskedLayout {
    /// The layout with these regions, each a word: its first block, a colon and the name of its
    /// kind. Without words they are those of files.
    ///
    /// # Errors
    /// The first of these that applies.
    /// - `BadSlots`: the number of slots is even or above 65521.
    /// - `TooManyRegions`: there are more words than regions of a layout.
    /// - `NoRegion`: a word is no region.
    /// - `BadRegions`: they do not begin at block 513, or do not rise.
    pub fn parse<'w>(words: Option<&[&'w str]>, slots: u16) -> Result<AskedLayout, Fault<'w>> {
        if slots % 2 == 0 || slots > MAX_SLOTS {
            return Err(Fault::BadSlots { slots });
        }
        let regions = match words {
            Some(words) => Some(parse_regions(words)?),
            None => None,
        };
        Ok(AskedLayout { regions, slots })
    }

    /// The regions that were named, if any were.
    pub fn regions(&self) -> Option<Regions>
        ensures { result ≡ self.now.regions }
    {
        self.regions
    }

    /// The same slots with the regions that a disk's label tells, where it tells any.
    ///
    /// # Errors
    /// - `OtherRegions`: the label has other ones than were named.
    pub fn with_told(self, told: Option<Regions>) -> Result<AskedLayout, OtherRegions>
        requires { ForSome told (λ list. IsTrue (are_regions list)) }
        ensures asked { IfOk result (λ asked. asked.regions ≡ told_or told self.regions) }
        ensures slots { IfOk result (λ asked. asked.slots ≡ self.slots) }
        ensures same { IfOk result (λ asked. AreSame told self.regions) }
    {
        let Some(told) = told else {
            return Ok(self);
        };
        let slots = self.slots;
        let regions = Some(told);
        match self.regions {
            None => Ok(AskedLayout { regions, slots }),
            Some(asked) => {
                if !are_same(&told, &asked) {
                    return Err(OtherRegions { told, asked });
                }
                Ok(AskedLayout { regions, slots })
            }
        }
    }

    /// The layout of a disk of so many blocks.
    ///
    /// `None` where there are fewer than 532 or more than 2^40 blocks, or without regions more than
    /// 33299.
    pub fn layout(&self, blocks: u64) -> Option<Layout>
        ensures valid { IsSome result ↔ ((MIN_BLOCKS ≤ blocks) × (blocks ≤ most_blocks self.now.regions)) }
        ensures value { IfSome result (λ layout. shape layout ≡ asked_shape self.now.regions self.now.slots blocks) }
    {
        let layout = match self.regions {
            Some(regions) => Layout::with_regions(blocks, regions)?,
            None => Layout::new(blocks)?,
        };
        layout.with_slots(self.slots)
    }
}

/// Regions that a disk's label tells, and others that were named.
#[derive(Clone, Copy, Debug)]
pub struct OtherRegions {
    /// Those of the label.
    pub told: Regions,
    /// Those that were named.
    pub asked: Regions,
}

/// The line after the path of the file and the word `regions`.
impl fmt::Display for OtherRegions {
    fn fmt<W: fmt::Write>(&self, f: &mut fmt::Formatter<W>) -> fmt::Result {
        let told = self.told;
        let asked = self.asked;
        let told = RegionWords(Some(told));
        let asked = RegionWords(Some(asked));
        write!(f, "{told} by its label, and not {asked}")
    }
}

/// The regions that the words name, which begin at block 513 and rise, or `None` without words.
///
/// # Errors
/// - Those of `AskedLayout::parse`, but for the number of slots.
pub fn named_regions<'w>(words: Option<&[&'w str]>) -> Result<Option<Regions>, Fault<'w>> {
    match words {
        Some(words) => Ok(Some(parse_regions(words)?)),
        None => Ok(None),
    }
}

// True if the regions are the same.
fn are_same(regions: &Regions, others: &Regions) -> bool
    ensures { IsTrue result ↔ (regions.now ≡ others.now) }
{
    for index in 0..REGIONS {
        if !is_same(regions[index], others[index]) {
            return false;
        }
    }
    true
}

// True if the region is the other one.
fn is_same(region: Region, other: Region) -> bool
    ensures { IsTrue result ↔ (region ≡ other) }
{
    region.first == other.first && region.kind.bits() == other.kind.bits()
}

// The regions that the words name, which begin at block 513 and rise.
fn parse_regions<'w>(words: &[&'w str]) -> Result<Regions, Fault<'w>>
    ensures { IfOk result (λ regions. IsTrue (are_regions regions)) }
{
    let mut regions = [NONE; REGIONS];
    for (index, text) in words.iter().enumerate() {
        let Some(place) = regions.get_mut(index) else {
            return Err(Fault::TooManyRegions);
        };
        let Some(region) = parse_region(text) else {
            return Err(Fault::NoRegion { text });
        };
        *place = region;
    }
    // Whether regions rise does not depend on the number of blocks.
    if Layout::with_regions(MIN_BLOCKS, regions).is_none() {
        return Err(Fault::BadRegions);
    }
    Ok(regions)
}

// The region that a word names. No disk has a block of 2^40, so none begins there.
fn parse_region(word: &str) -> Option<Region>
    ensures { IfSome result (λ region. region.first < MAX_LAYOUT_BLOCKS) }
{
    let (first, name) = word.split_once(SEPARATOR)?;
    let first: u64 = first.parse().ok()?;
    if first >= MAX_LAYOUT_BLOCKS {
        return None;
    }
    Some(Region {
        first,
        kind: kind_named(name)?,
    })
}

// The name of this kind.
fn name_of(kind: Kind) -> &'static str
    ensures { result.now ≡ kind_name kind }
{
    match kind {
        Kind::Bit => "bit",
        Kind::Record(RecordSize::Bytes8) => "record8",
        Kind::Record(RecordSize::Bytes16) => "record16",
        Kind::Record(RecordSize::Bytes32) => "record32",
        Kind::Record(RecordSize::Bytes64) => "record64",
        Kind::Record(RecordSize::Bytes128) => "record128",
        Kind::Record(RecordSize::Bytes256) => "record256",
        Kind::Record(RecordSize::Bytes512) => "record512",
        Kind::Record(RecordSize::Bytes1024) => "record1024",
        Kind::Record(RecordSize::Bytes2048) => "record2048",
        Kind::Block => "block",
    }
}

// The kind of this name.
fn kind_named(name: &str) -> Option<Kind>
    ensures { IfSome result (λ kind. name.now ≡ kind_name kind) }
{
    let kind = match name {
        "bit" => Kind::Bit,
        "record8" => Kind::Record(RecordSize::Bytes8),
        "record16" => Kind::Record(RecordSize::Bytes16),
        "record32" => Kind::Record(RecordSize::Bytes32),
        "record64" => Kind::Record(RecordSize::Bytes64),
        "record128" => Kind::Record(RecordSize::Bytes128),
        "record256" => Kind::Record(RecordSize::Bytes256),
        "record512" => Kind::Record(RecordSize::Bytes512),
        "record1024" => Kind::Record(RecordSize::Bytes1024),
        "record2048" => Kind::Record(RecordSize::Bytes2048),
        "block" => Kind::Block,
        _ => return None,
    };
    Some(kind)
}
