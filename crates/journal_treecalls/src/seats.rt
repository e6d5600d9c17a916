// The blocks of a directory, and where the entries of a node lie in them.
ghost use Rattle.std.specs.Prelude.{◌≡◌, ◌<◌, ◌≤◌, [], IfOk};
ghost use Rattle.journal_tree.specs.declared.limits.TheConstants.{MOST_BLOCKS};
ghost use Rattle.journal_treecalls.specs.Disks.{Learns};
ghost use Rattle.journal_treecalls.specs.Seats.{HasLevels, HasBlocks, IsWhole, AreWhole, number_of, block_count, is_at_home, places_of, AreInside};

use crate::TreeDisk;
use crate::index::index_block;
use crate::search::Hit;
use journal_tree::{BLOCK_BYTES, MOST_BLOCKS};
use journal_treestore::{DIRECT_BLOCKS, Head, PLACES, number_at};
use journal_world::Value;

// The numbers of a directory's blocks.
#[derive(Drop)]
pub(crate) struct BlockNumbers {
    // Those of its first blocks.
    pub(crate) first: [u32; DIRECT_BLOCKS],
    // The bytes of its first index block, which has the others, if it has one.
    pub(crate) levels: Option<Value>,
}

// Where an entry lies: which of the directory's blocks, its number, and the place in it.
#[derive(Clone, Copy)]
pub(crate) struct EntryPlace {
    pub(crate) j: u64,
    pub(crate) block: u32,
    pub(crate) at: usize,
}

// Where the entries of a node lie: that at its home's place, and its second one, if it has that.
#[derive(Clone, Copy)]
pub(crate) struct EntryPlaces {
    pub(crate) home: EntryPlace,
    pub(crate) second: Option<EntryPlace>,
}

// The numbers of a directory's blocks, which are read once for all.
pub(crate) fn block_numbers<T: TreeDisk>(
    disk: &mut T,
    directory: &Head,
) -> Result<BlockNumbers, T::Fault>
    requires first { T.writes disk.old ≡ [] }
    ensures learns { IfOk result (λ numbers. Learns (T.may_be disk.old) (T.may_be disk.new) (λ V. HasBlocks V directory.now numbers)) }
    ensures whole { IfOk result AreWhole }
    ensures first { T.writes disk.new ≡ [] }
{
    let levels = levels_of(disk, directory)?;
    Ok(BlockNumbers {
        first: directory.blocks,
        levels,
    })
}

// The bytes of the first index block of a directory, if it has one.
fn levels_of<T: TreeDisk>(disk: &mut T, directory: &Head) -> Result<Option<Value>, T::Fault>
    requires first { T.writes disk.old ≡ [] }
    ensures learns { IfOk result (λ levels. Learns (T.may_be disk.old) (T.may_be disk.new) (λ V. HasLevels V directory.now levels)) }
    ensures whole { IfOk result IsWhole }
    ensures first { T.writes disk.new ≡ [] }
{
    let number = index_block(disk, directory, 0)?;
    if number == 0 {
        return Ok(None);
    }
    let levels = disk.block(number)?;
    Ok(Some(levels))
}

impl BlockNumbers {
    // The number of block j of the directory, 0 where it has none.
    pub(crate) fn number(&self, j: u64) -> u32
        requires whole { AreWhole self.now }
        ensures { result ≡ number_of self.now j }
    {
        if MOST_BLOCKS <= j {
            return 0;
        }
        let at = j as usize;
        if at < DIRECT_BLOCKS {
            return self.first[at];
        }
        match &self.levels {
            None => 0,
            Some(levels) => number_at(levels.bytes(), at - DIRECT_BLOCKS),
        }
    }
}

// How many blocks a directory has, and holes among them.
pub(crate) fn block_count(directory: &Head) -> u64
    ensures is { result ≡ block_count directory.now }
    ensures few { result ≤ MOST_BLOCKS }
{
    (directory.size / BLOCK_BYTES).min(MOST_BLOCKS)
}

// Where the entries of a node lie that was found.
pub(crate) fn places_of(numbers: &BlockNumbers, hit: &Hit) -> EntryPlaces
    requires whole { AreWhole numbers.now }
    requires inside { hit.now.at < PLACES }
    ensures is { result ≡ places_of numbers.now hit.now }
    ensures inside { AreInside result }
{
    let j = u64::from(hit.head.place) / PLACES as u64;
    let home = EntryPlace {
        j,
        block: numbers.number(j),
        at: hit.head.place as usize % PLACES,
    };
    let second = if is_at_home(hit) {
        None
    } else {
        Some(EntryPlace {
            j: hit.j,
            block: hit.block,
            at: hit.at,
        })
    };
    EntryPlaces { home, second }
}

// True if the entry that was found lies at the place of its node's home.
pub(crate) fn is_at_home(hit: &Hit) -> bool
    ensures { result ≡ is_at_home hit.now }
{
    let place = hit.head.place;
    hit.j == u64::from(place) / PLACES as u64 && hit.at == place as usize % PLACES
}
