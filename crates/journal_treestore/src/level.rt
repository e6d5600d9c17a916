// The levels of a directory.
ghost use Rattle.std.specs.Prelude.{◌≡◌, ◌<◌, ◌↔◌, IsTrue};
ghost use Rattle.journal_treestore.specs.Levels.{level_width, level_begin, level_block, IsBlockFor};

use journal_tree::FIRST_BLOCKS;

/// How many levels a directory has. The first block of the first comes after the first 48 blocks of
/// the directory.
pub const LEVELS: u64 = 4;

// How many blocks a level has.
fn level_width(level: u64) -> u64
    requires { level < LEVELS }
    ensures { result ≡ level_width level }
{
    match level {
        0 => 4,
        1 => 16,
        2 => 64,
        _ => 256,
    }
}

// Its first block.
fn level_begin(level: u64) -> u64
    requires { level < LEVELS }
    ensures { result ≡ level_begin level }
{
    match level {
        0 => FIRST_BLOCKS,
        1 => FIRST_BLOCKS + 4,
        2 => FIRST_BLOCKS + 20,
        _ => FIRST_BLOCKS + 84,
    }
}

/// The block of a level in which a name of this tag may lie.
pub fn level_block(tag: u32, level: u64) -> u64
    requires { level < LEVELS }
    ensures { result ≡ level_block tag level }
{
    level_begin(level) + u64::from(tag) % level_width(level)
}

/// True if a name of this tag may lie in block `block` of a directory: it is one of the first 48,
/// or the one that a level has for the tag.
pub fn is_block_for(tag: u32, block: u64) -> bool
    ensures { IsTrue result ↔ IsBlockFor tag block }
{
    if block < FIRST_BLOCKS {
        return true;
    }
    for level in 0..LEVELS {
        if level_block(tag, level) == block {
            return true;
        }
    }
    false
}
