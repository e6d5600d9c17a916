// The limits of a tree, and what it tells of itself.

/// The number of the root directory.
pub const ROOT: u32 = 1;

/// The most bytes of a name.
pub const MOST_NAME: usize = 255;

/// The bytes of a block.
pub const BLOCK_BYTES: u64 = 4096;

/// The most blocks of a directory.
pub const MOST_BLOCKS: u64 = 388;

/// The first blocks of a directory, in which any name may lie. Each further one is for some names
/// alone.
pub const FIRST_BLOCKS: u64 = 48;

/// The most blocks of a file: 48, and 1024 for each of 1024 index blocks.
pub const MOST_FILE_BLOCKS: u64 = 1048624;

/// The most bytes of a file.
pub const MOST_BYTES: u64 = 4295163904;

/// The most bytes of the text of a symbolic link.
pub const MOST_LINK: u64 = 4095;

/// The most bytes that one READ answers, and the most that one WRITE takes.
pub const TRANSFER_BYTES: u32 = 65536;

/// How many entries lie in one block of a directory.
pub const BLOCK_PLACES: u64 = 512;

/// The most entries of a directory.
pub const MOST_PLACES: u64 = 198656;

/// The entries of the first blocks of a directory. One of more entries may have room for a node,
/// and none for another name of it.
pub const FIRST_PLACES: u64 = 24576;

/// The bytes of an entry.
pub const ENTRY_BYTES: u64 = 8;

/// The last generation that a number may have.
pub const LAST_GENERATION: u32 = 4294967295;

/// A mode is below this: it has 12 bits.
pub const MODES: u32 = 4096;

/// The bytes of a handle: 8 of the disk's own, the number, and the generation.
pub const HANDLE_BYTES: u64 = 16;

/// The mode of a file for which none is asked: 0644.
pub const FILE_MODE: u32 = 420;

/// The mode of a directory for which none is asked, and of the first root: 0755.
pub const DIRECTORY_MODE: u32 = 493;

/// The mode of a symbolic link for which none is asked: 0777.
pub const LINK_MODE: u32 = 511;

/// The user and the group of a caller who says nothing of himself, and of root where it is
/// squashed.
pub const NOBODY: u32 = 65534;
