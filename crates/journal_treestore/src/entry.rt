// The entries of a directory.
ghost use Rattle.std.specs.Prelude.{ℕ, ◌≡◌, ◌≢◌, ◌<◌, ◌≤◌, ◌+◌, ◌*◌, length};
ghost use Rattle.journal_treestore.specs.Entries.{tag_of, entry_bytes, entry_from, with_entry, is_tagged, IsFirstTag};

use crate::bytes::{put, word};

/// How many entries lie in a block.
pub const PLACES: usize = 512;

/// The bytes of an entry.
pub const ENTRY_BYTES: usize = 8;

/// An entry of a directory: it names an inode, which says itself that it hangs there.
#[derive(Clone, Copy, Debug, PartialEq, Eq)]
pub struct Entry {
    /// The inode's number. 0 is no entry.
    pub number: u32,
    /// The tag of the inode's name.
    pub tag: u32,
}

impl Entry {
    /// No entry.
    pub const NONE: Entry = Entry { number: 0, tag: 0 };

    /// The entry at a place of a block.
    pub fn read(block: &[u8], at: usize) -> Entry
        requires whole { length block.now ≡ 4096 }
        requires inside { at < PLACES }
        ensures { result ≡ entry_from block.now at }
    {
        Entry {
            number: word(block, ENTRY_BYTES * at),
            tag: word(block, ENTRY_BYTES * at + 4),
        }
    }

    /// Puts the entry at a place of a block. The others stay.
    pub fn put(&self, block: &mut [u8], at: usize)
        requires whole { length block.old ≡ 4096 }
        requires inside { at < PLACES }
        ensures written { block.new ≡ with_entry block.old at self.now }
        ensures read_back { entry_from block.new at ≡ self.now }
        ensures others { (i : ℕ) → i < PLACES → i ≢ at → entry_from block.new i ≡ entry_from block.old i }
        ensures length { length block.new ≡ 4096 }
    {
        let entry = *self;
        put(block, ENTRY_BYTES * at, &entry.bytes());
    }

    // The bytes of the entry.
    fn bytes(&self) -> [u8; ENTRY_BYTES]
        ensures { result ≡ entry_bytes self.now }
    {
        let mut bytes = [0; ENTRY_BYTES];
        put(&mut bytes, 0, &self.number.to_le_bytes());
        put(&mut bytes, 4, &self.tag.to_le_bytes());
        bytes
    }
}

/// The tag of a name: FNV-1a of 32 bits. Two names may have one.
pub fn tag_of(name: &[u8]) -> u32
    ensures { result ≡ tag_of name.now }
{
    let mut tag: u32 = 2166136261;
    for byte in name {
        tag = (tag ^ u32::from(*byte)).wrapping_mul(16777619);
    }
    tag
}

// True if there is an entry at the place, and it has the tag.
fn is_tagged(block: &[u8], tag: u32, at: usize) -> bool
    requires whole { length block.now ≡ 4096 }
    requires inside { at < PLACES }
    ensures { result ≡ is_tagged block.now tag at }
{
    let entry = Entry::read(block, at);
    entry.number != 0 && entry.tag == tag
}

/// The place of the first entry of a block that has the tag, from a place on.
pub fn find_tag(block: &[u8], tag: u32, from: usize) -> Option<usize>
    requires whole { length block.now ≡ 4096 }
    requires inside { from ≤ PLACES }
    ensures { IsFirstTag block.now tag from result }
{
    for at in from..PLACES {
        if is_tagged(block, tag, at) {
            return Some(at);
        }
    }
    None
}
