// The bytes that calls write.
ghost use Rattle.std.specs.Prelude.{◌≡◌, ◌<◌, ◌≤◌, ◌+◌, length};
ghost use Rattle.journal_tree.specs.declared.limits.TheConstants.{MOST_NAME};
ghost use Rattle.journal_tree.specs.Times.{IsTime};
ghost use Rattle.journal_treestore.specs.Bytes.{with_piece};
ghost use Rattle.journal_treestore.specs.Entries.{with_entry};
ghost use Rattle.journal_treestore.specs.Inodes.{name_from};
ghost use Rattle.journal_treestore.specs.Views.{held_of};
ghost use Rattle.journal_treestore.specs.Views.Seen.{free, used};
ghost use Rattle.journal_treecalls.specs.Disks.{inode_seen};
ghost use Rattle.journal_treecalls.specs.Names.{moved};

use crate::node::Record;
use journal_tree::{Attributes, NANOS, Time};
use journal_treestore::{Entry, Head, INODE_BYTES, Inode, PLACES, name_in};
use journal_world::Value;

// Puts a piece over the bytes from a place on.
pub(crate) fn put(bytes: &mut [u8], at: usize, piece: &[u8])
    requires { at + length piece.now ≤ length bytes.old }
    ensures { bytes.new ≡ with_piece bytes.old at piece.now }
{
    bytes[at..at + piece.len()].copy_from_slice(piece);
}

// A block with an entry put at a place.
pub(crate) fn put_entry(block: Value, at: usize, entry: Entry) -> Value
    requires whole { length block ≡ 4096 }
    requires inside { at < PLACES }
    ensures written { result ≡ with_entry block at entry }
    ensures whole { length result ≡ 4096 }
{
    let mut bytes = block.into_bytes();
    entry.put(&mut bytes, at);
    Value::new(bytes)
}

// The bytes of an inode that was read, with another head. Its name stays.
pub(crate) fn used_bytes(head: Head, read: &Record) -> [u8; INODE_BYTES]
    ensures { inode_seen result ≡ used (held_of head (name_from read.now.bytes)) }
{
    Inode::Used(head).bytes(name_in(&read.bytes))
}

// The bytes of a new inode with a name.
pub(crate) fn new_bytes(head: Head, name: &[u8]) -> [u8; INODE_BYTES]
    requires { length name.now ≤ MOST_NAME }
    ensures { inode_seen result ≡ used (held_of head name.now) }
{
    Inode::Used(head).bytes(name)
}

// The bytes of a free inode.
pub(crate) fn free_bytes(generation: u32) -> [u8; INODE_BYTES]
    ensures { inode_seen result ≡ free generation }
{
    Inode::Free(generation).bytes(&[])
}

// A directory whose names change at a moment.
pub(crate) fn moved(directory: &Head, now: Time) -> Head
    requires { IsTime now }
    ensures { IsTime directory.now.attributes.ctime → result ≡ moved directory.now now }
{
    let head = *directory;
    let last = Attributes {
        ctime: bounded(head.attributes.ctime),
        ..head.attributes
    };
    Head {
        attributes: last.with_names_changed(now),
        ..head
    }
}

// The time, if it is one. A sound disk has no other.
pub(crate) fn bounded(time: Time) -> Time
    ensures fits { IsTime result }
    ensures same { IsTime time → result ≡ time }
{
    Time {
        secs: time.secs,
        nanos: time.nanos.min(NANOS - 1),
    }
}
