// An inode, and its bytes.
ghost use Rattle.std.specs.Prelude.{ℕ, ◌≡◌, ◌<◌, ◌≤◌, ◌+◌, ◌^◌, ◌∷◌, ◌++◌, take, drop, flat_map, length, slice_index};
ghost use Rattle.std.specs.Int.{w64, to_le_bytes};
ghost use Rattle.journal_inode.specs.Nodes.{with_piece, bytes_of_fields, inode_bytes, no_more, word_at, long_at, more_at, time_at, node_of, Fits};

use journal_world::Moment;

/// The most bytes that a file of version 1 has.
pub const FILE_BYTES: u64 = 4096;
/// The number of blocks that an inode has room for beside the first.
pub const MORE_BLOCKS: usize = 11;
/// The bytes of an inode.
pub const NODE_BYTES: usize = 128;

// The kinds of inode.
const FREE: u32 = 0;

const ROOT: u32 = 1;

const FILE: u32 = 2;

// The places of the fields.
const KIND_AT: usize = 0;

const GENERATION_AT: usize = 4;

const SIZE_AT: usize = 8;

const BLOCK_AT: usize = 16;

const SECS_AT: usize = 24;

const NANOS_AT: usize = 28;

const MORE_AT: usize = 32;

// The generation of the root directory.
const ROOT_GENERATION: u32 = 1;

/// A time as an inode has it. Of a sound file's the nanoseconds are at most `MAX_NANOS`.
#[derive(Clone, Copy, Debug, PartialEq, Eq)]
pub struct Time {
    /// Seconds, modulo 2^32.
    pub secs: u32,
    /// Nanoseconds of the current second.
    pub nanos: u32,
}

impl Time {
    /// The time of a free inode.
    pub const ZERO: Time = Time { secs: 0, nanos: 0 };

    /// The time at this moment.
    pub fn at(moment: Moment) -> Time
        ensures { result ≡ record { secs = moment.secs; nanos = moment.nanos } }
    {
        Time {
            secs: moment.secs,
            nanos: moment.nanos,
        }
    }
}

// The first block keeps its place, and the eleven others come after the time. Block 0 is always
// there.
/// The fields of a file's inode.
#[derive(Clone, Copy, Debug, PartialEq, Eq)]
pub struct FileNode {
    /// The number of files that had this inode so far, this one included.
    pub generation: u32,
    /// The number of bytes of the file.
    pub size: u64,
    /// The block that holds the first 4096 of them.
    pub block: u64,
    /// The blocks of the bytes after them, 4096 each. If there is none, its number is 0.
    pub more: [u64; MORE_BLOCKS],
    /// The time of their last change.
    pub mtime: Time,
}

impl FileNode {
    /// The numbers of blocks that the inode has room for, in the order of the file's bytes.
    pub fn numbers(&self) -> [u64; 1 + MORE_BLOCKS]
        ensures { result ≡ self.now.block ∷ self.now.more }
    {
        let mut numbers = [self.block; 1 + MORE_BLOCKS];
        numbers[1..].copy_from_slice(&self.more);
        numbers
    }
}

// An enum, so that none is half free. Each byte string reads as an inode, so the rule compares the
// bytes that an inode writes with those that were read.
/// An inode.
#[derive(Clone, Copy, Debug, PartialEq, Eq)]
pub enum Node {
    /// No file's. It keeps the generation of the last one.
    Free(u32),
    /// The root directory's, with the time of its making.
    Root(Time),
    /// A file's.
    File(FileNode),
}

impl Node {
    /// The inode of these bytes, if they are an inode's. If they are not, it is one of other bytes.
    pub fn read(bytes: &[u8]) -> Node
        requires { length bytes.now ≡ NODE_BYTES }
        ensures read { result ≡ node_of bytes.now }
        ensures fits { Fits result }

        // Bytes that were written of an inode are read as it again, and it writes the same bytes.
        ensures read_back { (node : Node) → Fits node → bytes.now ≡ inode_bytes node → result ≡ node }
        ensures writes_back { (node : Node) → Fits node → bytes.now ≡ inode_bytes node
            → inode_bytes result ≡ bytes.now }
    {
        match word(bytes, KIND_AT) {
            FILE => Node::File(FileNode {
                generation: word(bytes, GENERATION_AT),
                size: long(bytes, SIZE_AT),
                block: long(bytes, BLOCK_AT),
                more: more(bytes),
                mtime: mtime(bytes),
            }),
            ROOT => Node::Root(mtime(bytes)),
            _ => Node::Free(word(bytes, GENERATION_AT)),
        }
    }

    /// The bytes of the inode.
    pub fn bytes(&self) -> [u8; NODE_BYTES]
        ensures bytes { result ≡ inode_bytes self.now }

        // They are read as this inode.
        ensures read_back { node_of result ≡ self.now }
    {
        let node = *self;
        match node {
            Node::Free(generation) => fields(FREE, generation, 0, 0, Time::ZERO),
            Node::Root(mtime) => fields(ROOT, ROOT_GENERATION, 0, 0, mtime),
            Node::File(file) => {
                let mut bytes = fields(FILE, file.generation, file.size, file.block, file.mtime);
                put_more(&mut bytes, &file.more);
                bytes
            }
        }
    }
}

// The number in the 4 bytes from a place on.
fn word(bytes: &[u8], at: usize) -> u32
    requires { at + 4 ≤ length bytes.now }
    ensures { result ≡ word_at bytes.now at }
{
    u32::from_le_bytes([bytes[at], bytes[at + 1], bytes[at + 2], bytes[at + 3]])
}

// The number in the 8 bytes from a place on.
fn long(bytes: &[u8], at: usize) -> u64
    requires { at + 8 ≤ length bytes.now }
    ensures { result ≡ long_at bytes.now at }
{
    u64::from_le_bytes([
        bytes[at],
        bytes[at + 1],
        bytes[at + 2],
        bytes[at + 3],
        bytes[at + 4],
        bytes[at + 5],
        bytes[at + 6],
        bytes[at + 7],
    ])
}

// The time in the bytes of an inode.
fn mtime(bytes: &[u8]) -> Time
    requires { length bytes.now ≡ NODE_BYTES }
    ensures { result ≡ time_at bytes.now SECS_AT }
{
    Time {
        secs: word(bytes, SECS_AT),
        nanos: word(bytes, NANOS_AT),
    }
}

// The numbers of the blocks beside the first in the bytes of an inode.
fn more(bytes: &[u8]) -> [u64; MORE_BLOCKS]
    requires { length bytes.now ≡ NODE_BYTES }
    ensures { result ≡ more_at bytes.now }
{
    let mut more = [0; MORE_BLOCKS];
    for j in 0..MORE_BLOCKS {
        more[j] = long(bytes, MORE_AT + 8 * j);
    }
    more
}

// The bytes of an inode with these fields, and without blocks beside the first.
fn fields(kind: u32, generation: u32, size: u64, block: u64, mtime: Time) -> [u8; NODE_BYTES]
    ensures { result ≡ bytes_of_fields kind generation size block mtime no_more }
{
    let mut bytes = [0; NODE_BYTES];
    put(&mut bytes, KIND_AT, &kind.to_le_bytes());
    put(&mut bytes, GENERATION_AT, &generation.to_le_bytes());
    put(&mut bytes, SIZE_AT, &size.to_le_bytes());
    put(&mut bytes, BLOCK_AT, &block.to_le_bytes());
    put(&mut bytes, SECS_AT, &mtime.secs.to_le_bytes());
    put(&mut bytes, NANOS_AT, &mtime.nanos.to_le_bytes());
    bytes
}

// Writes the numbers of the blocks beside the first into the bytes of an inode.
fn put_more(bytes: &mut [u8; NODE_BYTES], more: &[u64; MORE_BLOCKS])
    ensures written { bytes.new ≡ take 32 bytes.old ++ flat_map (to_le_bytes w64) more.now ++ drop 120 bytes.old }
    ensures fits { (j : ℕ) → slice_index more.now j < 2 ^ 64 }
{
    for (j, number) in more.iter().enumerate() {
        put(bytes, MORE_AT + 8 * j, &number.to_le_bytes());
    }
}

// Writes a piece over the bytes from a place on.
pub(crate) fn put(bytes: &mut [u8], at: usize, piece: &[u8])
    requires { at + length piece.now ≤ length bytes.old }
    ensures { bytes.new ≡ with_piece bytes.old at piece.now }
{
    bytes[at..at + piece.len()].copy_from_slice(piece);
}
