// An inode, and its bytes.
ghost use Rattle.std.specs.Prelude.{ℕ, ◌≡◌, ◌≤◌, ◌+◌, ◌++◌, take, drop, List, flat_map, length};
ghost use Rattle.std.specs.Int.{w32, to_le_bytes};
ghost use Rattle.journal_tree.specs.declared.limits.TheConstants.{MOST_NAME};
ghost use Rattle.journal_tree.specs.Fit.{IsOptionalLong};
ghost use Rattle.journal_treestore.specs.declared.inode.Inode.TheVariants.{Used};
ghost use Rattle.journal_treestore.specs.Bytes.{with_piece};
ghost use Rattle.journal_treestore.specs.Views.{seen};
ghost use Rattle.journal_treestore.specs.Inodes.{kind_byte, no_head, front_of, verifier_bytes, verifier_flag, rest_bytes, inode_bytes, time_at, blocks_at, verifier_at, attributes_at, head_from, inode_from, name_from, InodeHasRoom};

use crate::bytes::{half, long, put, word};
use journal_tree::{Attributes, Kind, Time};

/// The bytes of an inode.
pub const INODE_BYTES: usize = 512;

/// How many numbers of blocks an inode has.
pub const DIRECT_BLOCKS: usize = 48;

/// How many numbers of blocks lie in a block of numbers.
pub const INDEX_NUMBERS: usize = 1024;

/// The place of the block that has the numbers of an inode's index blocks. The record of who has it
/// says so.
pub const INDEX_PLACE: u32 = 1 << 31;

/// The place of the first index block. Those of the others follow.
pub const FIRST_INDEX_PLACE: u32 = (1 << 31) + 1;

// The bytes before the blocks' numbers.
const FRONT_BYTES: usize = 48;

// Where the fields lie.
const MODE_AT: usize = 2;

const GENERATION_AT: usize = 4;

const SIZE_AT: usize = 8;

const OWNER_AT: usize = 16;

const GROUP_AT: usize = 20;

const DIRECTORY_AT: usize = 24;

const PLACE_AT: usize = 28;

const MTIME_AT: usize = 32;

const CTIME_AT: usize = 40;

const BLOCKS_AT: usize = 48;

const INDEX_AT: usize = 240;

const VERIFIER_AT: usize = 248;

const NAME_AT: usize = 256;

const FLAG_AT: usize = 511;

/// An inode in use, without its name.
#[derive(Clone, Copy, Debug, PartialEq, Eq)]
pub struct Head {
    pub kind: Kind,
    /// Which of the number's nodes it is.
    pub generation: u32,
    pub attributes: Attributes,
    /// The directory in which it hangs. The root's is 0.
    pub directory: u32,
    /// The place of its entry there.
    pub place: u32,
    /// Its size in bytes: of a directory, that of its blocks.
    pub size: u64,
    /// The numbers of its first blocks, in the order of its bytes. Where there is none, it is 0.
    pub blocks: [u32; DIRECT_BLOCKS],
    /// The block with the numbers of its index blocks, each of which has the numbers of 1024
    /// further blocks. Where there is none, it is 0.
    pub index: u32,
}

/// An inode.
#[derive(Clone, Copy, Debug, PartialEq, Eq)]
pub enum Inode {
    /// No node's. It keeps the generation of the last one.
    Free(u32),
    /// A node's.
    Used(Head),
}

// The bytes that say that an inode is free, a directory's, a file's or a link's.
const FREE: u8 = 0;

const DIRECTORY: u8 = 1;

const FILE: u8 = 2;

const LINK: u8 = 3;

// The byte that says that there is a verifier.
const VERIFIER: u8 = 1;

impl Inode {
    /// The inode that these bytes are, if they are one's, and else one of other bytes.
    /// `name_in` gives its name.
    pub fn read(bytes: &[u8]) -> Inode
        requires { length bytes.now ≡ INODE_BYTES }
        ensures read { result ≡ inode_from bytes.now }

        // It is read back as it was written.
        ensures read_back { (inode : Inode) (name : List ℕ) → InodeHasRoom inode → length name ≤ MOST_NAME
            → bytes.now ≡ inode_bytes inode name → result ≡ inode }
    {
        match bytes[0] {
            DIRECTORY => Inode::Used(head_in(Kind::Directory, bytes)),
            FILE => Inode::Used(head_in(Kind::File, bytes)),
            LINK => Inode::Used(head_in(Kind::Link, bytes)),
            _ => Inode::Free(word(bytes, GENERATION_AT)),
        }
    }

    /// The bytes of the inode, with its name. A free inode has none, and that of the root is empty.
    pub fn bytes(&self, name: &[u8]) -> [u8; INODE_BYTES]
        requires { length name.now ≤ MOST_NAME }
        ensures written { result ≡ inode_bytes self.now name.now }

        // They show the inode, and a node its name.
        ensures shown { seen (inode_from result) (name_from result) ≡ seen self.now name.now }
    {
        let inode = *self;
        match inode {
            Inode::Free(generation) => whole(
                &front(FREE, 0, &no_node(generation)),
                &NO_BLOCKS,
                0,
                None,
                &[],
            ),
            Inode::Used(head) => {
                let front = front(kind_byte(head.kind), name.len() as u8, &head);
                whole(
                    &front,
                    &head.blocks,
                    head.index,
                    head.attributes.verifier,
                    name,
                )
            }
        }
    }
}

/// The name in the bytes of an inode.
pub fn name_in(bytes: &[u8]) -> &[u8]
    requires { length bytes.now ≡ INODE_BYTES }
    ensures read { result.now ≡ name_from bytes.now }
    ensures few { length result.now ≤ MOST_NAME }

    // It is read back as it was written.
    ensures read_back { (head : Head) (name : List ℕ) → length head.blocks ≡ DIRECT_BLOCKS → length name ≤ MOST_NAME
        → bytes.now ≡ inode_bytes (Used head) name → result.now ≡ name }
{
    &bytes[NAME_AT..NAME_AT + usize::from(bytes[1])]
}

// The blocks' numbers of an inode that has none.
const NO_BLOCKS: [u32; DIRECT_BLOCKS] = [0; DIRECT_BLOCKS];

// The byte that says which kind of node an inode is of.
fn kind_byte(kind: Kind) -> u8
    ensures { result ≡ kind_byte kind }
{
    match kind {
        Kind::Directory => DIRECTORY,
        Kind::File => FILE,
        Kind::Link => LINK,
    }
}

// The fields of a free inode of this generation.
fn no_node(generation: u32) -> Head
    ensures { result ≡ no_head generation }
{
    let time = Time { secs: 0, nanos: 0 };
    Head {
        kind: Kind::Directory,
        generation,
        attributes: Attributes {
            mode: 0,
            owner: 0,
            group: 0,
            mtime: time,
            ctime: time,
            verifier: None,
        },
        directory: 0,
        place: 0,
        size: 0,
        blocks: NO_BLOCKS,
        index: 0,
    }
}

// The inode in use that these bytes are.
fn head_in(kind: Kind, bytes: &[u8]) -> Head
    requires { length bytes.now ≡ INODE_BYTES }
    ensures { result ≡ head_from kind bytes.now }
{
    Head {
        kind,
        generation: word(bytes, GENERATION_AT),
        attributes: attributes(bytes),
        directory: word(bytes, DIRECTORY_AT),
        place: word(bytes, PLACE_AT),
        size: long(bytes, SIZE_AT),
        blocks: blocks(bytes),
        index: word(bytes, INDEX_AT),
    }
}

// The attributes in the bytes of an inode.
fn attributes(bytes: &[u8]) -> Attributes
    requires { length bytes.now ≡ INODE_BYTES }
    ensures { result ≡ attributes_at bytes.now }
{
    Attributes {
        mode: half(bytes, MODE_AT),
        owner: word(bytes, OWNER_AT),
        group: word(bytes, GROUP_AT),
        mtime: time(bytes, MTIME_AT),
        ctime: time(bytes, CTIME_AT),
        verifier: verifier(bytes),
    }
}

// The verifier in the bytes of an inode, if there is one.
fn verifier(bytes: &[u8]) -> Option<u64>
    requires { length bytes.now ≡ INODE_BYTES }
    ensures { result ≡ verifier_at bytes.now }
{
    if bytes[FLAG_AT] == VERIFIER {
        Some(long(bytes, VERIFIER_AT))
    } else {
        None
    }
}

// The time in the 8 bytes from a place on.
fn time(bytes: &[u8], at: usize) -> Time
    requires { at + 8 ≤ length bytes.now }
    ensures { result ≡ time_at bytes.now at }
{
    Time {
        secs: word(bytes, at),
        nanos: word(bytes, at + 4),
    }
}

// The blocks' numbers in the bytes of an inode.
fn blocks(bytes: &[u8]) -> [u32; DIRECT_BLOCKS]
    requires { length bytes.now ≡ INODE_BYTES }
    ensures { result ≡ blocks_at bytes.now }
{
    let mut blocks = [0; DIRECT_BLOCKS];
    for j in 0..DIRECT_BLOCKS {
        blocks[j] = word(bytes, BLOCKS_AT + 4 * j);
    }
    blocks
}

// The bytes before the blocks' numbers.
fn front(kind: u8, length: u8, head: &Head) -> [u8; FRONT_BYTES]
    ensures { result ≡ front_of kind length head.now }
{
    let mut bytes = [0; FRONT_BYTES];
    put(&mut bytes, 0, &[kind, length]);
    put(&mut bytes, MODE_AT, &head.attributes.mode.to_le_bytes());
    put(&mut bytes, GENERATION_AT, &head.generation.to_le_bytes());
    put(&mut bytes, SIZE_AT, &head.size.to_le_bytes());
    put(&mut bytes, OWNER_AT, &head.attributes.owner.to_le_bytes());
    put(&mut bytes, GROUP_AT, &head.attributes.group.to_le_bytes());
    put(&mut bytes, DIRECTORY_AT, &head.directory.to_le_bytes());
    put(&mut bytes, PLACE_AT, &head.place.to_le_bytes());
    put_time(&mut bytes, MTIME_AT, head.attributes.mtime);
    put_time(&mut bytes, CTIME_AT, head.attributes.ctime);
    bytes
}

// Writes a time over the 8 bytes from a place on.
fn put_time(bytes: &mut [u8], at: usize, time: Time)
    requires { at + 8 ≤ length bytes.old }
    ensures { bytes.new ≡ with_piece (with_piece bytes.old at (to_le_bytes w32 time.secs)) (at + 4) (to_le_bytes w32 time.nanos) }
{
    put(bytes, at, &time.secs.to_le_bytes());
    put(bytes, at + 4, &time.nanos.to_le_bytes());
}

// All bytes of an inode.
fn whole(
    front: &[u8; FRONT_BYTES],
    blocks: &[u32; DIRECT_BLOCKS],
    index: u32,
    verifier: Option<u64>,
    name: &[u8],
) -> [u8; INODE_BYTES]
    requires { length name.now ≤ MOST_NAME }
    ensures is { result ≡ front.now ++ rest_bytes blocks.now index verifier name.now }
    ensures fits { IsOptionalLong verifier }
{
    let mut bytes = [0; INODE_BYTES];
    put(&mut bytes, 0, front);
    put_blocks(&mut bytes, blocks);
    put(&mut bytes, INDEX_AT, &index.to_le_bytes());
    put(&mut bytes, VERIFIER_AT, &verifier_bytes(verifier));
    put(&mut bytes, NAME_AT, name);
    put(&mut bytes, FLAG_AT, &[verifier_flag(verifier)]);
    bytes
}

// The bytes of a verifier.
fn verifier_bytes(verifier: Option<u64>) -> [u8; 8]
    ensures is { result ≡ verifier_bytes verifier }
    ensures fits { IsOptionalLong verifier }
{
    match verifier {
        None => [0; 8],
        Some(verifier) => verifier.to_le_bytes(),
    }
}

// The byte that says whether there is one.
fn verifier_flag(verifier: Option<u64>) -> u8
    ensures { result ≡ verifier_flag verifier }
{
    match verifier {
        None => 0,
        Some(_verifier) => VERIFIER,
    }
}

// Writes the blocks' numbers into the bytes of an inode.
fn put_blocks(bytes: &mut [u8; INODE_BYTES], blocks: &[u32; DIRECT_BLOCKS])
    ensures { bytes.new ≡ take 48 bytes.old ++ flat_map (to_le_bytes w32) blocks.now ++ drop 240 bytes.old }
{
    for (j, number) in blocks.iter().enumerate() {
        put(bytes, BLOCKS_AT + 4 * j, &number.to_le_bytes());
    }
}
