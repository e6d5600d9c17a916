// The address of an object, and its kind.
ghost use Rattle.std.specs.Prelude.{◌≡◌, ◌*◌, ◌%◌, ◌==◌, Some, IfOk};
ghost use Rattle.journal_world.specs.Addresses.{record_bytes, bytes_of, bits_of, is_value_of, starts_object, zeros_of};

use crate::Value;
use crate::layout::{BLOCK_BITS, BLOCK_BYTES};
use std::alloc::{AllocError, Global};

/// The place of an object: its block, and its first bit in that block.
///
/// Bit `off` of a block is bit `off % 8`, least significant first, of byte `off / 8`.
#[derive(Clone, Copy, Debug, PartialEq, Eq, PartialOrd, Ord)]
pub struct Addr {
    pub block: u64,
    pub off: u32,
}

/// The number of bytes of each record of a block: a power of two from 8 to 2048.
#[derive(Clone, Copy, Debug, PartialEq, Eq)]
pub enum RecordSize {
    /// 512 records a block.
    Bytes8,
    /// 256 records a block.
    Bytes16,
    /// 128 records a block.
    Bytes32,
    /// 64 records a block.
    Bytes64,
    /// 32 records a block, as inodes have them.
    Bytes128,
    /// 16 records a block.
    Bytes256,
    /// 8 records a block.
    Bytes512,
    /// 4 records a block.
    Bytes1024,
    /// 2 records a block.
    Bytes2048,
}

impl RecordSize {
    /// The number of bytes: 8 to 2048.
    pub fn bytes(self) -> usize
        ensures { result ≡ record_bytes self }
    {
        match self {
            RecordSize::Bytes8 => 8,
            RecordSize::Bytes16 => 16,
            RecordSize::Bytes32 => 32,
            RecordSize::Bytes64 => 64,
            RecordSize::Bytes128 => 128,
            RecordSize::Bytes256 => 256,
            RecordSize::Bytes512 => 512,
            RecordSize::Bytes1024 => 1024,
            RecordSize::Bytes2048 => 2048,
        }
    }

    // True if a record of the size may begin at this bit. A division by a number that the compiler
    // knows takes a tenth of the time.
    fn begins_at(self, off: u32) -> bool
        ensures { result ≡ (off % (8 * record_bytes self) == 0) }
    {
        match self {
            RecordSize::Bytes8 => off % 64 == 0,
            RecordSize::Bytes16 => off % 128 == 0,
            RecordSize::Bytes32 => off % 256 == 0,
            RecordSize::Bytes64 => off % 512 == 0,
            RecordSize::Bytes128 => off % 1024 == 0,
            RecordSize::Bytes256 => off % 2048 == 0,
            RecordSize::Bytes512 => off % 4096 == 0,
            RecordSize::Bytes1024 => off % 8192 == 0,
            RecordSize::Bytes2048 => off % 16384 == 0,
        }
    }
}

/// The kind of an object. All objects of one block are of one kind.
#[derive(Clone, Copy, Debug, PartialEq, Eq)]
pub enum Kind {
    /// One bit.
    Bit,
    /// A record of this size. It begins at a multiple of its size.
    Record(RecordSize),
    /// A whole block, 4096 bytes.
    Block,
}

impl Kind {
    /// How many bytes a value of the kind has.
    pub fn bytes(self) -> usize
        ensures { result ≡ bytes_of self }
    {
        match self {
            Kind::Bit => 1,
            Kind::Record(size) => size.bytes(),
            Kind::Block => BLOCK_BYTES,
        }
    }

    /// How many bits lie between the first bits of two neighbours of the kind.
    pub fn bits(self) -> u32
        ensures { result ≡ bits_of self }
    {
        match self {
            Kind::Bit => 1,
            Kind::Record(size) => 8 * size.bytes() as u32,
            Kind::Block => BLOCK_BITS,
        }
    }

    /// True if an object of the kind may begin at this bit of its block.
    pub fn begins_at(self, off: u32) -> bool
        ensures { result ≡ starts_object (Some self) off }
    {
        off < BLOCK_BITS
            && match self {
                Kind::Bit => true,
                Kind::Record(size) => size.begins_at(off),
                Kind::Block => off == 0,
            }
    }

    /// True if the bytes are a value of the kind: as many as it has, and a bit's byte is 0 or 1.
    pub fn admits(self, bytes: &[u8]) -> bool
        ensures { result ≡ is_value_of self bytes.now }
    {
        match self {
            Kind::Bit => matches!(bytes, [0 | 1]),
            Kind::Record(_) | Kind::Block => bytes.len() == self.bytes(),
        }
    }

    /// The value of all zeros.
    ///
    /// # Errors
    /// - The memory for its bytes is refused. Nothing changed.
    pub fn zeros(self, alloc: Global) -> Result<Value, AllocError>
        ensures { IfOk result (λ value. value ≡ zeros_of self) }
    {
        Ok(Value::new(vec![in alloc; 0u8; self.bytes()]?))
    }
}
