// The protocol's numbers.

/// The newest version of the protocol.
pub const VERSION: u32 = 2;

/// The first version, which each port speaks.
pub const FIRST_VERSION: u32 = 1;

/// The most bytes of a record, its length not counted: 2 MiB. So a transaction that compares 128
/// whole blocks and writes 128 is one record.
pub const RECORD_BYTES: usize = 2_097_152;

/// The most parts of a transaction.
pub const PARTS: usize = 4096;

/// The most addresses that are read at once.
pub const ADDRESSES: usize = 256;

/// The most counters of an answer.
pub const COUNTERS: usize = 256;

/// The most bits of an answer: those of a block.
pub const BITS: usize = 32_768;

/// The most bytes of a value: those of a block.
pub const VALUE_BYTES: usize = 4096;

/// The bytes of a record's length.
pub(crate) const LENGTH_BYTES: usize = 4;
