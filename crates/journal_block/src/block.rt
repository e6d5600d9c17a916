// A block, its bytes, its words and its bits.
ghost use Rattle.std.specs.Prelude.{◌≡◌, ◌≢◌, ◌+◌, ◌%◌, ◌==◌, ◌<◌, ◌≤◌, ℕ, length, slice_range, IsTrue, IfOk, IsOkUnless};
ghost use Rattle.std.specs.Borrow.{sem};
ghost use Rattle.std.specs.Int.{bit_at};
ghost use Rattle.journal_world.specs.Addresses.{is_value_of, zeros_of};
ghost use Rattle.journal_block.specs.Block.{with_bytes, u64_bytes, u64_at, bit_of, byte_with_bit, with_bit};
ghost use Rattle.journal_block.specs.Lending.{LendsBytes};

use byteorder::{ByteOrder, LittleEndian};
use journal_world::{BLOCK_BITS, BLOCK_BYTES, Kind, Refusal};
use std::alloc::Global;
use std::marker::Model;

// A `Vec` whose length is the invariant: a `Box<[u8; 4096]>` can only be made by value, over the
// stack. A block is moved as a pointer and lent as a slice.
/// A block of a disk: 4096 bytes.
#[derive(Debug, Drop)]
pub struct Block {
    bytes: Vec<u8>,
}

impl Model for Block {
    ghost use Rattle.std.specs.Prelude.{◌≡◌, length};
    ghost use Rattle.journal_world.specs.declared.layout.TheConstants.{BLOCK_BYTES};
    ghost use Rattle.journal_block.specs.Block.{Bytes};

    ghost Value = { Bytes };

    ghost view = { λ block. block.bytes.items };

    ghost invariant = { λ block. length block.bytes.items ≡ BLOCK_BYTES };
}

impl Block {
    /// A block of zeros.
    ///
    /// # Errors
    /// - `J1 NoMemory`: the memory for its bytes is refused. Nothing changed.
    pub fn try_new<C>(alloc: Global) -> Result<Block, Refusal<C>>
        ensures contents { IfOk result (λ block. block ≡ zeros_of Kind.Block) }
        ensures size { IfOk result (λ block. length block ≡ BLOCK_BYTES) }
        ensures refusal { IsOkUnless result Refusal.NoMemory }
    {
        let bytes = vec![in alloc; 0u8; BLOCK_BYTES]?;
        Ok(Block { bytes })
    }

    /// A block with the bytes of another.
    ///
    /// # Errors
    /// - `J1 NoMemory`: the memory for its bytes is refused. Nothing changed.
    pub fn copied_from<C>(alloc: Global, other: &Block) -> Result<Block, Refusal<C>>
        ensures contents { IfOk result (λ block. block ≡ other.now) }
        ensures size { IfOk result (λ block. length block ≡ BLOCK_BYTES) }
        ensures refusal { IsOkUnless result Refusal.NoMemory }
    {
        let bytes = other.as_bytes().to_vec(alloc)?;
        Ok(Block { bytes })
    }

    /// The bytes, lent.
    pub fn as_bytes(&self) -> &[u8]
        ensures contents { result.now ≡ self.now }
        ensures size { length result.now ≡ BLOCK_BYTES }
        ensures value { IsTrue (is_value_of Kind.Block result.now) }
    {
        // The slice has a name, so that the proof knows that each element is a byte.
        let bytes = self.bytes.as_slice();
        bytes
    }

    /// The bytes, lent to be overwritten. The block then has the bytes that the borrower leaves.
    pub fn as_mut_bytes(&mut self) -> &mut [u8]
        ensures* writes_back { sem 𝓛 (LendsBytes self.entry result) }
        ensures contents { result.now ≡ self.old }
        ensures size { length result.now ≡ BLOCK_BYTES }
    {
        self.bytes.as_mut_slice()
    }

    /// Overwrites all bytes by those of another block.
    pub fn copy_from(&mut self, other: &Block)
        ensures contents { self.new ≡ other.now }
        ensures size { length self.new ≡ BLOCK_BYTES }
    {
        self.bytes.copy_from_slice(other.as_bytes());
    }

    /// Overwrites the bytes from `at` on by `bytes`.
    pub fn copy_range(&mut self, at: usize, bytes: &[u8])
        requires { at + length bytes.now ≤ BLOCK_BYTES }
        ensures contents { self.new ≡ with_bytes self.old at bytes.now }
        ensures size { length self.new ≡ BLOCK_BYTES }

        // The range then is those bytes, and each range before it or after it is as it was.
        ensures range { slice_range self.new at (at + length bytes.now) ≡ bytes.now }
        ensures before { (j k : ℕ) → k ≤ at → slice_range self.new j k ≡ slice_range self.old j k }
        ensures after { (j k : ℕ) → at + length bytes.now ≤ j
            → slice_range self.new j k ≡ slice_range self.old j k }
    {
        self.bytes[at..at + bytes.len()].copy_from_slice(bytes);
    }

    /// The number in the 8 bytes from `at` on, little-endian.
    pub fn get_u64(&self, at: usize) -> u64
        requires { at + 8 ≤ BLOCK_BYTES }
        ensures { result ≡ u64_at self.now at }
    {
        LittleEndian::read_u64(&self.bytes[at..at + 8])
    }

    /// Overwrites the 8 bytes from `at` on by a number, little-endian.
    pub fn put_u64(&mut self, at: usize, value: u64)
        requires { at + 8 ≤ BLOCK_BYTES }
        ensures contents { self.new ≡ with_bytes self.old at (u64_bytes value) }
        ensures size { length self.new ≡ BLOCK_BYTES }

        // The number reads back, and each that shares no byte with it is as it was.
        ensures number { u64_at self.new at ≡ value }
        ensures before { (k : ℕ) → k + 8 ≤ at → u64_at self.new k ≡ u64_at self.old k }
        ensures after { (k : ℕ) → at + 8 ≤ k → u64_at self.new k ≡ u64_at self.old k }
    {
        let mut bytes = [0; 8];
        LittleEndian::write_u64(&mut bytes, value);
        self.copy_range(at, &bytes);
    }

    /// True if bit `i` is set: bit `i % 8`, least significant first, of byte `i / 8`.
    pub fn bit(&self, i: usize) -> bool
        requires { i < BLOCK_BITS }
        ensures { result ≡ bit_of self.now i }
    {
        (self.bytes[i / 8] >> (i % 8)) & 1 == 1
    }

    /// The 64 bits from bit `i` on as one number, bit `i` in the lowest place.
    pub fn bits_from(&self, i: usize) -> u64
        requires inside { i + 64 ≤ BLOCK_BITS }
        requires multiple { i % 8 ≡ 0 }
        ensures { (k : ℕ) → k < 64 → (bit_at result k == 1) ≡ bit_of self.now (i + k) }
    {
        // The slice has a name, so that the proof knows that each element is a byte.
        let bytes = self.bytes.as_slice();
        LittleEndian::read_u64(&bytes[i / 8..i / 8 + 8])
    }

    /// Sets or clears bit `i`.
    pub fn set_bit(&mut self, i: usize, value: bool)
        requires { i < BLOCK_BITS }
        ensures contents { self.new ≡ with_bit self.old i value }
        ensures size { length self.new ≡ BLOCK_BYTES }

        // The bit has the value, and each other is as it was.
        ensures bit { bit_of self.new i ≡ value }
        ensures others { (k : ℕ) → k ≢ i → bit_of self.new k ≡ bit_of self.old k }
    {
        self.bytes[i / 8] = byte_with_bit(self.bytes[i / 8], i % 8, value);
    }
}

// The byte with bit `k` set or cleared.
fn byte_with_bit(byte: u8, k: usize, value: bool) -> u8
    requires { k < 8 }
    ensures { result ≡ byte_with_bit byte k value }
{
    let mask = 1 << k;
    if value { byte | mask } else { byte & !mask }
}
