// Reading and overwriting one object of a block.
ghost use Rattle.std.specs.Prelude.{◌≡◌, ◌≢◌, ◌<◌, ◌%◌, ◌↔◌, ℕ, Bool, false, length, IsTrue, IsOk, OnOk, OnErr, IsErrOf};
ghost use Rattle.journal_world.specs.Addresses.{kind_of, is_valid, is_value_of, bits_of, bytes_of};
ghost use Rattle.journal_world.specs.Files.{shape};
ghost use Rattle.journal_world.specs.Maps.{is_value_at, is_object};
ghost use Rattle.journal_object.specs.Objects.{object_of, with_object_of, object_at, with_object_at, size_at, ChangesOnly, OverwritesMap};

use journal_block::Block;
use journal_world::{Addr, BLOCK_BYTES, Layout, Refusal};

/// Reads into `out` the object that the address names, where `block` is its block: one byte, 0 or
/// 1, for a bit, the bytes of its size for a record, 4096 for a block.
///
/// # Errors
/// The first that applies is answered. `out` is as it was.
/// - `J2 BadAddress`: the address is not valid in the layout.
/// - `J3 BadSize`: the length of `out` is not the object's.
pub fn load<C>(layout: &Layout, block: &Block, addr: Addr, out: &mut [u8]) -> Result<(), Refusal<C>>
    ensures ok { IsOk result
        ↔ (IsTrue (is_valid (shape layout.now) addr)
        × (length out.old ≡ size_at (shape layout.now) addr)) }
    ensures bad_address { IsErrOf result Refusal.BadAddress
        ↔ (is_valid (shape layout.now) addr ≡ false) }
    ensures bad_size { IsErrOf result Refusal.BadSize
        ↔ (IsTrue (is_valid (shape layout.now) addr)
        × (length out.old ≢ size_at (shape layout.now) addr)) }

    ensures loaded { OnOk result (out.new ≡ object_at (shape layout.now) block.now addr) }
    ensures object { OnOk result (IsTrue (is_object (shape layout.now) (addr, out.new))) }
    ensures err { OnErr result (out.new ≡ out.old) }
{
    let Some(kind) = layout.kind_at(addr) else {
        return Err(Refusal::BadAddress);
    };
    if out.len() != kind.bytes() {
        return Err(Refusal::BadSize);
    }
    load_valid(layout, block, addr, out);
    Ok(())
}

/// Reads into `out` the object that a valid address names, where `block` is its block and `out` has
/// the object's length. That length distinguishes a bit from other objects, so nothing is looked
/// up. Only the contract needs the layout.
pub fn load_valid(layout: &Layout, block: &Block, addr: Addr, out: &mut [u8])
    requires valid { IsTrue (is_valid (shape layout.now) addr) }
    requires size { length out.old ≡ size_at (shape layout.now) addr }
    ensures loaded { out.new ≡ object_at (shape layout.now) block.now addr }
    ensures object { IsTrue (is_object (shape layout.now) (addr, out.new)) }
{
    let off = addr.off as usize;
    if out.len() == 1 {
        out[0] = u8::from(block.bit(off));
    } else {
        out.copy_from_slice(&block.as_bytes()[off / 8..off / 8 + out.len()]);
    }
}

/// Overwrites the object that the address names by a value, where `block` is its block. No other
/// bit of the block changes.
///
/// # Errors
/// The first that applies is answered. The block is as it was.
/// - `J2 BadAddress`: the address is not valid in the layout.
/// - `J3 BadSize`: the length of `value` is not the object's, or the object is a bit and its byte
///   exceeds 1.
pub fn store<C>(
    layout: &Layout,
    block: &mut Block,
    addr: Addr,
    value: &[u8],
) -> Result<(), Refusal<C>>
    ensures ok { IsOk result ↔ IsTrue (is_object (shape layout.now) (addr, value.now)) }
    ensures bad_address { IsErrOf result Refusal.BadAddress
        ↔ (is_valid (shape layout.now) addr ≡ false) }
    ensures bad_size { IsErrOf result Refusal.BadSize
        ↔ (IsTrue (is_valid (shape layout.now) addr)
        × (is_value_at (kind_of (shape layout.now) addr.block) value.now ≡ false)) }

    ensures stored { OnOk result
        (block.new ≡ with_object_at (shape layout.now) block.old addr value.now) }
    ensures only { OnOk result (ChangesOnly (shape layout.now) block.old block.new addr value.now) }
    ensures map { OnOk result (OverwritesMap (shape layout.now) block.old block.new addr value.now) }
    ensures size { OnOk result (length block.new ≡ BLOCK_BYTES) }
    ensures err { OnErr result (block.new ≡ block.old) }
{
    let Some(kind) = layout.kind_at(addr) else {
        return Err(Refusal::BadAddress);
    };
    if !kind.admits(value) {
        return Err(Refusal::BadSize);
    }
    store_valid(layout, block, addr, value);
    Ok(())
}

/// Overwrites the object that a valid address names by a value of its kind, where `block` is its
/// block. No other bit of the block changes. The value's length distinguishes a bit from other
/// objects, so nothing is looked up. Only the contract needs the layout.
pub fn store_valid(layout: &Layout, block: &mut Block, addr: Addr, value: &[u8])
    requires object { IsTrue (is_object (shape layout.now) (addr, value.now)) }
    ensures stored { block.new ≡ with_object_at (shape layout.now) block.old addr value.now }
    ensures only { ChangesOnly (shape layout.now) block.old block.new addr value.now }
    ensures map { OverwritesMap (shape layout.now) block.old block.new addr value.now }
    ensures size { length block.new ≡ BLOCK_BYTES }
{
    let off = addr.off as usize;
    if value.len() == 1 {
        block.set_bit(off, value[0] == 1);
    } else {
        block.copy_range(off / 8, value);
    }
}
