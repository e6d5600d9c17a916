//! A disk's unit: a block of 4096 bytes.
//!
//! Contracts see a block as the list of its bytes. It is moved as a pointer and lent without a
//! copy. Only `Block::try_new` and `Block::copied_from` take memory. Numbers in a block are
//! little-endian, and bit `i` is bit `i % 8`, least significant first, of byte `i / 8`. An `Update`
//! is a block's new content. `specs/Updates.antt` says what lists of updates make of a disk's
//! blocks.
#![tactic(auto)]

mod block;
mod update;

pub use block::Block;
pub use update::Update;
