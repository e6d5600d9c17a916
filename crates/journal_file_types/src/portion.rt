// The answer of READ.
ghost use Rattle.std.specs.Prelude.{◌≡◌, ◌≤◌, ◌-◌, length, slice_range};
ghost use Rattle.journal_file_types.specs.declared.portion.TheConstants.{READ_BYTES};

use crate::Attributes;
use std::marker::Model;

/// The most bytes that one READ gives.
pub const READ_BYTES: u64 = 8192;

// It holds the value that the transaction read, and lends the range: no byte is copied in this
// layer.
/// A portion of a file, with the file's attributes. It holds blocks of the file, and lends the
/// bytes that were asked for.
#[derive(Debug, Drop)]
pub struct Portion {
    file: Attributes,
    blocks: Vec<u8>,
    from: usize,
    to: usize,
    is_end: bool,
}

impl Model for Portion {
    ghost use Rattle.std.specs.Prelude.{◌≤◌, ◌-◌, length, slice_range};
    ghost use Rattle.journal_file_types.specs.declared.portion.TheConstants.{READ_BYTES};
    ghost use Rattle.journal_file_types.specs.Portions.{PortionState};

    ghost Value = { PortionState };

    ghost view = { λ p. record { file = p.file; bytes = slice_range p.blocks.items p.from p.to; is_end = p.is_end } };

    ghost invariant = { λ p. (p.from ≤ p.to) × (p.to ≤ length p.blocks.items) × (p.to - p.from ≤ READ_BYTES) };
}

impl Portion {
    /// The portion of a file with these attributes: of its blocks the bytes from `from` on, up to
    /// `to`. `is_end` says whether they reach the file's end.
    pub fn new(file: Attributes, blocks: Vec<u8>, from: usize, to: usize, is_end: bool) -> Portion
        requires in_order { from ≤ to }
        requires in_range { to ≤ length blocks.items }
        requires short { to - from ≤ READ_BYTES }
        ensures { result ≡ record { file = file; bytes = slice_range blocks.items from to; is_end = is_end } }
    {
        Portion {
            file,
            blocks,
            from,
            to,
            is_end,
        }
    }

    /// The file's attributes.
    pub fn file(&self) -> Attributes
        ensures { result ≡ self.now.file }
    {
        self.file
    }

    /// The bytes.
    pub fn bytes(&self) -> &[u8]
        ensures bytes { result.now ≡ self.now.bytes }
        ensures short { length self.now.bytes ≤ READ_BYTES }
    {
        &self.blocks[self.from..self.to]
    }

    /// True if they reach the file's end.
    pub fn is_end(&self) -> bool
        ensures { result ≡ self.now.is_end }
    {
        self.is_end
    }
}
