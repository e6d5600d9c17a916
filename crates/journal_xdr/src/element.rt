// Values that are written one after another.
ghost use Rattle.std.specs.Prelude.{◌≡◌, ℕ, List, ◌++◌, OnOk, OnErr};
ghost use Rattle.journal_xdr.specs.Basic.{word};

use crate::writer::Writer;
use std::alloc::AllocError;

/// A value in the lists of a `Writer`.
pub trait Element {
    // How a value is spelled.
    ghost spelling: { Self → List ℕ };

    /// Writes the value.
    ///
    /// # Errors
    /// - Memory is refused. Some bytes of the value may be written. Nothing before them has
    ///   changed.
    fn write(&self, writer: &mut Writer) -> Result<(), AllocError>
        ensures ok { OnOk result (writer.new ≡ writer.old ++ spelling self.now) }
        ensures err { OnErr result ((front : List ℕ) × (writer.new ≡ writer.old ++ front)) };
}

// An unsigned integer (RFC 4506, section 4.2).
impl Element for u32 {
    ghost spelling = { λ number. word.spelling number };

    fn write(&self, writer: &mut Writer) -> Result<(), AllocError> {
        writer.word(*self)
    }
}
