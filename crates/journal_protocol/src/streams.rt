// A piece of what a reader gives, and bytes to a writer.
ghost use Rattle.std.specs.Prelude.{◌≡◌, ℕ, ◌<◌, ◌≤◌, List, length, take, IfOk, OnOk, OnErr};
ghost use Rattle.std.specs.Io.KnownBytes.{Keeps, Consumes, Appends, IsAtEnd};
ghost use Rattle.journal_protocol.specs.Sending.{AppendsFront};

use std::io::{ErrorKind, Read, Write};

/// That a stream failed.
#[derive(Clone, Copy, Debug, PartialEq, Eq)]
pub struct StreamFailed;

// Why no piece was read.
#[derive(Clone, Copy, Debug, PartialEq, Eq)]
pub(crate) enum NoPiece {
    // Nothing has come yet.
    NotYet,
    // The reader failed.
    Failed,
}

// Reads a piece, and answers how many bytes it has: none only where the input has ended. A read
// that a signal broke off is made again.
pub(crate) fn read_piece<R: Read>(reader: &mut R, buffer: &mut [u8]) -> Result<usize, NoPiece>
    requires { 0 < length buffer.old }
    ensures within { IfOk result (λ n. n ≤ length buffer.new) }
    ensures piece { IfOk result (λ n. Consumes (R.remaining reader.old) (R.remaining reader.new) (take n buffer.new)) }
    ensures at_end { IfOk result (λ n. n ≡ 0 → IsAtEnd (R.remaining reader.new)) }
    ensures failed { OnErr result (Keeps (R.remaining reader.old) (R.remaining reader.new)) }
{
    for _ in 0..u64::MAX {
        match reader.read(buffer) {
            Ok(n) => return Ok(n),
            Err(e) => match e.kind() {
                ErrorKind::Interrupted => {}
                ErrorKind::WouldBlock => return Err(NoPiece::NotYet),
                _ => return Err(NoPiece::Failed),
            },
        }
    }
    Err(NoPiece::Failed)
}

/// Writes the bytes.
///
/// # Errors
/// The writer failed, or took no byte. A front of them was written.
pub fn write_whole<W: Write>(writer: &mut W, bytes: &[u8]) -> Result<(), StreamFailed>
    ensures whole { OnOk result (Appends (W.contents writer.old) (W.contents writer.new) bytes.now) }
    ensures failed { OnErr result (AppendsFront (W.contents writer.old) (W.contents writer.new) bytes.now) }
{
    let mut rest = bytes;
    for _ in 0..u64::MAX {
        if rest.is_empty() {
            return Ok(());
        }
        match writer.write(rest) {
            Ok(0) => return Err(StreamFailed),
            Ok(n) => rest = &rest[n..],
            Err(e) => {
                if e.kind() != ErrorKind::Interrupted {
                    return Err(StreamFailed);
                }
            }
        }
    }
    Err(StreamFailed)
}
