// The lines of an input, with memory for one of them.
ghost use Rattle.std.specs.Prelude.{◌≡◌, ◌==◌, [], position, IfOk, OnOk};
ghost use Rattle.std.specs.Io.Buffered.{reader_remaining, reader_buffer};
ghost use Rattle.std.specs.Io.KnownBytes.{Keeps, IsAtEnd};
ghost use Rattle.journal_command.specs.Lines.{Advances, ShowsPiece, TakesPiece};

use std::alloc::{AllocError, Global};
use std::io;
use std::io::{BufRead, BufReader, ErrorKind, Read};
use std::marker::Model;

/// The most bytes of a line, the newline not counted.
pub const LINE_BYTES: usize = 20000;

/// The part of a line that was taken.
#[derive(Clone, Copy)]
pub enum Piece {
    /// Bytes of it. More of it follows.
    Part,
    /// The rest of it, and its newline.
    Whole,
    /// Nothing: the input ended.
    End,
}

/// The lines of an input. The memory for a line is taken once.
///
/// Contracts see the bytes that are left of the input, if they are known, and the line that was
/// read last. Of a longer one only the first bytes are kept, one more than a line may have.
#[derive(Drop)]
pub struct Lines<I: Read> {
    input: BufReader<I>,
    line: Vec<u8>,
}

impl<I: Read> Model for Lines<I> {
    ghost use Rattle.std.specs.Prelude.{◌≤◌, vec_len, vec_capacity};
    ghost use Rattle.std.specs.Io.Buffered.{reader_remaining};
    ghost use Rattle.journal_command.specs.Lines.{LinesState};

    ghost Value = { LinesState };

    ghost view = { λ lines. record { left = reader_remaining I.remaining lines.input; line = lines.line.items } };

    ghost invariant = { λ lines. (20001 ≤ vec_capacity lines.line) × (vec_len lines.line ≤ 20001) };
}

impl<I: Read + Drop> Lines<I> {
    /// The lines of the input.
    ///
    /// # Errors
    /// - Memory is refused. The input is dropped.
    pub fn new(alloc: Global, input: I) -> Result<Lines<I>, AllocError>
        ensures { IfOk result (λ lines. lines.left ≡ I.remaining input) }
    {
        Ok(Lines {
            input: BufReader::new(alloc, input).map_err(|_| AllocError)?,
            line: Vec::with_capacity(alloc, LINE_BYTES + 1)?,
        })
    }

    /// True if a line can be read without waiting for more of the input.
    pub fn is_at_hand(&self) -> bool {
        self.input.buffer().contains(&b'\n')
    }

    /// Reads the next line. False at the end of the input. The last line need not end in a newline.
    ///
    /// # Errors
    /// - The input fails. The line is not specified.
    pub fn advance(&mut self) -> io::Result<bool>
        ensures { IfOk result (Advances self.old self.new) }
    {
        self.line.clear();
        for _ in 0..u64::MAX {
            match self.take_piece()? {
                Piece::Part => {}
                Piece::Whole => return Ok(true),
                Piece::End => return Ok(!self.line.is_empty()),
            }
        }
        Err(ErrorKind::TimedOut.into())
    }

    /// The line that was read last, without its newline.
    pub fn line(&self) -> &[u8]
        ensures { result.now ≡ self.now.line }
    {
        &self.line
    }

    // Takes the part of the line that is at hand, with its newline. If nothing is at hand, the
    // input is read first.
    fn take_piece(&mut self) -> io::Result<Piece>
        ensures { IfOk result (TakesPiece self.old self.new) }
    {
        fill(&mut self.input)?;
        let shown = self.input.buffer();
        let (len, piece) = first_piece(shown);
        let bytes = &shown[..len];
        let room = LINE_BYTES + 1 - self.line.len();
        self.line
            .extend_from_slice(&bytes[..room.min(bytes.len())])?;
        self.input.consume(len + 1);
        Ok(piece)
    }
}

// Reads the input if nothing of it is at hand. Afterwards nothing is at hand only at its end.
fn fill<I: Read>(input: &mut BufReader<I>) -> io::Result<()>
    ensures left { Keeps (reader_remaining I.remaining input.old) (reader_remaining I.remaining input.new) }
    ensures end { OnOk result (reader_buffer input.new ≡ [] → IsAtEnd (reader_remaining I.remaining input.old)) }
{
    for _ in 0..u64::MAX {
        match input.fill_buf() {
            Ok(_) => return Ok(()),
            // The next read may give more.
            Err(error) if error.kind() == ErrorKind::Interrupted => {}
            Err(error) => return Err(error),
        }
    }
    Err(ErrorKind::TimedOut.into())
}

// The number of bytes of the line in front, and how it goes on.
fn first_piece(shown: &[u8]) -> (usize, Piece)
    ensures { ShowsPiece shown.now result.0 result.1 }
{
    match first_break(shown) {
        Some(end) => (end, Piece::Whole),
        None if shown.is_empty() => (0, Piece::End),
        None => (shown.len(), Piece::Part),
    }
}

// Where the first newline is.
fn first_break(bytes: &[u8]) -> Option<usize>
    ensures { result ≡ position (λ b. b == 10) bytes.now }
{
    bytes.iter().position(|byte| *byte == b'\n')
}
