// The text of a value, as lines give it and answers print it.
ghost use Rattle.std.specs.Prelude.{◌≡◌, ◌≢◌, ℕ, ◌+◌, ◌<◌, ◌≤◌, false, List, [], ◌∷◌, length, IsTrue, IfSome, IfNone, MatchOption, OnOk, vec_len, vec_capacity, slice_index, nat_eq, take_while};
ghost use Rattle.std.specs.Fmt.{decimal};
ghost use Rattle.std.specs.Io.KnownBytes.{Appends};
ghost use Rattle.journal_command.specs.Values.{SpellsValue, AddsTerm, NoTermFits, digit, hex, run, runs, run_text, text_of};

use crate::number::read_number;
use std::alloc::{AllocError, Global};
use std::io;
use std::io::Write;

// The most bytes of a value.
const LONGEST: usize = 4096;

/// Room for the bytes of one value, taken once and used for one value after another.
#[derive(Drop)]
pub struct ValueRoom {
    bytes: Vec<u8>,
    ghost roomy: { 4096 ≤ vec_capacity bytes },
    ghost fits: { vec_len bytes ≤ 4096 },
}

impl ValueRoom {
    /// Takes the memory.
    ///
    /// # Errors
    /// - Memory is refused. Nothing was made.
    pub fn new(alloc: Global) -> Result<ValueRoom, AllocError> {
        Ok(ValueRoom {
            bytes: Vec::with_capacity(alloc, LONGEST)?,
        })
    }

    /// The value that the text spells, or `None` if it spells none. The call takes no memory.
    pub fn read(&mut self, text: &[u8]) -> Option<&[u8]>
        ensures found { IfSome result (λ value. SpellsValue text.now value.now) }
        ensures only { IfSome result (λ value. (other : List ℕ) → SpellsValue text.now other → other ≡ value.now) }
        ensures none { IfNone result ((value : List ℕ) → SpellsValue text.now value → ⊥) }
    {
        self.bytes.clear();
        if !self.push_terms(text) {
            return None;
        }
        Some(&self.bytes)
    }

    // Adds the bytes of the text's terms. False if the text is no terms, or too many.
    fn push_terms(&mut self, text: &[u8]) -> bool
        requires { self.old.bytes.items ≡ [] }
        ensures found { IsTrue result → SpellsValue text.now self.new.bytes.items }
        ensures none { result ≡ false → (value : List ℕ) → SpellsValue text.now value → ⊥ }
    {
        for term in text.split(|byte| *byte == b'+') {
            if !self.push_term(term) {
                return false;
            }
        }
        true
    }

    // Adds the bytes of a term. False if the text is none, or its bytes do not fit.
    fn push_term(&mut self, term: &[u8]) -> bool
        ensures added { IsTrue result → AddsTerm term.now self.old.bytes.items self.new.bytes.items }
        ensures none { result ≡ false → NoTermFits term.now self.old.bytes.items }
    {
        match term {
            [high, low, b'*', count @ ..] => self.push_run(*high, *low, count),
            _ => self.push_bytes(term),
        }
    }

    // Adds a byte as often as a count says.
    fn push_run(&mut self, high: u8, low: u8, count: &[u8]) -> bool
        ensures added { IsTrue result
            → AddsTerm (high ∷ low ∷ 42 ∷ count.now) self.old.bytes.items self.new.bytes.items }
        ensures none { result ≡ false → NoTermFits (high ∷ low ∷ 42 ∷ count.now) self.old.bytes.items }
    {
        let (Some(byte), Some(count)) = (byte_of(high, low), count_of(count)) else {
            return false;
        };
        if count > LONGEST - self.bytes.len() {
            return false;
        }
        self.bytes.resize(self.bytes.len() + count, byte).is_ok()
    }

    // Adds one byte or more, each spelled by two digits.
    fn push_bytes(&mut self, digits: &[u8]) -> bool
        requires { slice_index digits.now 2 ≢ 42 }
        ensures added { IsTrue result → AddsTerm digits.now self.old.bytes.items self.new.bytes.items }
        ensures none { result ≡ false → NoTermFits digits.now self.old.bytes.items }
    {
        let mut rest = digits;
        while let [high, low, more @ ..] = rest {
            let Some(byte) = byte_of(*high, *low) else {
                return false;
            };
            if self.bytes.len() == LONGEST {
                return false;
            }
            self.bytes.push_reserved(byte);
            rest = more;
        }
        rest.is_empty() && !digits.is_empty()
    }
}

// The byte that two hexadecimal digits spell.
fn byte_of(high: u8, low: u8) -> Option<u8>
    ensures { MatchOption result
        ((byte : ℕ) → byte < 256 → high ∷ low ∷ [] ≢ hex byte)
        (λ byte. (byte < 256) × (high ∷ low ∷ [] ≡ hex byte)) }
{
    Some(value_of(high)? * 16 + value_of(low)?)
}

// The value of a hexadecimal digit.
fn value_of(letter: u8) -> Option<u8>
    ensures { MatchOption result
        ((value : ℕ) → value < 16 → letter ≢ digit value)
        (λ value. (value < 16) × (letter ≡ digit value)) }
{
    match letter {
        b'0'..=b'9' => Some(letter - b'0'),
        b'a'..=b'f' => Some(letter - b'a' + 10),
        _ => None,
    }
}

// The count after a `*`: 1 to 4096.
fn count_of(text: &[u8]) -> Option<usize>
    ensures { MatchOption result
        ((count : ℕ) → 1 ≤ count → count ≤ 4096 → text.now ≢ decimal count)
        (λ count. (1 ≤ count) × (count ≤ 4096) × (text.now ≡ decimal count)) }
{
    let count = read_number(text)? as usize;
    if count < 1 || count > LONGEST {
        return None;
    }
    Some(count)
}

/// Prints a value by its maximal runs of equal bytes. The call takes no memory.
///
/// # Errors
/// - The output fails. Part of the text may be printed.
pub fn print_value<W: Write>(output: &mut W, value: &[u8]) -> io::Result<()>
    ensures printed { OnOk result
        (Appends (W.contents output.old) (W.contents output.new) (text_of value.now)) }
    ensures spells { OnOk result (0 < length value.now → length value.now ≤ 4096
        → SpellsValue (text_of value.now) value.now) }
{
    let mut rest = value;
    while let Some((byte, count, more)) = split_run(rest) {
        print_run(output, byte, count)?;
        if !more.is_empty() {
            output.write_all(b"+")?;
        }
        rest = more;
    }
    Ok(())
}

// The longest run at the front, its byte and its length, and the rest after it.
fn split_run(bytes: &[u8]) -> Option<(u8, usize, &[u8])>
    ensures { MatchOption result (bytes.now ≡ [])
        (λ split. (runs bytes.now ≡ run split.0 split.1 ∷ runs split.2.now) × (length split.2.now < length bytes.now)) }
{
    let byte = *bytes.first()?;
    let count = run_length(byte, bytes);
    let (_, behind) = bytes.split_at(count);
    Some((byte, count, behind))
}

// The number of bytes at the front that are this one.
fn run_length(byte: u8, bytes: &[u8]) -> usize
    ensures { result ≡ length (take_while (λ other. nat_eq other byte) bytes.now) }
{
    bytes.iter().take_while(|other| **other == byte).count()
}

// Prints a run: its byte, and its length where that is not 1.
fn print_run<W: Write>(output: &mut W, byte: u8, count: usize) -> io::Result<()>
    ensures { OnOk result (Appends (W.contents output.old) (W.contents output.new) (run_text (run byte count))) }
{
    output.write_all(&[digit_of(byte / 16), digit_of(byte % 16)])?;
    if count != 1 {
        write!(output, "*{count}")?;
    }
    Ok(())
}

// The hexadecimal digit of a number below 16.
fn digit_of(value: u8) -> u8
    requires { value < 16 }
    ensures { result ≡ digit value }
{
    if value < 10 {
        b'0' + value
    } else {
        b'a' + (value - 10)
    }
}
