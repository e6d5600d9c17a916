// Writing items after some bytes.
ghost use Rattle.std.specs.Prelude.{◌≡◌, ◌<◌, ◌≤◌, ◌^◌, List, ℕ, [], ◌++◌, ◌+◌, length, take, drop, IfOk, OnOk, OnErr};
ghost use Rattle.journal_xdr.specs.Items.{Writes, AddsItem};
ghost use Rattle.journal_xdr.specs.Lists.{array_text, run_text, list_text};
ghost use Rattle.journal_xdr.specs.Basic.{word, hyper, boolean, enumeration, fixed, opaque, string};

use crate::element::Element;
use crate::enumeration::Enumeration;
use crate::padding::padding;
use byteorder::{BigEndian, ByteOrder};
use std::alloc::{AllocError, Global};
use std::marker::Model;

/// Writes items one after another. Contracts see the bytes written so far.
///
/// Room is reserved once, where the writer is made: within it no call takes memory. A call that
/// needs more grows the buffer. If that is refused, the bytes written before the call are as they
/// were, and some bytes of its value may follow them.
#[derive(Drop)]
pub struct Writer {
    bytes: Vec<u8>,
}

impl Model for Writer {
    ghost use Rattle.std.specs.Prelude.{ℕ, List};

    ghost Value = { List ℕ };

    ghost view = { λ writer. writer.bytes.items };
}

impl Writer {
    /// A writer of which nothing is written. The call takes no memory.
    pub fn new(alloc: Global) -> Writer
        ensures { result ≡ [] }
    {
        Writer {
            bytes: Vec::new(alloc),
        }
    }

    /// A writer with room for `room` bytes.
    ///
    /// # Errors
    /// - Memory is refused. Nothing was made.
    pub fn with_capacity(alloc: Global, room: usize) -> Result<Writer, AllocError>
        ensures { IfOk result (λ writer. writer ≡ []) }
    {
        Ok(Writer {
            bytes: Vec::with_capacity(alloc, room)?,
        })
    }

    /// The number of bytes that are written.
    pub fn len(&self) -> usize
        ensures { result ≡ length self.now }
    {
        self.bytes.len()
    }

    /// The bytes written, lent.
    pub fn as_bytes(&self) -> &[u8]
        ensures { result.now ≡ self.now }
    {
        &self.bytes
    }

    /// Forgets what is written, and keeps the room for it.
    pub fn clear(&mut self)
        ensures { self.new ≡ [] }
    {
        self.bytes.clear();
    }

    /// Writes bytes as they are.
    ///
    /// # Errors
    /// - Memory is refused. The bytes written before are as they were.
    pub fn raw(&mut self, bytes: &[u8]) -> Result<(), AllocError>
        ensures ok { OnOk result (self.new ≡ self.old ++ bytes.now) }
        ensures err { OnErr result (self.new ≡ self.old) }
    {
        Ok(self.bytes.extend_from_slice(bytes)?)
    }

    /// The bytes written. The call takes no memory.
    pub fn into_bytes(self) -> Vec<u8>
        ensures { result.items ≡ self }
    {
        self.bytes
    }

    /// Writes an unsigned integer (RFC 4506, section 4.2).
    ///
    /// # Errors
    /// - Memory is refused. The bytes written before are as they were.
    #[tactic(auto, unfolding(crate::specs::Basic::word))]
    pub fn word(&mut self, number: u32) -> Result<(), AllocError>
        ensures ok { OnOk result (Writes word number self.old self.new) }
        ensures grammar { OnOk result (AddsItem word number self.old self.new) }
        ensures err { OnErr result (self.new ≡ self.old) }
    {
        let mut bytes = [0; 4];
        BigEndian::write_u32(&mut bytes, number);
        Ok(self.bytes.extend_from_slice(&bytes)?)
    }

    /// Writes an unsigned hyper integer (RFC 4506, section 4.5).
    ///
    /// # Errors
    /// - Memory is refused. The bytes written before are as they were.
    #[tactic(auto, unfolding(crate::specs::Basic::hyper))]
    pub fn hyper(&mut self, number: u64) -> Result<(), AllocError>
        ensures ok { OnOk result (Writes hyper number self.old self.new) }
        ensures grammar { OnOk result (AddsItem hyper number self.old self.new) }
        ensures err { OnErr result (self.new ≡ self.old) }
    {
        let mut bytes = [0; 8];
        BigEndian::write_u64(&mut bytes, number);
        Ok(self.bytes.extend_from_slice(&bytes)?)
    }

    /// Writes a boolean (RFC 4506, section 4.4).
    ///
    /// # Errors
    /// - Memory is refused. The bytes written before are as they were.
    #[tactic(auto, unfolding(crate::specs::Basic::boolean))]
    pub fn boolean(&mut self, truth: bool) -> Result<(), AllocError>
        ensures ok { OnOk result (Writes boolean truth self.old self.new) }
        ensures grammar { OnOk result (AddsItem boolean truth self.old self.new) }
        ensures err { OnErr result (self.new ≡ self.old) }
    {
        self.enumeration(truth)
    }

    /// Writes a value of an enumeration (RFC 4506, section 4.3).
    ///
    /// # Errors
    /// - Memory is refused. The bytes written before are as they were.
    pub fn enumeration<E: Enumeration>(&mut self, value: E) -> Result<(), AllocError>
        ensures ok { OnOk result (Writes (enumeration E.meaning E.code) value self.old self.new) }
        ensures grammar { OnOk result (AddsItem (enumeration E.meaning E.code) value self.old self.new) }
        ensures err { OnErr result (self.new ≡ self.old) }
    {
        self.word(value.number())
    }

    /// Writes fixed-length opaque data (RFC 4506, section 4.9).
    ///
    /// # Errors
    /// - Memory is refused. Some of the bytes may be written. Those before are as they were.
    #[tactic(auto, unfolding(crate::specs::Basic::fixed))]
    pub fn fixed(&mut self, bytes: &[u8]) -> Result<(), AllocError>
        ensures ok { OnOk result (Writes (fixed (length bytes.now)) bytes.now self.old self.new) }
        ensures grammar { OnOk result (AddsItem (fixed (length bytes.now)) bytes.now self.old self.new) }
        ensures err { OnErr result (self.new ≡ self.old) }
    {
        let written = self.bytes.len();
        self.bytes.extend_from_slice(bytes)?;
        let padded = self
            .bytes
            .resize(self.bytes.len() + padding(bytes.len()), 0);
        if padded.is_err() {
            self.bytes.truncate(written);
        }
        padded
    }

    /// Writes variable-length opaque data (RFC 4506, section 4.10).
    ///
    /// # Errors
    /// - Memory is refused. Some of the bytes may be written. Those before are as they were.
    #[tactic(auto, unfolding(crate::specs::Basic::opaque))]
    pub fn opaque(&mut self, bytes: &[u8]) -> Result<(), AllocError>
        requires { length bytes.now < 2 ^ 32 }
        ensures ok { OnOk result ((limit : ℕ) → Writes (opaque limit) bytes.now self.old self.new) }
        ensures grammar { OnOk result ((limit : ℕ) → length bytes.now ≤ limit
            → AddsItem (opaque limit) bytes.now self.old self.new) }
        ensures err { OnErr result (self.new ≡ self.old) }
    {
        let written = self.bytes.len();
        self.word(bytes.len() as u32)?;
        let done = self.fixed(bytes);
        if done.is_err() {
            self.bytes.truncate(written);
        }
        done
    }

    /// Writes a string (RFC 4506, section 4.11).
    ///
    /// # Errors
    /// - Memory is refused. Some of the bytes may be written. Those before are as they were.
    #[tactic(auto, unfolding(crate::specs::Basic::string))]
    pub fn string(&mut self, bytes: &[u8]) -> Result<(), AllocError>
        requires { length bytes.now < 2 ^ 32 }
        ensures ok { OnOk result ((limit : ℕ) → Writes (string limit) bytes.now self.old self.new) }
        ensures grammar { OnOk result ((limit : ℕ) → length bytes.now ≤ limit
            → AddsItem (string limit) bytes.now self.old self.new) }
        ensures err { OnErr result (self.new ≡ self.old) }
    {
        self.opaque(bytes)
    }

    /// Writes an array of variable length (RFC 4506, section 4.13): the number of values, and then
    /// the values.
    ///
    /// # Errors
    /// - Memory is refused. Some of the bytes may be written. Those before are as they were.
    pub fn array<E: Element>(&mut self, values: &[E]) -> Result<(), AllocError>
        requires { length values.now < 2 ^ 32 }
        ensures ok { OnOk result (self.new ≡ self.old ++ array_text E.spelling values.now) }
        ensures err { OnErr result (self.new ≡ self.old) }
    {
        let begun = self.bytes.len();
        self.word(values.len() as u32)?;
        let added = self.run(values);
        if added.is_err() {
            self.bytes.truncate(begun);
        }
        added
    }

    /// Writes a linked list (RFC 4506, section 4.19): true before each value, and false after the
    /// last.
    ///
    /// # Errors
    /// - Memory is refused. Some of the bytes may be written. Those before are as they were.
    pub fn list<E: Element>(&mut self, values: &[E]) -> Result<(), AllocError>
        ensures ok { OnOk result (self.new ≡ self.old ++ list_text E.spelling values.now) }
        ensures err { OnErr result (self.new ≡ self.old) }
    {
        let begun = self.bytes.len();
        let linked = self.links(values);
        if linked.is_err() {
            self.bytes.truncate(begun);
        }
        linked
    }

    // Writes values one after another.
    fn run<E: Element>(&mut self, values: &[E]) -> Result<(), AllocError>
        ensures ok { OnOk result (self.new ≡ self.old ++ run_text E.spelling values.now) }
        ensures err { OnErr result ((front : List ℕ) × (self.new ≡ self.old ++ front)) }
    {
        for value in values {
            value.write(self)?;
        }
        Ok(())
    }

    // Writes the links of a list.
    fn links<E: Element>(&mut self, values: &[E]) -> Result<(), AllocError>
        ensures ok { OnOk result (self.new ≡ self.old ++ list_text E.spelling values.now) }
        ensures err { OnErr result ((front : List ℕ) × (self.new ≡ self.old ++ front)) }
    {
        for value in values {
            self.boolean(true)?;
            value.write(self)?;
        }
        self.boolean(false)
    }

    /// Writes an unsigned integer over the four bytes at a place.
    #[tactic(auto, unfolding(crate::specs::Basic::word))]
    pub fn replace_word(&mut self, place: usize, number: u32)
        requires { place + 4 ≤ length self.old }
        ensures { self.new ≡ take place self.old ++ word.spelling number ++ drop (place + 4) self.old }
    {
        self.bytes[place..place + 4].copy_from_slice(&number.to_be_bytes());
    }
}
