// Reading items from the front of some bytes.
ghost use Rattle.std.specs.Prelude.{◌≡◌, ◌<◌, ◌^◌, List, ℕ, [], length, IsTrue, ◌↔◌, ◌==◌};
ghost use Rattle.std.specs.Int.{w32, w64};
ghost use Rattle.std.specs.List.{list_all};
ghost use Rattle.journal_xdr.specs.Items.{ReadsItem, FindsItem};
ghost use Rattle.journal_xdr.specs.Basic.{word, hyper, boolean, enumeration, raw, fixed, opaque, string, spelled_number};

use crate::enumeration::Enumeration;
use crate::padding::padding;
use byteorder::{BigEndian, ByteOrder};
use std::marker::Model;

/// Reads items one after another, and lends their bytes. Contracts see the bytes that are left.
///
/// Each call answers the value whose spelling is at the front, and leaves the bytes after it. It
/// answers `None` exactly if no value's spelling is at the front. The bytes that are then left are
/// not specified.
#[derive(Drop)]
pub struct Reader<'a> {
    rest: &'a [u8],
}

impl<'a> Model for Reader<'a> {
    ghost use Rattle.std.specs.Prelude.{ℕ, List};

    ghost Value = { List ℕ };

    ghost view = { λ reader. reader.rest.now };
}

impl<'a> Reader<'a> {
    /// A reader of these bytes.
    pub fn new(bytes: &'a [u8]) -> Reader<'a>
        ensures { result ≡ bytes.now }
    {
        Reader { rest: bytes }
    }

    /// True if nothing is left.
    pub fn is_at_end(&self) -> bool
        ensures { IsTrue result ↔ (self.now ≡ []) }
    {
        self.rest.is_empty()
    }

    /// The bytes that are left, lent.
    pub fn rest(&self) -> &'a [u8]
        ensures { result.now ≡ self.now }
    {
        self.rest
    }

    /// Reads an unsigned integer (RFC 4506, section 4.2).
    #[tactic(auto, unfolding(crate::specs::Basic::word))]
    pub fn word(&mut self) -> Option<u32>
        ensures reading { ReadsItem word (λ number. number) self.old self.new result }
        ensures grammar { FindsItem word (λ number. number) self.old self.new result }
    {
        Some(word_of(self.raw(4)?))
    }

    /// Reads an unsigned hyper integer (RFC 4506, section 4.5).
    #[tactic(auto, unfolding(crate::specs::Basic::hyper))]
    pub fn hyper(&mut self) -> Option<u64>
        ensures reading { ReadsItem hyper (λ number. number) self.old self.new result }
        ensures grammar { FindsItem hyper (λ number. number) self.old self.new result }
    {
        Some(hyper_of(self.raw(8)?))
    }

    /// Reads a boolean (RFC 4506, section 4.4). Numbers other than 0 and 1 are refused.
    #[tactic(auto, unfolding(crate::specs::Basic::boolean))]
    pub fn boolean(&mut self) -> Option<bool>
        ensures reading { ReadsItem boolean (λ truth. truth) self.old self.new result }
        ensures grammar { FindsItem boolean (λ truth. truth) self.old self.new result }
    {
        self.enumeration()
    }

    /// Reads a value of an enumeration (RFC 4506, section 4.3). Numbers that are not listed are
    /// refused.
    pub fn enumeration<E: Enumeration>(&mut self) -> Option<E>
        ensures reading { ReadsItem (enumeration E.meaning E.code) (λ value. value) self.old self.new result }
        ensures grammar { FindsItem (enumeration E.meaning E.code) (λ value. value) self.old self.new result }
    {
        E::from_number(self.word()?)
    }

    /// Reads fixed-length opaque data (RFC 4506, section 4.9). Padding other than zeros is refused.
    #[tactic(auto, unfolding(crate::specs::Basic::fixed))]
    pub fn fixed(&mut self, length: usize) -> Option<&'a [u8]>
        ensures reading { ReadsItem (fixed length) (λ bytes. bytes.now) self.old self.new result }
        ensures grammar { FindsItem (fixed length) (λ bytes. bytes.now) self.old self.new result }
    {
        let bytes = self.raw(length)?;
        let zeros = self.raw(padding(length))?;
        if are_zeros(zeros) { Some(bytes) } else { None }
    }

    /// Reads variable-length opaque data (RFC 4506, section 4.10). More than `limit` bytes are
    /// refused, and padding other than zeros.
    #[tactic(auto, unfolding(crate::specs::Basic::opaque))]
    pub fn opaque(&mut self, limit: u32) -> Option<&'a [u8]>
        ensures reading { ReadsItem (opaque limit) (λ bytes. bytes.now) self.old self.new result }
        ensures grammar { FindsItem (opaque limit) (λ bytes. bytes.now) self.old self.new result }
    {
        let length = self.word()?;
        if length > limit {
            return None;
        }
        self.fixed(length as usize)
    }

    /// Reads a string (RFC 4506, section 4.11), as `opaque` does. Any bytes are taken.
    #[tactic(auto, unfolding(crate::specs::Basic::string))]
    pub fn string(&mut self, limit: u32) -> Option<&'a [u8]>
        ensures reading { ReadsItem (string limit) (λ bytes. bytes.now) self.old self.new result }
        ensures grammar { FindsItem (string limit) (λ bytes. bytes.now) self.old self.new result }
    {
        self.opaque(limit)
    }

    // Takes `length` bytes.
    fn raw(&mut self, length: usize) -> Option<&'a [u8]>
        ensures { ReadsItem (raw length) (λ bytes. bytes.now) self.old self.new result }
    {
        let (bytes, rest) = self.rest.split_at_checked(length)?;
        self.rest = rest;
        Some(bytes)
    }
}

// The number that four bytes spell. `byteorder` has the spelling itself as its clause for writing.
// Back to the bytes a proof uses the standard library's lemma.
fn word_of(bytes: &[u8]) -> u32
    requires { length bytes.now ≡ 4 }
    ensures { spelled_number w32 bytes.now ≡ Some result }
{
    BigEndian::read_u32(bytes)
}

// The number that eight bytes spell.
fn hyper_of(bytes: &[u8]) -> u64
    requires { length bytes.now ≡ 8 }
    ensures { spelled_number w64 bytes.now ≡ Some result }
{
    BigEndian::read_u64(bytes)
}

// True if each byte is zero.
fn are_zeros(bytes: &[u8]) -> bool
    ensures { result ≡ list_all (λ byte. byte == 0) bytes.now }
{
    bytes.iter().all(|byte| *byte == 0)
}
