// Records out of pieces of a stream.
ghost use Rattle.std.specs.Prelude.{◌≡◌, ◌≢◌, ℕ, ◌+◌, ◌<◌, ◌≤◌, List, [], ◌∷◌, ◌++◌, length, take, IsTrue, OnOk, OnErr, IfOk, IfSome, MatchOption, MatchBool, IsErrOf};
ghost use Rattle.journal_rpc.specs.Stream.{fresh, after, stream_ended, stream_opened, Stream, ExtendsStream, IsBetween, waiting_limit, front_taken, IsSplit};
ghost use Rattle.journal_rpc.specs.Cuts.{SpellsStream};
ghost use Rattle.journal_rpc.specs.Parts.{HasMore};
ghost use Rattle.journal_rpc.specs.declared.part.Part.TheVariants.{Start, Body, TooLong};

use crate::marking::Marking;
use crate::part::Part;
use crate::protocol::{HEADER_BYTES, WAITING_RECORDS};
use std::alloc::{AllocError, Global};
use std::collections::VecDeque;
use std::marker::Model;
use std::mem;
use thiserror::Error;

// The most bytes that get room before they have come.
const RESERVED_BYTES: usize = 16384;

// The most rooms that are kept for later records, and the most bytes of one.
const SPARE_ROOMS: usize = 64;

const SPARE_BYTES: usize = 4096;

/// A record: the bytes of its fragments, in one piece.
#[derive(Debug, Drop)]
pub struct Record {
    bytes: Vec<u8>,
}

impl Model for Record {
    ghost use Rattle.std.specs.Prelude.{ℕ, List};

    ghost Value = { List ℕ };

    ghost view = { λ piece. piece.bytes.items };
}

impl Record {
    /// Its bytes, lent.
    pub fn as_bytes(&self) -> &[u8]
        ensures { result.now ≡ self.now }
    {
        &self.bytes
    }
}

/// A record that is whole in some bytes, lent out of them.
#[derive(Clone, Copy, Debug)]
pub struct LentRecord<'p> {
    /// Its bytes.
    pub record: &'p [u8],
    /// The bytes that come after it.
    pub rest: &'p [u8],
}

/// Why a piece of a stream was refused.
#[derive(Clone, Copy, Debug, PartialEq, Eq, Error)]
pub enum FeedRefused {
    /// A growth was refused. Nothing has changed, and the piece may be fed again.
    #[error("no memory")]
    NoMemory,
    /// A header took a record above the limit. The records before it stay, and no further
    /// piece changes anything: each is refused in the same way.
    #[error("a record is too long")]
    TooLong,
}

/// The records of a stream that comes in pieces. Contracts see the marking, the complete records,
/// and the bytes of the next one.
#[derive(Drop)]
pub struct Records {
    alloc: Global,
    marking: Marking,
    waiting: VecDeque<Record>,
    begun: Vec<u8>,
    part: Part,
    // Rooms for later records. What they hold has no meaning.
    spare: Vec<Vec<u8>>,
}

impl Model for Records {
    ghost use Rattle.std.specs.Prelude.{ℕ, List};
    ghost use Rattle.journal_rpc.specs.Stream.{Stream};
    ghost use Rattle.journal_rpc.specs.Parts.{HasMore};

    ghost Value = { Stream };

    ghost view = { λ stream. record { marking = stream.marking; records = stream.waiting.items; begun = stream.begun.items; part = stream.part } };

    ghost invariant = { λ stream. HasMore stream.part };
}

impl Records {
    /// A stream of which nothing has come. The call takes no memory.
    pub fn new(alloc: Global, marking: Marking) -> Records
        ensures { result ≡ fresh marking }
    {
        Records {
            alloc,
            marking,
            waiting: VecDeque::new(alloc),
            begun: Vec::new(alloc),
            part: Part::Start,
            spare: Vec::new(alloc),
        }
    }

    /// The record that the bytes begin with, lent out of them, and what comes after it. `None` if a
    /// record is begun, or if the bytes do not begin with a whole record of one fragment.
    pub fn split_record<'p>(&self, bytes: &'p [u8]) -> Option<LentRecord<'p>>
        // With it the stream has one record more, and nothing else has come.
        ensures split { IfSome result (λ lent. IsSplit self.now bytes.now lent.record.now lent.rest.now) }
    {
        if !self.is_between() || bytes.len() < HEADER_BYTES {
            return None;
        }
        let header = u32::from_be_bytes([bytes[0], bytes[1], bytes[2], bytes[3]]);
        let (last, length) = self.marking.read_header(header);
        let (_, body) = bytes.split_at(HEADER_BYTES);
        if !last || length > self.marking.most_bytes || length > body.len() {
            return None;
        }
        let (record, rest) = body.split_at(length);
        Some(LentRecord { record, rest })
    }

    /// Takes the next record. `None` if none is complete.
    pub fn next(&mut self) -> Option<Record>
        ensures { MatchOption result ((self.old.records ≡ []) × (self.new ≡ self.old))
            (λ first. self.old ≡ record self.new { records = first ∷ self.new.records }) }
    {
        self.waiting.pop_front()
    }

    /// Takes the room of a record, for a later one. It keeps 64 of at most 4096 bytes, and frees
    /// others.
    pub fn reuse(&mut self, used: Record)
        ensures { self.new ≡ self.old }
    {
        let room = used.bytes;
        if self.spare.len() >= SPARE_ROOMS || room.capacity() > SPARE_BYTES {
            return;
        }
        // Where memory is refused for the list, the room is freed too.
        if let Ok(()) = self.spare.reserve(1) {
            self.spare.push_reserved(room);
        }
    }

    /// How many bytes are kept of a record that is not complete.
    pub fn begun_bytes(&self) -> usize {
        self.begun.len()
    }

    /// True if no byte of an incomplete record has come: the stream may end here.
    pub fn is_between(&self) -> bool
        ensures { MatchBool result (IsBetween self.now) (IsBetween self.now → ⊥) }
    {
        match self.part {
            Part::Start => self.begun.is_empty(),
            _ => false,
        }
    }

    /// Takes the next piece of the stream, up to the byte at which `WAITING_RECORDS` records wait,
    /// and answers how many bytes it took. The cutting into pieces makes no difference.
    ///
    /// # Errors
    /// - `NoMemory`: memory is refused. Nothing has changed, and the piece may be fed again.
    /// - `TooLong`: a header takes a record above the most bytes of one. The records before it have
    ///   come, and each later piece is refused too.
    pub fn feed(&mut self, piece: &[u8]) -> Result<usize, FeedRefused>
        ensures ok { IfOk result (λ taken. (taken ≤ length piece.now)
            × (self.new ≡ after self.old (take taken piece.now)) × (self.new.part ≢ TooLong)) }

        // It takes all, or this many records wait.
        ensures all { IfOk result (λ taken. taken < length piece.now → waiting_limit ≤ length self.new.records) }

        // No more of them wait, however short they are.
        ensures few { length self.old.records ≤ waiting_limit → length self.new.records ≤ waiting_limit }
        ensures no_memory { IsErrOf result FeedRefused.NoMemory → self.new ≡ self.old }
        ensures too_long { IsErrOf result FeedRefused.TooLong
            → (self.new ≡ after self.old piece.now) × (self.new.part ≡ TooLong) }

        // A record is too long only where another one may still wait.
        ensures room { IsErrOf result FeedRefused.TooLong
            → length self.old.records < waiting_limit → length self.new.records < waiting_limit }

        // If the bytes so far were the spellings of the records, so they are with the bytes that
        // were taken.
        ensures spelled { result ≢ Err FeedRefused.NoMemory → (bytes : List ℕ) → SpellsStream bytes self.old
            → SpellsStream (bytes ++ front_taken result piece.now) self.new }
    {
        let (records, bytes, part) = (self.waiting.len(), self.begun.len(), self.part);
        let Ok(taken) = self.take_in(piece) else {
            self.go_back(records, bytes, part);
            return Err(FeedRefused::NoMemory);
        };
        match self.part {
            Part::TooLong => Err(FeedRefused::TooLong),
            _ => Ok(taken),
        }
    }

    // Takes the piece up to the byte at which enough records wait, and answers how many bytes it
    // took.
    fn take_in(&mut self, piece: &[u8]) -> Result<usize, AllocError>
        ensures ok { IfOk result (λ taken. (taken ≤ length piece.now)
            × (self.new ≡ after self.old (take taken piece.now))) }
        ensures all { IfOk result (λ taken. taken < length piece.now → waiting_limit ≤ length self.new.records) }
        ensures few { length self.old.records ≤ waiting_limit → length self.new.records ≤ waiting_limit }
        ensures long { self.new.part ≡ TooLong → length self.old.records < waiting_limit → length self.new.records < waiting_limit }
        ensures err { OnErr result (ExtendsStream self.old self.new) }
    {
        let mut rest = piece;
        while !rest.is_empty() && self.waiting.len() < WAITING_RECORDS {
            let (_, more) = rest.split_at(self.take_front(rest)?);
            rest = more;
        }
        Ok(piece.len() - rest.len())
    }

    // Takes some bytes at the front, as many as go together, and answers how many.
    fn take_front(&mut self, bytes: &[u8]) -> Result<usize, AllocError>
        requires { 0 < length bytes.now }
        ensures ok { IfOk result (λ n. (0 < n) × (n ≤ length bytes.now)
            × (self.new ≡ after self.old (take n bytes.now))) }
        ensures one { length self.new.records ≤ length self.old.records + 1 }
        ensures long { self.new.part ≡ TooLong → self.new.records ≡ self.old.records }
        ensures err { OnErr result (ExtendsStream self.old self.new) }
    {
        if bytes.len() >= HEADER_BYTES && self.is_at_header() {
            return self.take_header(bytes);
        }
        let byte = bytes[0];
        match self.part {
            Part::Start => self.part = Part::First(byte),
            Part::First(a) => self.part = Part::Second(a, byte),
            Part::Second(a, b) => self.part = Part::Third(a, b, byte),
            Part::Third(a, b, c) => self.open_fragment(u32::from_be_bytes([a, b, c, byte]))?,
            Part::Body { last, left } => {
                let count = left.min(bytes.len());
                self.take_body(last, left, &bytes[..count])?;
                return Ok(count);
            }
            Part::TooLong => return Ok(bytes.len()),
        }
        Ok(1)
    }

    // True if no byte of the next header has come.
    fn is_at_header(&self) -> bool
        ensures { IsTrue result → self.now.part ≡ Start }
    {
        matches!(self.part, Part::Start)
    }

    // Takes a whole header, and answers how many bytes it has.
    fn take_header(&mut self, bytes: &[u8]) -> Result<usize, AllocError>
        requires whole { 4 ≤ length bytes.now }
        requires here { self.old.part ≡ Start }
        ensures ok { IfOk result (λ n. (n ≡ 4) × (self.new ≡ after self.old (take 4 bytes.now))) }
        ensures one { length self.new.records ≤ length self.old.records + 1 }
        ensures long { self.new.part ≡ TooLong → self.new.records ≡ self.old.records }
        ensures err { OnErr result (ExtendsStream self.old self.new) }
    {
        self.open_fragment(u32::from_be_bytes([bytes[0], bytes[1], bytes[2], bytes[3]]))?;
        Ok(HEADER_BYTES)
    }

    // Takes bytes of a body.
    fn take_body(&mut self, last: bool, left: usize, bytes: &[u8]) -> Result<(), AllocError>
        requires some { 0 < length bytes.now }
        requires within { length bytes.now ≤ left }
        requires here { self.old.part ≡ Body last left }
        ensures ok { OnOk result (self.new ≡ after self.old bytes.now) }
        ensures one { length self.new.records ≤ length self.old.records + 1 }
        ensures long { self.new.part ≡ TooLong → self.new.records ≡ self.old.records }
        ensures err { OnErr result (ExtendsStream self.old self.new) }
    {
        self.begun.extend_from_slice(bytes)?;
        if bytes.len() == left {
            return self.end_fragment(last);
        }
        self.part = Part::Body {
            last,
            left: left - bytes.len(),
        };
        Ok(())
    }

    // A header has come.
    fn open_fragment(&mut self, header: u32) -> Result<(), AllocError>
        ensures ok { OnOk result (self.new ≡ stream_opened self.old.marking self.old.records self.old.begun header) }
        ensures one { length self.new.records ≤ length self.old.records + 1 }
        ensures long { self.new.part ≡ TooLong → self.new.records ≡ self.old.records }
        ensures err { OnErr result (self.new ≡ self.old) }
    {
        let (last, left) = self.marking.read_header(header);
        if self.begun.len() + left > self.marking.most_bytes {
            self.part = Part::TooLong;
        } else if left == 0 {
            self.end_fragment(last)?;
        } else {
            // A short fragment gets room at once. A long one gets more as it comes, so a header
            // alone takes little memory. Later fragments get none yet, so that a record of many
            // small fragments takes no more memory than it has bytes.
            self.begun.reserve(left.min(RESERVED_BYTES))?;
            self.part = Part::Body { last, left };
        }
        Ok(())
    }

    // A fragment is at its end.
    fn end_fragment(&mut self, last: bool) -> Result<(), AllocError>
        ensures ok { OnOk result (self.new ≡ stream_ended self.old.marking self.old.records self.old.begun last) }
        ensures one { length self.new.records ≤ length self.old.records + 1 }
        ensures long { self.new.part ≡ TooLong → self.new.records ≡ self.old.records }
        ensures err { OnErr result (self.new ≡ self.old) }
    {
        if last {
            let room = self.take_room();
            self.waiting.reserve(1)?;
            let bytes = mem::replace(&mut self.begun, room);
            self.waiting.push_back_reserved(Record { bytes });
        }
        self.part = Part::Start;
        Ok(())
    }

    // Room for a record, of which nothing has come.
    fn take_room(&mut self) -> Vec<u8>
        ensures empty { result.items ≡ [] }
        ensures same { self.new ≡ self.old }
    {
        match self.spare.pop() {
            Some(mut room) => {
                room.clear();
                room
            }
            None => Vec::new(self.alloc),
        }
    }

    // Undoes all that has come since.
    fn go_back(&mut self, records: usize, bytes: usize, part: Part)
        requires { HasMore part }
        ensures { (old : Stream) → length old.records ≡ records → length old.begun ≡ bytes → old.part ≡ part
            → ExtendsStream old self.old → self.new ≡ old }
    {
        while self.waiting.len() > records {
            if let Some(record) = self.waiting.pop_back() {
                self.begun = record.bytes;
            }
        }
        self.begun.truncate(bytes);
        self.part = part;
    }
}
