// How the records of a stream are marked.
ghost use Rattle.std.specs.Prelude.{◌≡◌, nat_le};
ghost use Rattle.journal_rpc.specs.Markings.{record_marking, whole_records};
ghost use Rattle.journal_rpc.specs.Stream.{size_of};

use crate::protocol::{LAST_FRAGMENT, RECORD_BYTES};

/// How the records of a stream are marked: by a header of four bytes before each fragment of a
/// record. It is the fragment's length, and `last` more where the fragment is its record's last.
/// Where `last` is 0 each fragment is the last: a header is its record's length.
#[derive(Clone, Copy, Debug, PartialEq, Eq)]
pub struct Marking {
    /// The most bytes of a record, its fragments together.
    pub most_bytes: usize,
    /// The number by which the header of a last fragment is more than the length.
    pub last: u32,
}

impl Marking {
    /// The record marking of remote procedure calls (RFC 5531, section 11), where a record has at
    /// most `RECORD_BYTES`.
    pub fn of_calls() -> Marking
        ensures { result ≡ record_marking }
    {
        Marking {
            most_bytes: RECORD_BYTES,
            last: LAST_FRAGMENT,
        }
    }

    /// Records of at most so many bytes, each after its length.
    pub fn by_length(most_bytes: usize) -> Marking
        ensures { result ≡ whole_records most_bytes }
    {
        Marking {
            most_bytes,
            last: 0,
        }
    }

    // Whether a header marks its record's last fragment, and the fragment's length.
    pub(crate) fn read_header(self, header: u32) -> (bool, usize)
        ensures { result ≡ (nat_le self.last header, size_of self (nat_le self.last header) header) }
    {
        if header >= self.last {
            (true, (header - self.last) as usize)
        } else {
            (false, header as usize)
        }
    }
}
