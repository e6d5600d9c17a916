// Why nothing was done.
ghost use Rattle.std.specs.Prelude.{◌≡◌};
ghost use Rattle.journal_records.specs.Statuses.{refused_as};

use journal_world::Refusal;
use journal_xdr::Enumeration;

/// Why nothing was done. The numbers from 1 to 14 are the journal's own, and those from 64 on the
/// port's.
#[derive(Clone, Copy, Debug, PartialEq, Eq)]
pub enum Refused {
    /// 1: a growth was refused.
    NoMemory,
    /// 2: an address is not valid in the layout.
    BadAddress,
    /// 3: a value's length is not its kind's, or a bit's byte exceeds 1.
    BadSize,
    /// 4: more than 128 distinct blocks are written.
    TooLarge,
    /// 5: another transaction holds an object that this one needs.
    Busy,
    /// 6: the device failed in this call or before.
    DeviceFailed,
    /// 7: the log's headers are not well formed.
    BadLog,
    /// 8: the number of blocks is out of range, or the rule does not hold of the opened map.
    BadSuper,
    /// 9: the history is longer than the core's own.
    Stale,
    /// 10: another has committed under this session's number.
    Stranger,
    /// 11: a number of the journal would reach 2^62.
    Worn,
    /// 12: the log's tail has no room for the blocks.
    Full,
    /// 13: the journal was stopped.
    Closed,
    /// 14: the session was fenced.
    Fenced,
    /// 64: a compared value is another.
    Conflict,
    /// 66: no operation has the request's number.
    UnknownOperation,
    /// 67: the record is not spelled as a request of its operation.
    Malformed,
    /// 68: the record is longer than a record may be.
    TooLong,
    /// 69: the version is not spoken.
    OtherVersion,
    /// 70: this connection may not ask it.
    Forbidden,
    /// 71: the disk is only read, and the transaction writes.
    ReadOnly,
}

impl Refused {
    /// The same reason as the journal's refusal.
    pub fn of<C>(why: &Refusal<C>) -> Refused
        ensures { result ≡ refused_as why.now }
    {
        match why {
            Refusal::NoMemory => Refused::NoMemory,
            Refusal::BadAddress => Refused::BadAddress,
            Refusal::BadSize => Refused::BadSize,
            Refusal::TooLarge => Refused::TooLarge,
            Refusal::Busy => Refused::Busy,
            Refusal::DeviceFailed(_) => Refused::DeviceFailed,
            Refusal::BadLog => Refused::BadLog,
            Refusal::BadSuper => Refused::BadSuper,
            Refusal::Stale(_) => Refused::Stale,
            Refusal::Stranger(_) => Refused::Stranger,
            Refusal::Worn(_) => Refused::Worn,
            Refusal::Full(_) => Refused::Full,
            Refusal::Closed(_) => Refused::Closed,
            Refusal::Fenced => Refused::Fenced,
        }
    }
}

impl Enumeration for Refused {
    ghost use Rattle.journal_records.specs.Statuses.{refused_of, refused_number, refused_is, refused_back};

    ghost meaning = { refused_of };

    ghost code = { refused_number };

    ghost is_listed = { refused_is };

    ghost has_one_number = { refused_back };

    fn from_number(number: u32) -> Option<Refused> {
        Some(match number {
            1 => Refused::NoMemory,
            2 => Refused::BadAddress,
            3 => Refused::BadSize,
            4 => Refused::TooLarge,
            5 => Refused::Busy,
            6 => Refused::DeviceFailed,
            7 => Refused::BadLog,
            8 => Refused::BadSuper,
            9 => Refused::Stale,
            10 => Refused::Stranger,
            11 => Refused::Worn,
            12 => Refused::Full,
            13 => Refused::Closed,
            14 => Refused::Fenced,
            64 => Refused::Conflict,
            66 => Refused::UnknownOperation,
            67 => Refused::Malformed,
            68 => Refused::TooLong,
            69 => Refused::OtherVersion,
            70 => Refused::Forbidden,
            71 => Refused::ReadOnly,
            _ => return None,
        })
    }

    fn number(self) -> u32 {
        match self {
            Refused::NoMemory => 1,
            Refused::BadAddress => 2,
            Refused::BadSize => 3,
            Refused::TooLarge => 4,
            Refused::Busy => 5,
            Refused::DeviceFailed => 6,
            Refused::BadLog => 7,
            Refused::BadSuper => 8,
            Refused::Stale => 9,
            Refused::Stranger => 10,
            Refused::Worn => 11,
            Refused::Full => 12,
            Refused::Closed => 13,
            Refused::Fenced => 14,
            Refused::Conflict => 64,
            Refused::UnknownOperation => 66,
            Refused::Malformed => 67,
            Refused::TooLong => 68,
            Refused::OtherVersion => 69,
            Refused::Forbidden => 70,
            Refused::ReadOnly => 71,
        }
    }
}
