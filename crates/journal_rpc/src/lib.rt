//! Remote procedure calls over a stream of bytes (RFC 5531).
//!
//! A stream is records, one after another, and a record is one or more fragments, each after a
//! header of four bytes, as their `Marking` says. `Records` takes the stream in pieces, however it
//! is cut, and gives its records in order. Of a piece it takes as much as it has room for records,
//! which have to be taken before it takes the rest. It copies each byte once, and goes over headers
//! byte by byte, because a piece may end within one. `specs/Stream.antt` says how many records
//! have come with some bytes. `specs/Cuts.antt` says which bytes these are: the spellings of the
//! records, each in some cutting into fragments.
//!
//! `read_call` reads a record as a call, and `Call::request` the call as a request to one program.
//! `write_reply` writes the reply in one buffer, as one fragment, and `write_denial` the reply to a
//! call whose credential cannot be read. `specs/Calls.antt` and `specs/Replies.antt` have the
//! texts.
#![tactic(auto)]

mod calls;
mod laws;
mod marking;
mod part;
mod protocol;
mod records;
mod replies;

pub use calls::{Asked, Auth, Call, Request, read_call};
pub use laws::{
    calls_are_spelled, cuttings_do_not_matter, replies_are_records, streams_are_spelled,
};
pub use marking::Marking;
pub use protocol::{RECORD_BYTES, WAITING_RECORDS};
pub use records::{FeedRefused, LentRecord, Record, Records};
pub use replies::{CallRefused, Results, write_denial, write_reply};
