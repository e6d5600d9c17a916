//! The records of the port: the requests of programs in other languages to the journal, and its
//! answers.
//!
//! A connection is a stream of records both ways. A record is its length and that many bytes, and
//! these are a request or an answer, spelled as XDR (RFC 4506). `specs/Requests.antt` and
//! `specs/Answers.antt` say once how each is spelled, and `specs/Frames.antt` how records follow
//! one another on a stream.
//!
//! `read_request` and `read_answer` read a record's bytes, or say why they are nothing.
//! `write_request` and `write_answer` write a whole record. A stream is cut to records by
//! `journal_rpc::Records`, marked by `Marking::by_length`.
#![tactic(auto)]

mod answer;
mod array;
mod elements;
mod fault;
mod greeting;
mod laws;
mod limits;
mod operation;
mod output;
mod reading;
mod refused;
mod request;
mod writing;

pub use answer::{Answer, Counter};
pub use fault::{ReadFault, WriteFault};
pub use greeting::{ObjectRegion, Opening, Version};
pub use laws::{answers_are_spellings, cuttings_do_not_matter, requests_are_spellings};
pub use limits::{
    ADDRESSES, BITS, COUNTERS, FIRST_VERSION, PARTS, RECORD_BYTES, VALUE_BYTES, VERSION,
};
pub use operation::Operation;
pub use output::{write_answer, write_request};
pub use reading::{read_answer, read_request};
pub use refused::Refused;
pub use request::{Action, Part, Request};
