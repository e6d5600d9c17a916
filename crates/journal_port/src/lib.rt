//! Whole transactions as requests: what a program in another language asks of the journal, and what
//! it is answered.
//!
//! A request to commit has parts that compare and parts that write, as a minitransaction has: it is
//! committed where the map gives each address that is compared the value that the part has, and
//! then gives each address that is written the part's value. The request is answered at once: no
//! slot is held between two requests, so a client that sleeps or dies stops nobody.
//!
//! `Port` is a protocol of `journal_protocol`, which serves connections: it says what a record is
//! answered, and which commits come first. `serve_to_pause` serves a connection by it, and answers
//! a record that is too long. `specs/Answers.antt` says what each request is answered, and
//! `specs/Served.antt` what a connection is.
#![tactic(auto)]

mod commit;
mod counting;
mod greet;
mod laws;
mod order;
mod parts;
mod protocol;
mod read;
mod respond;
mod rights;
mod scan;
mod serving;

pub use counting::Counting;
pub use journal_protocol::{ConnFault, End, NoPause, Pace, Progress, Served};
pub use laws::records_stand_after_their_lengths;
pub use protocol::{AwaitedCommits, UnsureAnswer};
pub use respond::{Port, Terms};
pub use rights::Rights;
pub use serving::serve_to_pause;
