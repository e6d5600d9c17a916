//! The connections of a service: who accepts them, where they wait, and who serves them.
//!
//! A `Service` says what a connection is answered. It keeps a session for each, and serves a
//! connection for a turn at a time: until the connection ends, or until it pauses between two
//! requests, with nothing of the next one read and no answer owed.
//!
//! `serve` has workers, each in a thread of its own. Where there are no more connections than
//! workers, each connection has a worker that reads it. Where there are more, those with nothing to
//! read rest: the system says when something comes (`epoll`), and until then such a connection
//! takes neither a thread nor a buffer. Those with something to read are ready, and are served in
//! the order in which that came, for one piece of what they sent. So nobody waits for longer than
//! all others take for a piece each.
//!
//! Where as many connections are open as may be, one more is a visitor. It is served as the others
//! are, until another one comes: then it is ended once it has rested for a quarter of a second, or
//! where it pauses after half a second. So one more is answered however many are busy.
//!
//! A peer that brings no request to its end and takes no byte of an answer is given up after five
//! minutes, or after five seconds where others wait (`Peer`).
#![tactic(auto)]

mod allowed;
mod clock;
mod connection;
mod counts;
mod entrance;
mod limits;
mod listener;
mod load;
mod peer;
mod pool;
mod range;
mod ready;
mod record_room;
mod resting;
mod service;

pub use allowed::AllowedAddresses;
pub use counts::{ConnectionCounts, Count, LaneCount};
pub use entrance::{Ending, Entrance};
pub use limits::file_numbers;
pub use listener::Listener;
pub use load::{Load, PoolSize};
pub use peer::{Incoming, Outgoing, Peer};
pub use pool::{PoolFault, serve};
pub use range::{AddressRange, NoRange};
pub use service::{Service, Turned};
