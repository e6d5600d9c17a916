//! A connection of a service, whatever the service: calls come in, and their replies go out.
//!
//! What a call is answered is a `Protocol`'s matter: it reads a record as a call, does the call on
//! its store up to the call's commit, and says which wait comes before the reply may be sent. The
//! store, its journal and the rule of its maps are the protocol's own, so nothing here names a file
//! or a block. How the records are marked is the protocol's too (`journal_rpc::Marking`).
//!
//! `serve_protocol` answers the calls of one connection, over any reader and any writer. It reads
//! pieces into one buffer, does the calls that are complete, in order, waits once until the last of
//! those is stable that are to be, and sends all their replies, before it reads on. So a client
//! that sends many calls without waiting gets its replies together, no reply waits for a further
//! call, and few are kept for a client that reads none. `serve_to_pause` does the same for a turn:
//! until the connection ends, or is to pause between two records (`Pace`), so that its thread
//! serves others. `serve_protocol` is such turns, one after another: so a connection that pauses is
//! answered as one that does not.
//!
//! `specs/Protocols.antt` says what holds of each protocol, `specs/Output.antt` which text belongs
//! to which input, `specs/ReplyBatches.antt` what is told of replies that are held back, and
//! `specs/Connections.antt` when a connection ends.
#![tactic(auto)]

mod answerer;
mod clock;
mod connection;
mod held_reply;
mod pace;
mod pieces;
mod protocol;
mod reply_batch;
mod replying;
mod streams;

pub use answerer::Answerer;
pub use clock::Clock;
pub use connection::{ConnFault, End, Progress, Served, serve_protocol, serve_to_pause};
pub use held_reply::{Counted, HeldReply, HeldWait};
pub use pace::{NoPause, Pace};
pub use protocol::Protocol;
pub use streams::{StreamFailed, write_whole};
