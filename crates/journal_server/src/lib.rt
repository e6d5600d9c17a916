//! The file service: connections whose calls the files of a store answer.
//!
//! `FilesOf` is a `Protocol` of `journal_protocol`, which serves connections: the files of a store,
//! with a `FileProtocol`, which says what calls on files are answered, whatever the store.
//! `NineProcedures` is the one of the nine procedures of `journal_nfs3`, by which `serve` answers
//! the calls of a connection. `specs/FileProtocols.antt` says what holds of each.
//!
//! `run_workers` hands connections to four threads, by a queue that holds sixteen. A worker serves
//! one connection at a time, so a peer that is slow or dead holds back its own worker alone.
//! `Source` and `Connection` are what it takes connections from; `Listening` takes them from a TCP
//! port, and its connections fail where a peer makes no call for long, or for some seconds while
//! another one waits. `Programs` is a protocol over files that a service makes for its disk.
#![tactic(auto)]

mod adapters;
mod file_protocol;
mod files;
mod laws;
mod programs;
mod queue;
mod serving;
mod source;
mod tcp;
mod workers;

pub use file_protocol::{AwaitedCall, FileProtocol, FilesOf};
pub use files::NineProcedures;
pub use journal_protocol::{Clock, ConnFault, End, Served};
pub use laws::what_was_stable_stays_stable;
pub use programs::Programs;
pub use serving::serve;
pub use source::{Connection, Source};
pub use tcp::{Listening, Peer, Port, WaitingConnections};
pub use workers::{Outcome, run_workers};
