//! The clients of a service over one journal, whatever its protocol.
//!
//! `serve_by_pool` serves the connections that come to an address of this machine (`Endpoint`), of
//! all clients or of those whose addresses are allowed (`AllowedAddresses`).
//! `Visits` has a `Protocol` of `journal_protocol` answer their calls, each connection under a
//! session of its own, and `VisitsByClient` has one for each client, by its address. The logger and
//! the installer of the journal run beside the workers. The service ends where a client asks for it
//! by its `Control`, and where its device fails. Then it waits until all commits are stable, and
//! stops the journal.
//!
//! Nothing here names a file or a tree: what the calls mean is the protocol's matter, and the disk
//! is mounted by whoever has its rule. `Reads` says where the disk is read from, `ended` which of
//! two faults is answered, and `verifier_of` by what two runs of a service differ.
//!
//! `journal_protocol` states what is sent to a connection, and `journal_twophase` what is on the
//! disk at the end. Of threads, sockets and clocks no contract says anything.
#![tactic(auto)]

mod clock;
mod control;
mod ending;
mod fault;
mod listening;
mod mirrored;
mod pool;
mod printing;
mod visits;

pub use clock::{WallClock, moment_of_mount, now, verifier_of};
pub use control::{Control, FAILED, STOP, STOPPED};
pub use ending::{begin_session, ended, flush};
pub use fault::ServiceFault;
pub use journal_connections::AllowedAddresses;
pub use listening::{listen_at, port_of, tell_port};
pub use mirrored::{Explained, Reads, mirror};
pub use pool::{Access, Endpoint, Plan, serve_by_pool};
pub use printing::{give_up, print_line};
pub use visits::{ByClient, Visit, Visits, VisitsByClient};
