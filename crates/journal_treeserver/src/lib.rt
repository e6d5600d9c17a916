//! NFS version 3 and MOUNT version 3 (RFC 1813) over a tree of directories and files, as a
//! protocol: which reply belongs to a call of a connection, and how far it is.
//!
//! A call's credential says who calls, and its arguments which call of `journal_tree` it is
//! (`journal_treewire`). The call is one transaction of a `TreeStore`: it leads from the tree at
//! its commit's place of the history to the tree after it, with the reply. A call that changes the
//! tree waits until it is stable, with all that the session had seen, before its reply is sent.
//! COMMIT does so too, and a WRITE as it is asked to. Where the journal refuses, the reply is
//! JUKEBOX, IO or SERVERFAULT, and nothing is committed. Where the call was done and its wait is
//! refused, the reply is IO or SERVERFAULT. Where the tree is only read, a call that would change
//! it is answered by ROFS, and not done, and ACCESS grants no right to change anything.
//!
//! A client that has got no reply sends its call again. A call that makes, removes or moves a name
//! is done once: its reply is kept (`ReplyTable`), and given again to a copy of the call from the
//! same client, once the commit of the call is stable. A copy that comes while the call is being
//! done waits for its end.
//!
//! `specs/Asking.antt` says what a call asks, and `specs/Answers.antt` which text is its reply.
//! `specs/Again.antt` says which calls are done once, and `specs/Kept.antt` what is kept of them.
//! `specs/Short.antt` says that no reply is too long.
#![tactic(auto)]

mod asking;
mod awaited;
mod changing;
mod client;
mod hints;
mod kept;
mod laws;
mod looking;
mod moment;
mod operation;
mod operations;
mod performing;
mod protocol;
mod repeating;
mod reply_group;
mod reply_table;
mod replying;
mod server;
mod taking;

pub use awaited::{AwaitedCall, AwaitedForm};
pub use client::ClientAddress;
pub use hints::{Drawn, FreeHints, Taken};
pub use laws::replies_are_short;
pub use reply_table::ReplyTable;
pub use server::{Export, TreeServer};
