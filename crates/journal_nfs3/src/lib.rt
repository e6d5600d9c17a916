//! Nine procedures of NFS version 3 (RFC 1813), over memory: a call comes in, and the bytes of its
//! reply go out.
//!
//! `answer` reads the arguments, which lend from the call's record, runs the operation on a file
//! store at the moment that it is given, and writes the reply into one buffer. It is
//! `answer_no_wait`, which does a call up to its commit, and then the pending wait. If the wait is
//! refused, it answers the reply of `refused_reply`. So a caller with many calls does them all, and
//! waits once. `journal_nfs3_wire` has the grammar of the arguments and results, and says which
//! operation a call asks for. `specs/Served.antt` has a row for each operation: the handle, the
//! file store's call, whether it waits until it is stable, how far an answer is that waits, and the
//! results that are made of it. `specs/Answers.antt` puts these together: the reply to a call, and
//! the history that the session has seen then.
#![tactic(auto)]

mod convert;
mod laws;
mod pending;
mod replying;
mod serving;

pub use journal_nfs3_wire::{DirectoryEntry, NfsError, Operation, Procedure, Results, Verifier};
pub use laws::{
    answers_that_wait_are_stable, files_use_their_blocks, pending_replies_hold_once_stable,
};
pub use pending::{Pending, ReplyWait};
pub use replying::{answer, answer_no_wait, refused_reply, uses_moment};
pub use serving::{PendingReceipt, get_attributes, look_up, serve_no_wait};
