//! The wire of MOUNT version 3 (RFC 1813, appendix I): which call the bytes of a request are, and
//! which bytes are its answer. It gives one handle, that of the root of what is exported, whose
//! bytes the server says. It knows no store and no journal.
//!
//! `read_mount_call` reads the call of a procedure's number and its arguments, and `answer` makes
//! the answer. Nothing is kept of a mount. `specs/Requests.antt` says which call bytes are, and
//! `specs/Mounts.antt` has the text of each answer.
#![tactic(auto)]

mod answering;
mod arguments;
mod laws;
mod outcome;
mod procedure;
mod reading;
mod reply;

pub use answering::answer;
pub use arguments::MountCall;
pub use laws::mount_arguments_are_spellings;
pub use procedure::MountProcedure;
pub use reading::{MOUNT_PROGRAM, MOUNT_VERSION, read_mount_call};
pub use reply::MountReply;
