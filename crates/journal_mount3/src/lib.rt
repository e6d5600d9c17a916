//! A file service that clients mount: the programs NFS and MOUNT in their versions 3 (RFC 1813), on
//! one port.
//!
//! The nine procedures of `journal_nfs3` are answered as there, but for the root's times, which are
//! the moment of the call. Beside them MOUNT gives the root's handle, ACCESS, FSINFO, FSSTAT and
//! PATHCONF tell of the files, and READDIR and READDIRPLUS list them, a page at a time, and tell no
//! times of the root. A listing is made of LOOKUPs, one for each name, each at a place of its own
//! in the history, places rising: so a file that is there all the time is told once, and one that
//! is never there is not told. The name of an entry follows from its cookie, which does not end.
//! `journal_nfs3_wire` reads the arguments of these queries and has the form of their results, and
//! `journal_mount_wire` reads the calls of MOUNT and has the text of their answers.
//!
//! `Exported` is both programs, and `ExportedToRead` both where files are only read: there a call
//! that asks to change one is answered by NFS3ERR_ROFS, and nothing is done.
#![tactic(auto)]

mod arguments;
mod decision;
mod entry;
mod laws;
mod listing;
mod page;
mod protocol;
mod reader;
mod replying;
mod results;
mod root;
mod serving;
mod writing;

pub use laws::old_calls_are_answered_as_before;
pub use reader::ExportedToRead;
pub use replying::Exported;
