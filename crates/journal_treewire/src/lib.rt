//! The wire of NFS version 3 (RFC 1813) over a tree of directories, files and symbolic links: which
//! call of `journal_tree` the bytes of a request ask for, of which caller, and which bytes are its
//! results. It knows no disk and no journal, so it is proved beside them and not after them.
//!
//! `specs/Requests.antt` says which request the arguments of each of the 22 procedures are, by the
//! grammar of `journal_nfs3_wire` and by `specs/Directories.antt`. `specs/Calls.antt` says which
//! call of a tree that is on a disk: a handle has 16 bytes, of which 8 are the disk's own
//! (`specs/Handles.antt`). `specs/Credentials.antt` says who calls.
//!
//! `specs/Results.antt` has the grammar of results, `specs/Profile.antt` has the results for each
//! reply of the definitions, and `specs/Answers.antt` puts both together: the results of a call by
//! its reply. Each is in the grammar (`DiskResults::prove_grammar`) and is short enough for a reply
//! (`DiskResults::prove_short`). `specs/ListLengths.antt` says how many bytes listings have, and
//! `specs/Bounds.antt` how many bytes and lines the answers of a tree have.
#![tactic(auto)]

mod arguments;
mod attributes;
mod call;
mod credential;
mod decision;
mod grammar;
mod handle;
mod laws;
mod length;
mod listing;
mod parts;
mod procedure;
mod reading;
mod refusing;
mod results;
mod space;
mod values;
mod writing;

pub use arguments::{Device, DirectoryOperation, LinkArguments, NodeData, Requested};
pub use call::{
    LinkCall, ListCall, ListPlusCall, NameIn, ReadCall, SetCall, TreeCall, WriteCall, resolve,
};
pub use credential::{Credential, read_credential};
pub use decision::read_request;
pub use handle::read_handle;
pub use laws::{
    answers_are_bounded, credentials_are_spellings, directory_arguments_are_spellings,
    disk_handles_are_spellings, listings_have_room, node_results_are_spellings,
};
pub use parts::{FilePart, Lines, MOST_LINES, ShortText};
pub use procedure::DirectoryProcedure;
pub use results::{DiskResults, TreeResults};
pub use values::error_of;
