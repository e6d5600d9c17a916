//! The wire of NFS version 3 (RFC 1813): which operation the bytes of a call ask for, and which
//! bytes are the results of one. It has nine procedures, handles of 12 bytes, and files with the
//! attributes of `journal_file_types`. It knows no store and no journal, so it is proved beside
//! them and not after them.
//!
//! `specs/Arguments.antt` and `specs/Results.antt` have the grammar: an item for the arguments and
//! one for the results of each procedure, put together from those of `journal_xdr`. The laws say
//! that each value has one spelling. `specs/Calls.antt` says which operation a call asks for, or
//! why it is refused. `specs/Profile.antt` says which attributes files have. Results are written
//! with the version of the format, which says how many bytes files use.
//!
//! Other servers of NFS version 3 use what is not of these files alone: the arguments and the
//! results of queries (`specs/Queries.antt`, `specs/QueryResults.antt`), the readers of arguments
//! that several procedures have, and the writers of attributes that are given as data
//! (`FileAttributes`).
#![tactic(auto)]

mod arguments;
mod attributes;
mod decision;
mod grammar;
mod handle;
mod laws;
mod procedure;
mod query;
mod reading;
mod results;
mod writing;

pub use arguments::{
    CreateArguments, CreateHow, DirectoryEntry, FileRange, NewAttributes, Operation, SetArguments,
    StableHow, WriteArguments,
};
pub use attributes::{
    EarlierAttributes, FileAttributes, write_attributes_change, write_file_attributes,
    write_some_attributes,
};
pub use decision::{PROGRAM, VERSION, decide, decide_procedure};
pub use handle::read_handle;
pub use laws::{
    arguments_are_spellings, handles_are_spellings, queries_are_spellings, results_are_spellings,
};
pub use procedure::Procedure;
pub use query::{PageArguments, PagePlusArguments, Query, QueryProcedure, read_query};
pub use reading::{read_entry, read_new_attributes};
pub use results::{FormatResults, NfsError, Results, Verifier};
pub use writing::{Untold, used_bytes, write_after, write_handle, write_status, write_time};
