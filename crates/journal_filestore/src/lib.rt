//! Files by number, over a journal.
//!
//! A file store is a journal under the rule of sound files, and the numbers of the blocks that no
//! file has. Each operation is one transaction: it reads the inodes that it needs, answers the
//! first case that holds, and overwrites what changes. That case determines its answer and its
//! change of the files, between the map before its commit and the map after it, whatever other
//! threads commit meanwhile.
//!
//! If an attempt finds a slot held, it is undone, and made again once that slot is free.
//! `journal_alloc` hands out blocks, under a lock of its own. A block that an attempt took and did
//! not use comes back, and a block that a commit freed is handed out again after it. No proof rests
//! on these numbers: a file takes a block only if the block's bit, read in the same transaction, is
//! clear.
//!
//! `specs/Files.antt` defines the files of a map, `specs/Operations.antt` has the cases of each
//! operation, and `specs/Done.antt` says how the history has an operation.
#![tactic(auto)]

mod block_reservation;
mod blocks;
mod commit;
mod create;
mod find;
mod getattr;
mod lookup;
mod name;
mod objects;
mod operation;
mod read;
mod remove;
mod reply;
mod set_file;
mod set_size;
mod store;
mod write;

pub use journal_file_types::{
    Answer, Attributes, Changed, Committed, CreateMode, Fault, Found, Handle, NewTime, PendingWait,
    Portion, READ_BYTES, Settings, Stability, Status,
};
pub use store::{CommitResult, FileFault, FileStore};
