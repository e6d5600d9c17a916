//! The map of objects that the write-ahead log stands for.
//!
//! An `ObjectLog` has the log on the disk, which takes the groups that a `Tail` cuts in memory
//! (`journal_tail`). Contracts see three maps of it: the map now, with all groups that it took, and
//! the two that a crash may leave. These are the map at the last cut, and the one at the cut of the
//! last group whose cycle ended. The clauses on maps hold if the disk is honest. `specs/` has these
//! words.
#![tactic(auto)]

mod object_log;
mod rules;

pub use object_log::ObjectLog;
