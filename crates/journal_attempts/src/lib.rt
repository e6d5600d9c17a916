//! Calls on what a journal keeps, each attempted as one transaction until one is committed.
//!
//! An attempt that finds a slot held is undone and made again. This crate has what each store over
//! a journal needs for that: an attempt's reads and overwrites, why one is undone
//! (`specs/Refusals.antt`), and what the commit of a call is in the history, over what holds of a
//! map and of the maps before and after the call (`specs/Commits.antt`).
#![tactic(auto)]

mod access;
mod fault;

pub use access::{overwrite, read};
pub use fault::{AttemptFault, RETRIES};
