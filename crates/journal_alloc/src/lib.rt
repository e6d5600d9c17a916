//! Numbers that are handed out, each to one holder at a time.
//!
//! The numbers are those from a first one on. Contracts see the first and a list that says of each
//! whether it is out. The lowest that is not out goes first, alone or as the first of many that are
//! asked for at once. No call takes memory: the list is passed in whole, and keeps its length.
//!
//! A scan of the list finds the number to take. It begins below the lowest number that is not out,
//! at a place that only a returned number moves down.
#![tactic(auto)]

mod alloc;

pub use alloc::Alloc;
