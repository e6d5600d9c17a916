//! A mounted journal for a program of one thread, and the two laws.
//!
//! `Core` is both parts of a journal (`journal_memory`, `journal_parts`). Its steps make the holds
//! of both parts one after the other. `every_interleaving` is the law over any list of its steps
//! (`specs/Interleavings.antt`). `every_order_of_holds` is the law over any list of holds, whoever
//! makes them (`specs/TwoLocks.antt`).
//!
//! The names of both parts are given here too, so that one crate has all of them.
#![tactic(auto)]

mod commit;
mod fence;
mod install;
mod law;
mod law_of_holds;
mod log;
mod open;
mod pair_commit;
mod pair_steps;
mod parts;
mod read;
mod session;
mod state;

pub use journal_memory::{
    Cause, CommitStep, Fetched, ReadResult, RefusalNumber, Spares, Transaction, Volatile,
    fetch_buffers,
};
pub use journal_parts::{
    Durable, FreedLog, GroupStep, InstallCall, InstallFault, InstallStep, LogCall, LogStep,
    RestingLog, Stat, UnnotedFault,
};
pub use law::every_interleaving;
pub use law_of_holds::every_order_of_holds;
pub use state::Core;
