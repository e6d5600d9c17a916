//! The memory of a mounted journal, for a lock of its own. No function here calls a device.
//!
//!   Volatile     the ledger, the blocks that commits wrote and that are not home yet, and copies
//!                of home blocks
//!   Ledger       the history, with the counts of each session and slot, the marks and the fences
//!   Transaction  the reads and overwrites of an open transaction
//!   Fetched      blocks as they are logged, which the part with the disk reads
//!   BitScan      asks for the bits of a block that have a value
//!
//! A call of `Volatile` with a clause `event` is a hold of the memory lock alone, and the clause
//! says what it did (`specs/VolatileHolds.antt`). A wait and a flush change no part, as their
//! clause `same` says. Calls that ask for the `LogKey` are made in holds of both locks. The part
//! with the disk keeps the key to itself.
#![tactic(auto)]

mod bit_scan;
mod cause;
mod fenced_sessions;
mod fetched;
mod known;
mod ledger;
mod ledger_commit;
mod ledger_fence;
mod ledger_flush;
mod ledger_session;
mod limits;
mod log_key;
mod marked_lengths;
mod named_layout;
mod refusal_number;
mod transaction;
mod volatile;
mod volatile_commit;
mod volatile_cut;
mod volatile_fence;
mod volatile_read;
mod volatile_scan;
mod volatile_wait;

pub use bit_scan::BitScan;
pub use cause::Cause;
pub use fetched::{Fetched, fetch_buffers};
pub use journal_tail::Spares;
pub use ledger::Ledger;
pub use log_key::LogKey;
pub use refusal_number::RefusalNumber;
pub use transaction::{ReadResult, Transaction};
pub use volatile::Volatile;
pub use volatile_commit::CommitStep;
