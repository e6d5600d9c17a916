//! The journal that threads share, and its transactions.
//!
//! A transaction is two-phase: it takes the slot of each address that it reads or overwrites, and
//! releases all its slots when it ends. So transactions of disjoint slots go on side by side, and
//! others wait for one another. Slots are waited for in ascending order only, and a lower one is
//! tried once, so no two transactions wait for each other.
//!
//! Each of the core's two parts is under a lock. Under the memory lock a thread looks at the
//! history and at the objects that commits wrote, and waits for no device. So a read or a commit
//! whose blocks are in memory goes on while a barrier waits. Under the disk's lock it makes at most
//! one device call that changes the disk. A thread that needs both takes the disk's first.
//!
//! Blocks that were fetched from the disk and used are kept in memory, up to a number of blocks. So
//! a block that is read often is not read from the device each time.
//!
//! No contract can name a value under a lock. So clients hold fronts of the history:
//!
//! - the journal shows the history at its opening
//! - a session the history that it has seen
//! - a receipt the place of a commit
//! - an open transaction a history at whose end the map gives all that it read
//!
//! Fronts stay true, because the history only grows.
//!
//! `specs/` says what each call does and why it is refused.
#![tactic(auto)]

mod commit;
mod device;
mod hint;
mod journal;
mod locked_parts;
mod prefetch;
mod scanning;
mod spent;
mod txn;
mod waiters;
mod waiting;

pub use journal::{CACHED_BLOCKS, DiskLeft, Journal, MAX_CACHED_BLOCKS};
pub use journal_memory::BitScan;
pub use locked_parts::JournalRefusal;
pub use txn::Txn;
pub use waiting::{WaitFault, Waited};
