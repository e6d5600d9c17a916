//! The state of a mounted journal, in two parts, each for a lock of its own.
//!
//!   Volatile  memory alone (`journal_memory`). No function of it calls the device.
//!   Durable   the disk: the circular log, the group in flight, and how many commits are marked,
//!             how many are logged, and how many are with the group in flight (coming).
//!
//! A commit changes Volatile alone. The logger moves it to Durable in three steps: cut (both
//! parts), log (Durable), mark (both). The installer writes logged blocks home (Durable), and then
//! drops them from memory (both).
//!
//! A thread acts on a part under these locks in a hold: of Volatile, of Durable, or of both. There
//! is one function for each, and its clause `event` says what it did (`specs/Holds.antt`, and
//! `VolatileHolds.antt` of `journal_memory`).
//!
//! Between any two holds, `IsBetween`: each part keeps the invariant of its type (`IsVolatile`,
//! `IsDurable`), and both are tied (`Tied`): Durable's front begins the history, the greatest mark
//! is Durable's, what memory dropped is logged, and the last cut is what is coming. A mounted
//! journal begins so (`open_parts`).
//!
//! Lock order: Durable, then Volatile. A hold of Durable makes at most one device call that changes
//! the disk. A crash leaves the map after n commits, where marked <= n <= coming.
#![tactic(auto)]

mod due;
mod durable;
mod durable_group;
mod durable_steps;
mod fetch;
mod holds;
mod open;
mod pair;
mod stat;
mod step;

pub use due::{FreedLog, InstallCall, InstallFault, LogCall, RestingLog, UnnotedFault};
pub use durable::Durable;
pub use journal_wal::{GroupStep, InstallStep};
pub use open::open_parts;
pub use stat::Stat;
pub use step::LogStep;
