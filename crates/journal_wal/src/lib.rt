//! The write-ahead log on the disk: it takes updates of blocks in groups. The logger makes a group
//! durable whole, and the installer carries it home.
//!
//! Contracts speak of the blocks now and of those that a crash may leave. Of these there are two:
//! the blocks at the last cut, and those at the cut of the last group whose cycle ended.
//!
//! The log on the disk has one of two forms. Of a plain log the logger makes two barriers a group,
//! and of a sealed one a single barrier. Nothing else differs here, and a group has at most 255
//! blocks in both.
//!
//! A step makes one device call or none, and the state determines which. In the definitions
//! `log_call` is the next call of the logger, and `install_call` that of the installer. The
//! installer's plan has the last logged update of each block, blocks ascending. Of the other calls
//! only a read and the opening call the device, and those only read.
//!
//! Updates are appended to a `Tail`, which is in memory alone, for a lock of its own
//! (`journal_tail`). `Wal::take_reserved` takes whole what it cuts.
#![tactic(auto)]

mod disk_log;
mod group;
mod install;
mod log;
mod logged;
mod open;
mod plan;
mod step;
mod wal;

pub use step::{GroupStep, InstallStep};
pub use wal::Wal;
