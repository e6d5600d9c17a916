//! The logger and the installer of a journal, in threads of their own.
//!
//! `start` runs both until the journal is stopped. Each makes one step at a time: the logger makes
//! commits stable, group by group, and the installer brings them home where the log needs room. A
//! thread with nothing to do sleeps until there is something. Of a few threads that wait for marks
//! the last makes the logger's steps itself. So the logger makes those of commits that nobody waits
//! for, those of many threads, and those of threads that wait for others who do not come. It gives
//! the threads that the last mark woke a moment to commit again, so that their next commits share a
//! group. While there are commits it looks again once that moment is over, a thousand times a
//! second or up to five thousand. If nobody waits for a mark, it lets a group grow for one or two
//! milliseconds, or to 128 blocks.
//!
//! Each of the two threads passes a gate before each step, so that a test can hold it there. A
//! thread that makes the logger's steps in its place passes none.
#![tactic(auto)]

mod steps;
mod threads;

pub use journal_gate::{Gate, OpenGate};
pub use steps::{INSTALLER, LOGGER, OneStep};
pub use threads::start;
