//! The history of a mount, which only grows, and its beginnings, which any thread may hold.
//!
//! The history is a list of entries: the opening of a map, commits, marks that say how many commits
//! are stable, and fences, each of which ends the commits of a session. It exists in proofs alone.
//! Threads share a `Book` of two words: HEAD, the history's length, and FLOOR, the greatest mark
//! that was published. Only four kinds of step change or read them, and each keeps the law: HEAD is
//! the length, the history is legal if the disk was honest and settled when it was opened, and
//! FLOOR is at most its greatest mark.
//!
//! - load HEAD: `Session::observe`
//! - exchange HEAD from n to n + 1, with one entry added: `Writer::begin`, `Writer::commit`,
//!   `Writer::mark`, `Writer::fence`. That it succeeds shows that the writer's n entries were the
//!   whole history
//! - load FLOOR, and then HEAD: `Session::is_stable`
//! - exchange FLOOR: `Writer::publish_floor`
//!
//! Each session's number has one token, which is in the `Session`. A token knows how many commits
//! its session has, and `SessionCounts` knows that of all sessions. Both are passes of one cell, a
//! `CountCell`. Its rule says that they agree and that no number has two tokens. Passes have no
//! bytes: their knowledge exists in proofs alone. A look at the cell shows that a session made all commits that
//! the history has under its number. So only the session itself keeps anything, and a session that
//! ended leaves nothing.
//!
//! A `Front` is a beginning of the history that someone has seen. The history only grows, so a
//! front stays true, through locks and between threads. `Session`, `Receipt` and `StableNote` are
//! fronts with facts about them. Two sessions share what they have seen by `Session::meet`, which
//! does not block. Only the one `Writer` of a book adds entries, and a commit needs the session
//! that it counts for.
#![tactic(auto)]

mod book;
mod count_cell;
pub mod count_steps;
mod counts;
mod front;
mod law;
mod receipt;
mod session;
mod token;
mod writer;

pub use book::{Book, Naming};
pub use count_cell::{CountCell, CountPass};
pub use counts::{SessionCell, SessionCounts};
pub use front::Front;
pub use law::{Opened, Recorded};
pub use receipt::{Receipt, StableNote};
pub use session::Session;
pub use writer::Writer;
