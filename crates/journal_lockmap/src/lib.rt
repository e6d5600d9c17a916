//! The lock map: slots, each of which one transaction holds at a time, and how many commits touched
//! each.
//!
//! The layout by which a journal is named has the number of slots: 257 unless it asks for more.
//!
//! Each address has a slot, and transactions that use addresses of one slot exclude one another.
//! Each slot has one token. The token is in the slot's place while the slot is free, and in the
//! holder's `Held` while it is taken. So nobody can take a slot that is taken: there is no token to
//! put into a second `Held`. Contracts see a place as a table that says of each slot whether it is
//! taken. Every slot whose token is elsewhere is taken in that table. One step moves a token out of
//! its place, and one step moves it back. A `Held` has no other maker, no copy and no drop. So a
//! slot is handed out only while it is free, and each taken slot has a holder who can release it.
//!
//! A token knows how many commits touched its slot, and `SlotCounts` knows the numbers of all
//! slots. Both are passes of one cell, of the same kind as that of the sessions
//! (`journal_history::CountCell`). Its rule says that a token's number is the one that
//! `SlotCounts` has for its slot, and that no slot has two tokens. Passes have no bytes: their
//! knowledge exists in proofs alone. A look at the cell shows that a `Held` agrees with the
//! numbers. Only `SlotCounts::count_writes` changes them: of each slot that a commit writes, and in
//! both places at once. So a value that was read under a held slot is the one that the commits up
//! to now left there, and no value has to be compared.
//!
//! Each place has a lock of its own, which a thread keeps for one such step and never while it
//! waits. A thread that finds a slot taken looks again for some microseconds and then sleeps until
//! that slot is freed. The release of another slot does not wake it. The caller decides the order
//! in which it takes slots. Threads that wait by `acquire` only for slots above all that they hold,
//! and try the others by `try_acquire`, do not wait for one another in a circle.
#![tactic(auto)]

mod counts;
mod held;
mod keeper;
mod map;
mod place;
mod slot_set;
mod slots;
mod token;

pub use counts::{SlotCell, SlotCounts};
pub use held::Held;
pub use map::{LockMap, SlotLocks};
pub use slots::Slots;
