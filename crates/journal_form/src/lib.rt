//! The form of the log of a disk: how it is read, and how it is changed.
//!
//! A log is plain or sealed. Of a plain log a group takes two barriers, and of a sealed one a
//! single barrier. `change_form` brings all updates of a disk's log home, frees their positions,
//! and changes the form of the log, which is then empty, by one write and a barrier. Every image of
//! every moment holds the same blocks. `inspect` reads the form, and the format of the files of a
//! disk of files.
//!
//! `specs/Forms.antt` has the definitions of the contracts.
#![tactic(auto)]

mod changing;
mod emptying;
mod form;
mod inspecting;

pub use changing::{Changed, change_form};
pub use form::LogForm;
pub use inspecting::{FileFormat, Inspected, inspect};
