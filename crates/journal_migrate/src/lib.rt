//! The migration of a disk to version 2 of the format.
//!
//! A disk of sound files of version 1 becomes one of version 2 by its superblock alone. So
//! `migrate` opens the disk under the rule "sound in version 1 or in version 2", overwrites the
//! superblock in one transaction, and makes that stable. Every crash meanwhile leaves the disk with
//! the same files, in version 1 or in version 2.
#![tactic(auto)]

mod either;
mod marking;
mod migration;
mod superblock;

pub use either::EitherVersion;
pub use migration::migrate;
