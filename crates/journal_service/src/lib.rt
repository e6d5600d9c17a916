//! The file service: disks in files, and the files of such a disk over TCP.
//!
//! `format` makes a disk of version 2 without files in a file, and `make` one with a sealed log and
//! a label in a new file. `check` says whether a disk is sound, and of which version. `migrate`
//! makes one of version 1 one of version 2, and `read_files` reads all files of a disk of either
//! version. `serve` mounts such a disk, runs the logger and the installer beside the workers, and
//! answers the connections that come to a port of this machine. It ends by a flush, a stop, a close
//! and a barrier, so that all commits are stable in the file then. `export` does the same by other
//! programs than the nine procedures, for example by NFS and MOUNT, and at any address. It ends
//! where a client asks for it by its `Control`, and where its device fails, while `serve` answers
//! each call by IO from then on. `export_to_read` is the same of a disk that is only read.
//!
//! A disk is mounted under the rule of version 2, and where that refuses it by J8 `BadSuper` under
//! the rule of version 1: each with a book of its own, since a book is of one rule.
//!
//! Of what a file holds no contract says anything, since no proof can say that a file keeps what
//! was written to it.
#![tactic(auto)]

mod checking;
mod file;
mod front_end;
mod migrating;
mod mounting;
mod reading;
mod serving;
mod workers;

pub use checking::{check, check_disk};
pub use file::{format, make};
pub use journal_clients::{Control, Endpoint, FAILED, Reads, STOP, STOPPED, ServiceFault};
pub use migrating::{migrate, migrate_disk};
pub use reading::{FlatFile, read_files};
pub use serving::{Service, export, export_to_read, serve};
