//! Disks of blocks of 4096 bytes: what a crash may leave of them, a disk in memory to crash at
//! will, and one in a file.
//!
//! Contracts see a disk as its past: its blocks at first, and each write and barrier since. A
//! block's writes since the last barrier are pending. A read gives the last of them. If none is
//! pending it gives the stable block, that is what a read gave at that barrier. A crash leaves an
//! image: of each block, on its own, the stable block or any of its pending writes. The past only
//! grows, so it also gives the images of every earlier moment, and a contract can speak of each
//! moment of its own call. `specs/` has these words, and `specs/Laws.antt` has what follows from
//! them for every disk.
//!
//! [`BlockDisk`] is a disk as the layers above see it, [`MemDisk`] an honest one in memory, and
//! [`FileDisk`] one in a file. A disk in a file is honest if its [`BlockFile`] keeps what is
//! written to it, as [`KeptFile`] does. [`System`], a file of the system, states nothing of that.
#![tactic(auto)]

mod block_disk;
mod block_file;
mod events;
mod file_disk;
mod kept_file;
mod mem_disk;
mod mending;

pub use block_disk::{BlockDisk, DiskFault};
pub use block_file::{BlockFile, System};
pub use file_disk::FileDisk;
pub use kept_file::{KeptFile, kept_disk};
pub use mem_disk::MemDisk;
pub use mending::{rewrite, rewrite_first};
