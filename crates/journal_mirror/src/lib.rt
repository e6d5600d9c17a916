//! A disk whose blocks are also in memory, so that no read of it asks the device.
//!
//! Each read is answered from memory, so it gives the last write whatever the device under it
//! answers. So the disk is honest with no premise on reads, and what is proved of honest disks
//! holds of it while the program runs. A crash is still the device's matter: if the disk under the
//! mirror is honest, the two have one past ([`Mirror::into_disk`] `past`), so a crash leaves an
//! image of the mirror on it.
#![tactic(auto)]

mod call;
mod mirror;

pub use mirror::Mirror;
