//! Programs over a disk in a file share this: they make the file, open it and lock it in one way,
//! they keep what they print apart from the disk, and they run the logger and the installer of a
//! journal in threads of their own.
//!
//! All programs take one lock, so a disk has one program at a time. On a block device they take a
//! second one, by the device's number, because the first is that of one node. A disk is opened as a
//! journal only once nothing is pending on it, and nothing lost: `Settled`. One that is to be
//! written is looked at first, and then mended (`FoundDisk`): its log, and the home blocks that the
//! log names, are written as they read, and made stable. For where a sync failed before, reads give
//! what the device lacks and no later sync keeps.
//!
//! No contract says anything of what a file holds, because no proof can say that a file keeps what
//! was written to it.
#![tactic(auto)]

mod checking;
mod copying;
mod daemon;
mod device;
mod disk;
mod fault;
mod file;
mod held;
mod inspecting;
mod label;
mod labeling;
mod making;
mod noted;
mod opening;
mod relabeling;
mod room;
mod settled;
mod sharing;
mod signatures;
mod streams;
mod system;
mod zeros;

pub use checking::{ToCheck, open_to_check};
pub use copying::{CopyFault, CopyPaths, copy_disk};
pub use daemon::Daemon;
pub use device::DeviceNumber;
pub use disk::SizedDisk;
pub use fault::{DeviceFault, LabelFault, OpenFault};
pub use file::{create_disk, create_labeled_disk, create_new_disk, rename_new_file};
pub use inspecting::DiskFacts;
pub use label::{BadLabel, Label, UNTOLD, is_disk_size};
pub use making::{FoundDevice, find_device};
pub use opening::{FoundDisk, find_disk, open_settled};
pub use relabeling::{DiskToLabel, find_disk_to_label};
pub use room::Room;
pub use settled::Settled;
pub use sharing::{SharedDisk, share_disk};
pub use streams::hold_closed_streams;
pub use zeros::Zeros;
