// The part of the log on the disk, and the progress of its two cycles.
use crate::plan::Plan;
use journal_circ::{Circ, EndPut, HomesPut, HomesSynced, LogBlocksPut, LogBlocksSynced, StartPut};
use journal_disk::BlockDisk;

// Beside the log in memory, so that each can be under a lock of its own. The cycles' first states
// come from the opening, and no later call makes one: a step without its barrier cannot be written.
/// The circular log with the states of its two cycles.
#[derive(Drop)]
pub(crate) struct DiskLog<D: BlockDisk> {
    pub(crate) circ: Circ<D>,
    pub(crate) logger: Logger,
    pub(crate) installer: Installer,
}

/// The progress of the group in flight.
#[derive(Drop)]
pub(crate) enum Logger {
    /// Its log blocks are put, one a step. If no group is in flight there are none.
    Blocks(LogBlocksPut),
    /// All its log blocks are stable.
    Synced(LogBlocksSynced),
    /// Block 0 was written with its end.
    EndPut(EndPut),
    /// A device call failed.
    Spent,
}

/// The progress of the installing.
#[derive(Drop)]
pub(crate) enum Installer {
    /// Nothing is being installed.
    Resting(HomesPut),
    /// Home blocks are put, one a step.
    Homes(HomesPut, Plan),
    /// All of them are stable, up to this position.
    Synced(HomesSynced, u64),
    /// Block 1 was written with this position as the start.
    StartPut(StartPut, u64),
    /// A device call failed.
    Spent,
}
