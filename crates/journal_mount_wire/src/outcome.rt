// What becomes of a call.

/// What becomes of a call of MOUNT.
#[derive(Clone, Copy, Debug)]
pub(crate) enum MountOutcome {
    // NULL, UMNT and UMNTALL answer nothing.
    Nothing,
    // The path is exported.
    Mounted,
    // It is not.
    NoEntry,
    // Nobody is told who has mounted what.
    NoMounts,
    // The paths that are exported.
    Exports,
}
