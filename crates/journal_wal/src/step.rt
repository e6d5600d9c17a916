// The outcome of a step.

/// The outcome of a step of the logger.
#[derive(Clone, Copy, Debug, PartialEq, Eq)]
pub enum GroupStep {
    /// There was nothing to do.
    Idle,
    /// A step of the group in flight was made, and its cycle goes on.
    Put,
    /// The cycle of the group in flight ended: it is logged.
    Logged,
}

// `Freed` has a number and no `Position`, because the kit makes no proof of a function that takes a
// type of another crate out of such a variant.
/// The outcome of a step of the installer.
#[derive(Clone, Copy, Debug, PartialEq, Eq)]
pub enum InstallStep {
    /// There was nothing to do.
    Idle,
    /// A step of an installing was made, and its cycle goes on.
    Put,
    /// The positions before this one are free.
    Freed(u64),
}
