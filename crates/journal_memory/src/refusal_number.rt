// The refusal that a cause was made for.

// The variant of a refusal has the number too, but a match can put a cause under another variant.
// Above the core no clause sees the core's state: there this number says which variant a cause may
// be under.
/// The number of a refusal that holds a cause.
#[derive(Clone, Copy, Debug, PartialEq, Eq)]
pub enum RefusalNumber {
    /// `DeviceFailed`.
    J6,
    /// `Stale`.
    J9,
    /// `Stranger`.
    J10,
    /// `Worn`.
    J11,
    /// `Full`.
    J12,
    /// `Closed`.
    J13,
}
