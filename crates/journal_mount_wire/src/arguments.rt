// The calls of MOUNT.

/// A call of MOUNT with its arguments (RFC 1813, appendix I). Paths are as the caller sent them, of
/// at most 1024 bytes.
#[derive(Clone, Copy, Debug)]
pub enum MountCall<'a> {
    /// NULL.
    Null,
    /// MNT, of this path.
    Mount(&'a [u8]),
    /// DUMP.
    Dump,
    /// UMNT, of this path.
    Unmount(&'a [u8]),
    /// UMNTALL.
    UnmountAll,
    /// EXPORT.
    Export,
}
