// The next part of a stream.

/// The next part of a stream: a byte of a fragment's header, of which there are four, or of its
/// body.
#[derive(Clone, Copy, Debug)]
pub enum Part {
    /// The first byte of a header.
    Start,
    /// The second, after this one.
    First(u8),
    /// The third, after these.
    Second(u8, u8),
    /// The fourth, after these.
    Third(u8, u8, u8),
    /// A body's bytes, of which `left` are still to come.
    Body {
        /// True if the fragment is its record's last.
        last: bool,
        /// The number of bytes that are to come: at least one.
        left: usize,
    },
    /// Nothing more: a header took a record above the limit.
    TooLong,
}
