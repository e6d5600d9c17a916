// What a name is.

/// What a name is.
#[derive(Clone, Copy, Debug, PartialEq, Eq)]
pub enum NameKind {
    /// `.`, the directory itself.
    Dot,
    /// `..`, the directory above.
    DotDot,
    /// None: it is empty, or has a byte 0 or `/`.
    NoName,
    /// It has more than `MOST_NAME` bytes.
    LongName,
    /// A name.
    Name,
}
