// When a connection pauses.

/// The pace of a connection: when it pauses, so that others are served.
pub trait Pace {
    /// True if it is to pause now. Asked before each reading of a connection that has no record
    /// begun, and whose replies were all sent.
    fn is_to_pause(&self) -> bool;

    /// Called before each other reading, with how many bytes are kept of a record that is begun. It
    /// may wait until there is memory for more.
    fn note_begun(&self, bytes: usize);
}

/// That a connection is served to its end without a pause.
#[derive(Clone, Copy, Debug, PartialEq, Eq)]
pub struct NoPause;

impl Pace for NoPause {
    fn is_to_pause(&self) -> bool {
        false
    }

    fn note_begun(&self, _bytes: usize) {}
}
