// What a connection may ask for.
ghost use Rattle.std.specs.Prelude.{◌≡◌};
ghost use Rattle.journal_port.specs.Requests.{are_writing};
ghost use Rattle.journal_port.specs.Answers.{is_denied};

use journal_records::{Action, Part};

/// What a connection may ask for.
#[derive(Clone, Copy, Debug)]
pub struct Rights {
    /// Whether it may end the service.
    pub may_stop: bool,
    /// Whether its transactions may write. They may not where the disk is only read.
    pub may_write: bool,
}

impl Rights {
    // True if it may not ask to commit the parts: it may not write, and they do.
    pub(crate) fn deny(&self, parts: &[Part]) -> bool
        ensures { result ≡ is_denied self.now parts.now }
    {
        !self.may_write && are_writing(parts)
    }
}

// True if some part writes.
fn are_writing(parts: &[Part]) -> bool
    ensures { result ≡ are_writing parts.now }
{
    parts
        .iter()
        .any(|part| matches!(part.action, Action::Write))
}
