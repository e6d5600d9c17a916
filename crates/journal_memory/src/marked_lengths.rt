// The fronts of the history that have only marked commits.
ghost use Rattle.std.specs.Prelude.{◌<◌, ◌^◌, ◌≡◌};
ghost use Rattle.journal_memory.specs.MarkedLengths.{with_non_commit};

use journal_world::HistoryLength;

// A session does not know how many commits it has seen, but how many entries. So a flush compares
// two lengths, and a commit, a cut, a mark and a flush cost the same however long the history is.
/// The lengths of two fronts of the history: the longest with marked commits alone, and the longest
/// with no more commits than there were at the last cut. A mark is of the commits at the cut or of
/// all, so the next mark finds the first of them without a look at the history.
#[derive(Clone, Copy)]
pub(crate) struct MarkedLengths {
    pub(crate) marked: HistoryLength,
    pub(crate) cut: HistoryLength,
}

impl MarkedLengths {
    /// An entry that is no commit was added after `len` entries. A front that had all of them is
    /// longer by one.
    pub(crate) fn add_non_commit(&mut self, len: HistoryLength)
        requires { len < 2 ^ 62 }
        ensures { self.new ≡ record { marked = with_non_commit len self.old.marked; cut = with_non_commit len self.old.cut } }
    {
        self.marked = one_longer(self.marked, len);
        self.cut = one_longer(self.cut, len);
    }
}

// The length of a front with one entry more.
fn one_longer(entries: HistoryLength, len: HistoryLength) -> HistoryLength
    requires { len < 2 ^ 62 }
    ensures { result ≡ with_non_commit len entries }
{
    if entries == len {
        len.following()
    } else {
        entries
    }
}
