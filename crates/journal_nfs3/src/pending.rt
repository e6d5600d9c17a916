// Answers whose wait is still pending.
ghost use Rattle.std.specs.Prelude.{◌≡◌};
ghost use Rattle.journal_file_types.specs.declared.pending_wait.PendingWait.TheVariants.{Nothing};

use journal_filestore::PendingWait;
use journal_nfs3_wire::Procedure;

/// The answer to an operation that is not waited for, and its pending wait.
#[derive(Drop)]
pub struct Pending<T, P> {
    pub value: T,
    pub wait: PendingWait<P>,
}

impl<T, P> Pending<T, P> {
    /// An answer that may be sent at once.
    pub fn ready(value: T) -> Pending<T, P>
        ensures value { result.value ≡ value }
        ensures wait { result.wait ≡ Nothing }
    {
        Pending {
            value,
            wait: PendingWait::Nothing,
        }
    }
}

/// The wait of a reply: the procedure of the call, and the receipt of its commit.
#[derive(Debug, Drop)]
pub struct ReplyWait<P> {
    /// The call's procedure.
    pub procedure: Procedure,
    /// The receipt, for `Journal::wait_stable`.
    pub receipt: P,
}
