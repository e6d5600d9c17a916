// Replies that may have to wait.

use journal_history::{Naming, Receipt};
use journal_world::MapRule;

/// The commits that a reply waits for.
pub trait Counted {
    ghost use Rattle.std.specs.Prelude.{◌≡◌, ℕ};

    /// How many stable commits are enough.
    ghost commits: { Self → ℕ };

    /// The number of commits that are to be stable.
    fn stable_commits(&self) -> u64
        ensures { result ≡ commits self.now };
}

impl<'b, J: Naming, R: MapRule> Counted for Receipt<'b, J, R> {
    ghost commits = { λ receipt. receipt.count };

    fn stable_commits(&self) -> u64 {
        self.count().get()
    }
}

/// The wait of a reply: its call, and the receipt of its commit.
#[derive(Debug, Drop)]
pub struct HeldWait<A, R> {
    /// The call, as `Protocol::refused_reply` needs it.
    pub call: A,
    /// The receipt, for `Protocol::wait_stable`.
    pub receipt: R,
}

/// The reply to a call that is committed, as it is held: the wait before it may be sent.
#[derive(Debug, Drop)]
pub struct HeldReply<A, R> {
    /// The wait, or `None` if the reply may be sent at once.
    pub wait: Option<HeldWait<A, R>>,
    /// True if the connection ends with it: no later record is answered.
    pub ends: bool,
}
