// Why an operation has no answer.
use journal_world::Refusal;

// A clause says which numbers it may have (`IsFaultOf`), and no type: a type would hide the fact
// that a cause has.
/// Why an operation has no answer.
#[derive(Debug, Drop)]
pub enum Fault<C> {
    /// The journal refused its transaction: it has no commit, and changed nothing. J5 `Busy` comes
    /// after the last attempt.
    Refused(Refusal<C>),
    /// Its transaction is committed, and the wait until it is stable was refused: a crash may take
    /// it back.
    Unsure(Refusal<C>),
}
