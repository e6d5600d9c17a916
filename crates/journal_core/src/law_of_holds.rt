// The law over whole lists of holds.
ghost use Rattle.std.specs.Prelude.{ℕ, ◌≡◌, List, Some, IsTrue, All};
ghost use Rattle.journal_world.specs.Histories.{IsLegal, Entry};
ghost use Rattle.journal_world.specs.Addresses.{Shape};
ghost use Rattle.journal_world.specs.Maps.{Transaction};
ghost use Rattle.journal_disk.specs.Disks.{DiskState};
ghost use Rattle.journal_history.specs.Tokens.{SessionState};
ghost use Rattle.journal_memory.specs.Transactions.{TransactionState};
ghost use Rattle.journal_core.specs.Outcomes.{Answer, TellsAll};
ghost use Rattle.journal_core.specs.Outcomes.Answer.{committed};
ghost use Rattle.journal_parts.specs.Holds.{IsBetween};
ghost use Rattle.journal_core.specs.TwoLocks.Machine.{up};
ghost use Rattle.journal_core.specs.TwoLocks.Event.{commits};
ghost use Rattle.journal_core.specs.TwoLocks.{Event, Machine, Mount, Parts, history_of, layout_of, mounted, BeginsApart, HappensUp, Run, RunUp, HasHistory, HasOwnCommits, StandsOnce, Grows, IsUndisturbed, StaysFetched};

use journal_world::MapRule;

/// The law of the holds of threads. The events are transactions of any actors, and the holds of two
/// locks that threads make for them: a hold of memory alone, of the disk alone with at most one
/// device call that changes the disk, or of both. A hold makes one event, or two, one right after
/// the other: it reads, scans, or commits what was fetched, and then notes which copies were used,
/// or it refuses a wait that a stop or a fault ends, and then shows the history. A hold of the disk
/// may have holds of memory within it, and events of other threads between these. Crashes at any
/// moment of any call, and openings, come between them in any order. The disk is honest and is
/// opened by one layout.
///
/// The answers are those of one history, as `every_interleaving` says of the steps of one thread.
/// If a wait succeeds, the history has as many marked commits as were waited for. An image of the
/// disk opens as a crash would leave it. A device call may fail, and other holds of memory may come
/// before the fault is noted there. Between any two holds each part keeps the invariant of its
/// type, and both are tied.
///
/// Each session of a mount has a number, and the history's commits under it are the session's own.
/// A commit stands once, after all that the session had seen with which its transaction began, and
/// its session has then seen it. Until a crash the history only grows, and with it what each
/// session has seen. So a transaction whose session looked at the history, or whose wait for a mark
/// ended well, stands after each that was committed before that.
///
/// The call does nothing. Its contract is the law, over the definitions that the holds of `Durable`
/// and `Volatile` cite.
pub fn every_order_of_holds<R: MapRule>()
    ensures told { (layout : Shape) (disk : DiskState) (first : Parts) (events : List Event) (answers : List Answer) (last : Machine) →
        IsTrue disk.honest → BeginsApart R.statement layout disk first → Run R.statement (mounted first) events answers last →
        (history : List Entry) × HasHistory last history × TellsAll R.statement (history_of first) answers history }
    ensures legal { (layout : Shape) (disk : DiskState) (first : Parts) (events : List Event) (answers : List Answer) (last : Mount) →
        IsTrue disk.honest → BeginsApart R.statement layout disk first → Run R.statement (mounted first) events answers (up last) →
        IsLegal R.statement (history_of last.parts) }
    ensures between { (layout : Shape) (disk : DiskState) (first : Parts) (events : List Event) (answers : List Answer) (last : Mount) →
        IsTrue disk.honest → BeginsApart R.statement layout disk first → Run R.statement (mounted first) events answers (up last) →
        IsBetween (layout_of last) last.parts.volatile last.parts.durable }
    ensures two_phase { (layout : Shape) (disk : DiskState) (first : Parts) (events : List Event) (answers : List Answer) (last : Mount) (actor : ℕ) (draft : TransactionState) →
        IsTrue disk.honest → BeginsApart R.statement layout disk first → Run R.statement (mounted first) events answers (up last) →
        last.transactions actor ≡ Some draft → IsUndisturbed (history_of last.parts) draft }
    ensures fetched { (layout : Shape) (disk : DiskState) (first : Parts) (events : List Event) (answers : List Answer) (last : Mount) (actor : ℕ) →
        IsTrue disk.honest → BeginsApart R.statement layout disk first → Run R.statement (mounted first) events answers (up last) →
        All (StaysFetched (history_of last.parts)) (last.fetched actor) }
    ensures own { (layout : Shape) (disk : DiskState) (first : Parts) (events : List Event) (answers : List Answer) (last : Mount) (number : ℕ) (session : SessionState) →
        IsTrue disk.honest → BeginsApart R.statement layout disk first → Run R.statement (mounted first) events answers (up last) →
        last.sessions number ≡ Some session → HasOwnCommits (history_of last.parts) number session }
    ensures once { (layout : Shape) (disk : DiskState) (first : Parts) (events : List Event) (answers : List Answer) (old new : Mount) (actor number : ℕ) (t : Transaction) →
        IsTrue disk.honest → BeginsApart R.statement layout disk first → Run R.statement (mounted first) events answers (up old) →
        HappensUp old (commits actor number) (committed t) (up new) → StandsOnce actor number t old new }
    ensures grows { (layout : Shape) (disk : DiskState) (first : Parts) (events : List Event) (answers : List Answer) (old : Mount) (more : List Event) (later : List Answer) (new : Mount) →
        IsTrue disk.honest → BeginsApart R.statement layout disk first → Run R.statement (mounted first) events answers (up old) →
        RunUp old more later new → Grows old new }
{}
