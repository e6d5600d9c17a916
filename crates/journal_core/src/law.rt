// The law over whole lists of events.
ghost use Rattle.std.specs.Prelude.{ℕ, ◌≡◌, List, Some, IsTrue, All};
ghost use Rattle.journal_world.specs.Histories.{Entry, IsLegal};
ghost use Rattle.journal_world.specs.Addresses.{Shape};
ghost use Rattle.journal_disk.specs.Disks.{DiskState};
ghost use Rattle.journal_parts.specs.CoreStates.{CoreState};
ghost use Rattle.journal_memory.specs.Transactions.{TransactionState};
ghost use Rattle.journal_parts.specs.Beginnings.{Begins};
ghost use Rattle.journal_core.specs.Interleavings.Machine.{up};
ghost use Rattle.journal_core.specs.Interleavings.{Event, Machine, Mount, mounted, Run, HasHistory, IsUndisturbed, StaysFetched};
ghost use Rattle.journal_core.specs.Outcomes.{Answer, TellsAll};

use journal_world::MapRule;

/// The law of the steps of one thread. The events are transactions of any actors, who take free
/// slots and read and overwrite under them, steps of the logger and the installer, crashes at any
/// moment of any call, and openings, in any order. The disk is honest and is opened by one layout.
///
/// Each read is answered by the map after the history so far, each commit adds one legal entry, and
/// each mark is one that is allowed. A crash leaves the map after a front of the history that has
/// every marked commit, and the next mount begins with it. Nothing else changes the history. The
/// history of each mount is legal. The map goes on to give all that an open transaction has read,
/// whatever others do, so none is ever refused because a slot of it moved. A block that was fetched
/// from the disk stays as the first commits of the history left it, however many steps come in
/// between, so a later step may use it.
///
/// The call does nothing. Its contract is the law, over the definitions that the steps of `Core`
/// cite.
pub fn every_interleaving<R: MapRule>()
    ensures told { (layout : Shape) (disk : DiskState) (first : CoreState) (events : List Event) (answers : List Answer) (last : Machine) →
        IsTrue disk.honest → Begins R.statement layout disk first → Run R.statement (mounted first) events answers last →
        (history : List Entry) × HasHistory last history × TellsAll R.statement first.history answers history }
    ensures legal { (layout : Shape) (disk : DiskState) (first : CoreState) (events : List Event) (answers : List Answer) (last : Mount) →
        IsTrue disk.honest → Begins R.statement layout disk first → Run R.statement (mounted first) events answers (up last) →
        IsLegal R.statement last.core.history }
    ensures two_phase { (layout : Shape) (disk : DiskState) (first : CoreState) (events : List Event) (answers : List Answer) (last : Mount) (actor : ℕ) (draft : TransactionState) →
        IsTrue disk.honest → Begins R.statement layout disk first → Run R.statement (mounted first) events answers (up last) →
        last.transactions actor ≡ Some draft → IsUndisturbed last.core draft }
    ensures fetched { (layout : Shape) (disk : DiskState) (first : CoreState) (events : List Event) (answers : List Answer) (last : Mount) (actor : ℕ) →
        IsTrue disk.honest → Begins R.statement layout disk first → Run R.statement (mounted first) events answers (up last) →
        All (StaysFetched last.core) (last.fetched actor) }
{}
