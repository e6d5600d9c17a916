// Blocks that are fetched from the durable part.
ghost use Rattle.std.specs.Prelude.{◌≡◌, ◌≢◌, ◌<◌, ◌≤◌, [], map, IsTrue, IsOkUnless, IfOk, All};
ghost use Rattle.journal_world.specs.Histories.{is_trusted, count};
ghost use Rattle.journal_memory.specs.Fetches.{IsBlockAfter, IsFetched};

use journal_block::{Block, Update};
use journal_history::{Front, Naming};
use journal_world::{CommitCount, MapRule, Refusal};
use std::alloc::Global;
use std::marker::Model;

/// Blocks as they are logged, with the number of commits that they have and the history that has
/// these. That stays true for good. So blocks that were fetched in a hold of one lock are used in a
/// later hold of another, unless memory has dropped later writes by then.
#[derive(Drop)]
pub struct Fetched<'b, J: Naming, R: MapRule> {
    pub(crate) front: Front<'b, J, R>,
    pub(crate) commits: CommitCount,
    pub(crate) updates: Vec<Update>,
}

impl<'b, J: Naming, R: MapRule> Model for Fetched<'b, J, R> {
    ghost use Rattle.journal_memory.specs.Fetches.{FetchedState, IsFetched};

    ghost Value = { FetchedState };

    ghost view = { λ f. record { front = f.front; commits = f.commits; updates = f.updates.items } };

    ghost invariant = { λ f. IsFetched J.layout (record { front = f.front; commits = f.commits; updates = f.updates.items }) };
}

impl<'b, J: Naming, R: MapRule> Fetched<'b, J, R> {
    /// The fetch of no blocks, with this front, so that a block that is not in memory is asked for.
    /// The call takes no memory.
    pub fn empty(alloc: Global, front: Front<'b, J, R>) -> Fetched<'b, J, R>
        requires { front ≢ [] }
        ensures { result ≡ record { front = front.entry; commits = 0; updates = [] } }
    {
        Fetched {
            front,
            commits: CommitCount::new(0),
            updates: Vec::new(alloc),
        }
    }

    /// Blocks as the first commits of a history left them: that history, and the number of these
    /// commits.
    pub fn new(
        front: Front<'b, J, R>,
        commits: CommitCount,
        updates: Vec<Update>,
    ) -> Fetched<'b, J, R>
        requires begun { front ≢ [] }
        requires made { commits ≤ count front }
        requires objects { IsTrue (is_trusted front) → All (IsBlockAfter J.layout front commits) updates.items }
        ensures { result ≡ record { front = front.entry; commits = commits; updates = updates.items } }
    {
        Fetched {
            front,
            commits,
            updates,
        }
    }

    /// The blocks, so that their memory can be used again.
    pub fn into_updates(self) -> Vec<Update>
        ensures { result.items ≡ self.entry.updates }
    {
        let Fetched { updates, .. } = self;
        updates
    }

    /// The invariant of its type. Called for its contract.
    pub fn prove_fetched(&self)
        ensures { IsFetched J.layout self.now }
    {
        let _commits = self.commits;
    }
}

/// Memory for these blocks, to be fetched into.
///
/// # Errors
/// - `J1 NoMemory`: memory is refused. Nothing was made.
pub fn fetch_buffers<C>(alloc: Global, blocks: &[u64]) -> Result<Vec<Update>, Refusal<C>>
    ensures named { IfOk result (λ rooms. map (λ u. u.block) rooms.items ≡ blocks.now) }
    ensures refusal { IsOkUnless result Refusal.NoMemory }
{
    let mut rooms = Vec::new(alloc);
    for block in blocks {
        rooms.push(Update {
            block: *block,
            bytes: Block::try_new(alloc)?,
        })?;
    }
    Ok(rooms)
}
