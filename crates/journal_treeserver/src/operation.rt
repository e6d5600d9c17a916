// The operations of a tree, whose answers become results of NFS.
ghost use Rattle.std.specs.Prelude.{◌≡◌, ℕ, true, false};
ghost use Rattle.journal_tree.specs.Op.{is_refusal};
ghost use Rattle.journal_treewire.specs.CodeViews.{results_of};
ghost use Rattle.journal_treeserver.specs.Answers.{told_results};

use journal_nfs3_wire::{StableHow, Verifier};
use journal_treeobjects::TreeOperation;
use journal_treewire::TreeResults;

mod attributes;
mod contents;
mod facts;
mod listings;
mod making;
mod names;

// The results of a call that is committed, and whether they are a refusal's.
#[derive(Drop)]
pub(crate) struct Told {
    pub(crate) results: TreeResults,
    pub(crate) is_refusal: bool,
}

// An operation whose answer becomes results of NFS.
pub(crate) trait NfsOperation: TreeOperation {
    // The results of an answer. `how` is how stable it was asked to be.
    fn tell(&self, reply: Self::Reply, how: StableHow, verifier: Verifier) -> Told
        ensures results { (disk : ℕ) → results_of disk result.results ≡ told_results disk verifier.0 how (Self.call self.now) (Self.told reply) }
        ensures refusal { result.is_refusal ≡ is_refusal (Self.told reply) };
}

impl Told {
    // Those of a call that is answered.
    pub(crate) fn done(results: TreeResults) -> Told
        ensures { result ≡ record { results = results; is_refusal = false } }
    {
        Told {
            results,
            is_refusal: false,
        }
    }

    // Those of one that the tree refuses.
    pub(crate) fn refusal(results: TreeResults) -> Told
        ensures { result ≡ record { results = results; is_refusal = true } }
    {
        Told {
            results,
            is_refusal: true,
        }
    }
}
