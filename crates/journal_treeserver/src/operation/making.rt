// The calls that make a node, or would.
ghost use Rattle.std.specs.Prelude.{◌≡◌, ℕ, is_err};
ghost use Rattle.journal_nfs3_wire.specs.Profile.{no_change};
ghost use Rattle.journal_treewire.specs.Answers.{told_or};
ghost use Rattle.journal_treewire.specs.CodeViews.{results_of};
ghost use Rattle.journal_treewire.specs.Profile.{made_of};
ghost use Rattle.journal_treewire.specs.Results.{Made as made_results};

use super::{NfsOperation, Told};
use journal_nfs3_wire::{StableHow, Verifier};
use journal_tree::{Made, Status};
use journal_treeobjects::{
    CreateExclusive, CreateGuarded, CreateUnchecked, Link, MkDir, MkNod, SymLink,
};
use journal_treewire::{TreeResults, error_of};

impl<'n> NfsOperation for CreateGuarded<'n> {
    fn tell(&self, reply: Result<Made, Status>, _how: StableHow, _verifier: Verifier) -> Told {
        told_made(reply)
    }
}

impl<'n> NfsOperation for CreateUnchecked<'n> {
    fn tell(&self, reply: Result<Made, Status>, _how: StableHow, _verifier: Verifier) -> Told {
        told_made(reply)
    }
}

impl<'n> NfsOperation for MkDir<'n> {
    fn tell(&self, reply: Result<Made, Status>, _how: StableHow, _verifier: Verifier) -> Told {
        told_made(reply)
    }
}

impl<'n> NfsOperation for CreateExclusive<'n> {
    fn tell(&self, reply: Result<Made, Status>, _how: StableHow, _verifier: Verifier) -> Told {
        told_made(reply)
    }
}

impl<'n> NfsOperation for SymLink<'n> {
    fn tell(&self, reply: Result<Made, Status>, _how: StableHow, _verifier: Verifier) -> Told {
        told_made(reply)
    }
}

impl<'n> NfsOperation for MkNod<'n> {
    fn tell(&self, reply: Status, _how: StableHow, _verifier: Verifier) -> Told {
        Told::refusal(TreeResults::Made(Err(error_of(reply))))
    }
}

impl<'n> NfsOperation for Link<'n> {
    fn tell(&self, reply: Status, _how: StableHow, _verifier: Verifier) -> Told {
        Told::refusal(TreeResults::NotLinked(error_of(reply)))
    }
}

// The results of a call that makes a node.
fn told_made(reply: Result<Made, Status>) -> Told
    ensures results { (disk : ℕ) → results_of disk result.results ≡ made_results (told_or (made_of disk) no_change reply) }
    ensures refusal { result.is_refusal ≡ is_err reply }
{
    match reply {
        Ok(made) => Told::done(TreeResults::Made(Ok(made))),
        Err(status) => Told::refusal(TreeResults::Made(Err(error_of(status)))),
    }
}
