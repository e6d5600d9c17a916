// The calls that look for a name, and those that take one away or give another.
use super::{NfsOperation, Told};
use journal_nfs3_wire::{StableHow, Verifier};
use journal_tree::{Changed, Found, Renamed, Status};
use journal_treeobjects::{Lookup, Remove, Rename, RmDir};
use journal_treewire::{TreeResults, error_of};

impl<'n> NfsOperation for Lookup<'n> {
    fn tell(&self, reply: Result<Found, Status>, _how: StableHow, _verifier: Verifier) -> Told {
        match reply {
            Ok(found) => Told::done(TreeResults::Found(Ok(found))),
            Err(status) => Told::refusal(TreeResults::Found(Err(error_of(status)))),
        }
    }
}

impl<'n> NfsOperation for Remove<'n> {
    fn tell(&self, reply: Result<Changed, Status>, _how: StableHow, _verifier: Verifier) -> Told {
        match reply {
            Ok(changed) => Told::done(TreeResults::Changed(Ok(changed))),
            Err(status) => Told::refusal(TreeResults::Changed(Err(error_of(status)))),
        }
    }
}

impl<'n> NfsOperation for RmDir<'n> {
    fn tell(&self, reply: Result<Changed, Status>, _how: StableHow, _verifier: Verifier) -> Told {
        match reply {
            Ok(changed) => Told::done(TreeResults::Changed(Ok(changed))),
            Err(status) => Told::refusal(TreeResults::Changed(Err(error_of(status)))),
        }
    }
}

impl<'n> NfsOperation for Rename<'n> {
    fn tell(&self, reply: Result<Renamed, Status>, _how: StableHow, _verifier: Verifier) -> Told {
        match reply {
            Ok(renamed) => Told::done(TreeResults::Renamed(Ok(renamed))),
            Err(status) => Told::refusal(TreeResults::Renamed(Err(error_of(status)))),
        }
    }
}
