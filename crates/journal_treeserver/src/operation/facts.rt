// The facts of a file system.
use super::{NfsOperation, Told};
use journal_nfs3_wire::{StableHow, Verifier};
use journal_tree::{Space, Status};
use journal_treecalls::{FactsReply, NameFactsReply};
use journal_treeobjects::{FsInfo, FsStat, PathConf};
use journal_treewire::{TreeResults, error_of};

impl NfsOperation for FsStat {
    fn tell(&self, reply: Result<Space, Status>, _how: StableHow, _verifier: Verifier) -> Told {
        match reply {
            Ok(space) => Told::done(TreeResults::FileSystemStatus(Ok(space))),
            Err(status) => Told::refusal(TreeResults::FileSystemStatus(Err(error_of(status)))),
        }
    }
}

impl NfsOperation for FsInfo {
    fn tell(
        &self,
        reply: Result<FactsReply, Status>,
        _how: StableHow,
        _verifier: Verifier,
    ) -> Told {
        match reply {
            Ok(facts) => Told::done(TreeResults::FileSystemInformation(Ok(facts))),
            Err(status) => Told::refusal(TreeResults::FileSystemInformation(Err(error_of(status)))),
        }
    }
}

impl NfsOperation for PathConf {
    fn tell(
        &self,
        reply: Result<NameFactsReply, Status>,
        _how: StableHow,
        _verifier: Verifier,
    ) -> Told {
        match reply {
            Ok(facts) => Told::done(TreeResults::PathConfiguration(Ok(facts))),
            Err(status) => Told::refusal(TreeResults::PathConfiguration(Err(error_of(status)))),
        }
    }
}
