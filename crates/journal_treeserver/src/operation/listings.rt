// The names in a directory.
use super::{NfsOperation, Told};
use journal_nfs3_wire::{NfsError, StableHow, Verifier};
use journal_tree::Status;
use journal_treecalls::ListReply;
use journal_treeobjects::{ReadDir, ReadDirPlus};
use journal_treewire::{Lines, TreeResults, error_of};

impl NfsOperation for ReadDir {
    fn tell(&self, reply: Result<ListReply, Status>, _how: StableHow, _verifier: Verifier) -> Told {
        match reply {
            Ok(reply) => match Lines::of(reply) {
                Some(lines) => Told::done(TreeResults::Directory(Ok(lines))),
                None => Told::done(TreeResults::Directory(Err(NfsError::ServerFault))),
            },
            Err(status) => Told::refusal(TreeResults::Directory(Err(error_of(status)))),
        }
    }
}

impl NfsOperation for ReadDirPlus {
    fn tell(&self, reply: Result<ListReply, Status>, _how: StableHow, _verifier: Verifier) -> Told {
        match reply {
            Ok(reply) => match Lines::of(reply) {
                Some(lines) => Told::done(TreeResults::DirectoryPlus(Ok(lines))),
                None => Told::done(TreeResults::DirectoryPlus(Err(NfsError::ServerFault))),
            },
            Err(status) => Told::refusal(TreeResults::DirectoryPlus(Err(error_of(status)))),
        }
    }
}
