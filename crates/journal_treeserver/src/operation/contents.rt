// The bytes of files, and links.
use super::{NfsOperation, Told};
use journal_nfs3_wire::{NfsError, StableHow, Verifier};
use journal_tree::{Changed, Status};
use journal_treecalls::{LinkReply, ReadReply};
use journal_treeobjects::{Commit, Read, ReadLink, Write};
use journal_treewire::{FilePart, ShortText, TreeResults, error_of};

impl NfsOperation for Read {
    fn tell(&self, reply: Result<ReadReply, Status>, _how: StableHow, _verifier: Verifier) -> Told {
        match reply {
            Ok(reply) => match FilePart::of(reply) {
                Some(part) => Told::done(TreeResults::Read(Ok(part))),
                None => Told::done(TreeResults::Read(Err(NfsError::ServerFault))),
            },
            Err(status) => Told::refusal(TreeResults::Read(Err(error_of(status)))),
        }
    }
}

impl<'n> NfsOperation for Write<'n> {
    fn tell(&self, reply: Result<Changed, Status>, how: StableHow, verifier: Verifier) -> Told {
        let count = self.bytes.count;
        match reply {
            Ok(changed) => Told::done(TreeResults::Write {
                outcome: Ok(changed),
                count,
                how,
                verifier,
            }),
            Err(status) => Told::refusal(TreeResults::Write {
                outcome: Err(error_of(status)),
                count,
                how,
                verifier,
            }),
        }
    }
}

impl NfsOperation for Commit {
    fn tell(&self, reply: Result<Changed, Status>, _how: StableHow, verifier: Verifier) -> Told {
        match reply {
            Ok(changed) => Told::done(TreeResults::Commit {
                outcome: Ok(changed),
                verifier,
            }),
            Err(status) => Told::refusal(TreeResults::Commit {
                outcome: Err(error_of(status)),
                verifier,
            }),
        }
    }
}

impl NfsOperation for ReadLink {
    fn tell(&self, reply: Result<LinkReply, Status>, _how: StableHow, _verifier: Verifier) -> Told {
        match reply {
            Ok(reply) => match ShortText::of(reply) {
                Some(text) => Told::done(TreeResults::LinkText(Ok(text))),
                None => Told::done(TreeResults::LinkText(Err(NfsError::ServerFault))),
            },
            Err(status) => Told::refusal(TreeResults::LinkText(Err(error_of(status)))),
        }
    }
}
