// Attributes and rights.
use super::{NfsOperation, Told};
use journal_nfs3_wire::{StableHow, Verifier};
use journal_tree::{Changed, Status};
use journal_treecalls::AccessReply;
use journal_treeobjects::{Access, GetAttr, SetAttr};
use journal_treewire::{TreeResults, error_of};

impl NfsOperation for GetAttr {
    fn tell(
        &self,
        reply: Result<journal_tree::Told, Status>,
        _how: StableHow,
        _verifier: Verifier,
    ) -> Told {
        match reply {
            Ok(node) => Told::done(TreeResults::Attributes(Ok(node))),
            Err(status) => Told::refusal(TreeResults::Attributes(Err(error_of(status)))),
        }
    }
}

impl NfsOperation for SetAttr {
    fn tell(&self, reply: Result<Changed, Status>, _how: StableHow, _verifier: Verifier) -> Told {
        match reply {
            Ok(changed) => Told::done(TreeResults::Changed(Ok(changed))),
            Err(status) => Told::refusal(TreeResults::Changed(Err(error_of(status)))),
        }
    }
}

impl NfsOperation for Access {
    fn tell(
        &self,
        reply: Result<AccessReply, Status>,
        _how: StableHow,
        _verifier: Verifier,
    ) -> Told {
        match reply {
            Ok(access) => Told::done(TreeResults::Access(Ok(access))),
            Err(status) => Told::refusal(TreeResults::Access(Err(error_of(status)))),
        }
    }
}
