// The calls that change a tree, or would.
ghost use Rattle.std.specs.Prelude.{◌≡◌};
ghost use Rattle.journal_tree.specs.Times.{IsTime};
ghost use Rattle.journal_tree.specs.Op.Call.{create as create_call};
ghost use Rattle.journal_treewire.specs.Calls.{call_of};
ghost use Rattle.journal_treewire.specs.Requests.{request_of};
ghost use Rattle.journal_treeserver.specs.CodeViews.{served_as, IsDone, ChangesAs};

use crate::hints::FreeHints;
use crate::operations::{link_of, setattr_of};
use crate::performing::{Asked, Done};
use crate::server::TreeServer;
use crate::taking::Taking;
use journal_disk::BlockDisk;
use journal_history::{Naming, Receipt, Session};
use journal_tree::CreateMode;
use journal_treefs::TreeRule;
use journal_treeobjects::{MkNod, Remove, RmDir};
use journal_treewire::{NameIn, TreeCall};
use std::alloc::Global;
use std::sync::Wait;

impl<'s, 'b, D: BlockDisk, R: TreeRule, J: Naming, H: FreeHints> TreeServer<'s, 'b, D, R, J, H> {
    // Does a call, up to its commit.
    pub(crate) fn change<W: Wait>(
        &self,
        rt: &W,
        alloc: Global,
        session: &mut Session<'b, J, R>,
        asked: &Asked<'_, '_>,
        call: &TreeCall<'_>,
    ) -> Done<Receipt<'b, J, R>>
        requires time { IsTime asked.now.asking.now }
        ensures { ChangesAs (served_as self.now.store.now.cut self.now.export) (request_of asked.now.requested.now) (call_of call.now) asked.now.asking.caller asked.now.asking.now
            session.old session.new result }
    {
        match *call {
            TreeCall::Write(write) => self.take(rt, alloc, session, asked, &Taking::Write(write)),
            TreeCall::Create(entry, mode) => self.create(rt, alloc, session, asked, entry, mode),
            TreeCall::MakeDirectory(entry, settings) => {
                let taking = Taking::MakeDirectory(entry, settings);
                self.take(rt, alloc, session, asked, &taking)
            }
            TreeCall::Rename(old, new) => {
                self.take(rt, alloc, session, asked, &Taking::Rename(old, new))
            }
            TreeCall::SetAttributes(set) => {
                self.perform_freeing(rt, session, asked, &setattr_of(set))
            }
            TreeCall::Remove(NameIn { directory, name }) => {
                self.perform_freeing(rt, session, asked, &Remove { directory, name })
            }
            TreeCall::RemoveDirectory(NameIn { directory, name }) => {
                self.perform_freeing(rt, session, asked, &RmDir { directory, name })
            }
            TreeCall::MakeLink(link) => {
                self.take(rt, alloc, session, asked, &Taking::MakeLink(link))
            }
            TreeCall::MakeNode(NameIn { directory, name }) => {
                self.perform(rt, session, asked, &MkNod { directory, name })
            }
            TreeCall::Link(handle, entry) => {
                self.perform(rt, session, asked, &link_of(handle, entry))
            }
            _ => self.look(rt, session, asked, call),
        }
    }

    // CREATE in each of its modes.
    fn create<W: Wait>(
        &self,
        rt: &W,
        alloc: Global,
        session: &mut Session<'b, J, R>,
        asked: &Asked<'_, '_>,
        entry: NameIn<'_>,
        mode: CreateMode,
    ) -> Done<Receipt<'b, J, R>>
        requires time { IsTime asked.now.asking.now }
        ensures { IsDone (served_as self.now.store.now.cut self.now.export) (request_of asked.now.requested.now)
            (create_call entry.entry.directory entry.entry.name.now mode) asked.now.asking.caller asked.now.asking.now session.old session.new result }
    {
        match mode {
            CreateMode::Unchecked(settings) => {
                let taking = Taking::CreateUnchecked(entry, settings);
                self.take(rt, alloc, session, asked, &taking)
            }
            CreateMode::Guarded(settings) => {
                let taking = Taking::CreateGuarded(entry, settings);
                self.take(rt, alloc, session, asked, &taking)
            }
            CreateMode::Exclusive(verifier) => {
                let taking = Taking::CreateExclusive(entry, verifier);
                self.take(rt, alloc, session, asked, &taking)
            }
        }
    }
}
