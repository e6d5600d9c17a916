// The calls that change nothing.
ghost use Rattle.std.specs.Prelude.{◌≡◌};
ghost use Rattle.journal_tree.specs.Op.{access};
ghost use Rattle.journal_tree.specs.Times.{IsTime};
ghost use Rattle.journal_tree.specs.declared.reply.Handle.{Handle};
ghost use Rattle.journal_treewire.specs.Calls.{call_of};
ghost use Rattle.journal_treewire.specs.Requests.{request_of};
ghost use Rattle.journal_treeserver.specs.Answers.{asked_of};
ghost use Rattle.journal_treeserver.specs.CodeViews.{served_as, LooksAs};

use crate::hints::FreeHints;
use crate::operations::{access_of, read_of, readdir_of, readdirplus_of};
use crate::performing::{Asked, Done};
use crate::server::TreeServer;
use journal_disk::BlockDisk;
use journal_history::{Naming, Receipt, Session};
use journal_nfs3_wire::NfsError;
use journal_treefs::TreeRule;
use journal_treeobjects::{Commit, FsInfo, FsStat, GetAttr, Lookup, PathConf, ReadLink};
use journal_treewire::{NameIn, TreeCall, TreeResults};
use std::sync::Wait;

// The rights READ, LOOKUP and EXECUTE (RFC 1813, section 3.3.4).
const READING: u32 = 0x23;

impl<'s, 'b, D: BlockDisk, R: TreeRule, J: Naming, H: FreeHints> TreeServer<'s, 'b, D, R, J, H> {
    // Does a call that changes nothing, up to its commit. One that would change the tree is
    // answered by ROFS, and not done.
    pub(crate) fn look<W: Wait>(
        &self,
        rt: &W,
        session: &mut Session<'b, J, R>,
        asked: &Asked<'_, '_>,
        call: &TreeCall<'_>,
    ) -> Done<Receipt<'b, J, R>>
        requires time { IsTime asked.now.asking.now }
        ensures { LooksAs (served_as self.now.store.now.cut self.now.export) (request_of asked.now.requested.now) (call_of call.now) asked.now.asking.caller asked.now.asking.now
            session.old session.new result }
    {
        match *call {
            // It returns by itself, as the last arm does, because the others lend the session.
            TreeCall::Null => return Done::at_once(TreeResults::Null),
            TreeCall::GetAttributes(handle) => {
                self.perform(rt, session, asked, &GetAttr { handle })
            }
            TreeCall::Lookup(NameIn { directory, name }) => {
                self.perform(rt, session, asked, &Lookup { directory, name })
            }
            TreeCall::Access(handle, rights) => {
                let operation = access_of(handle, self.rights_asked(rights));
                self.perform(rt, session, asked, &operation)
            }
            TreeCall::ReadLink(handle) => self.perform(rt, session, asked, &ReadLink { handle }),
            TreeCall::Read(part) => self.perform(rt, session, asked, &read_of(part)),
            TreeCall::ReadDirectory(page) => self.perform(rt, session, asked, &readdir_of(page)),
            TreeCall::ReadDirectoryPlus(page) => {
                self.perform(rt, session, asked, &readdirplus_of(page))
            }
            TreeCall::Commit(handle) => self.perform(rt, session, asked, &Commit { handle }),
            TreeCall::FileSystemStatus(handle) => {
                let free = self.hints.free(rt);
                self.perform(rt, session, asked, &FsStat { handle, free })
            }
            TreeCall::FileSystemInformation(handle) => {
                self.perform(rt, session, asked, &FsInfo { handle })
            }
            TreeCall::PathConfiguration(handle) => {
                self.perform(rt, session, asked, &PathConf { handle })
            }
            _ => return Done::at_once(asked.requested.refused(NfsError::ReadOnly)),
        }
    }

    // The rights that are asked of a node, of those that a caller asks for.
    fn rights_asked(&self, rights: u32) -> u32
        ensures { (h : Handle) → access h result ≡ asked_of self.now.export.is_read_only (access h rights) }
    {
        if self.export.is_read_only {
            rights & READING
        } else {
            rights
        }
    }
}
