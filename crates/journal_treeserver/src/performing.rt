// Doing a call on the tree.
ghost use Rattle.std.specs.Prelude.{◌≡◌, ℕ, false, ◌&&◌, None, Err};
ghost use Rattle.journal_tree.specs.Times.{IsTime};
ghost use Rattle.journal_treewire.specs.Calls.{call_on};
ghost use Rattle.journal_treewire.specs.CodeViews.{results_of};
ghost use Rattle.journal_treewire.specs.Requests.{request_of};
ghost use Rattle.journal_treeserver.specs.Answers.{journal_error, wait_error, owed_by, awaiting, ComesTo};
ghost use Rattle.journal_treeserver.specs.CodeViews.{served_as, IsDone};

use crate::awaited::{AwaitedForm, Owed, form_of, how_of};
use crate::hints::FreeHints;
use crate::operation::{NfsOperation, Told};
use crate::server::TreeServer;
use journal_disk::BlockDisk;
use journal_history::{Naming, Receipt, Session};
use journal_nfs3_wire::NfsError;
use journal_treefs::{Committed, TreeRule};
use journal_treeobjects::Asking;
use journal_treewire::{Requested, TreeResults, resolve};
use journal_world::Refusal;
use std::alloc::Global;
use std::sync::Wait;

// The results of a call, and what its reply waits for.
#[derive(Drop)]
pub(crate) struct Done<P> {
    pub(crate) results: TreeResults,
    pub(crate) wait: Option<Owed<P>>,
}

// A request: of whom, when, and which.
#[derive(Clone, Copy)]
pub(crate) struct Asked<'q, 'a> {
    pub(crate) asking: Asking,
    pub(crate) requested: &'q Requested<'a>,
}

// The number of a journal's refusal on the wire.
pub(crate) fn journal_error<C>(why: &Refusal<C>) -> NfsError
    ensures { result ≡ journal_error why.now }
{
    match why {
        Refusal::Busy => NfsError::Jukebox,
        Refusal::DeviceFailed(_) => NfsError::Io,
        _ => NfsError::ServerFault,
    }
}

// The number of its refusal of a wait. The call is done, so that the client is not to ask again.
pub(crate) fn wait_error<C>(why: &Refusal<C>) -> NfsError
    ensures { result ≡ wait_error why.now }
{
    match why {
        Refusal::DeviceFailed(_) => NfsError::Io,
        _ => NfsError::ServerFault,
    }
}

// The wait before a reply of this form, if there is one.
fn owed_by<P: Drop>(form: Option<AwaitedForm>, is_refusal: bool, receipt: P) -> Option<Owed<P>>
    ensures { result ≡ owed_by form is_refusal receipt }
{
    match form {
        Some(form) if !is_refusal => Some(Owed { form, receipt }),
        _ => None,
    }
}

impl<P: Drop> Done<P> {
    // The results of a call that is committed. They wait as their form says, unless they are a
    // refusal's.
    fn committed(told: Told, form: Option<AwaitedForm>, receipt: P) -> Done<P>
        ensures results { result.results ≡ told.results }
        ensures wait { result.wait ≡ owed_by form told.is_refusal receipt }
    {
        Done {
            results: told.results,
            wait: owed_by(form, told.is_refusal, receipt),
        }
    }

    // Results for which nothing waits.
    pub(crate) fn at_once(results: TreeResults) -> Done<P>
        ensures results { result.results ≡ results }
        ensures wait { result.wait ≡ None }
    {
        Done {
            results,
            wait: None,
        }
    }
}

impl<'s, 'b, D: BlockDisk, R: TreeRule, J: Naming, H: FreeHints> TreeServer<'s, 'b, D, R, J, H> {
    // Does what is asked, up to its commit.
    pub(crate) fn serve<W: Wait>(
        &self,
        rt: &W,
        alloc: Global,
        session: &mut Session<'b, J, R>,
        asked: &Asked<'_, '_>,
    ) -> Done<Receipt<'b, J, R>>
        requires time { IsTime asked.now.asking.now }
        ensures { ComesTo (served_as self.now.store.now.cut self.now.export) (awaiting result.wait) (request_of asked.now.requested.now) asked.now.asking.caller asked.now.asking.now
            (call_on self.now.export.disk (request_of asked.now.requested.now)) session.old session.new (results_of self.now.export.disk result.results) }
    {
        let call = match resolve(self.export.disk, asked.requested) {
            Ok(call) => call,
            Err(why) => return Done::at_once(asked.requested.refused(why)),
        };
        if self.export.is_read_only {
            self.look(rt, session, asked, &call)
        } else {
            self.change(rt, alloc, session, asked, &call)
        }
    }

    // Does an operation, and commits it with its answer.
    pub(crate) fn perform<O: NfsOperation, W: Wait>(
        &self,
        rt: &W,
        session: &mut Session<'b, J, R>,
        asked: &Asked<'_, '_>,
        operation: &O,
    ) -> Done<Receipt<'b, J, R>>
        requires time { IsTime asked.now.asking.now }
        ensures { IsDone (served_as self.now.store.now.cut self.now.export) (request_of asked.now.requested.now) (O.call operation.now) asked.now.asking.caller asked.now.asking.now
            session.old session.new result }
    {
        let requested = asked.requested;
        // Each arm returns by itself, because one of them holds a receipt.
        match self.store.run(rt, session, asked.asking, operation) {
            Ok(done) => {
                let Committed { reply, receipt } = done;
                let told = operation.tell(reply, how_of(requested), self.export.verifier);
                return Done::committed(told, form_of(requested), receipt);
            }
            Err(why) => return Done::at_once(requested.refused(journal_error(&why))),
        }
    }

    // Does an operation that may free numbers and blocks.
    pub(crate) fn perform_freeing<O: NfsOperation, W: Wait>(
        &self,
        rt: &W,
        session: &mut Session<'b, J, R>,
        asked: &Asked<'_, '_>,
        operation: &O,
    ) -> Done<Receipt<'b, J, R>>
        requires time { IsTime asked.now.asking.now }
        ensures { IsDone (served_as self.now.store.now.cut self.now.export) (request_of asked.now.requested.now) (O.call operation.now) asked.now.asking.caller asked.now.asking.now
            session.old session.new result }
    {
        let done = self.perform(rt, session, asked, operation);
        self.hints.note_freed(rt);
        done
    }
}
