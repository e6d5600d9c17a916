// The calls that are done once, whose replies are given again.
ghost use Rattle.std.specs.Prelude.{◌≡◌, ℕ, List, IsTrue, true, false, IfSome, IfOk, OnErr, IsOk, IsSome};
ghost use Rattle.journal_world.specs.Histories.{Entry};
ghost use Rattle.journal_protocol.specs.Moments.{time_of};
ghost use Rattle.journal_treewire.specs.Calls.{call_on};
ghost use Rattle.journal_treewire.specs.CodeViews.{results_of};
ghost use Rattle.journal_treewire.specs.Requests.{request_of};
ghost use Rattle.journal_treeserver.specs.Again.{is_done_once};
ghost use Rattle.journal_treeserver.specs.Asking.{files};
ghost use Rattle.journal_treeserver.specs.Answers.{marked, Replies};
ghost use Rattle.journal_treeserver.specs.CodeViews.{served_as, IsHeld};
ghost use Rattle.journal_treeserver.specs.Kept.{IsSent, IsSentOnce, IsKept, refusal_in, is_of_tree, are_of_done};

use crate::hints::FreeHints;
use crate::kept::{Kept, Repeat, Sent};
use crate::moment::time_at;
use crate::performing::{Asked, Done, wait_error};
use crate::reply_table::Begun;
use crate::replying::{Held, at_once, held_wait};
use crate::server::TreeServer;
use journal_disk::BlockDisk;
use journal_history::{Naming, Session};
use journal_nfs3_wire::{NfsError, Operation};
use journal_protocol::HeldReply;
use journal_tree::Caller;
use journal_treefs::TreeRule;
use journal_treeobjects::Asking;
use journal_treewire::{DirectoryOperation, Requested, TreeResults, resolve};
use journal_world::Moment;
use journal_xdr::Writer;
use std::alloc::{AllocError, Global};
use std::sync::Wait;

// The most bytes of a record whose reply is kept. A longer one has a name or a text that is too
// long, so that its call changes nothing.
const MOST_RECORD_BYTES: usize = 6_144;

// A call that was done: what is known of its reply, and what is kept of it.
#[derive(Drop)]
struct DoneOnce<'b, J: Naming, R: TreeRule> {
    held: Held<'b, J, R>,
    kept: Option<Kept<'b, J, R>>,
}

impl<'s, 'b, D: BlockDisk, R: TreeRule, J: Naming, H: FreeHints> TreeServer<'s, 'b, D, R, J, H> {
    // The call of a record, if it is to be done once, may be done, and has a client that may send
    // it again.
    pub(crate) fn sent<'c>(
        &self,
        bytes: &'c [u8],
        xid: u32,
        requested: &Requested<'_>,
        moment: Moment,
    ) -> Option<Sent<'c>>
        ensures cut { IfSome result (λ sent. sent.cut ≡ self.now.store.now.cut) }
        ensures export { IfSome result (λ sent. sent.export ≡ self.now.export) }
        ensures bytes { IfSome result (λ sent. sent.bytes.now ≡ bytes.now) }
        ensures xid { IfSome result (λ sent. sent.xid ≡ xid) }
        ensures once { IfSome result (λ sent. is_done_once (request_of requested.now) ≡ true) }
        ensures writable { IfSome result (λ sent. self.now.export.is_read_only ≡ false) }
        ensures client { IfSome result (λ sent. IsSome self.now.export.client) }
    {
        let is_known = self.export.client.is_some() && bytes.len() <= MOST_RECORD_BYTES;
        if self.export.is_read_only || !is_known || !is_done_once(requested) {
            return None;
        }
        Some(Sent {
            cut: self.cut,
            export: self.export,
            bytes,
            xid,
            secs: moment.secs,
        })
    }

    // Writes the reply to a request of NFS that came as these bytes.
    pub(crate) fn answer_sent<W: Wait>(
        &self,
        rt: &W,
        alloc: Global,
        session: &mut Session<'b, J, R>,
        bytes: &[u8],
        xid: u32,
        caller: Caller,
        requested: &Requested<'_>,
        writer: &mut Writer,
        moment: Moment,
    ) -> Result<Held<'b, J, R>, AllocError>
        requires { IsSent self.now.export.squash bytes.now xid caller (request_of requested.now) }
        ensures held { IfOk result (IsHeld (served_as self.now.store.now.cut self.now.export) (time_of moment) xid (files caller (request_of requested.now)) session.old session.new writer.old writer.new) }
        ensures lost { OnErr result ((history : List Entry) → (reply : List ℕ) × Replies (served_as self.now.store.now.cut self.now.export) (marked history) (time_of moment) xid
            (files caller (request_of requested.now)) session.old session.new reply) }
    {
        match self.sent(bytes, xid, requested, moment) {
            Some(sent) => {
                self.answer_once(rt, alloc, session, &sent, caller, requested, writer, moment)
            }
            None => self.answer_files(rt, alloc, session, xid, caller, requested, writer, moment),
        }
    }

    // Writes the reply to a call that is to be done once: that of a copy which came before, if it
    // is kept. Else the call is done, and its reply is kept.
    pub(crate) fn answer_once<W: Wait>(
        &self,
        rt: &W,
        alloc: Global,
        session: &mut Session<'b, J, R>,
        sent: &Sent<'_>,
        caller: Caller,
        requested: &Requested<'_>,
        writer: &mut Writer,
        moment: Moment,
    ) -> Result<Held<'b, J, R>, AllocError>
        requires cut { sent.now.cut ≡ self.now.store.now.cut }
        requires export { sent.now.export ≡ self.now.export }
        requires sent { IsSentOnce (served_as self.now.store.now.cut self.now.export) sent.now.bytes.now sent.now.xid caller (request_of requested.now) }
        ensures held { IfOk result (IsHeld (served_as self.now.store.now.cut self.now.export) (time_of moment) sent.now.xid (files caller (request_of requested.now)) session.old session.new writer.old writer.new) }
        ensures lost { OnErr result ((history : List Entry) → (reply : List ℕ) × Replies (served_as self.now.store.now.cut self.now.export) (marked history) (time_of moment) sent.now.xid
            (files caller (request_of requested.now)) session.old session.new reply) }
    {
        match self.replies.begin(rt, alloc, sent)? {
            Begun::Again(again) => {
                self.repeat(rt, session, sent, caller, requested, writer, moment, again)
            }
            Begun::First => {
                match self.do_once(rt, alloc, session, sent, caller, requested, writer, moment) {
                    Ok(DoneOnce { held, kept }) => {
                        self.replies.finish(rt, sent, kept);
                        Ok(held)
                    }
                    Err(refused) => {
                        self.replies.finish(rt, sent, None);
                        Err(refused)
                    }
                }
            }
            Begun::NotKept => {
                self.answer_files(
                    rt, alloc, session, sent.xid, caller, requested, writer, moment,
                )
            }
        }
    }

    // Does the call and writes its reply, with what is to be kept of it, if it is.
    fn do_once<W: Wait>(
        &self,
        rt: &W,
        alloc: Global,
        session: &mut Session<'b, J, R>,
        sent: &Sent<'_>,
        caller: Caller,
        requested: &Requested<'_>,
        writer: &mut Writer,
        moment: Moment,
    ) -> Result<DoneOnce<'b, J, R>, AllocError>
        requires cut { sent.now.cut ≡ self.now.store.now.cut }
        requires export { sent.now.export ≡ self.now.export }
        requires sent { IsSentOnce (served_as self.now.store.now.cut self.now.export) sent.now.bytes.now sent.now.xid caller (request_of requested.now) }
        ensures held { IfOk result (λ once. IsHeld (served_as self.now.store.now.cut self.now.export) (time_of moment) sent.now.xid (files caller (request_of requested.now)) session.old session.new writer.old writer.new once.held) }
        ensures lost { OnErr result ((history : List Entry) → (reply : List ℕ) × Replies (served_as self.now.store.now.cut self.now.export) (marked history) (time_of moment) sent.now.xid
            (files caller (request_of requested.now)) session.old session.new reply) }
    {
        let asking = Asking {
            caller,
            now: time_at(moment),
        };
        let done = self.serve(rt, alloc, session, &Asked { asking, requested });
        let is_kept = self.is_to_keep(requested, &done);
        let begun = writer.len();
        self.tell(writer, sent.xid, done.results)?;
        let kept = if is_kept {
            let reply = &writer.as_bytes()[begun..];
            Kept::new(alloc, sent, reply, session.front()).ok()
        } else {
            None
        };
        let held = HeldReply {
            wait: held_wait(sent.xid, done.wait),
            ends: false,
        };
        Ok(DoneOnce { held, kept })
    }

    // True if the results of a call that is to be done once are those of one that was done.
    fn is_to_keep<P>(&self, requested: &Requested<'_>, done: &Done<P>) -> bool
        ensures done { result ≡ true → are_of_done done.now.wait (results_of self.now.export.disk done.now.results) ≡ true }
        ensures call { result ≡ true → IsOk (call_on self.now.export.disk (request_of requested.now)) }
    {
        match resolve(self.export.disk, requested) {
            Ok(_) => done.is_of_done(),
            Err(_) => false,
        }
    }

    // Writes a reply again, once the commit of its call is stable.
    fn repeat<W: Wait>(
        &self,
        rt: &W,
        session: &mut Session<'b, J, R>,
        sent: &Sent<'_>,
        caller: Caller,
        requested: &Requested<'_>,
        writer: &mut Writer,
        moment: Moment,
        again: Repeat<'b, J, R>,
    ) -> Result<Held<'b, J, R>, AllocError>
        requires sent { IsSentOnce (served_as self.now.store.now.cut self.now.export) sent.now.bytes.now sent.now.xid caller (request_of requested.now) }
        requires kept { IsKept (served_as self.now.store.now.cut self.now.export) sent.now.bytes.now again.reply.items again.front }
        ensures held { IfOk result (IsHeld (served_as self.now.store.now.cut self.now.export) (time_of moment) sent.now.xid (files caller (request_of requested.now)) session.old session.new writer.old writer.new) }
        ensures lost { OnErr result ((history : List Entry) → (reply : List ℕ) × Replies (served_as self.now.store.now.cut self.now.export) (marked history) (time_of moment) sent.now.xid
            (files caller (request_of requested.now)) session.old session.new reply) }
    {
        let Repeat { reply, front } = again;
        session.see(&front);
        match self.store.journal().flush(rt, session) {
            Ok(_note) => {
                writer.raw(&reply)?;
                Ok(at_once())
            }
            Err(why) => {
                let results = requested.refused(wait_error(&why));
                self.tell(writer, sent.xid, results)?;
                Ok(at_once())
            }
        }
    }
}

impl<P> Done<P> {
    // True if the results are those of a call that was done, where this is to be done once.
    fn is_of_done(&self) -> bool
        ensures { (disk : ℕ) → result ≡ are_of_done self.now.wait (results_of disk self.now.results) }
    {
        self.wait.is_some() || is_of_tree(refusal_in(&self.results))
    }
}

// True if a call is to be done once.
fn is_done_once(requested: &Requested<'_>) -> bool
    ensures { result ≡ is_done_once (request_of requested.now) }
{
    match requested {
        Requested::File(operation) => {
            matches!(operation, Operation::Create(_) | Operation::Remove(_))
        }
        Requested::Query(_) => false,
        Requested::Directory(operation) => matches!(
            operation,
            DirectoryOperation::MakeDirectory(_, _)
                | DirectoryOperation::MakeLink(_)
                | DirectoryOperation::RemoveDirectory(_)
                | DirectoryOperation::Rename(_, _)
        ),
    }
}

// Why the results of a call that is to be done once are a refusal's.
fn refusal_in(results: &TreeResults) -> Option<NfsError>
    ensures { (disk : ℕ) → result ≡ refusal_in (results_of disk results.now) }
{
    match results {
        TreeResults::Changed(Err(why)) => Some(*why),
        TreeResults::Made(Err(why)) => Some(*why),
        TreeResults::Renamed(Err(why)) => Some(*why),
        _ => None,
    }
}

// True if a tree refuses so, and no journal.
fn is_of_tree(refusal: Option<NfsError>) -> bool
    ensures { result ≡ is_of_tree refusal }
{
    match refusal {
        None => false,
        Some(NfsError::Jukebox | NfsError::Io | NfsError::ServerFault) => false,
        Some(_) => true,
    }
}
