// The reply to a call.
ghost use Rattle.std.specs.Prelude.{◌≡◌, ◌++◌, ℕ, List, IfOk, OnOk, OnErr, Some, None, false};
ghost use Rattle.journal_world.specs.Histories.{Entry};
ghost use Rattle.journal_rpc.specs.Calls.{message};
ghost use Rattle.journal_rpc.specs.CallViews.{message_of};
ghost use Rattle.journal_protocol.specs.Moments.{time_of};
ghost use Rattle.journal_mount_wire.specs.Arguments.{mount_call_of};
ghost use Rattle.journal_treewire.specs.CodeViews.{results_of};
ghost use Rattle.journal_treewire.specs.Requests.{request_of};
ghost use Rattle.journal_treeserver.specs.declared.awaited.AwaitedCall.{AwaitedCall};
ghost use Rattle.journal_treeserver.specs.Asking.{asks, files, refused};
ghost use Rattle.journal_treeserver.specs.Answers.{marked, told, mounted, none_told, root_bytes, outcome_text, Replies, StandsInFor};
ghost use Rattle.journal_treeserver.specs.CodeViews.{served_as, held_wait, IsHeld};

use crate::asking::{Wanted, decide};
use crate::awaited::{AwaitedCall, Owed};
use crate::hints::FreeHints;
use crate::moment::time_at;
use crate::performing::{Asked, Done, wait_error};
use crate::server::TreeServer;
use journal_disk::BlockDisk;
use journal_history::{Naming, Receipt, Session};
use journal_mount_wire::{MountCall, answer};
use journal_protocol::{HeldReply, HeldWait};
use journal_rpc::{Call, CallRefused, write_denial, write_reply};
use journal_tree::{Caller, ROOT};
use journal_treefs::TreeRule;
use journal_treeobjects::Asking;
use journal_treewire::{DiskResults, Requested, TreeResults};
use journal_world::{Moment, Refusal};
use journal_xdr::Writer;
use std::alloc::{AllocError, Global};
use std::sync::Wait;

// The generation of the root, which is never made anew.
const ROOT_GENERATION: u32 = 1;

// The wait of a reply that is written, and whether the connection ends with it.
pub(crate) type Held<'b, J, R> = HeldReply<AwaitedCall, Receipt<'b, J, R>>;

impl<'s, 'b, D: BlockDisk, R: TreeRule, J: Naming, H: FreeHints> TreeServer<'s, 'b, D, R, J, H> {
    // Writes the reply to the call of these bytes up to its commit, and says which wait comes
    // before it may be sent.
    //
    // # Errors
    // - Memory for the reply is refused. The call is done all the same, and its reply is lost.
    pub(crate) fn answer<W: Wait>(
        &self,
        rt: &W,
        alloc: Global,
        session: &mut Session<'b, J, R>,
        bytes: &[u8],
        call: &Call<'_>,
        writer: &mut Writer,
        moment: Moment,
    ) -> Result<Held<'b, J, R>, AllocError>
        requires { message bytes.now ≡ Some (message_of call.now) }
        ensures held { IfOk result (IsHeld (served_as self.now.store.now.cut self.now.export) (time_of moment) call.now.xid (asks self.now.export.squash (message_of call.now))
            session.old session.new writer.old writer.new) }
        ensures lost { OnErr result ((history : List Entry) → (reply : List ℕ) × Replies (served_as self.now.store.now.cut self.now.export) (marked history) (time_of moment) call.now.xid
            (asks self.now.export.squash (message_of call.now)) session.old session.new reply) }
    {
        let xid = call.xid;
        match decide(self.export.squash, call) {
            Wanted::Files(caller, requested) => {
                self.answer_sent(
                    rt, alloc, session, bytes, xid, caller, &requested, writer, moment,
                )
            }
            Wanted::Mount(mount) => {
                self.mounted(writer, xid, &mount)?;
                Ok(at_once())
            }
            Wanted::Denied => {
                write_denial(writer, xid)?;
                Ok(at_once())
            }
            Wanted::Refused(why) => {
                refused(writer, xid, why)?;
                Ok(at_once())
            }
        }
    }

    // Writes the reply to a request of NFS.
    pub(crate) fn answer_files<W: Wait>(
        &self,
        rt: &W,
        alloc: Global,
        session: &mut Session<'b, J, R>,
        xid: u32,
        caller: Caller,
        requested: &Requested<'_>,
        writer: &mut Writer,
        moment: Moment,
    ) -> Result<Held<'b, J, R>, AllocError>
        ensures held { IfOk result (IsHeld (served_as self.now.store.now.cut self.now.export) (time_of moment) xid (files caller (request_of requested.now)) session.old session.new writer.old writer.new) }
        ensures lost { OnErr result ((history : List Entry) → (reply : List ℕ) × Replies (served_as self.now.store.now.cut self.now.export) (marked history) (time_of moment) xid
            (files caller (request_of requested.now)) session.old session.new reply) }
    {
        let asking = Asking {
            caller,
            now: time_at(moment),
        };
        let done = self.serve(rt, alloc, session, &Asked { asking, requested });
        self.tell(writer, xid, done.results)?;
        Ok(HeldReply {
            wait: held_wait(xid, done.wait),
            ends: false,
        })
    }

    // Writes a reply with results.
    pub(crate) fn tell(
        &self,
        writer: &mut Writer,
        xid: u32,
        results: TreeResults,
    ) -> Result<(), AllocError>
        ensures { OnOk result (writer.new ≡ writer.old ++ outcome_text self.now.export.disk xid (told (results_of self.now.export.disk results))) }
    {
        let told = DiskResults {
            disk: self.export.disk,
            results,
        };
        told.prove_short();
        write_reply(writer, xid, &Ok(told))
    }

    // Writes a reply of MOUNT.
    fn mounted(&self, writer: &mut Writer, xid: u32, call: &MountCall<'_>) -> Result<(), AllocError>
        ensures { OnOk result (writer.new ≡ writer.old ++ outcome_text self.now.export.disk xid (mounted (mount_call_of call.now))) }
    {
        let root = root_handle(self.export.disk);
        let told = answer(call, &root);
        write_reply(writer, xid, &Ok(told))
    }

    // Writes the reply in place of one whose wait is refused.
    pub(crate) fn refused_wait(
        &self,
        writer: &mut Writer,
        call: &AwaitedCall,
        why: &Refusal<()>,
    ) -> Result<(), AllocError>
        ensures { OnOk result ((reply : List ℕ) × (writer.new ≡ writer.old ++ reply) × StandsInFor (served_as self.now.store.now.cut self.now.export) call.now reply) }
    {
        self.tell(writer, call.xid, call.form.refused(wait_error(why)))
    }
}

// The bytes of the root's handle on the disk with this number.
fn root_handle(disk: u64) -> [u8; 16]
    ensures { result ≡ root_bytes disk }
{
    let [a, b, c, d, e, f, g, h] = disk.to_be_bytes();
    let [i, j, k, l] = ROOT.to_be_bytes();
    let [m, n, o, p] = ROOT_GENERATION.to_be_bytes();
    [a, b, c, d, e, f, g, h, i, j, k, l, m, n, o, p]
}

// Writes the reply to a call that does not reach a procedure.
fn refused(writer: &mut Writer, xid: u32, why: CallRefused) -> Result<(), AllocError>
    ensures { OnOk result ((disk : ℕ) → writer.new ≡ writer.old ++ outcome_text disk xid (none_told (refused why))) }
{
    let outcome: Result<(), CallRefused> = Err(why);
    write_reply(writer, xid, &outcome)
}

// A reply that waits for nothing.
pub(crate) fn at_once<P>() -> HeldReply<AwaitedCall, P>
    ensures { result ≡ record { wait = None; ends = false } }
{
    HeldReply {
        wait: None,
        ends: false,
    }
}

// The wait of a reply to a call with this number, with what is remembered of the call.
pub(crate) fn held_wait<P>(xid: u32, wait: Option<Owed<P>>) -> Option<HeldWait<AwaitedCall, P>>
    ensures { result ≡ held_wait xid wait }
{
    match wait {
        None => None,
        Some(Owed { form, receipt }) => Some(HeldWait {
            call: AwaitedCall { xid, form },
            receipt,
        }),
    }
}
