// The answers to calls on files, over the files of any store.
ghost use Rattle.std.specs.Prelude.{◌≡◌, ◌++◌, ℕ, List, false, IfOk, IfSome, OnOk, OnErr};
ghost use Rattle.journal_world.specs.Histories.{Entry};
ghost use Rattle.journal_inode.specs.declared.node.Time.{Time};
ghost use Rattle.journal_rpc.specs.CallViews.{message_of};
ghost use Rattle.journal_filestore.specs.Handles.{time_of};
ghost use Rattle.journal_nfs3.specs.Served.{marked, awaiting};
ghost use Rattle.journal_nfs3.specs.Answers.{pending_wait_for};
ghost use Rattle.journal_server.specs.FileProtocols.{FileAnswering, IsFileLawful, IsAwaitedCall, IsAlsoAt, IsTimeless, StandsInFor, held_wait};

use journal_disk::BlockDisk;
use journal_filestore::FileStore;
use journal_history::{Naming, Receipt, Session};
use journal_inode::{SoundFiles, Version};
use journal_nfs3::{Procedure, ReplyWait};
use journal_protocol::{Clock, ConnFault, HeldReply, HeldWait, Protocol};
use journal_rpc::{Call, Marking, read_call};
use journal_world::{CommitCount, Moment, Refusal};
use journal_xdr::Writer;
use std::alloc::{AllocError, Global};
use std::sync::Wait;

/// A protocol over files: the answers to calls on the files of a store, whatever the store and its
/// disk. Its calls are read by `journal_rpc`, and a call is one that waits only where it is of one
/// of the procedures of `journal_nfs3`. `FilesOf` answers by it over the files of one store.
pub trait FileProtocol<V: Version> {
    // Which text is the reply to a call at a moment, what the session has seen then, and how far
    // the reply is.
    ghost answers: { Self → FileAnswering };

    /// True if the reply to a call depends on the moment at which it is done.
    fn uses_moment(&self, call: &Call<'_>) -> bool
        ensures timeless { result ≡ false → IsTimeless (answers self.now) (message_of call.now) };

    /// Writes the reply to a call up to its commit, as a record of one fragment, and says which
    /// wait comes before it may be sent. It may wait for the journal.
    ///
    /// Refused where memory for the reply is. The call is done all the same, and its reply is lost.
    fn answer_no_wait<'b, D: BlockDisk, J: Naming, W: Wait>(
        &self,
        rt: &W,
        alloc: Global,
        session: &mut Session<'b, J, SoundFiles<V>>,
        call: &Call<'_>,
        files: &FileStore<'b, D, J, V>,
        moment: Moment,
        writer: &mut Writer,
    ) -> Result<Option<ReplyWait<Receipt<'b, J, SoundFiles<V>>>>, AllocError>
        ensures answered { IfOk result (λ wait. (text : List ℕ) × (writer.new ≡ writer.old ++ text) × answers self.now (awaiting (pending_wait_for wait)) (time_of moment) (message_of call.now)
            session.old session.new text) }
        ensures awaited { IfOk result (λ wait. IfSome wait (λ awaited. IsAwaitedCall awaited.procedure (message_of call.now))) }
        ensures lost { OnErr result ((history : List Entry) → (reply : List ℕ) × answers self.now (marked history) (time_of moment)
            (message_of call.now) session.old session.new reply) };

    /// Writes the reply that is sent in place of one that has a wait, to a call of this number and
    /// procedure, where the wait is refused. Refused where memory for it is.
    fn refused_reply<E>(
        &self,
        writer: &mut Writer,
        xid: u32,
        procedure: Procedure,
        why: &Refusal<E>,
    ) -> Result<(), AllocError>
        ensures { OnOk result ((reply : List ℕ) × (writer.new ≡ writer.old ++ reply) × StandsInFor (answers self.now) xid procedure reply) };

    // The laws of the replies of each protocol.
    ghost lawful: { (p : Self) → IsFileLawful (answers p) };
}

/// A call whose reply waits.
#[derive(Clone, Copy, Debug, Drop)]
pub struct AwaitedCall {
    /// The call's number.
    pub xid: u32,
    /// Its procedure.
    pub procedure: Procedure,
}

/// The calls on the files of a store, answered by a protocol over files.
pub struct FilesOf<'s, 'b, D: BlockDisk, J: Naming, V: Version, P> {
    /// The store.
    pub files: &'s FileStore<'b, D, J, V>,
    /// The protocol.
    pub protocol: &'s P,
}

impl<'s, 'b, D: BlockDisk, J: Naming, V: Version, P> Drop for FilesOf<'s, 'b, D, J, V, P> {
    fn drop(self) {
        let FilesOf {
            files: _,
            protocol: _,
        } = self;
    }
}

impl<'s, 'b, D: BlockDisk, J: Naming, V: Version, P: FileProtocol<V>> Protocol
    for FilesOf<'s, 'b, D, J, V, P> {
    ghost use Rattle.journal_rpc.specs.Calls.{Message};
    ghost use Rattle.journal_server.specs.FileProtocols.{service_by, replaced_by};
    ghost use Rattle.journal_server.specs.FileLaws.{told_lawful, replaced_refusable};

    type Session = Session<'b, J, SoundFiles<V>>;

    type Receipt = Receipt<'b, J, SoundFiles<V>>;

    type Awaited = AwaitedCall;

    ghost Call = { Message };

    ghost seen = { λ session. session };

    ghost service = { λ p. service_by (P.answers p.protocol.now) };

    ghost replaces = { λ p. replaced_by (P.answers p.protocol.now) };

    ghost lawful = { λ p. told_lawful (P.answers p.protocol.now) (P.lawful p.protocol.now) };

    ghost refusable = { λ p. replaced_refusable (P.answers p.protocol.now) (P.lawful p.protocol.now) };

    fn marking(&self) -> Marking {
        Marking::of_calls()
    }

    fn answer_no_wait<W: Wait, C: Clock>(
        &self,
        rt: &W,
        alloc: Global,
        session: &mut Session<'b, J, SoundFiles<V>>,
        bytes: &[u8],
        writer: &mut Writer,
        clock: &C,
    ) -> Result<Option<HeldReply<AwaitedCall, Receipt<'b, J, SoundFiles<V>>>>, ConnFault> {
        let (files, protocol) = (self.files, self.protocol);
        let Some(call) = read_call(bytes) else {
            return Ok(None);
        };
        let moment = moment_of(protocol, &call, clock);
        match protocol.answer_no_wait(rt, alloc, session, &call, files, moment, writer) {
            Ok(wait) => Ok(Some(HeldReply {
                wait: held_wait(call.xid, wait),
                ends: false,
            })),
            Err(_) => Err(ConnFault::NoMemory),
        }
    }

    fn refused_reply(
        &self,
        writer: &mut Writer,
        call: &AwaitedCall,
        why: &Refusal<()>,
    ) -> Result<(), AllocError> {
        let protocol = self.protocol;
        protocol.refused_reply(writer, call.xid, call.procedure, why)
    }

    fn wait_stable<W: Wait>(
        &self,
        rt: &W,
        session: &mut Session<'b, J, SoundFiles<V>>,
        receipt: &Receipt<'b, J, SoundFiles<V>>,
    ) -> Result<(), Refusal<()>> {
        match self.files.journal().wait_stable(rt, session, receipt) {
            Ok(_note) => Ok(()),
            Err(why) => Err(why.with_cause(())),
        }
    }

    fn is_stable(&self, session: &mut Session<'b, J, SoundFiles<V>>, commits: u64) -> bool {
        session.is_stable(CommitCount::new(commits))
    }

    fn fence<W: Wait>(&self, rt: &W, session: &mut Session<'b, J, SoundFiles<V>>) -> bool {
        let own = session.number();
        self.files.journal().fence(rt, session, own).is_ok()
    }
}

// The moment at which a call is done: that of the clock, where its reply depends on one.
fn moment_of<V: Version, P: FileProtocol<V>, C: Clock>(
    protocol: &P,
    call: &Call<'_>,
    clock: &C,
) -> Moment
    // The clock may have this moment, and at it the call has the reply that it has then.
    ensures moment { (moment : Time) × C.tells clock.now moment × IsAlsoAt (P.answers protocol.now) (message_of call.now) (time_of result) moment }
{
    if protocol.uses_moment(call) {
        return clock.now();
    }
    Moment { secs: 0, nanos: 0 }
}

// The wait of a reply to a call with this number, with what is remembered of the call.
fn held_wait<R>(xid: u32, wait: Option<ReplyWait<R>>) -> Option<HeldWait<AwaitedCall, R>>
    ensures held { result ≡ held_wait xid wait }
{
    match wait {
        None => None,
        Some(ReplyWait { procedure, receipt }) => Some(HeldWait {
            call: AwaitedCall { xid, procedure },
            receipt,
        }),
    }
}
