// A tree as a protocol.
use crate::awaited::AwaitedCall;
use crate::hints::FreeHints;
use crate::server::TreeServer;
use journal_disk::BlockDisk;
use journal_history::{Naming, Receipt, Session};
use journal_protocol::{Clock, ConnFault, HeldReply, Protocol};
use journal_rpc::{Marking, read_call};
use journal_treefs::TreeRule;
use journal_world::{CommitCount, Refusal};
use journal_xdr::Writer;
use std::alloc::{AllocError, Global};
use std::sync::Wait;

// The most bytes of a record: a WRITE of `TRANSFER_BYTES`, and 4096 more for its header.
const RECORD_BYTES: usize = 69_632;

impl<'s, 'b, D: BlockDisk, R: TreeRule, J: Naming, H: FreeHints> Protocol
    for TreeServer<'s, 'b, D, R, J, H> {
    ghost use Rattle.journal_rpc.specs.Calls.{Message};
    ghost use Rattle.journal_treeserver.specs.Answers.{service_of, StandsInFor};
    ghost use Rattle.journal_treeserver.specs.CodeViews.{served_as};
    ghost use Rattle.journal_treeserver.specs.Lawful.{tree_lawful, tree_refusable};

    type Session = Session<'b, J, R>;

    type Receipt = Receipt<'b, J, R>;

    type Awaited = AwaitedCall;

    ghost Call = { Message };

    ghost seen = { λ session. session };

    ghost service = { λ p. service_of (served_as p.store.now.cut p.export) };

    ghost replaces = { λ p. StandsInFor (served_as p.store.now.cut p.export) };

    ghost lawful = { λ p. tree_lawful (served_as p.store.now.cut p.export) };

    ghost refusable = { λ p. tree_refusable (served_as p.store.now.cut p.export) };

    fn marking(&self) -> Marking {
        Marking {
            most_bytes: RECORD_BYTES,
            ..Marking::of_calls()
        }
    }

    fn answer_no_wait<W: Wait, C: Clock>(
        &self,
        rt: &W,
        alloc: Global,
        session: &mut Session<'b, J, R>,
        bytes: &[u8],
        writer: &mut Writer,
        clock: &C,
    ) -> Result<Option<HeldReply<AwaitedCall, Receipt<'b, J, R>>>, ConnFault> {
        let Some(call) = read_call(bytes) else {
            return Ok(None);
        };
        match self.answer(rt, alloc, session, bytes, &call, writer, clock.now()) {
            Ok(held) => Ok(Some(held)),
            Err(_) => Err(ConnFault::NoMemory),
        }
    }

    fn refused_reply(
        &self,
        writer: &mut Writer,
        call: &AwaitedCall,
        why: &Refusal<()>,
    ) -> Result<(), AllocError> {
        self.refused_wait(writer, call, why)
    }

    fn wait_stable<W: Wait>(
        &self,
        rt: &W,
        session: &mut Session<'b, J, R>,
        receipt: &Receipt<'b, J, R>,
    ) -> Result<(), Refusal<()>> {
        match self.store.journal().wait_stable(rt, session, receipt) {
            Ok(_note) => Ok(()),
            Err(why) => Err(why.with_cause(())),
        }
    }

    fn is_stable(&self, session: &mut Session<'b, J, R>, commits: u64) -> bool {
        session.is_stable(CommitCount::new(commits))
    }

    fn fence<W: Wait>(&self, rt: &W, session: &mut Session<'b, J, R>) -> bool {
        let own = session.number();
        self.store.journal().fence(rt, session, own).is_ok()
    }
}
