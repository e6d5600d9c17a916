// The answers of the port, as a protocol over connections.
ghost use Rattle.std.specs.Prelude.{◌≡◌, ◌++◌, ℕ, List, [], IsTrue, IfOk};
ghost use Rattle.journal_records.specs.declared.answer.Answer.TheVariants.{Stopping, Unsure};
ghost use Rattle.journal_port.specs.Answers.{offer};
ghost use Rattle.journal_port.specs.Served.{IsFoundAnswer, HoldsAnswer, IsHeldFor, refused_for};

use crate::counting::Counting;
use crate::respond::{Port, answer_no_wait};
use journal_disk::BlockDisk;
use journal_history::{Naming, Session};
use journal_protocol::{Clock, ConnFault, Counted, HeldReply, HeldWait, Protocol};
use journal_records::{
    Answer, RECORD_BYTES, ReadFault, Refused, Request, WriteFault, answers_are_spellings,
    read_request, write_answer,
};
use journal_rpc::Marking;
use journal_world::{AnyMap, CommitCount, Refusal};
use journal_xdr::Writer;
use std::alloc::{AllocError, Global};
use std::sync::Wait;

/// The commits that an answer waits for.
#[derive(Clone, Copy, Debug, Drop)]
pub struct AwaitedCommits {
    /// How many are to be stable.
    pub commits: u64,
}

impl Counted for AwaitedCommits {
    ghost commits = { λ awaited. awaited.commits };

    fn stable_commits(&self) -> u64 {
        self.commits
    }
}

/// The answer to a commit that waits, where it is not known to be stable.
#[derive(Clone, Copy, Debug, Drop)]
pub struct UnsureAnswer {
    /// The commit's place.
    pub place: u64,
    /// How many commits are to be stable.
    pub commits: u64,
}

impl<'s, 'b, D: BlockDisk, J: Naming, C: Counting> Protocol for Port<'s, 'b, D, J, C> {
    ghost use Rattle.std.specs.Prelude.{ℕ, List};
    ghost use Rattle.journal_port.specs.Answers.{offer};
    ghost use Rattle.journal_port.specs.Served.{service, replaces};
    ghost use Rattle.journal_port.specs.ServedLaws.{lawful_answers, refusable_answers};

    type Session = Session<'b, J, AnyMap>;

    type Receipt = AwaitedCommits;

    type Awaited = UnsureAnswer;

    ghost Call = { List ℕ };

    ghost seen = { λ session. session };

    ghost service = { λ p. service J.layout (offer p.terms (C.tells p.counting.now)) };

    ghost replaces = { λ p. replaces };

    ghost lawful = { λ p. lawful_answers J.layout (offer p.terms (C.tells p.counting.now)) };

    ghost refusable = { λ p. refusable_answers };

    fn marking(&self) -> Marking {
        Marking::by_length(RECORD_BYTES)
    }

    fn answer_no_wait<W: Wait, K: Clock>(
        &self,
        rt: &W,
        alloc: Global,
        session: &mut Session<'b, J, AnyMap>,
        bytes: &[u8],
        writer: &mut Writer,
        _clock: &K,
    ) -> Result<Option<HeldReply<UnsureAnswer, AwaitedCommits>>, ConnFault> {
        let told = reply(rt, self, session, read_request(alloc, bytes));
        self.counting.note(&told);
        match held(writer, &told) {
            Ok(soon) => Ok(Some(soon)),
            Err(WriteFault::NoMemory) => Err(ConnFault::NoMemory),
            Err(WriteFault::TooLong) => Err(ConnFault::NoRecord),
        }
    }

    fn refused_reply(
        &self,
        writer: &mut Writer,
        call: &UnsureAnswer,
        _why: &Refusal<()>,
    ) -> Result<(), AllocError> {
        let UnsureAnswer { place, commits } = *call;
        match write_answer(writer, &Answer::Unsure { place, commits }) {
            Ok(()) => Ok(()),
            Err(_) => Err(AllocError),
        }
    }

    fn wait_stable<W: Wait>(
        &self,
        rt: &W,
        session: &mut Session<'b, J, AnyMap>,
        receipt: &AwaitedCommits,
    ) -> Result<(), Refusal<()>> {
        let note = match self.journal.flush(rt, session) {
            Ok(note) => note,
            Err(why) => return Err(why.with_cause(())),
        };
        // A flush is of all that the session has seen, so it is enough.
        if note.count().get() < receipt.commits {
            return Err(Refusal::Closed(()));
        }
        Ok(())
    }

    fn is_stable(&self, session: &mut Session<'b, J, AnyMap>, commits: u64) -> bool {
        session.is_stable(CommitCount::new(commits))
    }

    fn fence<W: Wait>(&self, rt: &W, session: &mut Session<'b, J, AnyMap>) -> bool {
        let own = session.number();
        self.journal.fence(rt, session, own).is_ok()
    }
}

// Answers what a record reads as.
fn reply<'b, D: BlockDisk, J: Naming, C: Counting, H: Wait>(
    rt: &H,
    port: &Port<'_, 'b, D, J, C>,
    session: &mut Session<'b, J, AnyMap>,
    found: Result<Request, ReadFault>,
) -> Answer
    ensures { IsFoundAnswer J.layout (offer port.now.terms (C.tells port.now.counting.now)) [] found session.old session.new result }
{
    match found {
        Ok(request) => answer_no_wait(rt, port, session, request),
        Err(fault) => Answer::Refused(refused_for(fault)),
    }
}

// Why a record that is no request is refused.
fn refused_for(fault: ReadFault) -> Refused
    ensures { result ≡ refused_for fault }
{
    match fault {
        ReadFault::NoMemory => Refused::NoMemory,
        ReadFault::UnknownOperation => Refused::UnknownOperation,
        ReadFault::Malformed => Refused::Malformed,
    }
}

// Writes the record of an answer, and says which wait comes before it is sent.
fn held(
    writer: &mut Writer,
    told: &Answer,
) -> Result<HeldReply<UnsureAnswer, AwaitedCommits>, WriteFault>
    ensures { IfOk result (λ soon. (text : List ℕ) × (writer.new ≡ writer.old ++ text) × IsHeldFor told.now soon text) }
{
    match told {
        Answer::Unsure { place, commits } => held_commit(writer, *place, *commits),
        Answer::Hello { .. }
        | Answer::Opening(_)
        | Answer::Committed { .. }
        | Answer::Values(_)
        | Answer::Flushed(_)
        | Answer::Stat { .. }
        | Answer::Stopping
        | Answer::Counters(_)
        | Answer::Bits(_)
        | Answer::Refused(_) => held_answer(writer, told),
    }
}

// Writes the record of a commit that is to wait, as one that is known to be stable, and remembers
// its place and count for the record of one that is not.
fn held_commit(
    writer: &mut Writer,
    place: u64,
    commits: u64,
) -> Result<HeldReply<UnsureAnswer, AwaitedCommits>, WriteFault>
    ensures { IfOk result (λ soon. (text : List ℕ) × (writer.new ≡ writer.old ++ text) × IsHeldFor (Unsure place commits) soon text) }
{
    // Called for its contract: a record can hold the other answer too.
    answers_are_spellings();
    write_answer(writer, &Answer::Committed { place, commits })?;
    Ok(HeldReply {
        wait: Some(HeldWait {
            call: UnsureAnswer { place, commits },
            receipt: AwaitedCommits { commits },
        }),
        ends: false,
    })
}

// Writes the record of an answer that has no wait.
fn held_answer(
    writer: &mut Writer,
    told: &Answer,
) -> Result<HeldReply<UnsureAnswer, AwaitedCommits>, WriteFault>
    ensures { IfOk result (λ soon. (text : List ℕ) × (writer.new ≡ writer.old ++ text) × HoldsAnswer told.now soon text) }
{
    write_answer(writer, told)?;
    Ok(HeldReply {
        wait: None,
        ends: is_stopping(told),
    })
}

// True if the answer says that the service ends.
fn is_stopping(told: &Answer) -> bool
    ensures { IsTrue result → told.now ≡ Stopping }
{
    matches!(told, Answer::Stopping)
}
