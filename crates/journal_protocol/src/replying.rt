// Answering the records of a piece, in order.
ghost use Rattle.std.specs.Prelude.{◌≡◌, ◌≢◌, ◌<◌, [], List, length, IfOk, OnOk, OnErr};
ghost use Rattle.journal_world.specs.Histories.{Entry};
ghost use Rattle.journal_rpc.specs.declared.part.Part.TheVariants.{TooLong};
ghost use Rattle.journal_protocol.specs.declared.replying.Outcome.TheVariants.{GoesOn};
ghost use Rattle.journal_protocol.specs.Output.{IsReplyBy, talk, going};
ghost use Rattle.journal_protocol.specs.ReplyBatches.{IsHeld, IsInOrder, HeldOne, HeldNext, doing};
ghost use Rattle.journal_protocol.specs.Sending.{Turned, is_over, Lost, LostOne};

use crate::answerer::{Answerer, pass_gate};
use crate::clock::Clock;
use crate::connection::ConnFault;
use crate::protocol::Protocol;
use crate::reply_batch::ReplyBatch;
use journal_gate::Gate;
use journal_rpc::{FeedRefused, LentRecord, Records};
use std::sync::Wait;

// The bytes of a piece whose records are not answered yet.
#[derive(Clone, Copy)]
pub(crate) struct Piece<'p> {
    pub rest: &'p [u8],
}

// How the answering of a record, of a turn or of a piece ends.
#[derive(Clone, Copy)]
pub(crate) enum Outcome {
    // Each record was answered.
    GoesOn,
    // Those before a bad one were: it is no call, or too long.
    Bad,
    // Some were, and the last reply ends the connection.
    Ended,
}

// Answers the records of a piece up to their commits, in order, holds the replies, and counts them,
// until the piece is at its end, or there are replies enough to be sent.
pub(crate) fn answer_turn<P: Protocol, C: Clock, G: Gate, H: Wait>(
    rt: &H,
    answerer: &Answerer<'_, P, C, G>,
    session: &mut P::Session,
    records: &mut Records,
    piece: &mut Piece<'_>,
    batch: &mut ReplyBatch<P::Awaited, P::Receipt>,
    answered: &mut u64,
) -> Result<Outcome, ConnFault>
    requires some { 0 < length piece.old.rest.now }
    requires none { records.old.records ≡ [] }
    requires short { records.old.part ≢ TooLong }
    ensures answered { IfOk result (λ outcome. Turned (P.service answerer.now.protocol.now).reads (IsHeld (P.service answerer.now.protocol.now) (P.replaces answerer.now.protocol.now) P.Receipt.commits (C.tells answerer.now.clock.now)) outcome
        piece.old.rest.now piece.new.rest.now records.old records.new (doing (going (P.seen session.old)) batch.new.replies.items) (doing (talk (P.seen session.new) (is_over outcome)) []) batch.new.bytes answered.old answered.new) }
    ensures shorter { IfOk result (λ outcome. length piece.new.rest.now < length piece.old.rest.now) }
    ensures none { OnOk result (records.new.records ≡ []) }
    ensures short { IfOk result (λ outcome. outcome ≡ GoesOn → records.new.part ≢ TooLong) }
    ensures in_order { OnOk result (IsInOrder P.Receipt.commits batch.new) }
    ensures lost { OnErr result ((history : List Entry) → Lost (P.service answerer.now.protocol.now).reads (IsReplyBy (P.service answerer.now.protocol.now).does (C.tells answerer.now.clock.now) history)
        piece.old.rest.now records.old (P.seen session.old) (P.seen session.new)) }
{
    batch.clear();
    loop {
        match answer_next(rt, answerer, session, records, piece, batch, answered)? {
            Outcome::GoesOn => {}
            Outcome::Bad => return Ok(Outcome::Bad),
            Outcome::Ended => return Ok(Outcome::Ended),
        }
        if piece.rest.is_empty() || batch.is_full() {
            return Ok(Outcome::GoesOn);
        }
    }
}

// Answers the next record of a piece. One that is whole in the piece is lent out of it. Of another
// one the bytes of the piece are kept, and it is answered where they complete it.
fn answer_next<P: Protocol, C: Clock, G: Gate, H: Wait>(
    rt: &H,
    answerer: &Answerer<'_, P, C, G>,
    session: &mut P::Session,
    records: &mut Records,
    piece: &mut Piece<'_>,
    batch: &mut ReplyBatch<P::Awaited, P::Receipt>,
    answered: &mut u64,
) -> Result<Outcome, ConnFault>
    requires some { 0 < length piece.old.rest.now }
    requires none { records.old.records ≡ [] }
    requires short { records.old.part ≢ TooLong }
    requires in_order { IsInOrder P.Receipt.commits batch.old }
    // It is one turn of the piece: the replies that were held before are held before it.
    ensures answered { IfOk result (λ outcome. HeldNext (P.service answerer.now.protocol.now) (P.replaces answerer.now.protocol.now) P.Receipt.commits (C.tells answerer.now.clock.now) outcome
        piece.old.rest.now piece.new.rest.now records.old records.new (P.seen session.old) (P.seen session.new) batch.old batch.new answered.old answered.new) }
    ensures shorter { IfOk result (λ outcome. length piece.new.rest.now < length piece.old.rest.now) }
    ensures none { OnOk result (records.new.records ≡ []) }
    ensures short { IfOk result (λ outcome. outcome ≡ GoesOn → records.new.part ≢ TooLong) }
    ensures in_order { OnOk result (IsInOrder P.Receipt.commits batch.new) }
    ensures lost { OnErr result ((history : List Entry) → Lost (P.service answerer.now.protocol.now).reads (IsReplyBy (P.service answerer.now.protocol.now).does (C.tells answerer.now.clock.now) history)
        piece.old.rest.now records.old (P.seen session.old) (P.seen session.new)) }
{
    if let Some(LentRecord { record, rest }) = records.split_record(piece.rest) {
        piece.rest = rest;
        return answer_record(rt, answerer, session, record, batch, answered);
    }
    match records.feed(piece.rest) {
        Ok(taken) => {
            let (_, rest) = piece.rest.split_at(taken);
            piece.rest = rest;
        }
        Err(FeedRefused::TooLong) => {
            let (_, rest) = piece.rest.split_at(piece.rest.len());
            piece.rest = rest;
            return Ok(Outcome::Bad);
        }
        Err(FeedRefused::NoMemory) => return Err(ConnFault::NoMemory),
    }
    let Some(record) = records.next() else {
        return Ok(Outcome::GoesOn);
    };
    let outcome = answer_record(rt, answerer, session, record.as_bytes(), batch, answered);
    records.reuse(record);
    outcome
}

// Answers a record up to its commit, writes the reply behind those that are held, and counts it.
fn answer_record<P: Protocol, C: Clock, G: Gate, H: Wait>(
    rt: &H,
    answerer: &Answerer<'_, P, C, G>,
    session: &mut P::Session,
    record: &[u8],
    batch: &mut ReplyBatch<P::Awaited, P::Receipt>,
    answered: &mut u64,
) -> Result<Outcome, ConnFault>
    requires in_order { IsInOrder P.Receipt.commits batch.old }
    ensures answered { IfOk result (λ outcome. HeldOne (P.service answerer.now.protocol.now) (P.replaces answerer.now.protocol.now) P.Receipt.commits (C.tells answerer.now.clock.now) outcome
        record.now (P.seen session.old) (P.seen session.new) batch.old batch.new answered.old answered.new) }
    ensures in_order { OnOk result (IsInOrder P.Receipt.commits batch.new) }
    ensures lost { OnErr result ((history : List Entry) → LostOne (P.service answerer.now.protocol.now).reads (IsReplyBy (P.service answerer.now.protocol.now).does (C.tells answerer.now.clock.now) history)
        record.now (P.seen session.old) (P.seen session.new)) }
{
    let (protocol, clock) = (answerer.protocol, answerer.clock);
    // The room for what is known of the reply is made before the call is done.
    let Ok(()) = batch.make_room() else {
        return Err(ConnFault::NoMemory);
    };
    pass_gate(rt, answerer, *answered);
    let before = batch.bytes.len();
    let writer = &mut batch.bytes;
    let Some(soon) = protocol.answer_no_wait(rt, answerer.alloc, session, record, writer, clock)?
    else {
        return Ok(Outcome::Bad);
    };
    let ends = soon.ends;
    batch.add_reply(before, soon);
    *answered = answered.saturating_add(1);
    if ends {
        return Ok(Outcome::Ended);
    }
    Ok(Outcome::GoesOn)
}
