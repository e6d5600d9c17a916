// A piece of the input, as many of its records at a time as have replies enough to be sent.
ghost use Rattle.std.specs.Prelude.{◌≡◌, ◌≢◌, ℕ, List, [], Option, IfOk, OnErr};
ghost use Rattle.journal_rpc.specs.declared.part.Part.TheVariants.{TooLong};
ghost use Rattle.journal_protocol.specs.declared.replying.Outcome.TheVariants.{GoesOn};
ghost use Rattle.journal_protocol.specs.Output.{going};
ghost use Rattle.journal_protocol.specs.Serving.{Start, SoFar, ComesTo, GivenUp};

use crate::answerer::Answerer;
use crate::clock::Clock;
use crate::connection::ConnFault;
use crate::protocol::Protocol;
use crate::reply_batch::{ReplyBatch, send_batch};
use crate::replying::{Outcome, Piece, answer_turn};
use journal_gate::Gate;
use journal_rpc::Records;
use std::io::Write;
use std::sync::Wait;

// Answers the calls of a piece, and sends the replies: those of a turn after one wait.
pub(crate) fn answer_piece<P: Protocol, C: Clock, G: Gate, H: Wait, W: Write>(
    rt: &H,
    answerer: &Answerer<'_, P, C, G>,
    session: &mut P::Session,
    records: &mut Records,
    batch: &mut ReplyBatch<P::Awaited, P::Receipt>,
    answered: &mut u64,
    piece: &[u8],
    writer: &mut W,
) -> Result<Outcome, ConnFault>
    requires none { records.old.records ≡ [] }
    requires short { records.old.part ≢ TooLong }
    ensures sent { IfOk result (λ outcome. (start : Start) (left : Option (List ℕ))
        → SoFar (P.service answerer.now.protocol.now) (C.tells answerer.now.clock.now) start left (W.contents writer.old) piece.now records.old (going (P.seen session.old)) answered.old
        → ComesTo (P.service answerer.now.protocol.now) (C.tells answerer.now.clock.now) outcome start left (W.contents writer.new) [] records.new (P.seen session.new) answered.new) }
    ensures given_up { OnErr result ((start : Start) (left : Option (List ℕ))
        → SoFar (P.service answerer.now.protocol.now) (C.tells answerer.now.clock.now) start left (W.contents writer.old) piece.now records.old (going (P.seen session.old)) answered.old
        → GivenUp (P.service answerer.now.protocol.now) (C.tells answerer.now.clock.now) start left (W.contents writer.new) (P.seen session.new)) }
    ensures short { IfOk result (λ outcome. outcome ≡ GoesOn → (records.new.records ≡ []) × (records.new.part ≢ TooLong)) }
{
    let mut piece = Piece { rest: piece };
    while !piece.rest.is_empty() {
        let outcome = answer_turn(rt, answerer, session, records, &mut piece, batch, answered)?;
        send_batch(rt, answerer, session, batch, writer)?;
        match outcome {
            Outcome::GoesOn => {}
            Outcome::Bad => return Ok(Outcome::Bad),
            Outcome::Ended => return Ok(Outcome::Ended),
        }
    }
    Ok(Outcome::GoesOn)
}
