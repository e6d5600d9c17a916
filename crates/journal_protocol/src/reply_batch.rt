// Replies that are held back until what they wait for is stable.
ghost use Rattle.std.specs.Prelude.{◌≡◌, ◌<◌, ◌≤◌, ℕ, List, [], ◌∷◌, ◌++◌, length, take, drop, IfOk, IfSome, OnOk, OnErr};
ghost use Rattle.std.specs.Io.KnownBytes.{Appends};
ghost use Rattle.std.specs.Vec.{vec_len, vec_capacity};
ghost use Rattle.journal_history.specs.Tokens.{OnlyExtends};
ghost use Rattle.journal_protocol.specs.ReplyBatches.{held_of, total, IsInOrder, Settles, SettlesOne, SendsSettled, SendsInPart, SendsBehind, SendsBehindInPart};
ghost use Rattle.journal_protocol.specs.Sending.{AppendsFront};

use crate::answerer::Answerer;
use crate::clock::Clock;
use crate::connection::ConnFault;
use crate::held_reply::{Counted, HeldReply, HeldWait};
use crate::protocol::Protocol;
use crate::streams::write_whole;
use journal_gate::Gate;
use journal_world::Refusal;
use journal_xdr::Writer;
use std::alloc::{AllocError, Global};
use std::io::Write;
use std::sync::Wait;

// So many bytes of replies are sent before more calls are answered, so that the memory for them
// stays small however much the calls ask for.
const BYTES_AT_ONCE: usize = 65536;

// So many replies are, so that the room for what is known of each stays small.
const REPLIES_AT_ONCE: usize = 1024;

// The wait of a reply: what is remembered of its call, and how many commits are to be stable.
#[derive(Drop)]
pub(crate) struct BatchWait<A> {
    pub call: A,
    pub commits: u64,
}

// What is known of a reply that is held: how long it is, and its wait, if it has one.
#[derive(Drop)]
pub(crate) struct BatchEntry<A> {
    pub length: usize,
    pub wait: Option<BatchWait<A>>,
}

// The replies that are held, in order.
#[derive(Drop)]
pub(crate) struct ReplyBatch<A, R> {
    // Their bytes, one reply behind the other.
    pub bytes: Writer,
    pub replies: Vec<BatchEntry<A>>,
    // The bytes of those before the first that has a wait.
    pub free: usize,
    // The receipt of the last commit that is waited for: a mark that covers it covers all others.
    pub latest: Option<R>,
}

impl<A: Drop, R: Counted + Drop> ReplyBatch<A, R> {
    // Nothing is held. The call takes no memory.
    pub fn new(alloc: Global) -> ReplyBatch<A, R> {
        ReplyBatch {
            bytes: Writer::new(alloc),
            replies: Vec::new(alloc),
            free: 0,
            latest: None,
        }
    }

    // Nothing is held any more.
    pub fn clear(&mut self)
        ensures bytes { self.new.bytes ≡ [] }
        ensures replies { self.new.replies.items ≡ [] }
        ensures in_order { IsInOrder R.commits self.new }
    {
        self.bytes.clear();
        self.replies.clear();
        self.free = 0;
        self.latest = None;
    }

    /// Makes room for what is known of one more reply. It takes no memory where the turn is not
    /// full.
    ///
    /// # Errors
    /// - Memory is refused. It holds the same replies then.
    pub fn make_room(&mut self) -> Result<(), AllocError>
        ensures room { OnOk result (vec_len self.new.replies < vec_capacity self.new.replies) }
        ensures bytes { self.new.bytes ≡ self.old.bytes }
        ensures replies { self.new.replies.items ≡ self.old.replies.items }
        ensures in_order { IsInOrder R.commits self.old → IsInOrder R.commits self.new }
    {
        self.replies.reserve(1)
    }

    // Whether the replies are as many as are held at once.
    pub fn is_full(&self) -> bool {
        self.bytes.len() >= BYTES_AT_ONCE || self.replies.len() >= REPLIES_AT_ONCE
    }

    /// Holds the reply whose text was written after that of the others. They had so many bytes.
    pub fn add_reply(&mut self, before: usize, soon: HeldReply<A, R>)
        requires room { vec_len self.old.replies < vec_capacity self.old.replies }
        requires written { before ≤ length self.old.bytes }
        ensures bytes { self.new.bytes ≡ self.old.bytes }
        ensures replies { self.new.replies.items ≡ self.old.replies.items ++ held_of R.commits soon (drop before self.old.bytes) ∷ [] }

        // The others were in order, and so are all.
        ensures in_order { IsInOrder R.commits (record self.old { bytes = take before self.old.bytes }) → IsInOrder R.commits self.new }
    {
        let HeldReply { wait, ends: _ } = soon;
        let length = self.bytes.len() - before;
        let wait = match wait {
            None => {
                if self.latest.is_none() {
                    self.free = self.bytes.len();
                }
                None
            }
            Some(HeldWait { call, receipt }) => {
                let commits = receipt.stable_commits();
                self.latest = Some(later(self.latest.take(), receipt));
                Some(BatchWait { call, commits })
            }
        };
        self.replies.push_reserved(BatchEntry { length, wait });
    }
}

// The later of the two receipts that are waited for. Each commit is counted after those before it,
// so it is the second one.
fn later<R: Counted + Drop>(latest: Option<R>, receipt: R) -> R
    ensures covers { R.commits receipt ≤ R.commits result }
    ensures others { IfSome latest (λ before. R.commits before ≤ R.commits result) }
{
    let Some(before) = latest else {
        return receipt;
    };
    if before.stable_commits() > receipt.stable_commits() {
        before
    } else {
        receipt
    }
}

// Sends the replies that are held. Those in front of the first that waits go out first; then it
// waits once, until the last commit that is waited for is stable. Where that is refused, each reply
// whose mark does not stand is sent as refused.
pub(crate) fn send_batch<P: Protocol, C: Clock, G: Gate, H: Wait, W: Write>(
    rt: &H,
    answerer: &Answerer<'_, P, C, G>,
    session: &mut P::Session,
    batch: &ReplyBatch<P::Awaited, P::Receipt>,
    writer: &mut W,
) -> Result<(), ConnFault>
    requires { IsInOrder P.Receipt.commits batch.now }
    ensures sent { OnOk result (SendsSettled (P.replaces answerer.now.protocol.now) (P.seen session.new).seen batch.now (W.contents writer.old) (W.contents writer.new)) }
    ensures in_part { OnErr result (SendsInPart (P.replaces answerer.now.protocol.now) (P.seen session.new).seen batch.now (W.contents writer.old) (W.contents writer.new)) }
    ensures extends { OnlyExtends (P.seen session.old) (P.seen session.new) }
    ensures quiet { batch.now.replies.items ≡ [] → (P.seen session.new) ≡ (P.seen session.old) }
{
    let (free, wait) = batch.bytes.as_bytes().split_at(batch.free);
    send(writer, free)?;
    let Some(receipt) = &batch.latest else {
        return Ok(());
    };
    let protocol = answerer.protocol;
    match protocol.wait_stable(rt, session, receipt) {
        Ok(()) => send(writer, wait),
        Err(why) => send_refused(answerer, session, batch, &why, writer),
    }
}

// Sends the replies after those that went out before the wait, which was refused.
fn send_refused<P: Protocol, C: Clock, G: Gate, W: Write>(
    answerer: &Answerer<'_, P, C, G>,
    session: &mut P::Session,
    batch: &ReplyBatch<P::Awaited, P::Receipt>,
    why: &Refusal<()>,
    writer: &mut W,
) -> Result<(), ConnFault>
    requires { IsInOrder P.Receipt.commits batch.now }
    ensures sent { OnOk result (SendsBehind (P.replaces answerer.now.protocol.now) (P.seen session.new).seen batch.now (W.contents writer.old) (W.contents writer.new)) }
    ensures in_part { OnErr result (SendsBehindInPart (P.replaces answerer.now.protocol.now) (P.seen session.new).seen batch.now (W.contents writer.old) (W.contents writer.new)) }
    ensures extends { OnlyExtends (P.seen session.old) (P.seen session.new) }
{
    let Ok(told) = settled(answerer, session, batch, why) else {
        return Err(ConnFault::NoMemory);
    };
    let (_free, behind) = told.as_bytes().split_at(batch.free);
    send(writer, behind)
}

// Writes the bytes.
fn send<W: Write>(writer: &mut W, bytes: &[u8]) -> Result<(), ConnFault>
    ensures whole { OnOk result (Appends (W.contents writer.old) (W.contents writer.new) bytes.now) }
    ensures failed { OnErr result (AppendsFront (W.contents writer.old) (W.contents writer.new) bytes.now) }
{
    match write_whole(writer, bytes) {
        Ok(()) => Ok(()),
        Err(_) => Err(ConnFault::WriteFailed),
    }
}

// What is sent where the wait was refused: each reply as it is held where its mark stands or it has
// no wait, and else its refusal.
fn settled<P: Protocol, C: Clock, G: Gate>(
    answerer: &Answerer<'_, P, C, G>,
    session: &mut P::Session,
    batch: &ReplyBatch<P::Awaited, P::Receipt>,
    why: &Refusal<()>,
) -> Result<Writer, AllocError>
    requires { total batch.now.replies.items ≡ length batch.now.bytes }
    ensures settles { IfOk result (λ told. Settles (P.replaces answerer.now.protocol.now) (P.seen session.new).seen batch.now.replies.items batch.now.bytes told) }
    ensures extends { OnlyExtends (P.seen session.old) (P.seen session.new) }
{
    let mut told = Writer::with_capacity(answerer.alloc, batch.bytes.len())?;
    let mut replies = &batch.replies[..];
    let mut bytes = batch.bytes.as_bytes();
    while let Some((held, others)) = replies.split_first() {
        let (reply, more) = bytes.split_at(held.length);
        append_reply(answerer, session, &held.wait, reply, why, &mut told)?;
        replies = others;
        bytes = more;
    }
    Ok(told)
}

// Adds a reply to those before it, as it is held or as refused.
fn append_reply<P: Protocol, C: Clock, G: Gate>(
    answerer: &Answerer<'_, P, C, G>,
    session: &mut P::Session,
    wait: &Option<BatchWait<P::Awaited>>,
    reply: &[u8],
    why: &Refusal<()>,
    told: &mut Writer,
) -> Result<(), AllocError>
    ensures settles { OnOk result ((text : List ℕ) × SettlesOne (P.replaces answerer.now.protocol.now) (P.seen session.new).seen wait.now reply.now text × (told.new ≡ told.old ++ text)) }
    ensures extends { OnlyExtends (P.seen session.old) (P.seen session.new) }
{
    let Some(wait) = wait else {
        return told.raw(reply);
    };
    let protocol = answerer.protocol;
    if protocol.is_stable(session, wait.commits) {
        return told.raw(reply);
    }
    protocol.refused_reply(told, &wait.call, why)
}
