// A request, and its answer.
ghost use Rattle.std.specs.Prelude.{◌≡◌, ◌≤◌, [], IfOk, IfErr};
ghost use Rattle.journal_world.specs.Histories.{floor};
ghost use Rattle.journal_world.specs.Files.{shape};
ghost use Rattle.journal_history.specs.Tokens.{OnlyExtends};
ghost use Rattle.journal_twophase.specs.Waits.{IsWaitRefusal};
ghost use Rattle.journal_port.specs.Answers.{IsAnswerTo, IsCommitReply, is_denied, IsFlushed, IsFlushAnswer, IsStatAnswer, IsStopAnswer, offer};

use crate::commit::commit;
use crate::counting::{Counting, count};
use crate::greet::greet;
use crate::read::read;
use crate::rights::Rights;
use crate::scan::find_bits;
use journal_disk::BlockDisk;
use journal_history::{Naming, Session};
use journal_records::{Answer, Part, Refused, Request};
use journal_twophase::{BitScan, Journal, JournalRefusal};
use journal_world::{AnyMap, CommitCount, Layout};
use std::alloc::Global;
use std::sync::Wait;

/// What a connection is told of the opening, and what it may ask for.
#[derive(Clone, Copy, Debug)]
pub struct Terms {
    /// The layout by which the journal was opened.
    pub layout: Layout,
    /// The number of the opening.
    pub number: u64,
    /// What it may ask for.
    pub rights: Rights,
}

/// What the requests of a connection are answered by.
pub struct Port<'s, 'b, D: BlockDisk, J: Naming, C: Counting> {
    /// What memory is taken from.
    pub alloc: Global,
    /// The journal.
    pub journal: &'s Journal<'b, D, AnyMap, J>,
    /// What the program counts.
    pub counting: &'s C,
    /// What the connection is told.
    pub terms: Terms,
    pub ghost is_its_layout: { shape terms.layout ≡ J.layout },
}

impl<'s, 'b, D: BlockDisk, J: Naming, C: Counting> Drop for Port<'s, 'b, D, J, C> {
    fn drop(self) {
        let Port {
            alloc: _,
            journal: _,
            counting: _,
            terms: _,
        } = self;
    }
}

// Answers a request under the session, but does not wait until a commit is stable: one that is to
// wait is answered `Unsure`. No slot is held before or after it.
//
// A commit that stands is answered `Committed`, with its place. A read is answered `Values`, which
// are what one map gives, at the end of what the session had seen once it was done. A flush is
// answered `Flushed` once all that the session has seen is stable, and a stop is answered
// `Stopping` then, where the connection may end the service. A hello is answered what the port's
// terms say, counters just what the program tells, by ascending names, and a scan `Bits`, which the
// map has at the end of what the session had then seen.
//
// `Refused` says that nothing was done: the history lacks the request's transaction. It is
// `Conflict` where the map, at the end of what the session had seen once it was done, gives some
// compared address another value, `OtherVersion` where another version is asked for, `Forbidden`
// where the service may not be ended, `ReadOnly` where a commit writes and the connection may not,
// and else the journal's refusal. That is never `Busy`, since slots are taken in ascending order,
// nor `Full`, since a commit waits for room.
pub(crate) fn answer_no_wait<'b, D: BlockDisk, J: Naming, C: Counting, W: Wait>(
    rt: &W,
    port: &Port<'_, 'b, D, J, C>,
    session: &mut Session<'b, J, AnyMap>,
    request: Request,
) -> Answer
    ensures { IsAnswerTo J.layout (offer port.now.terms (C.tells port.now.counting.now)) [] request session.old session.new result }
{
    let (alloc, journal, terms) = (port.alloc, port.journal, port.terms);
    match request {
        Request::Hello(version) => greet(alloc, terms, version),
        Request::Commit { parts, waits } => commit_or_deny(rt, port, session, parts, waits),
        Request::Read(addresses) => read(rt, alloc, journal, session, &addresses),
        Request::Flush => flush(rt, journal, session),
        Request::Stat => stat(rt, journal, session),
        Request::Stop => stop(rt, journal, session, terms.rights.may_stop),
        Request::Counters => count(alloc, port.counting),
        Request::Scan {
            block,
            first,
            value,
            most,
        } => {
            let scan = BitScan {
                block,
                first,
                value,
                most,
            };
            find_bits(rt, alloc, journal, session, scan)
        }
    }
}

// Commits the parts, unless they write and the connection may not.
fn commit_or_deny<'b, D: BlockDisk, J: Naming, C: Counting, W: Wait>(
    rt: &W,
    port: &Port<'_, 'b, D, J, C>,
    session: &mut Session<'b, J, AnyMap>,
    parts: Vec<Part>,
    waits: bool,
) -> Answer
    ensures { IsCommitReply J.layout (is_denied port.now.terms.rights parts.items) parts.items waits [] session.old session.new result }
{
    if port.terms.rights.deny(&parts) {
        return Answer::Refused(Refused::ReadOnly);
    }
    commit(rt, port.alloc, port.journal, session, parts, waits)
}

// The mark, where the session knows of it, else 0.
fn known_stable<'b, J: Naming>(session: &mut Session<'b, J, AnyMap>, mark: u64) -> u64
    ensures extends { OnlyExtends session.old session.new }
    ensures marked { result ≤ floor session.new.seen }
{
    if session.is_stable(CommitCount::new(mark)) {
        mark
    } else {
        0
    }
}

// Makes all commits stable that were made before.
fn make_stable<'b, D: BlockDisk, J: Naming, W: Wait>(
    rt: &W,
    journal: &Journal<'b, D, AnyMap, J>,
    session: &mut Session<'b, J, AnyMap>,
) -> Result<u64, JournalRefusal<'b, J, AnyMap>>
    ensures stable { IfOk result (IsFlushed session.old session.new) }
    ensures session { OnlyExtends session.old session.new }
    ensures refusal { IfErr result (IsWaitRefusal session.new) }
{
    session.observe();
    let note = journal.flush(rt, session)?;
    Ok(note.count().get())
}

// Answers a flush.
fn flush<'b, D: BlockDisk, J: Naming, W: Wait>(
    rt: &W,
    journal: &Journal<'b, D, AnyMap, J>,
    session: &mut Session<'b, J, AnyMap>,
) -> Answer
    ensures { IsFlushAnswer session.old session.new result }
{
    match make_stable(rt, journal, session) {
        Ok(stable) => Answer::Flushed(stable),
        Err(why) => Answer::Refused(Refused::of(&why)),
    }
}

// Counts the commits.
fn stat<'b, D: BlockDisk, J: Naming, W: Wait>(
    rt: &W,
    journal: &Journal<'b, D, AnyMap, J>,
    session: &mut Session<'b, J, AnyMap>,
) -> Answer
    ensures { IsStatAnswer session.old session.new result }
{
    let stat = journal.stat(rt);
    let stable = known_stable(session, stat.floor);
    Answer::Stat {
        commits: stat.commits,
        stable,
    }
}

// Ends the service, where the connection may.
fn stop<'b, D: BlockDisk, J: Naming, W: Wait>(
    rt: &W,
    journal: &Journal<'b, D, AnyMap, J>,
    session: &mut Session<'b, J, AnyMap>,
    may_stop: bool,
) -> Answer
    ensures { IsStopAnswer may_stop session.old session.new result }
{
    if !may_stop {
        return Answer::Refused(Refused::Forbidden);
    }
    match make_stable(rt, journal, session) {
        Ok(_) => Answer::Stopping,
        Err(why) => Answer::Refused(Refused::of(&why)),
    }
}
