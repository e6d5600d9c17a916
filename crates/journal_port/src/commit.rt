// A request to commit.
ghost use Rattle.std.specs.Prelude.{◌≡◌, []};
ghost use Rattle.std.specs.List.Sorted.{IsNonDecreasingBy};
ghost use Rattle.journal_port.specs.Requests.{order_of};
ghost use Rattle.journal_port.specs.Answers.{IsEnd, IsCommitAnswer, answer_of};

use crate::order::sort;
use crate::parts::{PartFault, do_parts};
use journal_disk::BlockDisk;
use journal_history::{Naming, Session};
use journal_records::{Answer, Part, Refused};
use journal_twophase::{Journal, Txn};
use journal_world::AnyMap;
use std::alloc::Global;
use std::sync::Wait;

// Commits the parts as one transaction. One that is to wait is not known to be stable then.
pub(crate) fn commit<'b, D: BlockDisk, J: Naming, W: Wait>(
    rt: &W,
    alloc: Global,
    journal: &Journal<'b, D, AnyMap, J>,
    session: &mut Session<'b, J, AnyMap>,
    parts: Vec<Part>,
    waits: bool,
) -> Answer
    ensures { IsCommitAnswer J.layout parts.items waits [] session.old session.new result }
{
    let mut parts = parts;
    match sort(journal, &mut parts) {
        Ok(()) => commit_in_order(rt, alloc, journal, session, &parts, waits),
        Err(_) => Answer::Refused(Refused::NoMemory),
    }
}

// The same, of parts that are in order.
fn commit_in_order<'b, D: BlockDisk, J: Naming, W: Wait>(
    rt: &W,
    alloc: Global,
    journal: &Journal<'b, D, AnyMap, J>,
    session: &mut Session<'b, J, AnyMap>,
    parts: &[Part],
    waits: bool,
) -> Answer
    requires { IsNonDecreasingBy (order_of J.layout) parts.now }
    ensures { IsCommitAnswer J.layout parts.now waits [] session.old session.new result }
{
    let mut txn = journal.begin(alloc, session);
    // Called for its contract: the session has seen an opening.
    let _seen = session.seen();
    match do_parts(rt, &mut txn, parts) {
        Ok(()) => end(rt, txn, session, waits),
        Err(fault) => {
            session.see(txn.front());
            txn.abort(rt);
            answer_of(&fault)
        }
    }
}

// What is answered where a part was given up.
fn answer_of<C>(fault: &PartFault<C>) -> Answer
    ensures { result ≡ answer_of fault.now }
{
    match fault {
        PartFault::Differs => Answer::Refused(Refused::Conflict),
        PartFault::Refused(why) => Answer::Refused(Refused::of(why)),
    }
}

// Commits the transaction.
fn end<'j, 'b, D: BlockDisk, J: Naming, W: Wait>(
    rt: &W,
    txn: Txn<'j, 'b, D, AnyMap, J>,
    session: &mut Session<'b, J, AnyMap>,
    waits: bool,
) -> Answer
    ensures { IsEnd J.layout txn.entry waits session.old session.new result }
{
    let made = match txn.commit(rt, session) {
        Ok(made) => made,
        Err(why) => return Answer::Refused(Refused::of(&why)),
    };
    let (place, commits) = (made.place(), made.count().get());
    if waits {
        Answer::Unsure { place, commits }
    } else {
        Answer::Committed { place, commits }
    }
}
