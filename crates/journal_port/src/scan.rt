// A request to find bits of a block.
ghost use Rattle.journal_port.specs.Answers.{IsScanAnswer};

use journal_disk::BlockDisk;
use journal_history::{Naming, Session};
use journal_records::{Answer, Refused};
use journal_twophase::{BitScan, Journal};
use journal_world::AnyMap;
use std::alloc::Global;
use std::sync::Wait;

// Finds the bits at one place of the history, which the session has then seen.
pub(crate) fn find_bits<'b, D: BlockDisk, J: Naming, W: Wait>(
    rt: &W,
    alloc: Global,
    journal: &Journal<'b, D, AnyMap, J>,
    session: &mut Session<'b, J, AnyMap>,
    scan: BitScan,
) -> Answer
    ensures { IsScanAnswer J.layout scan session.old session.new result }
{
    match journal.scan(rt, alloc, session, scan) {
        Ok(bits) => Answer::Bits(bits),
        Err(why) => Answer::Refused(Refused::of(&why)),
    }
}
