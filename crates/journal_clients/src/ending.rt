// The end of a service.
ghost use Rattle.std.specs.Prelude.{◌≡◌, IsTrue, IsOk, IfOk, OnOk, Ok};

use crate::fault::ServiceFault;
use crate::mirrored::Explained;
use journal_disk::BlockDisk;
use journal_history::{Naming, Session};
use journal_twophase::Journal;
use journal_world::{MapRule, Refusal};
use std::sync::Wait;

/// A session of the journal.
///
/// # Errors
/// - `Refused`: the session was refused.
pub fn begin_session<'b, D: BlockDisk, M: MapRule, J: Naming, W: Wait>(
    rt: &W,
    journal: &Journal<'b, D, M, J>,
) -> Result<Session<'b, J, M>, ServiceFault> {
    match journal.session(rt) {
        Ok(session) => Ok(session),
        Err(why) => Err(ServiceFault::refused(why)),
    }
}

/// Waits until all commits are stable.
///
/// # Errors
/// - `Refused`: the session or the wait was refused.
pub fn flush<'b, D: BlockDisk, M: MapRule, J: Naming, W: Wait>(
    rt: &W,
    journal: &Journal<'b, D, M, J>,
) -> Result<(), ServiceFault> {
    let mut session = begin_session(rt, journal)?;
    match journal.flush(rt, &mut session) {
        Ok(_) => Ok(()),
        Err(why) => Err(ServiceFault::refused(why)),
    }
}

/// The disk of a service that has ended, from how it was served and how its store was closed.
///
/// # Errors
/// - `DeviceFailed`: a call of the disk failed, and this was served badly or ends by its device.
/// - The fault of the service, where its disk has failed in no call, or was not given up.
/// - The fault of the close, where all was served well.
pub fn ended<D: BlockDisk + Explained>(
    served: Result<(), ServiceFault>,
    closed: Result<D, ServiceFault>,
    ends_by_device: bool,
) -> Result<D, ServiceFault>
    // It ends well only where it was served well and closed well, and where it ends by its device
    // only if no call of this failed.
    ensures served { OnOk result (IsOk served) }
    ensures closed { IfOk result (λ disk. closed ≡ Ok disk) }
    ensures sound { IfOk result (λ disk. IsTrue ends_by_device → (D.state disk).failures ≡ 0) }
{
    match (served, closed) {
        (Err(fault), Ok(disk)) => Err(fault.or_of_device(disk)),
        (Err(fault), Err(_)) => Err(fault),
        (Ok(()), closed) => unless_failed(closed?, ends_by_device),
    }
}

// The disk, unless a call of it failed and the service ends by that.
fn unless_failed<D: BlockDisk + Explained>(disk: D, ends_by_device: bool) -> Result<D, ServiceFault>
    ensures disk { IfOk result (λ left. left ≡ disk) }
    ensures sound { IfOk result (λ left. IsTrue ends_by_device → (D.state left).failures ≡ 0) }
{
    if ends_by_device && disk.failures() > 0 {
        Err(ServiceFault::Refused(Refusal::DeviceFailed(())).or_of_device(disk))
    } else {
        Ok(disk)
    }
}
