// The form of a log is changed.
ghost use Rattle.std.specs.Prelude.{◌≡◌, ◌≢◌, ◌≤◌, false, IsTrue, IfOk, IfErr, MatchResult};
ghost use Rattle.journal_world.specs.declared.layout.TheConstants.{MIN_BLOCKS};
ghost use Rattle.journal_disk.specs.Disks.{Keeps, IsSettled, read_of};
ghost use Rattle.journal_circ.specs.declared.layout.TheConstants.{MAX_SEALED_BLOCKS};
ghost use Rattle.journal_circ.specs.Ring.{IsOpenRefusal, IsFault, ChangesForm};
ghost use Rattle.journal_circ.specs.Mending.{IsMendable};
ghost use Rattle.journal_form.specs.Forms.{form_by, form_of, HoldsThroughout, HoldsLabelThroughout, IsChanged};
ghost use Rattle.journal_form.specs.Emptying.{Rests, IsRead, StaysThroughout};
ghost use Rattle.journal_form.specs.declared.form.LogForm.TheVariants.{Sealed};

use crate::emptying::empty;
use crate::form::LogForm;
use journal_block::Block;
use journal_circ::{Circ, Opened};
use journal_disk::BlockDisk;
use journal_world::{Refusal, Refused};
use std::alloc::Global;

/// A disk whose log has the form that was asked for.
#[derive(Drop)]
pub struct Changed<D> {
    /// The disk, on which nothing is pending.
    pub disk: D,
    /// The form that its log had.
    pub was: LogForm,
}

/// Gives the log of a disk on which nothing is pending this form. If it has the form already,
/// nothing is written. Otherwise all updates of the log are brought home first. Each image of each
/// moment holds the blocks that the disk held, and the label of block 1 stays.
///
/// # Errors
/// A refusal gives the disk back.
/// - `J1 NoMemory`: memory is refused. Nothing was written.
/// - `J7 BadLog`: the log is not well formed. Nothing was written.
/// - `J6 DeviceFailed`: the device fails. The log has either form, and the disk can be mended.
pub fn change_form<D: BlockDisk>(
    alloc: Global,
    disk: D,
    form: LogForm,
) -> Result<Changed<D>, Refused<D, ()>>
    requires in_range { MIN_BLOCKS ≤ (D.state disk).past.size }
    requires settled { IsTrue (D.state disk).honest → IsSettled (D.state disk).past }
    requires narrow { form ≡ Sealed → (D.state disk).past.size ≤ MAX_SEALED_BLOCKS }
    ensures refusal { IfErr result (λ refused. IsOpenRefusal (D.state disk) (D.state refused.disk) refused.refusal) }
    ensures unwritten { IsTrue (D.state disk).honest → IfErr result (λ refused. refused.refusal ≢ Refusal.DeviceFailed tt
        → (D.state refused.disk).past ≡ (D.state disk).past) }
    ensures keeps { MatchResult result
        (λ changed. Keeps (D.state disk) (D.state changed.disk))
        (λ refused. Keeps (D.state disk) (D.state refused.disk)) }
    ensures crash { IsTrue (D.state disk).honest → MatchResult result
        (λ changed. HoldsThroughout (D.state disk).past (D.state changed.disk).past)
        (λ refused. HoldsThroughout (D.state disk).past (D.state refused.disk).past) }
    ensures label { IsTrue (D.state disk).honest → MatchResult result
        (λ changed. HoldsLabelThroughout (D.state disk).past (D.state changed.disk).past)
        (λ refused. HoldsLabelThroughout (D.state disk).past (D.state refused.disk).past) }
    ensures mendable { IsTrue (D.state disk).honest → IfErr result (λ refused. IsMendable (D.state refused.disk).past) }
    ensures was { IsTrue (D.state disk).honest → IfOk result (λ changed. changed.was ≡ form_of (read_of (D.state disk).past 0)) }
    ensures same { IsTrue (D.state disk).honest → IfOk result (λ changed. changed.was ≡ form
        → (D.state changed.disk).past ≡ (D.state disk).past) }
    ensures form { IsTrue (D.state disk).honest → IfOk result (λ changed. IsChanged form (D.state changed.disk).past) }
{
    let Ok(mut room) = Block::try_new::<()>(alloc) else {
        return Err(Refused {
            refusal: Refusal::NoMemory,
            disk,
        });
    };
    match Circ::open(alloc, disk) {
        Ok(opened) => change_opened(opened, form, &mut room),
        Err(refused) => Err(refused),
    }
}

// Gives a log that was just opened this form.
fn change_opened<D: BlockDisk>(
    opened: Opened<D>,
    form: LogForm,
    room: &mut Block,
) -> Result<Changed<D>, Refused<D, ()>>
    requires rests { Rests opened.circ }
    requires read { IsRead opened.circ }
    requires narrow { form ≡ Sealed → opened.circ.disk.past.size ≤ MAX_SEALED_BLOCKS }
    ensures refusal { IfErr result (λ refused. IsFault false opened.circ.disk (D.state refused.disk) refused.refusal) }
    ensures keeps { MatchResult result
        (λ changed. Keeps opened.circ.disk (D.state changed.disk))
        (λ refused. Keeps opened.circ.disk (D.state refused.disk)) }
    ensures crash { IsTrue opened.circ.disk.honest → MatchResult result
        (λ changed. StaysThroughout opened.circ (D.state changed.disk).past)
        (λ refused. StaysThroughout opened.circ (D.state refused.disk).past) }
    ensures mendable { IsTrue opened.circ.disk.honest → IfErr result (λ refused. IsMendable (D.state refused.disk).past) }
    ensures was { IfOk result (λ changed. changed.was ≡ form_by opened.circ.sealed) }
    ensures same { IfOk result (λ changed. changed.was ≡ form → D.state changed.disk ≡ opened.circ.disk) }
    ensures form { IsTrue opened.circ.disk.honest → IfOk result (λ changed. IsChanged form (D.state changed.disk).past) }
{
    let Opened {
        mut circ,
        logger: _,
        installer,
    } = opened;
    let was = LogForm::of(circ.is_sealed());
    if was == form {
        return Ok(Changed {
            disk: circ.into_disk(),
            was,
        });
    }
    if let Err(refusal) = empty(&mut circ, installer, room) {
        return Err(Refused {
            refusal,
            disk: circ.into_disk(),
        });
    }
    match put_form(circ, form) {
        Ok(disk) => Ok(Changed { disk, was }),
        Err(refused) => Err(refused),
    }
}

// Changes the form of an empty log.
fn put_form<D: BlockDisk>(circ: Circ<D>, form: LogForm) -> Result<D, Refused<D, ()>>
    requires empty { circ.extent.start ≡ circ.next }
    requires narrow { form ≡ Sealed → circ.disk.past.size ≤ MAX_SEALED_BLOCKS }
    ensures refusal { IfErr result (λ refused. IsFault circ.faulted circ.disk (D.state refused.disk) refused.refusal) }
    ensures crash { IsTrue circ.disk.honest → MatchResult result
        (λ disk. ChangesForm circ (D.state disk).past)
        (λ refused. ChangesForm circ (D.state refused.disk).past) }
    ensures keeps { MatchResult result
        (λ disk. Keeps circ.disk (D.state disk))
        (λ refused. Keeps circ.disk (D.state refused.disk)) }
    ensures mendable { IsTrue circ.disk.honest → IfErr result (λ refused. IsMendable (D.state refused.disk).past) }
    ensures form { IsTrue circ.disk.honest → IfOk result (λ disk. IsChanged form (D.state disk).past) }
{
    match form {
        LogForm::Plain => circ.unseal(),
        LogForm::Sealed => circ.seal(),
    }
}
