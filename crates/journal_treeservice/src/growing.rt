// A disk with a tree gets more blocks.
ghost use Rattle.std.specs.Prelude.{◌≡◌, ◌≤◌, IfSome};
ghost use Rattle.journal_world.specs.declared.layout.TheConstants.{MIN_BLOCKS};
ghost use Rattle.journal_program.specs.Labels.{IsLabel};
ghost use Rattle.journal_treestore.specs.Places.{shape_of, IsCut};
ghost use Rattle.journal_treestore.specs.Growths.{IsGrowth};

use crate::cutting::cut_of;
use journal_block::Block;
use journal_clients::{Explained, ServiceFault};
use journal_disk::BlockDisk;
use journal_form::{LogForm, change_form};
use journal_program::{Label, SizedDisk, find_disk, is_disk_size};
use journal_treestore::Cut;
use journal_world::{Refusal, Refused};
use std::alloc::Global;
use std::fs::{File, Files};

// The block of the label.
const LABEL_BLOCK: u64 = 1;

/// The label of a disk that is cut so. `None` where no label says it.
pub fn label_of_cut(cut: Cut) -> Option<Label>
    requires { IsCut cut }
    ensures label { IfSome result IsLabel }
    ensures blocks { IfSome result (λ label. label.blocks ≡ cut.size) }
    ensures regions { IfSome result (λ label. label.regions ≡ (shape_of cut).regions) }
{
    Label::new(cut.size, cut.layout().regions)
}

/// Gives the disk in the file at the path, whose file and label have the new number of blocks
/// already, the wider cut: moves the records of later blocks to its end, and then writes its label,
/// which alone says how it is cut. Its log is emptied before, and has the same form then.
///
/// # Errors
/// The disk has the same files and is cut in either way. Its log may have the other form.
/// - Those of `find_disk`.
/// - `Refused`: J8 `BadSuper`, where it is not cut as was said; J1 `NoMemory`.
/// - `DeviceFailed`: the system's reason.
pub fn move_records<R: Files<File = File>>(
    rt: &R,
    alloc: Global,
    path: &str,
    old: Cut,
    new: Cut,
) -> Result<(), ServiceFault>
    requires cut { IsCut old }
    requires growth { IsGrowth old new }
{
    let found = match find_disk(rt, alloc, path) {
        Ok(found) => found,
        Err(why) => return Err(ServiceFault::unopened(why)),
    };
    let is_cut_so = match cut_of(&found.facts) {
        Some(cut) => cut.cut == old,
        None => false,
    };
    let form = found.facts.form;
    let settled = match found.settle(alloc) {
        Ok(settled) if is_cut_so => settled,
        Ok(_) => return Err(ServiceFault::Refused(Refusal::BadSuper)),
        Err(why) => return Err(ServiceFault::unopened(why)),
    };
    let mut disk = empty_log(alloc, settled.disk(), form)?;
    match move_and_label(alloc, &mut disk, old, new) {
        Ok(()) => Ok(()),
        Err(refusal) => Err(ServiceFault::refused(refusal).or_of_device(disk)),
    }
}

// Empties the log of a disk on which nothing is pending, of this form: a change of the form brings
// all updates home. Then it has its form again.
fn empty_log(alloc: Global, disk: SizedDisk, form: LogForm) -> Result<SizedDisk, ServiceFault> {
    let other = match form {
        LogForm::Plain => LogForm::Sealed,
        LogForm::Sealed => LogForm::Plain,
    };
    let disk = give_form(alloc, disk, other)?;
    give_form(alloc, disk, form)
}

// Gives the log of a disk on which nothing is pending this form.
fn give_form(alloc: Global, disk: SizedDisk, form: LogForm) -> Result<SizedDisk, ServiceFault> {
    if !is_disk_size(disk.size()) {
        return Err(ServiceFault::Refused(Refusal::BadSuper));
    }
    match change_form(alloc, disk, form) {
        Ok(changed) => Ok(changed.disk),
        Err(Refused { refusal, disk }) => Err(ServiceFault::refused(refusal).or_of_device(disk)),
    }
}

// Moves the records of later blocks, and writes the label.
fn move_and_label(
    alloc: Global,
    disk: &mut SizedDisk,
    old: Cut,
    new: Cut,
) -> Result<(), Refusal<()>>
    requires cut { IsCut old }
    requires growth { IsGrowth old new }
{
    if disk.size() != new.size {
        return Err(Refusal::BadSuper);
    }
    let Some(label) = label_of_cut(new) else {
        return Err(Refusal::BadSuper);
    };
    journal_treeform::move_records(alloc, disk, old, new)?;
    put_label(alloc, disk, &label)
}

// Writes the label of a disk, and makes that stable. The start of the log stays.
fn put_label(alloc: Global, disk: &mut SizedDisk, label: &Label) -> Result<(), Refusal<()>>
    requires { MIN_BLOCKS ≤ disk.old.size }
{
    let mut block = Block::try_new(alloc)?;
    if disk.read(LABEL_BLOCK, &mut block).is_err() {
        return Err(Refusal::DeviceFailed(()));
    }
    label.write(&mut block);
    if disk.write(LABEL_BLOCK, &block).is_err() || disk.barrier().is_err() {
        return Err(Refusal::DeviceFailed(()));
    }
    Ok(())
}
