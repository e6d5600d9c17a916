// Disks with a tree are made.
ghost use Rattle.std.specs.Prelude.{◌≡◌};
ghost use Rattle.journal_tree.specs.Times.{IsTime};
ghost use Rattle.journal_treeform.specs.NewCuts.{IsNewCut};

use journal_clients::{ServiceFault, now};
use journal_disk::BlockDisk;
use journal_form::{LogForm, change_form};
use journal_program::{Label, Room, SizedDisk, create_labeled_disk};
use journal_tree::Time;
use journal_treeform::{NewTree, format};
use journal_treestore::Cut;
use journal_world::{Moment, Refusal, Refused};
use std::alloc::Global;
use std::fs;
use std::fs::{File, Files};
use std::time::Clock;

// The rights of the root directory: its owner may all, and others may look.
const ROOT_MODE: u16 = 0o755;

/// The user and the group of the root directory, and of files that are written to it.
pub(crate) const SUPERUSER: u32 = 0;

/// Makes a disk that is cut so in a new file at the path, with a sealed log, a label, and this room
/// in its file system. Its tree has the root directory alone, which belongs to root and has the
/// mode 755. The number is the disk's own, which each handle has: it is to be drawn at random. The
/// file's owner alone may use it. Its name is stable then.
///
/// # Errors
/// - `File`: the system refuses the file, as where anything is at the path, which stays as it is.
/// - `Refused`: memory is refused, or the device fails.
///
/// A file that was begun is removed.
pub fn make<R: Files<File = File> + Clock>(
    rt: &R,
    alloc: Global,
    path: &str,
    cut: Cut,
    number: u64,
    room: Room,
) -> Result<(), ServiceFault>
    requires { IsNewCut cut }
{
    let Some(label) = Label::new(cut.size, cut.layout().regions) else {
        return Err(ServiceFault::Refused(Refusal::BadSuper));
    };
    let disk = match create_labeled_disk(rt, alloc, path, &label, room) {
        Ok(disk) => disk,
        Err(why) => return Err(ServiceFault::unopened(why)),
    };
    let tree = NewTree {
        cut,
        disk: number,
        mode: ROOT_MODE,
        owner: SUPERUSER,
        group: SUPERUSER,
        made: time_at(now(rt)),
    };
    let made = format_sealed(alloc, disk, tree);
    if made.is_err() {
        // The first fault is answered, whether this succeeds or not.
        let _ = fs::remove_file(rt, path);
    }
    made
}

// Makes a disk of zeros one with this tree, and seals its log.
fn format_sealed(alloc: Global, disk: SizedDisk, tree: NewTree) -> Result<(), ServiceFault>
    requires cut { IsNewCut tree.cut }
    requires mode { tree.mode ≡ ROOT_MODE }
    requires made { IsTime tree.made }
{
    if disk.size() != tree.cut.blocks {
        return Err(ServiceFault::Refused(Refusal::BadSuper));
    }
    let disk = match format(alloc, disk, tree) {
        Ok(disk) => disk,
        Err(Refused { refusal, disk }) => {
            return Err(ServiceFault::refused(refusal).or_of_device(disk));
        }
    };
    match change_form(alloc, disk, LogForm::Sealed) {
        Ok(_) => Ok(()),
        Err(Refused { refusal, disk }) => Err(ServiceFault::refused(refusal).or_of_device(disk)),
    }
}

/// The moment, as a time of the tree.
pub(crate) fn time_at(moment: Moment) -> Time
    ensures same { (result.secs ≡ moment.secs) × (result.nanos ≡ moment.nanos) }
    ensures time { IsTime result }
{
    Time {
        secs: moment.secs,
        nanos: moment.nanos,
    }
}
