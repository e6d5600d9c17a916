// The disk in a file becomes one of version 2.
ghost use Rattle.std.specs.Prelude.{◌≡◌};
ghost use Rattle.journal_world.specs.Files.{files};

use crate::file;
use crate::mounting::slot_cell;
use journal_clients::{ServiceFault, give_up};
use journal_history::{Book, Naming};
use journal_inode::FormatVersion;
use journal_lockmap::SlotCell;
use journal_migrate::EitherVersion;
use journal_program::{Settled, SizedDisk};
use journal_world::Refused;
use std::alloc::Global;
use std::fs::{File, Files};
use std::io::Write;
use std::marker::Brand;
use std::sync::Wait;

/// Makes the disk in the file one of version 2, with the same files, and prints its version then.
/// To a disk of version 2 nothing is done.
///
/// # Errors
/// Whatever the refusal, and whenever the system stops, the file has the same files, in version 1
/// or in version 2.
/// - Those of `check`.
/// - `Refused`: J11 `Worn`, where the positions of its log are used up.
pub fn migrate<R: Files<File = File> + Wait, O: Write>(
    rt: &R,
    alloc: Global,
    path: &str,
    output: &mut O,
) -> Result<(), ServiceFault> {
    migrate_disk(rt, alloc, file::open(rt, alloc, path)?, output)
}

/// Makes the disk one of version 2, with the same files, gives it up, and prints its version then.
/// To a disk of version 2 nothing is done.
///
/// # Errors
/// Whatever the refusal, and whenever the system stops, the disk has the same files, in version 1
/// or in version 2.
/// - Those of `check_disk`.
/// - `Refused`: J11 `Worn`, where the positions of its log are used up.
pub fn migrate_disk<W: Wait, O: Write>(
    rt: &W,
    alloc: Global,
    disk: Settled,
    output: &mut O,
) -> Result<(), ServiceFault> {
    let book: Book<EitherVersion> = Book::open::<()>().unwrap();
    let cell = slot_cell(alloc)?;
    let disk = migrated::<Brand, W>(rt, alloc, &book, cell, disk.disk())?;
    give_up(
        file::settled(disk)?,
        output,
        "version",
        FormatVersion::Two.number(),
    )
}

// The disk, as one of version 2.
fn migrated<J: Naming, W: Wait>(
    rt: &W,
    alloc: Global,
    book: &Book<EitherVersion>,
    cell: SlotCell,
    disk: SizedDisk,
) -> Result<SizedDisk, ServiceFault>
    requires book { book.now ≡ J.book }
    requires cell { cell ≡ J.cell }
    requires layout { J.layout ≡ files disk.size }
{
    match journal_migrate::migrate::<SizedDisk, J, W>(rt, alloc, book, cell, disk) {
        Ok(disk) => Ok(disk),
        Err(Refused { refusal, .. }) => Err(ServiceFault::refused(refusal)),
    }
}
