// The journal by the table's layout, and the threads beside it.
ghost use Rattle.std.specs.Prelude.{◌≡◌};
ghost use Rattle.journal_world.specs.Files.{shape};

use crate::fault::Fault;
use crate::head::has_head;
use crate::rows::{OpenTable, Stored};
use crate::table::Table;
use crate::work::{read, write};
use journal_daemon::{OpenGate, start};
use journal_history::{Book, Naming};
use journal_lockmap::SlotCell;
use journal_program::SizedDisk;
use journal_twophase::{CACHED_BLOCKS, Journal};
use journal_world::AnyMap;
use std::alloc::Global;
use std::marker::Brand;
use std::rt::Clock;
use std::sync::Wait;
use std::thread::{Threads, join};

/// The work on a table while it is open.
#[derive(Clone, Copy, Debug, PartialEq, Eq)]
pub enum Work {
    /// Two threads write. Answers the rows that no crash loses.
    Write,
    /// One thread reads. Answers the rows that are there.
    Read,
}

/// Opens the disk as a table, does the work, and stops. Commits that nobody waited for, and that
/// are not logged yet, are then lost as by a crash.
///
/// # Errors
/// - The fault of the opening or of the work. The disk may be opened again.
pub fn with_table<R: Threads + Wait + Clock + Sync>(
    rt: &R,
    alloc: Global,
    disk: SizedDisk,
    table: Table,
    work: Work,
) -> Result<Vec<Stored>, Fault> {
    // The book has the history of one journal, and the cell its slots. The brand names both and the
    // layout, so that no receipt, slot or address of another journal is taken for one of its.
    let Ok(book) = Book::<AnyMap>::open::<()>() else {
        return Err(Fault::Refused);
    };
    let Ok(cell) = SlotCell::open(alloc) else {
        return Err(Fault::Refused);
    };
    with_book::<Brand, _>(rt, alloc, &book, cell, disk, table, work)
}

fn with_book<J: Naming + Send + Sync, R: Threads + Wait + Clock + Sync>(
    rt: &R,
    alloc: Global,
    book: &Book<AnyMap>,
    cell: SlotCell,
    disk: SizedDisk,
    table: Table,
    work: Work,
) -> Result<Vec<Stored>, Fault>
    requires book { book.now ≡ J.book }
    requires cell { cell ≡ J.cell }
    requires layout { J.layout ≡ shape table.layout }
{
    let journal: Journal<'_, SizedDisk, AnyMap, J> = match Journal::open_layout(
        alloc,
        book,
        cell,
        table.layout,
        disk,
        &AnyMap,
        CACHED_BLOCKS,
    ) {
        Ok(journal) => journal,
        Err(_) => return Err(Fault::Refused),
    };
    let done = beside_daemon(rt, alloc, &journal, table, work);
    let _disk = journal.into_disk();
    done
}

// Works beside the logger and the installer, which make commits stable. They end once the journal
// is stopped.
fn beside_daemon<J: Naming + Send + Sync, R: Threads + Wait + Clock + Sync>(
    rt: &R,
    alloc: Global,
    journal: &Journal<'_, SizedDisk, AnyMap, J>,
    table: Table,
    work: Work,
) -> Result<Vec<Stored>, Fault> {
    let open = OpenTable {
        alloc,
        journal,
        table,
    };
    let work = || {
        let done = do_work(rt, &open, work);
        journal.stop(rt);
        done
    };
    let (started, done) = join(rt, || start(rt, journal, &OpenGate).is_ok(), work);
    if started { done } else { Err(Fault::Refused) }
}

// Does the work if the disk has this table.
fn do_work<J: Naming + Send + Sync, R: Threads + Wait + Sync>(
    rt: &R,
    open: &OpenTable<'_, '_, SizedDisk, J>,
    work: Work,
) -> Result<Vec<Stored>, Fault> {
    if !has_head(rt, open)? {
        return Err(Fault::OtherTable);
    }
    match work {
        Work::Write => write(rt, open),
        Work::Read => read(rt, open),
    }
}
