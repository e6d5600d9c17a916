// The work on an open table.
ghost use Rattle.std.specs.Prelude.{◌≤◌};

use crate::fault::Fault;
use crate::row::Row;
use crate::rows::{Found, OpenTable, Stored};
use journal_disk::BlockDisk;
use journal_history::{Naming, Session};
use journal_world::AnyMap;
use std::sync::Wait;
use std::thread::{Threads, join};

// The number of rows that each thread inserts before it waits, and after that.
const ROWS: u64 = 48;

const MORE_ROWS: u64 = 16;

// The number of places that are looked at, the last of the table. All rows are there, at the end of
// the disk.
const LOOKED_AT: u64 = 1024;

// The first key of each thread.
const KEYS: (u64, u64) = (0, 1000);

/// Writes in two threads. Answers the rows that no crash loses any more: each thread has waited for
/// its own, and has then inserted more.
///
/// # Errors
/// - A thread's fault. Rows of that thread may be lost.
pub fn write<D: BlockDisk + Send, J: Naming + Send + Sync, R: Threads + Wait + Sync>(
    rt: &R,
    open: &OpenTable<'_, '_, D, J>,
) -> Result<Vec<Stored>, Fault> {
    let (ours, theirs) = join(
        rt,
        || write_rows(rt, open, KEYS.0),
        || write_rows(rt, open, KEYS.1),
    );
    let (mut rows, theirs) = (ours?, theirs?);
    rows.extend(theirs)?;
    Ok(rows)
}

// Writes in a session of this thread's. Answers the rows for which it has waited.
fn write_rows<D: BlockDisk, J: Naming, W: Wait>(
    rt: &W,
    open: &OpenTable<'_, '_, D, J>,
    first_key: u64,
) -> Result<Vec<Stored>, Fault>
    requires { first_key ≤ 1000 }
{
    let mut session = open.journal.session(rt)?;
    let rows = write_some(rt, open, &mut session, first_key)?;
    // One wait for all that this session has committed.
    open.journal.flush(rt, &mut session)?;
    insert_more(rt, open, &mut session, first_key + ROWS)?;
    Ok(rows)
}

// Inserts rows, changes some and deletes some. Answers those that are left.
fn write_some<'b, D: BlockDisk, J: Naming, W: Wait>(
    rt: &W,
    open: &OpenTable<'_, 'b, D, J>,
    session: &mut Session<'b, J, AnyMap>,
    first_key: u64,
) -> Result<Vec<Stored>, Fault>
    requires { first_key ≤ 1000 }
{
    let mut rows = Vec::new(open.alloc);
    let mut from = first_place(open);
    for key in first_key..first_key + ROWS {
        let stored = open.insert(rt, session, from, Row { key, version: 1 })?;
        // The search for the next place begins here, because the place may be free again.
        from = stored.place;
        if let Some(left) = change_or_delete(rt, open, session, stored)? {
            rows.push(left)?;
        }
    }
    Ok(rows)
}

// Of four rows in a row the second is changed and the fourth deleted. Answers the row as it is
// then, if it is left.
fn change_or_delete<'b, D: BlockDisk, J: Naming, W: Wait>(
    rt: &W,
    open: &OpenTable<'_, 'b, D, J>,
    session: &mut Session<'b, J, AnyMap>,
    stored: Stored,
) -> Result<Option<Stored>, Fault> {
    match stored.row.key % 4 {
        0 | 2 => Ok(Some(stored)),
        1 => Ok(Some(open.change(rt, session, stored)?)),
        _ => {
            open.delete(rt, session, stored)?;
            Ok(None)
        }
    }
}

// Inserts rows for which nobody waits.
fn insert_more<'b, D: BlockDisk, J: Naming, W: Wait>(
    rt: &W,
    open: &OpenTable<'_, 'b, D, J>,
    session: &mut Session<'b, J, AnyMap>,
    first_key: u64,
) -> Result<(), Fault>
    requires { first_key ≤ 1048 }
{
    let mut from = first_place(open);
    for key in first_key..first_key + MORE_ROWS {
        from = open
            .insert(rt, session, from, Row { key, version: 1 })?
            .place;
    }
    Ok(())
}

/// The rows at the places where this program inserts some.
///
/// # Errors
/// - A row is torn.
/// - The journal refuses.
pub fn read<D: BlockDisk, J: Naming, W: Wait>(
    rt: &W,
    open: &OpenTable<'_, '_, D, J>,
) -> Result<Vec<Stored>, Fault> {
    let mut session = open.journal.session(rt)?;
    let mut rows = Vec::new(open.alloc);
    for place in first_place(open)..open.table.places() {
        match open.look(rt, &mut session, place)? {
            Found::Free => {}
            Found::Row(row) => rows.push(Stored { place, row })?,
            Found::Torn => return Err(Fault::Torn),
        }
    }
    Ok(rows)
}

// The place at which the search for a free place begins.
fn first_place<D: BlockDisk, J: Naming>(open: &OpenTable<'_, '_, D, J>) -> u64 {
    open.table.places().saturating_sub(LOOKED_AT)
}
