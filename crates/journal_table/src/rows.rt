// The transactions of the table.
ghost use Rattle.std.specs.Prelude.{[], ◌∷◌, OnOk};
ghost use Rattle.journal_world.specs.Maps.{SamePairs};

use crate::fault::Fault;
use crate::row::Row;
use crate::table::{Place, ROW_BYTES, Table};
use journal_disk::BlockDisk;
use journal_history::{Naming, Session};
use journal_twophase::{Journal, JournalRefusal, Txn};
use journal_world::AnyMap;
use std::alloc::Global;
use std::sync::Wait;

// The values of a place's bit.
const FREE: u8 = 0;

const USED: u8 = 1;

/// A row, and the number of the place that has it.
#[derive(Clone, Copy, Debug, PartialEq, Eq)]
pub struct Stored {
    pub place: u64,
    pub row: Row,
}

/// The content of a place.
#[derive(Clone, Copy, Debug, PartialEq, Eq)]
pub enum Found {
    /// The bit is 0.
    Free,
    /// The bit is 1, and the record is this row's.
    Row(Row),
    /// The bit is 1, and the record is no row's. No commit of this program leaves that.
    Torn,
}

/// A table of an open journal, which threads share by `&`.
pub struct OpenTable<'j, 'b, D: BlockDisk, J: Naming> {
    pub alloc: Global,
    pub journal: &'j Journal<'b, D, AnyMap, J>,
    pub table: Table,
}

impl<'j, 'b, D: BlockDisk, J: Naming> Drop for OpenTable<'j, 'b, D, J> {
    fn drop(self) {
        let OpenTable {
            alloc: _,
            journal: _,
            table: _,
        } = self;
    }
}

impl<'j, 'b, D: BlockDisk, J: Naming> OpenTable<'j, 'b, D, J> {
    /// Inserts a row at the first free place from one on, and answers that place.
    ///
    /// # Errors
    /// Nothing was inserted.
    /// - There is no free place.
    /// - The journal refuses.
    pub fn insert<W: Wait>(
        &self,
        rt: &W,
        session: &mut Session<'b, J, AnyMap>,
        from: u64,
        row: Row,
    ) -> Result<Stored, Fault> {
        for place in from..self.table.places() {
            if self.exchange(rt, session, place, Found::Free, Some(row))? {
                return Ok(Stored { place, row });
            }
        }
        Err(Fault::Full)
    }

    /// Changes a row: its version becomes one more.
    ///
    /// # Errors
    /// The row is as it was.
    /// - The row is not there.
    /// - The journal refuses.
    pub fn change<W: Wait>(
        &self,
        rt: &W,
        session: &mut Session<'b, J, AnyMap>,
        old: Stored,
    ) -> Result<Stored, Fault> {
        let row = Row {
            key: old.row.key,
            version: old.row.version.wrapping_add(1),
        };
        if !self.exchange(rt, session, old.place, Found::Row(old.row), Some(row))? {
            return Err(Fault::NotThere);
        }
        Ok(Stored {
            place: old.place,
            row,
        })
    }

    /// Deletes a row. Its place is free then.
    ///
    /// # Errors
    /// The row is as it was.
    /// - The row is not there.
    /// - The journal refuses.
    pub fn delete<W: Wait>(
        &self,
        rt: &W,
        session: &mut Session<'b, J, AnyMap>,
        old: Stored,
    ) -> Result<(), Fault> {
        if !self.exchange(rt, session, old.place, Found::Row(old.row), None)? {
            return Err(Fault::NotThere);
        }
        Ok(())
    }

    /// The content of a place.
    ///
    /// # Errors
    /// - There is no place of this number.
    /// - The journal refuses.
    pub fn look<W: Wait>(
        &self,
        rt: &W,
        session: &mut Session<'b, J, AnyMap>,
        place: u64,
    ) -> Result<Found, Fault> {
        let place = self.place(place)?;
        let mut txn = self.journal.begin(self.alloc, session);
        let found = find(rt, self.journal, &mut txn, place);
        txn.abort(rt);
        Ok(found?)
    }

    // The objects of a place, if there is one of this number.
    fn place(&self, number: u64) -> Result<Place, Fault> {
        match self.table.place(number) {
            Some(place) => Ok(place),
            None => Err(Fault::NotThere),
        }
    }

    // Gives a place a row, or none, if it has the wanted content: all of it in one transaction.
    // False if it had something else, and then nothing was done. It waits for no device, so a crash
    // may lose it until `Journal::flush`.
    fn exchange<W: Wait>(
        &self,
        rt: &W,
        session: &mut Session<'b, J, AnyMap>,
        place: u64,
        wanted: Found,
        row: Option<Row>,
    ) -> Result<bool, Fault> {
        let place = self.place(place)?;
        let mut txn = self.journal.begin(self.alloc, session);
        match prepare(rt, self.journal, &mut txn, place, wanted, row) {
            Ok(true) => {
                let _place_in_history = txn.commit(rt, session)?;
                Ok(true)
            }
            other => {
                txn.abort(rt);
                Ok(other?)
            }
        }
    }
}

// Overwrites both objects of a place in the transaction, if the place has the wanted content.
fn prepare<'j, 'b, D: BlockDisk, J: Naming, W: Wait>(
    rt: &W,
    journal: &Journal<'b, D, AnyMap, J>,
    txn: &mut Txn<'j, 'b, D, AnyMap, J>,
    place: Place,
    wanted: Found,
    row: Option<Row>,
) -> Result<bool, JournalRefusal<'b, J, AnyMap>> {
    if find(rt, journal, txn, place)? != wanted {
        return Ok(false);
    }
    match row {
        Some(row) => write(rt, txn, place, USED, &row.to_record())?,
        None => write(rt, txn, place, FREE, &[0; ROW_BYTES])?,
    }
    Ok(true)
}

// Overwrites both objects of a place.
fn write<'j, 'b, D: BlockDisk, J: Naming, W: Wait>(
    rt: &W,
    txn: &mut Txn<'j, 'b, D, AnyMap, J>,
    place: Place,
    bit: u8,
    record: &[u8],
) -> Result<(), JournalRefusal<'b, J, AnyMap>>
    ensures { OnOk result (SamePairs txn.new.writes ((place.record, record.now) ∷ (place.bit, bit ∷ []) ∷ txn.old.writes)) }
{
    txn.overwrite(rt, place.bit, &[bit])?;
    txn.overwrite(rt, place.record, record)?;
    Ok(())
}

// Reads both objects of a place. It takes the lower slot first: a transaction that takes its slots
// in ascending order waits for those that others hold, and is never refused by J5.
fn find<'j, 'b, D: BlockDisk, J: Naming, W: Wait>(
    rt: &W,
    journal: &Journal<'b, D, AnyMap, J>,
    txn: &mut Txn<'j, 'b, D, AnyMap, J>,
    place: Place,
) -> Result<Found, JournalRefusal<'b, J, AnyMap>> {
    if journal.slot_of(place.bit) <= journal.slot_of(place.record) {
        let bit = txn.read(rt, place.bit)?;
        let record = txn.read(rt, place.record)?;
        return Ok(found_in(bit.bytes(), record.bytes()));
    }
    let record = txn.read(rt, place.record)?;
    let bit = txn.read(rt, place.bit)?;
    Ok(found_in(bit.bytes(), record.bytes()))
}

// The content of a place whose objects have these values.
fn found_in(bit: &[u8], record: &[u8]) -> Found {
    match (bit, Row::from_record(record)) {
        ([USED], Some(row)) => Found::Row(row),
        ([USED], None) => Found::Torn,
        _ => Found::Free,
    }
}
