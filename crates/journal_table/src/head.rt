// The head of the table. The disk does not record its layout. So block 513 has the numbers from
// which the layout follows, and they are compared each time that the table is opened.

use crate::fault::Fault;
use crate::rows::OpenTable;
use crate::table::{HEAD, Table};
use journal_disk::BlockDisk;
use journal_history::Naming;
use journal_twophase::{JournalRefusal, Txn};
use journal_world::{AnyMap, BLOCK_BYTES};
use std::sync::Wait;

// The first bytes of a head: which form of table it is.
const FORM: [u8; 8] = *b"TABLE 64";

/// Writes the head if the disk has none, and waits until no crash loses it. False if the disk has
/// another head: it was not made as this table.
///
/// # Errors
/// - The journal refuses. A head that was begun may be there after a crash.
pub fn has_head<D: BlockDisk, J: Naming, W: Wait>(
    rt: &W,
    open: &OpenTable<'_, '_, D, J>,
) -> Result<bool, Fault> {
    let mut session = open.journal.session(rt)?;
    let mut txn = open.journal.begin(open.alloc, &mut session);
    match compare(rt, &mut txn, &head_of(&open.table)) {
        Ok(None) => {
            let _note = txn.commit_wait(rt, &mut session)?;
            Ok(true)
        }
        other => {
            txn.abort(rt);
            Ok(matches!(other?, Some(true)))
        }
    }
}

// True if the disk has this head. If it has none, the transaction writes it.
fn compare<'j, 'b, D: BlockDisk, J: Naming, W: Wait>(
    rt: &W,
    txn: &mut Txn<'j, 'b, D, AnyMap, J>,
    head: &[u8; BLOCK_BYTES],
) -> Result<Option<bool>, JournalRefusal<'b, J, AnyMap>> {
    let value = txn.read(rt, HEAD)?;
    if value.bytes().iter().any(|byte| *byte != 0) {
        return Ok(Some(value.bytes() == &head[..]));
    }
    txn.overwrite(rt, HEAD, head)?;
    Ok(None)
}

// The head of a table: its form, the number of blocks, little-endian, and zeros.
fn head_of(table: &Table) -> [u8; BLOCK_BYTES] {
    let mut head = [0; BLOCK_BYTES];
    head[..8].copy_from_slice(&FORM);
    head[8..16].copy_from_slice(&table.layout.blocks.to_le_bytes());
    head
}
