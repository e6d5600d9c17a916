// A row, and its record.

use crate::table::ROW_BYTES;

/// A row: a key, and how often it was changed.
#[derive(Clone, Copy, Debug, PartialEq, Eq, Drop)]
pub struct Row {
    pub key: u64,
    pub version: u64,
}

impl Row {
    /// The record of the row. Its first eight bytes are the key and the next eight the version,
    /// little-endian. All others depend on both, so that a record of which a part is of another row
    /// is found.
    pub fn to_record(self) -> [u8; ROW_BYTES] {
        let mut record = [self.filler(); ROW_BYTES];
        record[..8].copy_from_slice(&self.key.to_le_bytes());
        record[8..16].copy_from_slice(&self.version.to_le_bytes());
        record
    }

    /// The row of these record bytes, or `None` if they are no row's.
    pub fn from_record(bytes: &[u8]) -> Option<Row> {
        let row = Row {
            key: number(bytes.get(..8)?)?,
            version: number(bytes.get(8..16)?)?,
        };
        (bytes == &row.to_record()[..]).then_some(row)
    }

    fn filler(self) -> u8 {
        (self.key.wrapping_mul(31).wrapping_add(self.version) % 251) as u8
    }
}

// The little-endian number of eight bytes.
fn number(bytes: &[u8]) -> Option<u64> {
    match bytes {
        [a, b, c, d, e, f, g, h] => Some(u64::from_le_bytes([*a, *b, *c, *d, *e, *f, *g, *h])),
        _ => None,
    }
}
