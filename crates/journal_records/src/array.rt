// Lists of values.
ghost use Rattle.std.specs.Prelude.{◌≡◌, ◌≤◌, ◌<◌, ◌^◌, ℕ, IsTrue, length, OnOk, Bool};
ghost use Rattle.std.specs.List.{list_all};
ghost use Rattle.journal_xdr.specs.Items.{Item, AddsItem};
ghost use Rattle.journal_records.specs.Arrays.{array, several, AreFew};
ghost use Rattle.journal_records.specs.Readings.{Reads};

use crate::fault::ReadFault;
use journal_xdr::{Reader, Writer};
use std::alloc::{AllocError, Global};

// A value that lists hold.
pub(crate) trait Element: Drop {
    // How it is spelled.
    ghost item: { Item Self };

    // True if it is no longer than its item's values.
    ghost is_short: { Self → Bool };

    // Reads the value at the front.
    fn read(alloc: Global, reader: &mut Reader<'_>) -> Result<Self, ReadFault>
        ensures { Reads item (λ value. value) reader.old reader.new result };

    // True if it is no longer than its item's values.
    fn is_short(&self) -> bool
        ensures { result ≡ is_short self.now };

    // Writes the value.
    fn write(&self, writer: &mut Writer) -> Result<(), AllocError>
        requires { IsTrue (is_short self.now) }
        ensures { OnOk result (AddsItem item self.now writer.old writer.new) };

    // Each value of the item is short.
    ghost has_short: { (value : Self) → item.Has value → IsTrue (is_short value) };
}

// Reads a list of at most `limit` values.
#[tactic(auto, unfolding(crate::specs::Arrays::array))]
pub(crate) fn read_array<T: Element>(
    alloc: Global,
    reader: &mut Reader<'_>,
    limit: usize,
) -> Result<Vec<T>, ReadFault>
    ensures { Reads (array limit T.item) (λ values. values.items) reader.old reader.new result }
{
    let count = reader.word().ok_or(ReadFault::Malformed)? as usize;
    if count > limit {
        return Err(ReadFault::Malformed);
    }
    read_several(alloc, reader, count)
}

// Reads `count` values.
fn read_several<T: Element>(
    alloc: Global,
    reader: &mut Reader<'_>,
    count: usize,
) -> Result<Vec<T>, ReadFault>
    ensures { Reads (several count T.item) (λ values. values.items) reader.old reader.new result }
{
    let mut values = Vec::new(alloc);
    for _ in 0..count {
        values.push(T::read(alloc, reader)?)?;
    }
    Ok(values)
}

// True if there are at most `limit` values, each short.
pub(crate) fn is_array<T: Element>(values: &[T], limit: usize) -> bool
    ensures few { IsTrue result → AreFew limit T.is_short values.now }
    ensures exact { (array limit T.item).Has values.now → IsTrue result }
{
    values.len() <= limit && are_short(values)
}

// True if each value is short.
fn are_short<T: Element>(values: &[T]) -> bool
    ensures { result ≡ list_all T.is_short values.now }
{
    for value in values {
        if !value.is_short() {
            return false;
        }
    }
    true
}

// Writes a list of short values.
#[tactic(auto, unfolding(crate::specs::Arrays::array))]
pub(crate) fn write_array<T: Element>(writer: &mut Writer, values: &[T]) -> Result<(), AllocError>
    requires { (limit : ℕ) × (limit < 2 ^ 32) × AreFew limit T.is_short values.now }
    ensures { OnOk result ((limit : ℕ) → length values.now ≤ limit
        → AddsItem (array limit T.item) values.now writer.old writer.new) }
{
    writer.word(values.len() as u32)?;
    write_several(writer, values)
}

// Writes short values one after another.
fn write_several<T: Element>(writer: &mut Writer, values: &[T]) -> Result<(), AllocError>
    requires { IsTrue (list_all T.is_short values.now) }
    ensures { OnOk result (AddsItem (several (length values.now) T.item) values.now writer.old writer.new) }
{
    for value in values {
        value.write(writer)?;
    }
    Ok(())
}
