// The record of all that happened to the blocks of a disk in memory.
ghost use Rattle.std.specs.Prelude.{ℕ, ◌≡◌, ◌<◌, ◌-◌, List, [], ◌∷◌, length, slice_index_or, None, unwrap_or, IfOk, OnOk, OnErr};
ghost use Rattle.std.specs.Option.{option_copied};
ghost use Rattle.journal_disk.specs.Disks.{write, barrier, pending_in, read_in};
ghost use Rattle.journal_disk.specs.MemDisks.{chosen_in};
ghost use Rattle.journal_disk.specs.Records.{IsWriteAt, WritesAt};

use journal_block::Block;
use std::alloc::{AllocError, Global};
use std::marker::Model;

/// A write that the record keeps.
#[derive(Drop)]
pub struct WriteEntry {
    block: u64,
    bytes: Block,
    // How many writes of the block there are from the last barrier up to this one.
    number: u64,
    // The place of the block's write before it, or 0.
    earlier: usize,
}

/// The entry of one call.
#[derive(Drop)]
pub enum Entry {
    Write(WriteEntry),
    Barrier,
}

// Each write has the place of its block's last write before it. So a read, a write and a barrier do
// not search the record, and a crash chooses among its writes and takes no memory.
/// All writes and barriers since the beginning, in their order.
///
/// The place of an entry is the number of entries up to it. The record keeps the place of each
/// block's last write, and with each write the place of the block's write before it. So it finds a
/// block's last write at once, and its pending writes one after the other. It looks at no other
/// block, and at nothing before the last barrier.
#[derive(Drop)]
pub struct Record {
    entries: Vec<Entry>,
    // The place of the last barrier, or 0.
    synced: usize,
    // The place of each block's last write, or 0.
    last: Vec<usize>,
}

impl Model for Record {
    ghost use Rattle.std.specs.Prelude.{length};
    ghost use Rattle.journal_disk.specs.Records.{Recorded, events_of, IsLinked};

    ghost Value = { Recorded };

    ghost view = { λ r. record { size = length r.last.items; events = events_of r.entries.items } };

    ghost invariant = { λ r. IsLinked r.entries.items r.synced r.last.items };
}

impl Record {
    /// The empty record of a disk of `blocks` blocks.
    ///
    /// # Errors
    /// - The memory for it is refused. Nothing was made.
    pub fn new(alloc: Global, blocks: usize) -> Result<Record, AllocError>
        ensures { IfOk result (λ r. r ≡ record { size = blocks; events = [] }) }
    {
        let last = vec![in alloc; 0usize; blocks]?;
        Ok(Record {
            entries: Vec::new(alloc),
            synced: 0,
            last,
        })
    }

    /// The number of pending writes of a block.
    pub fn pending(&self, block: u64) -> u64
        requires { block < self.now.size }
        ensures { result ≡ length (pending_in self.now.events block) }
    {
        let place = self.last[block as usize];
        if place <= self.synced {
            return 0;
        }
        write_at(&self.entries, place).number
    }

    /// The bytes of a block's last write, or `None` where it was never written.
    pub fn last_write(&self, block: u64) -> Option<&Block>
        requires { block < self.now.size }
        ensures { (first : List ℕ) →
            read_in first self.now.events block ≡ unwrap_or (option_copied result) first }
    {
        bytes_at(&self.entries, self.last[block as usize])
    }

    /// The bytes of the block's pending write of this number, or of its last one where there are
    /// fewer. If the number is 0 or no write is pending, those of its last write before the last
    /// barrier, or `None` where there is none.
    pub fn chosen(&self, block: u64, number: u64) -> Option<&Block>
        requires { block < self.now.size }
        ensures { (first : List ℕ) →
            chosen_in first self.now.events block number ≡ unwrap_or (option_copied result) first }
    {
        let mut place = self.last[block as usize];
        while place > self.synced {
            let write = write_at(&self.entries, place);
            if write.number <= number {
                return Some(&write.bytes);
            }
            place = write.earlier;
        }
        bytes_at(&self.entries, place)
    }

    /// Adds a write.
    ///
    /// # Errors
    /// - The memory for it is refused. The record is as it was.
    pub fn write(&mut self, block: u64, bytes: Block) -> Result<(), AllocError>
        requires { block < self.old.size }
        ensures ok { OnOk result
            (self.new ≡ record self.old { events = write block bytes ∷ self.old.events }) }
        ensures err { OnErr result (self.new ≡ self.old) }
    {
        let entry = WriteEntry {
            block,
            bytes,
            number: self.pending(block) + 1,
            earlier: self.last[block as usize],
        };
        self.entries.push(Entry::Write(entry))?;
        self.last[block as usize] = self.entries.len();
        Ok(())
    }

    /// Adds a barrier.
    ///
    /// # Errors
    /// - The memory for it is refused. The record is as it was.
    pub fn barrier(&mut self) -> Result<(), AllocError>
        ensures ok { OnOk result (self.new ≡ record self.old { events = barrier ∷ self.old.events }) }
        ensures err { OnErr result (self.new ≡ self.old) }
    {
        self.entries.push(Entry::Barrier)?;
        self.synced = self.entries.len();
        Ok(())
    }

    /// Forgets all that happened.
    pub fn clear(&mut self)
        ensures { self.new ≡ record self.old { events = [] } }
    {
        self.entries.clear();
        self.synced = 0;
        self.last.as_mut_slice().fill(0);
    }
}

// The write at a place.
fn write_at(entries: &[Entry], place: usize) -> &WriteEntry
    requires { IsWriteAt entries.now place }
    ensures { slice_index_or entries.now (place - 1) Entry.Barrier ≡ Entry.Write result.now }
{
    match &entries[place - 1] {
        Entry::Write(write) => write,
        Entry::Barrier => unreachable!(),
    }
}

// The bytes of the write at a place, or `None` at place 0.
fn bytes_at(entries: &[Entry], place: usize) -> Option<&Block>
    requires { 0 < place → IsWriteAt entries.now place }
    ensures none { place ≡ 0 → option_copied result ≡ None }
    ensures some { 0 < place → WritesAt entries.now place (option_copied result) }
{
    if place == 0 {
        return None;
    }
    Some(&write_at(entries, place).bytes)
}
