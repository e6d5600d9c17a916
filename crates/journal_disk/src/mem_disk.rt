// A disk in memory.
ghost use Rattle.std.specs.Prelude.{ℕ, ◌≡◌, ◌≢◌, ◌⊎◌, ◌↔◌, ◌<◌, ◌≤◌, ◌-◌, ◌+◌, ◌^◌, min, List, [], length, replicate, slice_index_or, slice_set, unwrap_or, IsTrue, IfOk, OnOk, OnErr, IsErr, IsOkUnless};
ghost use Rattle.std.specs.Option.{option_copied};
ghost use Rattle.journal_world.specs.Addresses.{zeros_of};
ghost use Rattle.journal_disk.specs.Disks.{Keeps, block_at, write, barrier, pending_of, read_of, IsSettled};
ghost use Rattle.journal_disk.specs.Images.{IsImage, reading, LosesWrites};
ghost use Rattle.journal_disk.specs.MemDisks.{state_of, disk_from, with_event, called, failed, pending_blocks, image_of};

use crate::events::Record;
use crate::{BlockDisk, DiskFault};
use journal_block::Block;
use journal_world::{Kind, Refusal};
use std::alloc::Global;
use std::marker::Model;

/// An honest disk in memory, which can be made to fail, and to crash to any of its images.
///
/// A call that needs memory takes it from the allocator that the disk was made with. A device call
/// fails where that memory is refused. No device call takes longer where the record is longer.
/// `pending`, `image` and `crash` take time linear in the blocks and in the writes since the last
/// barrier, and `crash` also drops the record.
#[derive(Drop)]
pub struct MemDisk {
    alloc: Global,
    // The blocks as they read at first.
    first: Vec<Block>,
    // The content that the device had of them then.
    device: Vec<Block>,
    events: Record,
    // Which device call from now on fails, or 0.
    fails_in: u64,
    failures: u64,
}

impl Model for MemDisk {
    ghost use Rattle.std.specs.Prelude.{◌≡◌, length};
    ghost use Rattle.journal_disk.specs.MemDisks.{MemState};

    ghost Value = { MemState };

    ghost view = { λ m. record {
      past = record { size = length m.device.items; first = m.first.items; device = m.device.items; events = m.events.events };
      failures = m.failures;
      fails_in = m.fails_in;
    } };

    ghost invariant = { λ m. (m.events.size ≡ length m.device.items) × (length m.first.items ≡ length m.device.items) };
}

impl MemDisk {
    /// A disk of `blocks` blocks, all zeros.
    ///
    /// # Errors
    /// - `J1 NoMemory`: the memory for it is refused. Nothing was made.
    pub fn new<C>(alloc: Global, blocks: u64) -> Result<MemDisk, Refusal<C>>
        ensures disk { IfOk result (λ disk. disk ≡ disk_from blocks (replicate blocks (zeros_of Kind.Block))) }
        ensures zeros { IfOk result (λ disk. (b : ℕ) → b < blocks → read_of disk.past b ≡ zeros_of Kind.Block) }
        ensures settled { IfOk result (λ disk. IsSettled disk.past) }
        ensures refusal { IsOkUnless result Refusal.NoMemory }
    {
        let first = zero_blocks(alloc, blocks as usize)?;
        MemDisk::begin(alloc, first)
    }

    // A disk that begins with these blocks.
    fn begin<C>(alloc: Global, first: Vec<Block>) -> Result<MemDisk, Refusal<C>>
        ensures disk { IfOk result (λ disk. disk ≡ disk_from (length first.items) first.items) }
        ensures refusal { IsOkUnless result Refusal.NoMemory }
    {
        let events = Record::new(alloc, first.len())?;
        let device = copies(alloc, &first)?;
        Ok(MemDisk {
            alloc,
            first,
            device,
            events,
            fails_in: 0,
            failures: 0,
        })
    }

    /// Makes the `call`-th device call from now on fail, be it a read, a write or a barrier. No
    /// other call fails, whatever an earlier `fail_in` said. At 0 none fails.
    pub fn fail_in(&mut self, call: u64)
        ensures { self.new ≡ record self.old { fails_in = call } }
    {
        self.fails_in = call;
    }

    /// Each block that has pending writes and their number, blocks ascending.
    ///
    /// # Errors
    /// - `J1 NoMemory`: the memory for the list is refused. The disk is as it was.
    pub fn pending<C>(&self) -> Result<Vec<(u64, u64)>, Refusal<C>>
        ensures blocks { IfOk result (λ pending. pending.items ≡ pending_blocks self.now.past) }
        ensures refusal { IsOkUnless result Refusal.NoMemory }
    {
        let mut pending = Vec::new(self.alloc);
        for block in 0..self.size() {
            let count = self.pending_count(block);
            if count > 0 {
                pending.push((block, count))?;
            }
        }
        Ok(pending)
    }

    /// Copies a block, as a read does. It is no device call.
    pub fn peek(&self, block: u64, into: &mut Block)
        requires { block < self.now.past.size }
        ensures { into.new ≡ read_of self.now.past block }
    {
        into.copy_from(self.current(block));
    }

    /// The disk that a crash leaves, with a record of its own. The call takes no memory.
    ///
    /// The j-th number of the choice is for the j-th block of `pending`: 0 leaves the stable block,
    /// k its k-th pending write. A missing number counts as 0, and one that is too great means the
    /// last write.
    pub fn crash(self, choice: &[u32]) -> MemDisk
        ensures disk { result ≡ disk_from self.past.size (image_of self.past choice.now) }
        ensures settled { IsSettled result.past }
        ensures image { IsImage self.past result.past.first }
    {
        let MemDisk {
            alloc,
            mut first,
            mut device,
            mut events,
            ..
        } = self;
        put_image(&mut device, &events, choice);
        copy_blocks(&mut first, &device);
        events.clear();
        MemDisk {
            alloc,
            first,
            device,
            events,
            fails_in: 0,
            failures: 0,
        }
    }

    /// The disk that a failed barrier leaves to the next opening: it reads as before, the device
    /// has the image that the choice names, and nothing is pending. The call takes no memory.
    pub fn lose_writes(self, choice: &[u32]) -> MemDisk
        ensures loses { LosesWrites self.past result.past }
        ensures device { result.past.device ≡ image_of self.past choice.now }
        ensures fresh { (result.failures ≡ 0) × (result.fails_in ≡ 0) }
    {
        let MemDisk {
            alloc,
            mut first,
            mut device,
            mut events,
            ..
        } = self;
        put_image(&mut device, &events, choice);
        put_reading(&mut first, &events);
        events.clear();
        MemDisk {
            alloc,
            first,
            device,
            events,
            fails_in: 0,
            failures: 0,
        }
    }

    /// A copy of the disk that a crash would leave now, by a choice as of `crash`.
    ///
    /// # Errors
    /// - `J1 NoMemory`: the memory for it is refused. The disk is as it was.
    pub fn image<C>(&self, choice: &[u32]) -> Result<MemDisk, Refusal<C>>
        ensures disk { IfOk result (λ disk.
            disk ≡ disk_from self.now.past.size (image_of self.now.past choice.now)) }
        ensures settled { IfOk result (λ disk. IsSettled disk.past) }
        ensures image { IfOk result (λ disk. IsImage self.now.past disk.past.first) }
        ensures refusal { IsOkUnless result Refusal.NoMemory }
    {
        let mut image = copies(self.alloc, &self.device)?;
        put_image(&mut image, &self.events, choice);
        MemDisk::begin(self.alloc, image)
    }

    // The number of pending writes of a block.
    fn pending_count(&self, block: u64) -> u64
        requires { block < self.now.past.size }
        ensures { result ≡ length (pending_of self.now.past block) }
    {
        self.events.pending(block)
    }

    // A block as it reads.
    fn current(&self, block: u64) -> &Block
        requires { block < self.now.past.size }
        ensures { result.now ≡ read_of self.now.past block }
    {
        match self.events.last_write(block) {
            Some(bytes) => bytes,
            None => &self.first[block as usize],
        }
    }

    // Adds a write to the record.
    fn record_write(&mut self, block: u64, from: &Block) -> Result<(), Refusal<()>>
        requires { block < self.old.past.size }
        ensures ok { OnOk result (self.new ≡ with_event (write block from.now) self.old) }
        ensures err { OnErr result (self.new ≡ self.old) }
    {
        let bytes = Block::copied_from(self.alloc, from)?;
        self.events.write(block, bytes)?;
        Ok(())
    }

    // Counts a device call. True if it is the one that is to fail.
    fn count_call(&mut self) -> bool
        ensures fails { IsTrue result ↔ (self.old.fails_in ≡ 1) }
        ensures counted { self.new ≡ called self.old }
    {
        let fails = self.fails_in == 1;
        self.fails_in = self.fails_in.saturating_sub(1);
        fails
    }

    // Counts a failure, and answers it.
    fn fail(&mut self) -> Result<(), DiskFault>
        ensures fails { IsErr result }
        ensures counted { self.new ≡ record self.old { failures = min (self.old.failures + 1) (2 ^ 64 - 1) } }
        ensures rising { self.old.failures ≤ self.new.failures }
    {
        self.failures = self.failures.saturating_add(1);
        Err(DiskFault)
    }
}

impl BlockDisk for MemDisk {
    ghost state = { state_of };

    fn size(&self) -> u64 {
        self.device.len() as u64
    }

    fn failures(&self) -> u64 {
        self.failures
    }

    fn read(&mut self, block: u64, into: &mut Block) -> Result<(), DiskFault>
        requires { block < self.old.past.size }
        ensures keeps { Keeps (state_of self.old) (state_of self.new) }

        // It fails exactly where it is the call that is to fail.
        ensures fails { IsErr result ↔ (self.old.fails_in ≡ 1) }
        ensures called { OnOk result (self.new ≡ called self.old) }
        ensures value { OnOk result (into.new ≡ read_of self.old.past block) }
        ensures failed { OnErr result (self.new ≡ failed self.old) }
        ensures untouched { OnErr result (into.new ≡ into.old) }
    {
        if self.count_call() {
            return self.fail();
        }
        self.peek(block, into);
        Ok(())
    }

    fn write(&mut self, block: u64, from: &Block) -> Result<(), DiskFault>
        requires { block < self.old.past.size }
        ensures keeps { Keeps (state_of self.old) (state_of self.new) }
        ensures fails { self.old.fails_in ≡ 1 → IsErr result }
        ensures called { OnOk result (self.new ≡ with_event (write block from.now) (called self.old)) }

        // If the failing call is a write, its write is pending, unless memory is refused too.
        ensures failed { OnErr result ((self.new ≡ failed self.old)
            ⊎ (self.new ≡ with_event (write block from.now) (failed self.old))) }
        ensures refused { OnErr result (self.old.fails_in ≢ 1 → self.new ≡ failed self.old) }
    {
        let fails = self.count_call();
        let refused = self.record_write(block, from).is_err();
        if fails || refused {
            return self.fail();
        }
        Ok(())
    }

    fn barrier(&mut self) -> Result<(), DiskFault>
        ensures keeps { Keeps (state_of self.old) (state_of self.new) }
        ensures fails { self.old.fails_in ≡ 1 → IsErr result }
        ensures called { OnOk result (self.new ≡ with_event barrier (called self.old)) }
        ensures failed { OnErr result (self.new ≡ failed self.old) }
    {
        if self.count_call() || self.events.barrier().is_err() {
            return self.fail();
        }
        Ok(())
    }
}

fn zero_blocks<C>(alloc: Global, blocks: usize) -> Result<Vec<Block>, Refusal<C>>
    ensures zeros { IfOk result (λ all. all.items ≡ replicate blocks (zeros_of Kind.Block)) }
    ensures refusal { IsOkUnless result Refusal.NoMemory }
{
    let mut all = Vec::with_capacity(alloc, blocks)?;
    for _i in 0..blocks {
        all.push(Block::try_new(alloc)?)?;
    }
    Ok(all)
}

fn copies<C>(alloc: Global, blocks: &[Block]) -> Result<Vec<Block>, Refusal<C>>
    ensures copies { IfOk result (λ all. all.items ≡ blocks.now) }
    ensures refusal { IsOkUnless result Refusal.NoMemory }
{
    let mut all = Vec::with_capacity(alloc, blocks.len())?;
    for block in blocks {
        all.push(Block::copied_from(alloc, block)?)?;
    }
    Ok(all)
}

// Overwrites the blocks as they were at first by those of the image that a choice names.
fn put_image(blocks: &mut Vec<Block>, events: &Record, choice: &[u32])
    requires { events.now.size ≡ length blocks.old.items }
    ensures image { (first : List (List ℕ)) → let device = blocks.old.items in
        blocks.new.items ≡ image_of (record { size = length device; first = first; device = device; events = events.now.events }) choice.now }
    ensures size { length blocks.new.items ≡ length blocks.old.items }
{
    let mut next = 0;
    for block in 0..blocks.len() {
        let number = number_at(choice, next);
        if events.pending(block as u64) > 0 {
            next += 1;
        }
        put_block(blocks, block, events.chosen(block as u64, number));
    }
}

// Overwrites the blocks as they read at first by what they read now.
fn put_reading(blocks: &mut Vec<Block>, events: &Record)
    requires { events.now.size ≡ length blocks.old.items }
    ensures reads { let first = blocks.old.items in
        blocks.new.items ≡ reading (record { size = length first; first = first; device = first; events = events.now.events }) }
    ensures size { length blocks.new.items ≡ length blocks.old.items }
{
    for block in 0..blocks.len() {
        put_block(blocks, block, events.last_write(block as u64));
    }
}

// Overwrites blocks by others.
fn copy_blocks(blocks: &mut Vec<Block>, from: &[Block])
    requires { length from.now ≡ length blocks.old.items }
    ensures { blocks.new.items ≡ from.now }
{
    for block in 0..blocks.len() {
        blocks[block].copy_from(&from[block]);
    }
}

// A number of a choice, or 0 where it is missing.
fn number_at(choice: &[u32], at: usize) -> u64
    ensures { result ≡ slice_index_or choice.now at 0 }
{
    choice.get(at).map_or(0, |number| u64::from(*number))
}

// Overwrites a block, or leaves it where there are no bytes for it.
fn put_block(blocks: &mut Vec<Block>, block: usize, bytes: Option<&Block>)
    requires { block < length blocks.old.items }
    ensures { let written = unwrap_or (option_copied bytes.entry) (block_at blocks.old.items block) in
        blocks.new.items ≡ slice_set blocks.old.items block written }
{
    if let Some(bytes) = bytes {
        blocks[block].copy_from(bytes);
    }
}
