// The logger's cycle: a group of updates is put, and then becomes part of the log at once.
ghost use Rattle.std.specs.Prelude.{ℕ, ◌≡◌, ◌⊎◌, ◌<◌, ◌≤◌, ◌+◌, ◌-◌, ◌%◌, ◌^◌, [], ◌∷◌, ◌++◌, false, true, IsTrue, OnOk, OnErr, MatchResult};
ghost use Rattle.journal_block.specs.Block.{with_bytes};
ghost use Rattle.journal_disk.specs.Disks.{write, barrier};
ghost use Rattle.journal_circ.specs.Log.{log_block, tag_of, with_tag, word_of, with_address, with_end, with_group};
ghost use Rattle.journal_circ.specs.Ring.{log_of, next_tag, bytes_put, header_put, tags_put, Crashes, Steps, KeepsLog, SameHome};
ghost use Rattle.journal_world.specs.declared.layout.TheConstants.{FIRST_HOME, LOG_POSITIONS};
ghost use Rattle.journal_circ.specs.declared.layout.TheConstants.{MAX_GROUP};

use crate::Circ;
use crate::layout::{BOUND_AT, HEADER, address_at, log_block};
use crate::tag::{other_tag, put_group, put_tag_at, put_tagged, tag_at, tag_in, tag_of, word_of};
use journal_block::Block;
use journal_disk::BlockDisk;
use journal_world::Refusal;

/// Updates of a group were put, or none.
#[derive(Drop)]
pub struct LogBlocksPut(pub(super) ());

/// The log blocks of all updates that were put are on the disk.
#[derive(Drop)]
pub struct LogBlocksSynced(());

/// Block 0 was put with the end of the group.
#[derive(Drop)]
pub struct EndPut(());

impl<D: BlockDisk> Circ<D> {
    // A slot of the log, not one of the lock map.
    // The log blocks of a group are written one by one: gathered into one write they made no more
    // commits (0.97 to 1.02), and so each event is one device call.
    /// Puts an update into the log block of the next position: `from` becomes the content of block
    /// `address` with the group.
    ///
    /// # Errors
    /// - `J6 DeviceFailed`: the device failed, in this call or before. Each image stands for the
    ///   blocks without the group.
    pub fn put_slot(
        &mut self,
        state: LogBlocksPut,
        address: u64,
        from: &Block,
    ) -> Result<LogBlocksPut, Refusal<()>>
        requires room { self.old.next < self.old.extent.start + LOG_POSITIONS }
        requires few { self.old.sealed ≡ true → self.old.next < self.old.extent.end + MAX_GROUP }
        requires small { self.old.next + 1 < 2 ^ 62 }
        requires home { FIRST_HOME ≤ address }
        requires on_disk { address < self.old.disk.past.size }
        ensures step { Steps (write (log_block self.old.next) (bytes_put self.old from.now)) result self.old self.new }
        ensures crash { Crashes self.old.extent.coming self.old self.new }
        ensures log { IsTrue self.old.disk.honest → MatchResult result
            (λ _. log_of self.new ≡ log_of self.old ++ record { block = address; bytes = from.now } ∷ [])
            (λ _. log_of self.new ≡ log_of self.old) }
        ensures home { IsTrue self.old.disk.honest → SameHome self.old self.new }
        ensures ok { OnOk result (self.new ≡ record self.old {
          disk = self.new.disk;
          header = header_put self.old address from.now;
          tags = tags_put self.old;
          next = self.old.next + 1;
        }) }
        ensures err { OnErr result (self.new ≡ record self.old { disk = self.new.disk; faulted = true }) }
    {
        if self.sealed {
            self.put_tagged(state, address, from)
        } else {
            self.put_plain(state, address, from)
        }
    }

    // The same for a plain log.
    fn put_plain(
        &mut self,
        state: LogBlocksPut,
        address: u64,
        from: &Block,
    ) -> Result<LogBlocksPut, Refusal<()>>
        requires room { self.old.next < self.old.extent.start + LOG_POSITIONS }
        requires plain { self.old.sealed ≡ false }
        requires small { self.old.next + 1 < 2 ^ 62 }
        requires home { FIRST_HOME ≤ address }
        requires on_disk { address < self.old.disk.past.size }
        ensures step { Steps (write (log_block self.old.next) from.now) result self.old self.new }
        ensures crash { Crashes self.old.extent.coming self.old self.new }
        ensures log { IsTrue self.old.disk.honest → MatchResult result
            (λ _. log_of self.new ≡ log_of self.old ++ record { block = address; bytes = from.now } ∷ [])
            (λ _. log_of self.new ≡ log_of self.old) }
        ensures home { IsTrue self.old.disk.honest → SameHome self.old self.new }
        ensures ok { OnOk result (self.new ≡ record self.old {
          disk = self.new.disk;
          header = with_address self.old.header self.old.next address;
          next = self.old.next + 1;
        }) }
        ensures err { OnErr result (self.new ≡ record self.old { disk = self.new.disk; faulted = true }) }
    {
        self.device.write(log_block(self.next), from)?;
        self.header.put_u64(address_at(self.next), address);
        self.next += 1;
        Ok(state)
    }

    // The same for a sealed log. The new tag differs from the one that the log block has, and from
    // the one that block 0 on the disk wants of it. So no image takes it for the tag of a group.
    // Block 0 in memory still has the latter.
    fn put_tagged(
        &mut self,
        state: LogBlocksPut,
        address: u64,
        from: &Block,
    ) -> Result<LogBlocksPut, Refusal<()>>
        requires room { self.old.next < self.old.extent.start + LOG_POSITIONS }
        requires few { self.old.next < self.old.extent.end + MAX_GROUP }
        requires sealed { self.old.sealed ≡ true }
        requires small { self.old.next + 1 < 2 ^ 62 }
        requires home { FIRST_HOME ≤ address }
        requires on_disk { address < self.old.disk.past.size }
        ensures step { Steps (write (log_block self.old.next) (with_tag from.now (next_tag self.old))) result self.old self.new }
        ensures crash { Crashes self.old.extent.coming self.old self.new }
        ensures log { IsTrue self.old.disk.honest → MatchResult result
            (λ _. log_of self.new ≡ log_of self.old ++ record { block = address; bytes = from.now } ∷ [])
            (λ _. log_of self.new ≡ log_of self.old) }
        ensures home { IsTrue self.old.disk.honest → SameHome self.old self.new }
        ensures ok { OnOk result (self.new ≡ record self.old {
          disk = self.new.disk;
          header = with_address self.old.header self.old.next (word_of address 0 (next_tag self.old) (tag_of from.now));
          tags = with_bytes self.old.tags (self.old.next % LOG_POSITIONS) (next_tag self.old ∷ []);
          next = self.old.next + 1;
        }) }
        ensures err { OnErr result (self.new ≡ record self.old { disk = self.new.disk; faulted = true }) }
    {
        let held = tag_at(&self.tags, self.next);
        let wanted = tag_in(&self.header, self.next);
        let tag = other_tag(held, wanted);
        let word = word_of(address, 0, tag, tag_of(from));
        put_tagged(&mut self.scratch, from, tag);
        self.device.write(log_block(self.next), &self.scratch)?;
        self.header.put_u64(address_at(self.next), word);
        put_tag_at(&mut self.tags, self.next, tag);
        self.next += 1;
        Ok(state)
    }

    /// Makes the log blocks of all updates that were put stable.
    ///
    /// # Errors
    /// - `J6 DeviceFailed`: the device failed, in this call or before. Each image stands for the
    ///   blocks without the group.
    pub fn sync_slots(&mut self, _state: LogBlocksPut) -> Result<LogBlocksSynced, Refusal<()>>
        ensures step { Steps barrier result self.old self.new }
        ensures crash { Crashes self.old.extent.coming self.old self.new }
        ensures log { IsTrue self.old.disk.honest → KeepsLog self.old self.new }
        ensures ok { OnOk result (self.new ≡ record self.old {
          disk = self.new.disk;
          extent = record self.old.extent { stable = self.old.next };
        }) }
        ensures err { OnErr result (self.new ≡ record self.old { disk = self.new.disk; faulted = true }) }
    {
        // The log blocks must be stable before block 0 names them.
        self.device.barrier()?;
        self.extent.stable = self.next;
        Ok(LogBlocksSynced(()))
    }

    /// Puts the end of the log after the group. From here on an image may stand for the blocks with
    /// it.
    ///
    /// # Errors
    /// - `J6 DeviceFailed`: the device failed, in this call or before. If it failed in this call,
    ///   an image may stand for the blocks with the group or without it.
    pub fn put_end(&mut self, _state: LogBlocksSynced) -> Result<EndPut, Refusal<()>>
        requires plain { self.old.sealed ≡ false }
        requires synced { self.old.extent.stable ≡ self.old.next }
        requires one { self.old.extent.coming ≡ self.old.extent.end }
        ensures step { Steps (write 0 (with_end self.old.header self.old.next)) result self.old self.new }
        ensures crash { Crashes self.old.next self.old self.new }
        ensures log { IsTrue self.old.disk.honest → KeepsLog self.old self.new }
        ensures ok { OnOk result (self.new ≡ record self.old {
          disk = self.new.disk;
          header = with_end self.old.header self.old.next;
          extent = record self.old.extent { coming = self.old.next };
        }) }
        ensures err { OnErr result (IsTrue self.old.faulted ⊎ (self.new ≡ record self.old {
          disk = self.new.disk;
          header = with_end self.old.header self.old.next;
          extent = record self.old.extent { coming = self.old.next };
          faulted = true;
        })) }
    {
        self.device.check()?;
        self.header.put_u64(BOUND_AT, self.next);
        self.extent.coming = self.next;
        self.device.write(HEADER, &self.header)?;
        Ok(EndPut(()))
    }

    /// Puts block 0 of a sealed log with the group as its last. From here on an image may stand for
    /// the blocks with it. No barrier is needed before, because an image that lacks one of its log
    /// blocks ends where the log ended.
    ///
    /// # Errors
    /// - `J6 DeviceFailed`: the device failed, in this call or before. If it failed in this call,
    ///   an image may stand for the blocks with the group or without it.
    pub fn put_group(&mut self, _state: LogBlocksPut) -> Result<EndPut, Refusal<()>>
        requires sealed { self.old.sealed ≡ true }
        requires some { self.old.extent.end < self.old.next }
        requires one { self.old.extent.coming ≡ self.old.extent.end }
        ensures step { Steps (write 0 (with_group self.old.header self.old.extent.end (self.old.next - self.old.extent.end))) result self.old self.new }
        ensures crash { Crashes self.old.next self.old self.new }
        ensures log { IsTrue self.old.disk.honest → KeepsLog self.old self.new }
        ensures ok { OnOk result (self.new ≡ record self.old {
          disk = self.new.disk;
          header = with_group self.old.header self.old.extent.end (self.old.next - self.old.extent.end);
          extent = record self.old.extent { coming = self.old.next };
        }) }
        ensures err { OnErr result (IsTrue self.old.faulted ⊎ (self.new ≡ record self.old {
          disk = self.new.disk;
          header = with_group self.old.header self.old.extent.end (self.old.next - self.old.extent.end);
          extent = record self.old.extent { coming = self.old.next };
          faulted = true;
        })) }
    {
        self.device.check()?;
        let positions = (self.next - self.extent.end) as u8;
        put_group(&mut self.header, self.extent.end, positions);
        self.extent.coming = self.next;
        self.device.write(HEADER, &self.header)?;
        Ok(EndPut(()))
    }

    /// Makes the end stable: from here on each image stands for the blocks with the group.
    ///
    /// # Errors
    /// - `J6 DeviceFailed`: the device failed, in this call or before. An image may stand for the
    ///   blocks with the group or without it.
    pub fn sync_end(&mut self, _state: EndPut) -> Result<LogBlocksPut, Refusal<()>>
        ensures step { Steps barrier result self.old self.new }
        ensures crash { Crashes self.old.extent.coming self.old self.new }
        ensures log { IsTrue self.old.disk.honest → KeepsLog self.old self.new }
        ensures ok { OnOk result (self.new ≡ record self.old {
          disk = self.new.disk;
          extent = record self.old.extent { end = self.old.extent.coming };
        }) }
        ensures err { OnErr result (self.new ≡ record self.old { disk = self.new.disk; faulted = true }) }
    {
        // The end must be stable before the group counts as logged.
        self.device.barrier()?;
        self.extent.end = self.extent.coming;
        Ok(LogBlocksPut(()))
    }
}
