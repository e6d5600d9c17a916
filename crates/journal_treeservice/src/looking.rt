// Objects of a disk are looked at outside of any call.
ghost use Rattle.std.specs.Prelude.{◌≡◌, ◌<◌, OnOk};
ghost use Rattle.journal_treestore.specs.Places.{IsCut};

use journal_clients::{ServiceFault, begin_session};
use journal_disk::BlockDisk;
use journal_history::{Naming, Session};
use journal_tree::{LAST_GENERATION, MOST_FILE_BLOCKS};
use journal_treefs::TreeRule;
use journal_treestore::{
    Cut, DESCRIPTION_BYTES, DIRECT_BLOCKS, Description, FIRST_INDEX_PLACE, Head, INDEX_NUMBERS,
    INDEX_PLACE, INODE_BYTES, Inode, OWNER_BYTES, Owner, number_at,
};
use journal_twophase::Journal;
use journal_world::{Addr, BLOCK_BYTES, Refusal, SUPERBLOCK, Value};
use std::alloc::Global;
use std::sync::Wait;

/// Looks at objects of a disk, each by a transaction that reads this one alone and has no commit.
/// So it holds one slot at a time, and waits for no more than that.
pub(crate) struct Looker<'s, 'b, D: BlockDisk, R: TreeRule, J: Naming> {
    alloc: Global,
    journal: &'s Journal<'b, D, R, J>,
    session: Session<'b, J, R>,
    cut: Cut,
    ghost possible: { IsCut cut },
}

impl<'s, 'b, D: BlockDisk, R: TreeRule, J: Naming> Drop for Looker<'s, 'b, D, R, J> {
    fn drop(self) {
        let Looker {
            alloc: _,
            journal: _,
            session: _,
            cut: _,
        } = self;
    }
}

impl<'s, 'b, D: BlockDisk, R: TreeRule, J: Naming> Looker<'s, 'b, D, R, J> {
    /// Looks at the objects of a disk that is cut so, under a session of its own.
    ///
    /// # Errors
    /// - `Refused`: the session was refused.
    pub fn new<W: Wait>(
        rt: &W,
        alloc: Global,
        journal: &'s Journal<'b, D, R, J>,
        cut: Cut,
    ) -> Result<Looker<'s, 'b, D, R, J>, ServiceFault>
        requires { IsCut cut }
    {
        let session = begin_session(rt, journal)?;
        Ok(Looker {
            alloc,
            journal,
            session,
            cut,
        })
    }

    /// How the disk is cut.
    pub fn cut(&self) -> Cut {
        self.cut
    }

    /// The position at which the log ends. Each commit that wrote, and was made stable, has moved
    /// it.
    pub fn log_end<W: Wait>(&self, rt: &W) -> u64 {
        self.journal.stat(rt).end
    }

    /// The number of the disk's own, by its description.
    ///
    /// # Errors
    /// - Those of a read.
    pub fn disk_number<W: Wait>(&mut self, rt: &W) -> Result<u64, Refusal<()>> {
        let place = Addr {
            block: SUPERBLOCK,
            off: 0,
        };
        let value = self.read(rt, place)?;
        let bytes = value.bytes();
        if bytes.len() != DESCRIPTION_BYTES {
            return Err(Refusal::BadSize);
        }
        Ok(Description::read(bytes).disk)
    }

    /// The inode of a number.
    ///
    /// # Errors
    /// - Those of a read, and `J2 BadAddress` where the disk has no such number.
    pub fn inode<W: Wait>(&mut self, rt: &W, number: u32) -> Result<Inode, Refusal<()>>
        ensures inside { OnOk result (number < self.old.cut.numbers) }
    {
        let index = u64::from(number);
        if self.cut.numbers <= index {
            return Err(Refusal::BadAddress);
        }
        let place = self.cut.inode_addr(index);
        let value = self.read(rt, place)?;
        let bytes = value.bytes();
        if bytes.len() != INODE_BYTES {
            return Err(Refusal::BadSize);
        }
        Ok(Inode::read(bytes))
    }

    /// True if the number has no node, and may have one more.
    ///
    /// # Errors
    /// - Those of `inode`.
    pub fn is_free_number<W: Wait>(&mut self, rt: &W, number: u32) -> Result<bool, Refusal<()>> {
        match self.inode(rt, number)? {
            Inode::Free(generation) => Ok(generation < LAST_GENERATION),
            Inode::Used(_) => Ok(false),
        }
    }

    /// True if nobody has the block: the inode that its record names does not have it at the
    /// record's place.
    ///
    /// # Errors
    /// - Those of a read, and `J2 BadAddress` where the disk has no such block.
    pub fn is_free_block<W: Wait>(&mut self, rt: &W, block: u32) -> Result<bool, Refusal<()>> {
        let owner = self.owner(rt, block)?;
        if owner.number == 0 || self.cut.numbers <= u64::from(owner.number) {
            return Ok(true);
        }
        match self.inode(rt, owner.number)? {
            Inode::Free(_) => Ok(true),
            Inode::Used(head) => Ok(self.block_at(rt, &head, owner.place)? != block),
        }
    }

    // The block that an inode has at a place, as records name it, 0 where it has none.
    fn block_at<W: Wait>(&mut self, rt: &W, head: &Head, place: u32) -> Result<u32, Refusal<()>> {
        let at = place as usize;
        if at < DIRECT_BLOCKS {
            return Ok(head.blocks[at]);
        }
        if u64::from(place) < MOST_FILE_BLOCKS {
            let after = at - DIRECT_BLOCKS;
            let numbers = self.number_in(rt, head.index, after / INDEX_NUMBERS)?;
            return self.number_in(rt, numbers, after % INDEX_NUMBERS);
        }
        if place < FIRST_INDEX_PLACE {
            return Ok(if place == INDEX_PLACE { head.index } else { 0 });
        }
        let index = (place - FIRST_INDEX_PLACE) as usize;
        if index < INDEX_NUMBERS {
            self.number_in(rt, head.index, index)
        } else {
            Ok(0)
        }
    }

    // The number at a place of a block of numbers. Where there is no such block, it is 0.
    fn number_in<W: Wait>(&mut self, rt: &W, block: u32, place: usize) -> Result<u32, Refusal<()>> {
        match self.numbers(rt, block)? {
            Some(numbers) => Ok(number_of(numbers.bytes(), place)),
            None => Ok(0),
        }
    }

    /// The bytes of a block of numbers, if the disk has such a block of data. A file may have
    /// changed since its inode was looked at, so that its number may be any.
    ///
    /// # Errors
    /// - Those of a read.
    pub fn numbers<W: Wait>(&mut self, rt: &W, block: u32) -> Result<Option<Value>, Refusal<()>> {
        let index = u64::from(block);
        if index < self.cut.first_data() || self.cut.blocks <= index {
            return Ok(None);
        }
        let place = self.cut.block_addr(index);
        let value = self.read(rt, place)?;
        Ok(Some(value))
    }

    // The record of a block.
    fn owner<W: Wait>(&mut self, rt: &W, block: u32) -> Result<Owner, Refusal<()>>
        ensures inside { OnOk result (block < self.old.cut.blocks) }
    {
        let index = u64::from(block);
        if self.cut.blocks <= index {
            return Err(Refusal::BadAddress);
        }
        let place = self.cut.owner_addr(index);
        let value = self.read(rt, place)?;
        let bytes = value.bytes();
        if bytes.len() != OWNER_BYTES {
            return Err(Refusal::BadSize);
        }
        Ok(Owner::read(bytes))
    }

    // The value of an address, by a transaction that is not committed.
    fn read<W: Wait>(&mut self, rt: &W, place: Addr) -> Result<Value, Refusal<()>> {
        let journal = self.journal;
        let mut txn = journal.begin(self.alloc, &mut self.session);
        let answer = txn.read(rt, place);
        txn.abort(rt);
        match answer {
            Ok(value) => Ok(value),
            Err(why) => Err(why.with_cause(())),
        }
    }
}

/// The number at a place of a block of numbers. Where its bytes end before that, it is 0.
pub(crate) fn number_of(bytes: &[u8], place: usize) -> u32 {
    if bytes.len() < BLOCK_BYTES || INDEX_NUMBERS <= place {
        return 0;
    }
    number_at(bytes, place)
}
