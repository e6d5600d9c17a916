// A disk with a tree that is to be made, and its blocks.
ghost use Rattle.std.specs.Prelude.{◌≡◌, IfOk, IsOkUnless};
ghost use Rattle.journal_world.specs.declared.refusal.Refusal.TheVariants.{NoMemory};
ghost use Rattle.journal_world.specs.Addresses.{zeros_of};
ghost use Rattle.journal_treestore.specs.Places.{IsCut};
ghost use Rattle.journal_treestore.specs.Descriptions.{description_bytes};
ghost use Rattle.journal_treeobjects.specs.Maps.{description_of};
ghost use Rattle.journal_treeform.specs.NewDisks.{root_attributes, root_head, root_block, new_block};

use journal_block::Block;
use journal_tree::{Attributes, Kind, Time};
use journal_treestore::{Cut, DIRECT_BLOCKS, Description, Head, INODE_BYTES, Inode};
use journal_world::{Refusal, SUPERBLOCK};
use std::alloc::Global;

/// A disk with a tree that is to be made, whose only node is the root directory, without entries.
#[derive(Clone, Copy, Debug, PartialEq, Eq)]
pub struct NewTree {
    /// How the disk is cut.
    pub cut: Cut,
    /// The disk's own 8 bytes, which each handle has. They are to be drawn at random.
    pub disk: u64,
    /// The mode of the root directory, of 12 bits.
    pub mode: u16,
    /// The user who owns it.
    pub owner: u32,
    /// Its group.
    pub group: u32,
    /// When it is made.
    pub made: Time,
}

impl NewTree {
    /// The content of a block of the disk, by its number. All blocks are zeros but the description
    /// and the first block of inodes, which has the root's.
    ///
    /// # Errors
    /// - `J1 NoMemory`: memory for the block is refused.
    pub fn block<C>(&self, alloc: Global, number: u64) -> Result<Block, Refusal<C>>
        requires { IsCut self.now.cut }
        ensures content { IfOk result (λ block. block ≡ new_block self.now number) }
        ensures refusal { IsOkUnless result NoMemory }
    {
        if number == SUPERBLOCK {
            self.description(alloc)
        } else if number == self.cut.first_inodes() {
            self.inodes(alloc)
        } else {
            Block::try_new(alloc)
        }
    }

    // The block of the description.
    fn description<C>(&self, alloc: Global) -> Result<Block, Refusal<C>>
        ensures content { IfOk result (λ block. block ≡ description_bytes (description_of self.now.cut self.now.disk)) }
        ensures refusal { IsOkUnless result NoMemory }
    {
        let described = Description {
            blocks: self.cut.base,
            numbers: self.cut.numbers,
            disk: self.disk,
        };
        let mut block = Block::try_new(alloc)?;
        described.put(block.as_mut_bytes());
        Ok(block)
    }

    // The first block of inodes.
    fn inodes<C>(&self, alloc: Global) -> Result<Block, Refusal<C>>
        ensures content { IfOk result (λ block. block ≡ root_block self.now) }
        ensures refusal { IsOkUnless result NoMemory }
    {
        let root = Inode::Used(self.root());
        let mut block = Block::try_new(alloc)?;
        block.copy_range(INODE_BYTES, &root.bytes(&[]));
        Ok(block)
    }

    // The inode of the root.
    fn root(&self) -> Head
        ensures { result ≡ root_head self.now }
    {
        Head {
            kind: Kind::Directory,
            generation: 1,
            attributes: self.attributes(),
            directory: 0,
            place: 0,
            size: 0,
            blocks: [0; DIRECT_BLOCKS],
            index: 0,
        }
    }

    // Its attributes.
    fn attributes(&self) -> Attributes
        ensures { result ≡ root_attributes self.now }
    {
        Attributes {
            mode: self.mode,
            owner: self.owner,
            group: self.group,
            mtime: self.made,
            ctime: self.made,
            verifier: None,
        }
    }
}
