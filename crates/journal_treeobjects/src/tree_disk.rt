// The disk with a tree that a call sees.
ghost use Rattle.std.specs.Prelude.{◌≡◌, IfOk, All, replicate};
ghost use Rattle.journal_treestore.specs.Places.{IsCut};
ghost use Rattle.journal_treeobjects.specs.Reads.{IsInodeOf};

use crate::tree_transaction::KeptWrite;
use crate::{ObjectTransaction, TreeFault, TreeTransaction};
use journal_treecalls::{Line, TreeDisk};
use journal_treestore::{Cut, INODE_BYTES, OWNER_BYTES};
use journal_world::{Addr, BLOCK_BYTES, Value};
use std::alloc::{AllocError, Global};

impl<T: ObjectTransaction> TreeDisk for TreeTransaction<T> {
    ghost use Rattle.journal_treeobjects.specs.States.{may_be, are_sound};

    type Fault = TreeFault;

    ghost may_be = { may_be };

    ghost writes = { λ t. t.writes };

    ghost are_sound = { are_sound };

    fn numbers(&self) -> u64 {
        self.cut.numbers
    }

    fn first_data(&self) -> u64 {
        self.cut.first_data()
    }

    fn data_blocks(&self) -> u64 {
        self.cut.data_blocks()
    }

    fn zero_block(&self) -> Result<Value, TreeFault> {
        Ok(zeros(self.alloc, BLOCK_BYTES)?)
    }

    fn zeros(&self, count: usize) -> Result<Vec<u8>, TreeFault> {
        let alloc = self.alloc;
        Ok(vec![in alloc; 0u8; count]?)
    }

    fn lines(&self) -> Vec<Line> {
        Vec::new(self.alloc)
    }

    fn add_line(&self, lines: &mut Vec<Line>, line: Line) -> Result<(), TreeFault> {
        lines.push(line)?;
        Ok(())
    }

    fn inode(&mut self, number: u32) -> Result<[u8; INODE_BYTES], TreeFault> {
        let index = u64::from(number);
        if self.cut.numbers <= index {
            return Err(TreeFault::NoObject);
        }
        let addr = self.cut.inode_addr(index);
        self.read_bytes(addr)
    }

    fn prefetch_inodes(&mut self, numbers: &[u32]) {
        let addrs = inode_addrs(self.alloc, &self.cut, numbers);
        self.prefetch(&addrs);
    }

    fn owner(&mut self, block: u32) -> Result<[u8; OWNER_BYTES], TreeFault> {
        let index = u64::from(block);
        if self.cut.blocks <= index {
            return Err(TreeFault::NoObject);
        }
        let addr = self.cut.owner_addr(index);
        self.read_bytes(addr)
    }

    fn block(&mut self, block: u32) -> Result<Value, TreeFault> {
        let index = u64::from(block);
        if index < self.cut.first_data() || self.cut.blocks <= index {
            return Err(TreeFault::NoObject);
        }
        let addr = self.cut.block_addr(index);
        self.keep(addr)?;
        self.kept_value(addr)
    }

    fn put_inode(&mut self, number: u32, bytes: [u8; INODE_BYTES]) -> Result<(), TreeFault> {
        if self.cut.numbers <= u64::from(number) {
            return Err(TreeFault::NoObject);
        }
        self.put(KeptWrite::Inode(number, bytes))
    }

    fn put_owner(&mut self, block: u32, bytes: [u8; OWNER_BYTES]) -> Result<(), TreeFault> {
        if self.cut.blocks <= u64::from(block) {
            return Err(TreeFault::NoObject);
        }
        self.put(KeptWrite::Owner(block, bytes))
    }

    fn put_block(&mut self, block: u32, value: Value) -> Result<(), TreeFault> {
        let index = u64::from(block);
        if index < self.cut.first_data() || self.cut.blocks <= index {
            return Err(TreeFault::NoObject);
        }
        self.put(KeptWrite::Block(block, value))
    }
}

// The addresses of the inodes of these numbers that the disk has, as many as there is memory for.
fn inode_addrs(alloc: Global, cut: &Cut, numbers: &[u32]) -> Vec<Addr>
    requires { IsCut cut.now }
    ensures { All (IsInodeOf cut.now numbers.now) result.items }
{
    let mut addrs = Vec::new(alloc);
    for number in numbers {
        let index = u64::from(*number);
        if cut.numbers <= index {
            continue;
        }
        let addr = cut.inode_addr(index);
        if addrs.push(addr).is_err() {
            return addrs;
        }
    }
    addrs
}

// As many zeros as `count`.
fn zeros(alloc: Global, count: usize) -> Result<Value, AllocError>
    ensures { IfOk result (λ value. value ≡ replicate count 0) }
{
    Ok(Value::new(vec![in alloc; 0u8; count]?))
}
