// The walk over all directories, from the root on.
ghost use Rattle.std.specs.Prelude.{ℕ, ◌≡◌, ◌<◌, ◌≤◌, ◌↔◌, false, IsTrue, IfOk, IfErr, OnOk, length, get_or};
ghost use Rattle.journal_world.specs.Refusals.{IsReadingRefusal};
ghost use Rattle.journal_treestore.specs.Places.{shape_of, IsCut};
ghost use Rattle.journal_treestore.specs.Sound.{IsSoundView};
ghost use Rattle.journal_treeobjects.specs.Maps.{view_of};
ghost use Rattle.journal_treerule.specs.Parts.{AreInodesRight, AreInUse};
ghost use Rattle.journal_treerule.specs.Directories.{AreBelow};
ghost use Rattle.journal_treerule.specs.Walks.{waiting_after, queue_after, waiting_after_all, queue_after_all};

use crate::children::Child;
use crate::directory::children_of;
use journal_tree::ROOT;
use journal_treestore::Cut;
use journal_world::{ObjectReader, Refusal};
use std::alloc::{AllocError, Global};

// Which nodes no entry was found of yet, and the directories that are reached, in the order in
// which they are read.
#[derive(Drop)]
pub(crate) struct Walk {
    pub waiting: Vec<bool>,
    pub queue: Vec<u32>,
}

impl Walk {
    // Meets a node. If it waited and is a directory, it is to be read. Each directory is in the
    // queue once, so the queue is never longer than the table.
    fn meet(&mut self, child: Child) -> Result<(), AllocError>
        requires { child.number < length self.old.waiting.items }
        ensures waiting { OnOk result (self.new.waiting.items ≡ waiting_after self.old.waiting.items child) }
        ensures queue { OnOk result (self.new.queue.items ≡ queue_after self.old.waiting.items self.old.queue.items child) }
    {
        let place = child.number as usize;
        if self.waiting[place] && child.is_directory {
            self.queue.push(child.number)?;
        }
        self.waiting[place] = false;
        Ok(())
    }

    // Meets the nodes that a directory's entries name.
    fn meet_all(&mut self, children: &[Child]) -> Result<(), AllocError>
        requires { AreBelow (length self.old.waiting.items) children.now }
        ensures waiting { OnOk result (self.new.waiting.items ≡ waiting_after_all self.old.waiting.items children.now) }
        ensures queue { OnOk result (self.new.queue.items ≡ queue_after_all self.old.waiting.items self.old.queue.items children.now) }
    {
        for child in children {
            self.meet(*child)?;
        }
        Ok(())
    }

    // True if the queue has no more directories than `done`.
    fn is_read(&self, done: usize) -> bool
        ensures { IsTrue result ↔ (length self.now.queue.items ≤ done) }
    {
        self.queue.len() <= done
    }

    // The directory at a place of the queue.
    fn directory_at(&self, place: usize) -> u32
        requires { place < length self.now.queue.items }
        ensures { result ≡ get_or self.now.queue.items place 0 }
    {
        self.queue[place]
    }

    // True if no node waits.
    fn is_done(&self) -> bool
        ensures { IsTrue result ↔ ((n : ℕ) → get_or self.now.waiting.items n false ≡ false) }
    {
        !self.waiting.contains(&true)
    }
}

// True if the disk is sound, where each inode is right by itself, and the table says which are in
// use. The map stays.
pub(crate) fn are_all_reached<O: ObjectReader>(
    reader: &mut O,
    cut: Cut,
    alloc: Global,
    waiting: Vec<bool>,
) -> Result<bool, Refusal<O::Cause>>
    requires cut { IsCut cut }
    requires layout { (O.map reader.old).layout ≡ shape_of cut }
    requires whole { length waiting.items ≡ cut.numbers }
    ensures sound { IsTrue (O.trusted reader.old) → AreInodesRight (view_of cut (O.map reader.old)) cut.numbers
        → AreInUse (view_of cut (O.map reader.old)) cut.numbers waiting.items
        → IfOk result (λ sound. IsTrue sound ↔ IsSoundView (view_of cut (O.map reader.old))) }
    ensures refusal { IfErr result (IsReadingRefusal (O.failed reader.new)) }
    ensures stays_failed { IsTrue (O.failed reader.old) → IsTrue (O.failed reader.new) }
    ensures same_map { O.map reader.new ≡ O.map reader.old }
    ensures same_trust { O.trusted reader.new ≡ O.trusted reader.old }
{
    let root = Child {
        number: ROOT,
        is_directory: true,
    };
    let mut walk = Walk {
        waiting,
        queue: Vec::new(alloc),
    };
    walk.meet(root)?;
    for done in 0..cut.numbers as usize {
        if walk.is_read(done) {
            return Ok(walk.is_done());
        }
        let directory = walk.directory_at(done);
        let Some(children) = children_of(reader, cut, alloc, directory)? else {
            return Ok(false);
        };
        walk.meet_all(&children)?;
    }
    Ok(walk.is_done())
}
