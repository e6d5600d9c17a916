// The search for what is free.
ghost use Rattle.std.specs.Prelude.{◌≤◌, length};
ghost use Rattle.journal_treestore.specs.Places.{IsCut};

use crate::looking::Looker;
use crate::pool::Pool;
use journal_clients::ServiceFault;
use journal_disk::BlockDisk;
use journal_history::Naming;
use journal_tree::ROOT;
use journal_treefs::TreeRule;
use journal_treestore::Cut;
use journal_twophase::Journal;
use journal_world::Refusal;
use std::alloc::Global;
use std::sync::Wait;

// How many numbers are looked at before a search may end.
const WINDOW: u64 = 512;

// Which of them a search is for.
#[derive(Clone, Copy, Debug, PartialEq, Eq)]
enum Sought {
    // Numbers of inodes.
    Numbers,
    // Blocks.
    Blocks,
}

/// A search for numbers of inodes, or for blocks, that are free.
pub(crate) struct Search<'s, 'b, D: BlockDisk, R: TreeRule, J: Naming> {
    looker: Looker<'s, 'b, D, R, J>,
    pool: Pool,
    sought: Sought,
}

impl<'s, 'b, D: BlockDisk, R: TreeRule, J: Naming> Drop for Search<'s, 'b, D, R, J> {
    fn drop(self) {
        let Search {
            looker: _,
            pool: _,
            sought: _,
        } = self;
    }
}

impl<'s, 'b, D: BlockDisk, R: TreeRule, J: Naming> Search<'s, 'b, D, R, J> {
    /// A search for numbers of inodes, from the one after the root's on.
    ///
    /// # Errors
    /// - `Refused`: the session was refused.
    pub fn for_numbers<W: Wait>(
        rt: &W,
        alloc: Global,
        journal: &'s Journal<'b, D, R, J>,
        cut: Cut,
    ) -> Result<Search<'s, 'b, D, R, J>, ServiceFault>
        requires { IsCut cut }
    {
        // The root has its number for ever. Where there is no other one, its own is looked at.
        let first = u64::from(ROOT + 1).min(cut.numbers - 1);
        Ok(Search {
            looker: Looker::new(rt, alloc, journal, cut)?,
            pool: Pool::new(alloc, first, cut.numbers),
            sought: Sought::Numbers,
        })
    }

    /// A search for blocks of data.
    ///
    /// # Errors
    /// - `Refused`: the session was refused.
    pub fn for_blocks<W: Wait>(
        rt: &W,
        alloc: Global,
        journal: &'s Journal<'b, D, R, J>,
        cut: Cut,
    ) -> Result<Search<'s, 'b, D, R, J>, ServiceFault>
        requires { IsCut cut }
    {
        Ok(Search {
            looker: Looker::new(rt, alloc, journal, cut)?,
            pool: Pool::new(alloc, cut.first_data(), cut.blocks),
            sought: Sought::Blocks,
        })
    }

    /// Gives candidates to a call, from low to high: as many as it wants, or all that a search once
    /// round finds. A search that found too few is made again only after something was freed, which
    /// happened this number of times.
    pub fn draw<W: Wait>(&mut self, rt: &W, wanted: usize, freed: u64, to: &mut Vec<u32>) {
        if self.pool.len() < wanted && !self.pool.was_searched_after(freed) {
            self.fill(rt, wanted, freed);
        }
        self.pool.give(wanted, to);
    }

    /// Takes back what a call was given and has not taken. It has taken the first ones, and about
    /// as many as are named. All from the first one on that is free come back.
    pub fn put_back<W: Wait>(&mut self, rt: &W, given: &[u32], taken: usize) {
        for number in given {
            self.pool.note_back(*number);
        }
        let count = given.len();
        let first = self.first_untaken(rt, given, taken);
        for place in first..count {
            // From the last one down, so that the first one is in front at the end.
            self.pool.put_first(given[count - 1 - (place - first)]);
        }
    }

    // The place of the first number that is free, after about `taken` that a call took. The count
    // of the numbers, if none is.
    fn first_untaken<W: Wait>(&mut self, rt: &W, given: &[u32], taken: usize) -> usize
        ensures { result ≤ length given.now }
    {
        for place in self.first_to_look_at(rt, given, taken)..given.len() {
            match self.is_free(rt, given[place]) {
                Ok(true) => return place,
                Ok(false) => {}
                Err(_) => {
                    self.pool.forget_search();
                    return given.len();
                }
            }
        }
        given.len()
    }

    // The place from which the first number that is free is looked for. A call takes numbers in
    // their order: where the last one of those named is free, fewer were taken.
    fn first_to_look_at<W: Wait>(&mut self, rt: &W, given: &[u32], taken: usize) -> usize
        ensures { result ≤ length given.now }
    {
        let named = taken.min(given.len());
        if named > 0 && matches!(self.is_free(rt, given[named - 1]), Ok(true)) {
            0
        } else {
            named
        }
    }

    // Looks at numbers until as many candidates wait as are wanted, and at most once round.
    fn fill<W: Wait>(&mut self, rt: &W, wanted: usize, freed: u64) {
        for looked in 0..self.pool.span() {
            if looked % WINDOW == 0 && self.pool.len() >= wanted {
                return;
            }
            if self.look_at_next(rt).is_err() {
                return;
            }
        }
        if self.pool.len() < wanted {
            self.pool.note_searched(freed);
        }
    }

    // Looks at the next number, which becomes a candidate if it is free.
    fn look_at_next<W: Wait>(&mut self, rt: &W) -> Result<(), Refusal<()>> {
        let number = self.pool.advance();
        if self.is_free(rt, number)? {
            self.pool.add(number);
        }
        Ok(())
    }

    // True if the number is free.
    fn is_free<W: Wait>(&mut self, rt: &W, number: u32) -> Result<bool, Refusal<()>> {
        match self.sought {
            Sought::Numbers => self.looker.is_free_number(rt, number),
            Sought::Blocks => self.looker.is_free_block(rt, number),
        }
    }
}
