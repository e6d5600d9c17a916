// Numbers and blocks that may be free.
ghost use Rattle.journal_treestore.specs.Places.{IsCut};

use crate::counting::{Used, count_used};
use crate::looking::Looker;
use crate::search::Search;
use journal_clients::ServiceFault;
use journal_disk::BlockDisk;
use journal_history::Naming;
use journal_tree::Free;
use journal_treefs::TreeRule;
use journal_treeserver::{Drawn, FreeHints, Taken};
use journal_treestore::Cut;
use journal_twophase::Journal;
use std::alloc::{AllocError, Global};
use std::sync::atomic::{AtomicU64, Ordering};
use std::sync::{Mutex, Wait};
use std::time::{Clock, Duration, Instant};

// How many seconds lie between two counts.
const COUNT_SECS: u64 = 1;

/// Numbers and blocks of a disk that may be free, and how many are. Nothing here is stated: a call
/// looks at each before it takes it.
pub(crate) struct StoreHints<'s, 'b, D: BlockDisk, R: TreeRule, J: Naming, C: Clock> {
    cut: Cut,
    numbers: Mutex<Search<'s, 'b, D, R, J>>,
    blocks: Mutex<Search<'s, 'b, D, R, J>>,
    counter: Mutex<Counter<'s, 'b, D, R, J>>,
    // The numbers and blocks in use, by the last count and by what calls have taken since.
    used: Mutex<Used>,
    // How often something was freed.
    freed: AtomicU64,
    clock: &'s C,
    ghost possible: { IsCut cut },
}

// A look at all inodes, with the moment of the last one, and where the log ended then.
struct Counter<'s, 'b, D: BlockDisk, R: TreeRule, J: Naming> {
    looker: Looker<'s, 'b, D, R, J>,
    counted: Option<Instant>,
    log_end: u64,
}

impl<'s, 'b, D: BlockDisk, R: TreeRule, J: Naming> Drop for Counter<'s, 'b, D, R, J> {
    fn drop(self) {
        let Counter {
            looker: _,
            counted: _,
            log_end: _,
        } = self;
    }
}

impl<'s, 'b, D: BlockDisk, R: TreeRule, J: Naming> Counter<'s, 'b, D, R, J> {
    // The numbers and blocks in use now, where the log has another end than at the last count and
    // that was a second ago.
    fn count_again<W: Wait, C: Clock>(&mut self, rt: &W, clock: &C) -> Option<Used> {
        let log_end = self.looker.log_end(rt);
        if log_end == self.log_end {
            return None;
        }
        let now = Instant::now(clock).ok()?;
        if let Some(counted) = self.counted
            && now.saturating_duration_since(counted) < Duration::from_secs(COUNT_SECS)
        {
            return None;
        }
        let used = count_used(rt, &mut self.looker).ok()?;
        self.counted = Some(now);
        self.log_end = log_end;
        Some(used)
    }
}

impl<'s, 'b, D: BlockDisk, R: TreeRule, J: Naming, C: Clock> Drop
    for StoreHints<'s, 'b, D, R, J, C> {
    fn drop(self) {
        let StoreHints {
            cut: _,
            numbers: _,
            blocks: _,
            counter: _,
            used: _,
            freed: _,
            clock: _,
        } = self;
    }
}

impl<'s, 'b, D: BlockDisk, R: TreeRule, J: Naming, C: Clock> StoreHints<'s, 'b, D, R, J, C> {
    /// The hints of a mounted disk that is cut so. All that is in use is counted once.
    ///
    /// # Errors
    /// - `Refused`: a session or a read was refused.
    pub fn new<W: Wait>(
        rt: &W,
        alloc: Global,
        journal: &'s Journal<'b, D, R, J>,
        cut: Cut,
        clock: &'s C,
    ) -> Result<StoreHints<'s, 'b, D, R, J, C>, ServiceFault>
        requires { IsCut cut }
    {
        let mut looker = Looker::new(rt, alloc, journal, cut)?;
        let log_end = looker.log_end(rt);
        let used = match count_used(rt, &mut looker) {
            Ok(used) => used,
            Err(why) => return Err(ServiceFault::Refused(why)),
        };
        let counter = Counter {
            looker,
            counted: None,
            log_end,
        };
        Ok(StoreHints {
            cut,
            numbers: Mutex::new(Search::for_numbers(rt, alloc, journal, cut)?),
            blocks: Mutex::new(Search::for_blocks(rt, alloc, journal, cut)?),
            counter: Mutex::new(counter),
            used: Mutex::new(used),
            freed: AtomicU64::new(0),
            clock,
        })
    }
}

impl<'s, 'b, D: BlockDisk, R: TreeRule, J: Naming, C: Clock> StoreHints<'s, 'b, D, R, J, C> {
    // Notes that so much more is in use.
    fn note_taken<W: Wait>(&self, rt: &W, numbers: u64, blocks: u64) {
        let mut used = self.used.lock(rt);
        *used = used.and(numbers, blocks);
    }
}

impl<'s, 'b, D: BlockDisk, R: TreeRule, J: Naming, C: Clock> FreeHints
    for StoreHints<'s, 'b, D, R, J, C> {
    fn draw<W: Wait>(
        &self,
        rt: &W,
        alloc: Global,
        numbers: usize,
        blocks: usize,
    ) -> Result<Drawn, AllocError> {
        let mut drawn = Drawn {
            numbers: Vec::new(alloc),
            blocks: Vec::new(alloc),
        };
        drawn.numbers.reserve(numbers)?;
        drawn.blocks.reserve(blocks)?;
        let freed = self.freed.load(Ordering::SeqCst);
        if numbers > 0 {
            self.numbers
                .lock(rt)
                .draw(rt, numbers, freed, &mut drawn.numbers);
        }
        if blocks > 0 {
            self.blocks
                .lock(rt)
                .draw(rt, blocks, freed, &mut drawn.blocks);
        }
        Ok(drawn)
    }

    fn put_back<W: Wait>(&self, rt: &W, drawn: Drawn, taken: Taken) {
        let Drawn { numbers, blocks } = drawn;
        let taken_numbers = match taken.number {
            Some(_) => 1,
            None => 0,
        };
        self.note_taken(rt, taken_numbers, taken.blocks);
        if !numbers.is_empty() {
            self.numbers
                .lock(rt)
                .put_back(rt, &numbers, taken_numbers as usize);
        }
        if !blocks.is_empty() {
            let most = taken.blocks.min(blocks.len() as u64) as usize;
            self.blocks.lock(rt).put_back(rt, &blocks, most);
        }
    }

    fn note_freed<W: Wait>(&self, _rt: &W) {
        self.freed.fetch_add(1, Ordering::SeqCst);
    }

    fn free<W: Wait>(&self, rt: &W) -> Free {
        if let Some(mut counter) = self.counter.try_lock()
            && let Some(used) = counter.count_again(rt, self.clock)
        {
            *self.used.lock(rt) = used;
        }
        let used = *self.used.lock(rt);
        used.free(self.cut)
    }
}
