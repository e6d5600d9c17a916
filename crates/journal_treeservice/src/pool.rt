// Candidates that a search has found.
ghost use Rattle.std.specs.Prelude.{◌≡◌, ◌<◌, ◌≤◌, ◌^◌};

use std::alloc::Global;
use std::collections::VecDeque;

/// Numbers that may be free, in the order in which they are given out, and where the search for
/// more goes on.
#[derive(Drop)]
pub(crate) struct Pool {
    // Those to be given out, the next one first.
    waiting: VecDeque<u32>,
    // Those that calls have now.
    out: Vec<u32>,
    // The numbers that are searched, from the first one to before the end, and the next one.
    first: u64,
    end: u64,
    next: u64,
    // How often something was freed before a search began that came round and found too few.
    searched_after: Option<u64>,
    ghost range: { (first < end) × (end ≤ 2 ^ 32) },
    ghost inside: { (first ≤ next) × (next < end) },
}

impl Pool {
    /// No candidate, of the numbers from the first one to before the end.
    pub fn new(alloc: Global, first: u64, end: u64) -> Pool
        requires some { first < end }
        requires few { end ≤ 2 ^ 32 }
    {
        Pool {
            waiting: VecDeque::new(alloc),
            out: Vec::new(alloc),
            first,
            end,
            next: first,
            searched_after: None,
        }
    }

    /// How many candidates wait.
    pub fn len(&self) -> usize {
        self.waiting.len()
    }

    /// How many numbers are searched.
    pub fn span(&self) -> u64 {
        self.end - self.first
    }

    /// The number to be looked at next. After the last one comes the first again.
    pub fn advance(&mut self) -> u32
        ensures inside { (self.old.first ≤ result) × (result < self.old.end) }
        ensures next { result ≡ self.old.next }
    {
        let number = self.next as u32;
        let after = self.next + 1;
        self.next = if after < self.end { after } else { self.first };
        number
    }

    /// Adds a number after all others, unless it waits already or a call has it. Where memory is
    /// refused it is left out, and the next search finds it.
    pub fn add(&mut self, number: u32) {
        if self.waiting.contains(&number) || self.out.contains(&number) {
            return;
        }
        if self.waiting.push_back(number).is_err() {
            self.forget_search();
        }
    }

    /// Gives the first candidates to a call, at most as many as it wants. Where memory is refused
    /// it gets fewer.
    pub fn give(&mut self, wanted: usize, to: &mut Vec<u32>) {
        for _ in 0..wanted {
            let Some(number) = self.waiting.pop_front() else {
                return;
            };
            if self.out.push(number).is_err() || to.push(number).is_err() {
                self.forget_search();
                return;
            }
        }
    }

    /// Notes that no call has the number any more.
    pub fn note_back(&mut self, number: u32) {
        let place = self.out.iter().position(|other| *other == number);
        if let Some(place) = place
            && place < self.out.len()
        {
            self.out.swap_remove(place);
        }
    }

    /// Puts a number before all others. Where memory is refused it is left out, and the next search
    /// finds it.
    pub fn put_first(&mut self, number: u32) {
        if self.waiting.push_front(number).is_err() {
            self.forget_search();
        }
    }

    /// Notes that a number may have been left out that is free, so that the next search is made.
    pub fn forget_search(&mut self) {
        self.searched_after = None;
    }

    /// True if a search came round and found too few, and nothing was freed since it began: so
    /// often it was before.
    pub fn was_searched_after(&self, freed: u64) -> bool {
        self.searched_after == Some(freed)
    }

    /// Notes that a search came round and found too few. Before it began, so often something was
    /// freed.
    pub fn note_searched(&mut self, freed: u64) {
        self.searched_after = Some(freed);
    }
}
