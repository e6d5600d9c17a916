// The numbers of blocks that an attempt takes and frees.
ghost use Rattle.std.specs.Prelude.{◌≡◌, [], length, IsTrue, IfOk};
ghost use Rattle.std.specs.List.Sorted.{IsStrictlyIncreasing};

use journal_alloc::Alloc;
use std::alloc::{AllocError, Global};
use std::sync::{Mutex, Wait};

// The free blocks that an attempt took, and those that it frees once it is committed. An attempt
// holds its numbers until it ends. So a `create` beside it may find none, and be answered NoSpace.
#[derive(Drop)]
pub struct BlockReservation<'a> {
    free: &'a Mutex<Alloc>,
    pub(crate) alloc: Global,
    pub(crate) taken: Vec<u64>,
    freed: Vec<u64>,
}

impl<'a> BlockReservation<'a> {
    pub(crate) fn new(alloc: Global, free: &'a Mutex<Alloc>) -> BlockReservation<'a>
        ensures { result.taken.items ≡ [] }
    {
        BlockReservation {
            free,
            alloc,
            taken: Vec::new(alloc),
            freed: Vec::new(alloc),
        }
    }

    // Takes the lowest `count` free numbers, or none. They are given back if the attempt is undone.
    // Memory for them comes first, so that none is lost for want of it.
    pub(crate) fn take<W: Wait>(&mut self, rt: &W, count: usize) -> Result<bool, AllocError>
        requires { self.old.taken.items ≡ [] }
        ensures count { IfOk result (λ took. IsTrue took → length self.new.taken.items ≡ count) }
        ensures rising { IfOk result (λ took. IsTrue took → IsStrictlyIncreasing self.new.taken.items) }
    {
        self.taken.reserve(count)?;
        Ok(self.free.lock(rt).take_many(count, &mut self.taken))
    }

    // The attempt frees these numbers. They are given back once it is committed.
    pub(crate) fn give_up(&mut self, numbers: &[u64]) -> Result<(), AllocError>
        ensures { self.new.taken ≡ self.old.taken }
    {
        self.freed.extend_from_slice(numbers)
    }

    // The attempt is committed.
    pub(crate) fn committed<W: Wait>(self, rt: &W) {
        give(rt, self.free, &self.freed);
    }

    // The attempt was undone.
    pub(crate) fn undone<W: Wait>(self, rt: &W) {
        give(rt, self.free, &self.taken);
    }
}

// Gives numbers back.
fn give<W: Wait>(rt: &W, free: &Mutex<Alloc>, numbers: &[u64]) {
    for number in numbers {
        let _was_out = free.lock(rt).give(*number);
    }
}
