// The slots, as threads share them.
ghost use Rattle.std.specs.Prelude.{◌≡◌, ◌<◌, ◌+◌, IfOk, IfSome, IsOkUnless, vec_len};
ghost use Rattle.journal_world.specs.Files.{shape};

use crate::held::Held;
use crate::place::Place;
use crate::slots::Slots;
use crate::token::Token;
use crossbeam_utils::CachePadded;
use journal_history::Naming;
use journal_world::{Layout, Refusal};
use std::alloc::{AllocError, Global};
use std::fmt;
use std::fmt::Debug;
use std::hint::spin_loop;
use std::sync::{Condvar, Mutex, Wait};

// How often a thread looks at a taken slot before it sleeps.
const SPIN_TURNS: u32 = 32;

// How long a thread waits between two looks: this many of the processor's pauses, each of some tens
// of nanoseconds.
const SPIN_PAUSES: u32 = 16;

// The most slots whose locks have cache lines of their own. With more slots two threads seldom meet
// on a line by chance, and lines of their own would take 150 bytes and more a slot.
const MAX_PADDED: u16 = 1024;

// The parts of one slot: its place, and the condition variable on which threads sleep that wait for
// the slot. A lock for each slot, on one line of memory: 200 to 240 nanoseconds for two slots with
// four threads. Tables in 64 parts took 380, one lock of all slots 1000 to 2000.
#[derive(Drop)]
struct SlotLock<J: Naming> {
    place: Mutex<Place<J>>,
    freed: Condvar,
}

impl<J: Naming> SlotLock<J> {
    // The lock of a slot whose token is put in later.
    fn new() -> SlotLock<J> {
        SlotLock {
            place: Mutex::new(Place::new(None)),
            freed: Condvar::new(),
        }
    }

    // Takes the slot if its token is here. The lock is released before anything else is done.
    fn take<R: Wait>(&self, rt: &R, slot: u16) -> Option<Held<J>>
        requires in_range { slot < J.layout.slots }
        ensures { IfSome result (λ held. held.slot ≡ slot) }
    {
        Held::take(&mut self.place.lock(rt), slot)
    }
}

/// All the memory that a lock map needs beside its slots: for each slot a lock, a condition
/// variable for the threads that wait for it, and the place of its token.
///
/// It is made before the slots are, so that nothing can be refused between the making of a
/// journal's slots and their lock map.
#[derive(Drop)]
pub struct SlotLocks<J: Naming> {
    // Each on cache lines of its own, so that threads that take different slots write no line in
    // common. Empty if there are more slots than `MAX_PADDED`.
    padded: Vec<CachePadded<SlotLock<J>>>,
    // The locks of the slots after those, side by side.
    packed: Vec<SlotLock<J>>,
    ghost one_each: { vec_len padded + vec_len packed ≡ J.layout.slots },
}

impl<J: Naming> SlotLocks<J> {
    /// A lock for each slot of the layout.
    ///
    /// # Errors
    /// - Memory is refused. Nothing was made.
    pub fn new(alloc: Global, layout: Layout) -> Result<SlotLocks<J>, AllocError>
        requires layout { shape layout ≡ J.layout }
    {
        let slots = layout.slots;
        Ok(if slots <= MAX_PADDED {
            SlotLocks {
                padded: padded_locks(alloc, slots)?,
                packed: Vec::new(alloc),
            }
        } else {
            SlotLocks {
                padded: Vec::new(alloc),
                packed: packed_locks(alloc, slots)?,
            }
        })
    }

    // The same locks, with the slots' tokens in their places.
    fn with_tokens(self, tokens: Vec<Option<Token<J>>>) -> SlotLocks<J> {
        let SlotLocks {
            mut padded,
            mut packed,
        } = self;
        if packed.is_empty() {
            put_padded(&mut padded, tokens);
            SlotLocks { padded, packed }
        } else {
            put_packed(&mut packed, tokens);
            SlotLocks { padded, packed }
        }
    }

    // The lock of a slot.
    fn of(&self, slot: u16) -> &SlotLock<J>
        requires in_range { slot < J.layout.slots }
    {
        let slot = usize::from(slot);
        if slot < self.padded.len() {
            return &self.padded[slot];
        }
        &self.packed[slot - self.padded.len()]
    }
}

// Locks for this many slots, each on cache lines of its own.
fn padded_locks<J: Naming>(
    alloc: Global,
    slots: u16,
) -> Result<Vec<CachePadded<SlotLock<J>>>, AllocError>
    ensures { IfOk result (λ locks. vec_len locks ≡ slots) }
{
    let mut locks = Vec::new(alloc);
    for _ in 0..slots {
        locks.push(CachePadded::new(SlotLock::new()))?;
    }
    Ok(locks)
}

// Locks for this many slots, side by side.
fn packed_locks<J: Naming>(alloc: Global, slots: u16) -> Result<Vec<SlotLock<J>>, AllocError>
    ensures { IfOk result (λ locks. vec_len locks ≡ slots) }
{
    let mut locks = Vec::new(alloc);
    for _ in 0..slots {
        locks.push(SlotLock::new())?;
    }
    Ok(locks)
}

// Puts the tokens into their places.
fn put_padded<J: Naming>(locks: &mut [CachePadded<SlotLock<J>>], tokens: Vec<Option<Token<J>>>) {
    for (slot_lock, token) in locks.iter_mut().zip(tokens) {
        *slot_lock.place.get_mut() = Place::new(token);
    }
}

// Puts the tokens into their places.
fn put_packed<J: Naming>(locks: &mut [SlotLock<J>], tokens: Vec<Option<Token<J>>>) {
    for (slot_lock, token) in locks.iter_mut().zip(tokens) {
        *slot_lock.place.get_mut() = Place::new(token);
    }
}

impl<J: Naming> Debug for SlotLocks<J> {
    fn fmt<W: fmt::Write>(&self, f: &mut fmt::Formatter<W>) -> fmt::Result {
        f.debug_struct("SlotLocks").finish_non_exhaustive()
    }
}

/// The slots of one journal, which threads share. A slot is named by its number, below the layout's
/// number of slots.
///
/// Each slot has a lock of its own, so threads that take different slots do not meet. Each slot has
/// a condition variable of its own for the threads that wait for it. So a release wakes no thread
/// that waits for another slot, and it need wake only one. That thread takes the slot, or finds it
/// taken by a holder whose release wakes the next.
#[derive(Drop)]
pub struct LockMap<J: Naming> {
    slot_locks: SlotLocks<J>,
}

impl<J: Naming> LockMap<J> {
    /// A lock map of these slots. The call takes no memory, and neither does any later call.
    pub fn new(slot_locks: SlotLocks<J>, slots: Slots<J>) -> LockMap<J> {
        LockMap {
            slot_locks: slot_locks.with_tokens(slots.free),
        }
    }

    /// Takes the slot. It waits as long as someone holds the slot: for ever if the caller itself
    /// does.
    pub fn acquire<R: Wait>(&self, rt: &R, slot: u16) -> Held<J>
        requires in_range { slot < J.layout.slots }
        ensures { result.slot ≡ slot }
    {
        if let Some(held) = self.spin_for(rt, slot) {
            return held;
        }
        let slot_lock = self.slot_locks.of(slot);
        let place = slot_lock.place.lock(rt);
        let mut place = slot_lock
            .freed
            .wait_while(rt, place, |place| place.is_taken(slot));
        Held::take(&mut place, slot).unwrap()
    }

    // Takes the slot if it is free within some microseconds: most slots are held for less time than
    // a sleep and a wake take.
    fn spin_for<R: Wait>(&self, rt: &R, slot: u16) -> Option<Held<J>>
        requires in_range { slot < J.layout.slots }
        ensures { IfSome result (λ held. held.slot ≡ slot) }
    {
        for _ in 0..SPIN_TURNS {
            match self.slot_locks.of(slot).take(rt, slot) {
                Some(held) => return Some(held),
                None => pause(),
            }
        }
        None
    }

    /// Takes the slot if it is free. The call does not wait for the slot.
    ///
    /// # Errors
    /// - `J5 Busy`: someone holds the slot. Nothing changed.
    pub fn try_acquire<C, R: Wait>(&self, rt: &R, slot: u16) -> Result<Held<J>, Refusal<C>>
        requires in_range { slot < J.layout.slots }
        ensures held { IfOk result (λ held. held.slot ≡ slot) }
        ensures refusal { IsOkUnless result Refusal.Busy }
    {
        self.slot_locks
            .of(slot)
            .take(rt, slot)
            .ok_or_else(|| Refusal::Busy)
    }

    // No clause: none can name the value under a lock. `Held::give_back` says what happens to the
    // table.
    /// Frees the slot, and wakes one of the threads that wait for it. The call does not wait for a
    /// slot.
    ///
    /// The caller gives a `Held` to the lock map that it came from.
    pub fn release<R: Wait>(&self, rt: &R, held: Held<J>) {
        let slot_lock = self.slot_locks.of(held.slot());
        let place = slot_lock.place.lock(rt);
        // Each slot has one token, so the place is empty, and this does not block.
        let mut place = slot_lock
            .freed
            .wait_while(rt, place, |place| !place.is_empty());
        held.give_back(&mut place);
        drop(place);
        slot_lock.freed.notify_one();
    }
}

impl<J: Naming> Debug for LockMap<J> {
    fn fmt<W: fmt::Write>(&self, f: &mut fmt::Formatter<W>) -> fmt::Result {
        f.debug_struct("LockMap").finish_non_exhaustive()
    }
}

// Passes a short time.
fn pause() {
    for _ in 0..SPIN_PAUSES {
        spin_loop();
    }
}
