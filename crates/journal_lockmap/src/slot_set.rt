// Some of the slots, as a flag for each. To mark one, and to ask for one, takes the same time for
// any number of slots.
ghost use Rattle.std.specs.Prelude.{◌≡◌, ◌≢◌, ◌<◌, ◌==◌, ◌||◌, ◌&&◌, not, ℕ, IfOk, length};
ghost use Rattle.journal_world.specs.declared.layout.TheConstants.{SLOTS};
ghost use Rattle.journal_world.specs.Addresses.{slot_of};
ghost use Rattle.journal_world.specs.Files.{shape};
ghost use Rattle.journal_lockmap.specs.Numbers.{is_in, AreNone, MarksWrites};

use journal_world::{Layout, Objects, SLOTS};
use std::alloc::{AllocError, Global};

// The flags that are kept for this many slots, none of which is marked. For `SLOTS` slots no flag
// is kept: a commit has them on its stack.
pub(crate) fn kept_flags(alloc: Global, slots: u16) -> Result<Vec<bool>, AllocError>
    ensures none { IfOk result (λ flags. AreNone flags.items) }
    ensures room { IfOk result (λ flags. slots ≢ SLOTS → length flags.items ≡ slots) }
{
    let kept = if slots == SLOTS { 0 } else { slots };
    vec![in alloc; false; usize::from(kept)]
}

// Marks the slots of these writes, where none is marked yet.
pub(crate) fn mark_writes(flags: &mut [bool], layout: &Layout, writes: &Objects)
    requires none { AreNone flags.old }
    requires room { length flags.old ≡ layout.now.slots }
    ensures marks { MarksWrites (shape layout.now) flags.new writes.now }
    ensures room { length flags.new ≡ length flags.old }
{
    for (addr, _) in writes.iter() {
        mark(flags, layout.slot_of(*addr));
    }
}

// Marks a slot.
fn mark(flags: &mut [bool], slot: u16)
    requires in_range { slot < length flags.old }
    ensures only { (other : ℕ) → is_in flags.new other ≡ ((slot == other) || is_in flags.old other) }
    ensures room { length flags.new ≡ length flags.old }
{
    flags[usize::from(slot)] = true;
}

// Removes the mark of a slot. True if there was one.
pub(crate) fn unmark(flags: &mut [bool], slot: u16) -> bool
    requires in_range { slot < length flags.old }
    ensures was { result ≡ is_in flags.old slot }
    ensures only { (other : ℕ) → is_in flags.new other ≡ (not (slot == other) && is_in flags.old other) }
    ensures room { length flags.new ≡ length flags.old }
{
    let place = usize::from(slot);
    // If there is none, no flag is written: other threads may have the kept flags in their caches.
    if !flags[place] {
        return false;
    }
    flags[place] = false;
    true
}
