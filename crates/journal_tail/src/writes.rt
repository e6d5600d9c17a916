// The facts of writes: their addresses, their values and their blocks.
ghost use Rattle.std.specs.Prelude.{◌≡◌, ◌↔◌, IsTrue, Some};
ghost use Rattle.journal_world.specs.Files.{shape};
ghost use Rattle.journal_world.specs.Maps.{is_object, are_objects};
ghost use Rattle.journal_tail.specs.Writes.{are_valid};

use journal_world::{Addr, Layout, Objects, Value};

/// The number of distinct blocks that are written, and how many of these are not in the tail.
#[derive(Clone, Copy)]
pub(crate) struct Places {
    pub(crate) blocks: usize,
    pub(crate) fresh: usize,
}

/// True if each write's address is valid, and if so, true if each value is of its address's kind.
pub(crate) fn check_writes(layout: &Layout, writes: &Objects) -> (bool, bool)
    ensures valid { result.0 ≡ are_valid (shape layout.now) writes.now }
    ensures objects { IsTrue result.0 → result.1 ≡ are_objects (shape layout.now) writes.now }
{
    let mut objects = true;
    for (addr, value) in writes.iter() {
        let Some(kind) = layout.kind_at(*addr) else {
            return (false, false);
        };
        objects &= kind.admits(value.bytes());
    }
    (true, objects)
}

// True if the address is valid, and the value of its kind.
pub(crate) fn is_admitted(layout: &Layout, addr: Addr, value: &Value) -> bool
    ensures { result ≡ is_object (shape layout.now) (addr, value.now) }
{
    match layout.kind_at(addr) {
        Some(kind) => kind.admits(value.bytes()),
        None => false,
    }
}

// True if this is the block.
pub(crate) fn is_block(found: Option<u64>, block: u64) -> bool
    ensures { IsTrue result ↔ (found ≡ Some block) }
{
    match found {
        Some(number) => number == block,
        None => false,
    }
}
