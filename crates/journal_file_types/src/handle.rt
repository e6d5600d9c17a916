// A file's handle.
ghost use Rattle.std.specs.Prelude.{◌≡◌, ◌<◌, ◌≤◌, ◌↔◌, IsSome, IfSome};
ghost use Rattle.journal_inode.specs.declared.place.TheConstants.{INODES};

use journal_inode::INODES;

/// The name of a file or of the root: the number of an inode other than 0, and a generation. The
/// root has number 1 and generation 1. Once its file was removed, a handle names nothing for good.
#[derive(Clone, Copy, Debug, PartialEq, Eq)]
pub struct Handle {
    pub number: u32,
    pub generation: u32,
    pub ghost in_range: { (1 ≤ number) × (number < INODES) },
}

impl Handle {
    /// The handle, or `None` if the number is 0 or not an inode's.
    pub fn new(number: u32, generation: u32) -> Option<Handle>
        ensures valid { IsSome result ↔ ((1 ≤ number) × (number < INODES)) }
        ensures value { IfSome result (λ handle. (handle.number ≡ number) × (handle.generation ≡ generation)) }
    {
        if number < 1 || number >= INODES {
            return None;
        }
        Some(Handle { number, generation })
    }
}
