// The attributes of files and of the root, by their inodes.
ghost use Rattle.std.specs.Prelude.{◌≡◌};
ghost use Rattle.journal_filestore.specs.Operations.{attributes_of_node};

use crate::Attributes;
use journal_inode::{FileNode, Time};

// The attributes of a file.
pub(crate) fn attributes_of(number: u32, file: FileNode) -> Attributes
    ensures { result ≡ attributes_of_node number file }
{
    Attributes {
        number,
        size: file.size,
        mtime: file.mtime,
    }
}

// The attributes of the root.
pub(crate) fn root_attributes(mtime: Time) -> Attributes
    ensures { result ≡ record { number = 1; size = 0; mtime = mtime } }
{
    Attributes {
        number: 1,
        size: 0,
        mtime,
    }
}
