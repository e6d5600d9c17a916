// The procedures of directories and links.
use journal_xdr::Enumeration;

/// A procedure that makes, moves or removes names of directories, or reads a link, and is none of
/// the nine of a flat directory (RFC 1813, section 3.3).
#[derive(Clone, Copy, Debug, PartialEq, Eq)]
pub enum DirectoryProcedure {
    /// READLINK.
    ReadLink,
    /// MKDIR.
    MakeDirectory,
    /// SYMLINK.
    MakeLink,
    /// MKNOD.
    MakeNode,
    /// RMDIR.
    RemoveDirectory,
    /// RENAME.
    Rename,
    /// LINK.
    Link,
}

impl Enumeration for DirectoryProcedure {
    ghost use Rattle.journal_treewire.specs.Directories.{directory_procedure_of, directory_procedure_number, directory_procedure_is, directory_procedure_back};

    ghost meaning = { directory_procedure_of };

    ghost code = { directory_procedure_number };

    ghost is_listed = { directory_procedure_is };

    ghost has_one_number = { directory_procedure_back };

    fn from_number(number: u32) -> Option<DirectoryProcedure> {
        match number {
            5 => Some(DirectoryProcedure::ReadLink),
            9 => Some(DirectoryProcedure::MakeDirectory),
            10 => Some(DirectoryProcedure::MakeLink),
            11 => Some(DirectoryProcedure::MakeNode),
            13 => Some(DirectoryProcedure::RemoveDirectory),
            14 => Some(DirectoryProcedure::Rename),
            15 => Some(DirectoryProcedure::Link),
            _ => None,
        }
    }

    fn number(self) -> u32 {
        match self {
            DirectoryProcedure::ReadLink => 5,
            DirectoryProcedure::MakeDirectory => 9,
            DirectoryProcedure::MakeLink => 10,
            DirectoryProcedure::MakeNode => 11,
            DirectoryProcedure::RemoveDirectory => 13,
            DirectoryProcedure::Rename => 14,
            DirectoryProcedure::Link => 15,
        }
    }
}
