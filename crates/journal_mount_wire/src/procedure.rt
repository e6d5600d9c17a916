// The procedures of MOUNT.
ghost use Rattle.std.specs.Prelude.{◌≡◌};

use journal_xdr::Enumeration;

/// A procedure of MOUNT version 3 (RFC 1813, appendix I).
#[derive(Clone, Copy, Debug, PartialEq, Eq)]
pub enum MountProcedure {
    /// NULL.
    Null,
    /// MNT.
    Mount,
    /// DUMP.
    Dump,
    /// UMNT.
    Unmount,
    /// UMNTALL.
    UnmountAll,
    /// EXPORT.
    Export,
}

impl Enumeration for MountProcedure {
    ghost use Rattle.journal_mount_wire.specs.Procedures.{mount_procedure_of, mount_procedure_number, mount_procedure_is, mount_procedure_back};

    ghost meaning = { mount_procedure_of };

    ghost code = { mount_procedure_number };

    ghost is_listed = { mount_procedure_is };

    ghost has_one_number = { mount_procedure_back };

    fn from_number(number: u32) -> Option<MountProcedure> {
        match number {
            0 => Some(MountProcedure::Null),
            1 => Some(MountProcedure::Mount),
            2 => Some(MountProcedure::Dump),
            3 => Some(MountProcedure::Unmount),
            4 => Some(MountProcedure::UnmountAll),
            5 => Some(MountProcedure::Export),
            _ => None,
        }
    }

    fn number(self) -> u32 {
        match self {
            MountProcedure::Null => 0,
            MountProcedure::Mount => 1,
            MountProcedure::Dump => 2,
            MountProcedure::Unmount => 3,
            MountProcedure::UnmountAll => 4,
            MountProcedure::Export => 5,
        }
    }
}
