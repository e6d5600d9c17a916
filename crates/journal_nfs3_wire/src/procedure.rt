// The procedures that are served.
ghost use Rattle.std.specs.Prelude.{◌≡◌};

use journal_xdr::Enumeration;

// Each match of nine arms stays, where something is done by procedure: the types differ in each
// arm, and the compiler names each match that lacks a new procedure.
/// A procedure of the program that is served (RFC 1813, section 3.3).
#[derive(Clone, Copy, Debug, PartialEq, Eq)]
pub enum Procedure {
    /// NULL.
    Null,
    /// GETATTR.
    GetAttributes,
    /// SETATTR.
    SetAttributes,
    /// LOOKUP.
    Lookup,
    /// READ.
    Read,
    /// WRITE.
    Write,
    /// CREATE.
    Create,
    /// REMOVE.
    Remove,
    /// COMMIT.
    Commit,
}

impl Enumeration for Procedure {
    ghost use Rattle.journal_nfs3_wire.specs.Procedures.{procedure_of, procedure_number, procedure_is, procedure_back};

    ghost meaning = { procedure_of };

    ghost code = { procedure_number };

    ghost is_listed = { procedure_is };

    ghost has_one_number = { procedure_back };

    fn from_number(number: u32) -> Option<Procedure> {
        match number {
            0 => Some(Procedure::Null),
            1 => Some(Procedure::GetAttributes),
            2 => Some(Procedure::SetAttributes),
            3 => Some(Procedure::Lookup),
            6 => Some(Procedure::Read),
            7 => Some(Procedure::Write),
            8 => Some(Procedure::Create),
            12 => Some(Procedure::Remove),
            21 => Some(Procedure::Commit),
            _ => None,
        }
    }

    fn number(self) -> u32 {
        match self {
            Procedure::Null => 0,
            Procedure::GetAttributes => 1,
            Procedure::SetAttributes => 2,
            Procedure::Lookup => 3,
            Procedure::Read => 6,
            Procedure::Write => 7,
            Procedure::Create => 8,
            Procedure::Remove => 12,
            Procedure::Commit => 21,
        }
    }
}
