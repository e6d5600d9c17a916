// Reading the arguments of the procedures.
ghost use Rattle.std.specs.Prelude.{◌≡◌};
ghost use Rattle.journal_xdr.specs.Items.{ReadsItem};
ghost use Rattle.journal_xdr.specs.Basic.{word, hyper, optional};
ghost use Rattle.journal_nfs3_wire.specs.Arguments.{time, new_time, new_attributes, entry, directory_entry_of, how, how_of, arguments, operation_of};

use crate::arguments::{
    CreateArguments, CreateHow, DirectoryEntry, FileRange, NewAttributes, Operation, SetArguments,
    WriteArguments,
};
use crate::procedure::Procedure;
use journal_file_types::NewTime;
use journal_inode::Time;
use journal_xdr::Reader;

// The most bytes of a handle (RFC 1813, section 2.4).
pub(crate) const HANDLE_BYTES: u32 = 64;

// The bytes of the verifier of an exclusive creation (RFC 1813, section 2.4).
const CREATE_VERIFIER_BYTES: usize = 8;

// Reads the arguments of a procedure.
#[tactic(auto, unfolding(crate::specs::Arguments::arguments))]
pub(crate) fn read_arguments<'a>(
    procedure: Procedure,
    reader: &mut Reader<'a>,
) -> Option<Operation<'a>>
    ensures { ReadsItem (arguments procedure) operation_of reader.old reader.new result }
{
    Some(match procedure {
        Procedure::Null => Operation::Null,
        Procedure::GetAttributes => Operation::GetAttributes(reader.opaque(HANDLE_BYTES)?),
        Procedure::SetAttributes => Operation::SetAttributes(SetArguments {
            handle: reader.opaque(HANDLE_BYTES)?,
            attributes: read_new_attributes(reader)?,
            guard: read_guard(reader)?,
        }),
        Procedure::Lookup => Operation::Lookup(read_entry(reader)?),
        Procedure::Read => Operation::Read(FileRange {
            handle: reader.opaque(HANDLE_BYTES)?,
            offset: reader.hyper()?,
            count: reader.word()?,
        }),
        Procedure::Write => Operation::Write(WriteArguments {
            handle: reader.opaque(HANDLE_BYTES)?,
            offset: reader.hyper()?,
            count: reader.word()?,
            how: reader.enumeration()?,
            bytes: reader.opaque(u32::MAX)?,
        }),
        Procedure::Create => Operation::Create(CreateArguments {
            entry: read_entry(reader)?,
            how: read_how(reader)?,
        }),
        Procedure::Remove => Operation::Remove(read_entry(reader)?),
        Procedure::Commit => Operation::Commit(FileRange {
            handle: reader.opaque(HANDLE_BYTES)?,
            offset: reader.hyper()?,
            count: reader.word()?,
        }),
    })
}

// Reads a time (RFC 1813, section 2.5, nfstime3).
#[tactic(auto, unfolding(crate::specs::Arguments::time))]
fn read_time(reader: &mut Reader<'_>) -> Option<Time>
    ensures { ReadsItem time (λ t. t) reader.old reader.new result }
{
    Some(Time {
        secs: reader.word()?,
        nanos: reader.word()?,
    })
}

// Reads how a time is to be set (RFC 1813, section 2.5, set_atime and set_mtime).
#[tactic(auto, unfolding(crate::specs::Arguments::new_time))]
fn read_new_time(reader: &mut Reader<'_>) -> Option<NewTime>
    ensures { ReadsItem new_time (λ t. t) reader.old reader.new result }
{
    match reader.word()? {
        0 => Some(NewTime::Leave),
        1 => Some(NewTime::Server),
        2 => Some(NewTime::Client(read_time(reader)?)),
        _ => None,
    }
}

fn read_optional_word(reader: &mut Reader<'_>) -> Option<Option<u32>>
    ensures { ReadsItem (optional word) (λ o. o) reader.old reader.new result }
{
    if reader.boolean()? {
        Some(Some(reader.word()?))
    } else {
        Some(None)
    }
}

fn read_optional_hyper(reader: &mut Reader<'_>) -> Option<Option<u64>>
    ensures { ReadsItem (optional hyper) (λ o. o) reader.old reader.new result }
{
    if reader.boolean()? {
        Some(Some(reader.hyper()?))
    } else {
        Some(None)
    }
}

// Reads a guard (RFC 1813, section 3.3.2, sattrguard3).
fn read_guard(reader: &mut Reader<'_>) -> Option<Option<Time>>
    ensures { ReadsItem (optional time) (λ o. o) reader.old reader.new result }
{
    if reader.boolean()? {
        Some(Some(read_time(reader)?))
    } else {
        Some(None)
    }
}

/// Reads attributes that are to be set (RFC 1813, section 2.5, sattr3). `None` if no such value is
/// spelled at the front.
#[tactic(auto, unfolding(crate::specs::Arguments::new_attributes))]
pub fn read_new_attributes(reader: &mut Reader<'_>) -> Option<NewAttributes>
    ensures { ReadsItem new_attributes (λ a. a) reader.old reader.new result }
{
    Some(NewAttributes {
        mode: read_optional_word(reader)?,
        uid: read_optional_word(reader)?,
        gid: read_optional_word(reader)?,
        size: read_optional_hyper(reader)?,
        atime: read_new_time(reader)?,
        mtime: read_new_time(reader)?,
    })
}

/// Reads a directory's handle and a name in it (RFC 1813, section 2.5, diropargs3). `None` if no
/// such value is spelled at the front.
#[tactic(auto, unfolding(crate::specs::Arguments::entry))]
pub fn read_entry<'a>(reader: &mut Reader<'a>) -> Option<DirectoryEntry<'a>>
    ensures { ReadsItem entry directory_entry_of reader.old reader.new result }
{
    Some(DirectoryEntry {
        directory: reader.opaque(HANDLE_BYTES)?,
        name: reader.string(u32::MAX)?,
    })
}

#[tactic(auto, unfolding(crate::specs::Arguments::how))]
fn read_how<'a>(reader: &mut Reader<'a>) -> Option<CreateHow<'a>>
    ensures { ReadsItem how how_of reader.old reader.new result }
{
    match reader.word()? {
        0 => Some(CreateHow::Unchecked(read_new_attributes(reader)?)),
        1 => Some(CreateHow::Guarded(read_new_attributes(reader)?)),
        2 => Some(CreateHow::Exclusive(reader.fixed(CREATE_VERIFIER_BYTES)?)),
        _ => None,
    }
}
