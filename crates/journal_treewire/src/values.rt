// The values of the wire in a tree.
ghost use Rattle.std.specs.Prelude.{◌≡◌, option_map, get_or};
ghost use Rattle.journal_nfs3_wire.specs.Arguments.{how_of};
ghost use Rattle.journal_treewire.specs.Values.{time_in, time_out, new_time_in, settings_in, verifier_in, create_mode_in, error_of};

use journal_nfs3_wire::{CreateHow, NewAttributes, NfsError};
use journal_tree::{CreateMode, NewTime, Settings, Status, Time};

// A time of the tree.
pub(crate) fn time_in(time: journal_inode::Time) -> Time
    ensures { result ≡ time_in time }
{
    Time {
        secs: time.secs,
        nanos: time.nanos,
    }
}

// The same, where there is one.
pub(crate) fn some_time_in(time: Option<journal_inode::Time>) -> Option<Time>
    ensures { result ≡ option_map time_in time }
{
    match time {
        Some(time) => Some(time_in(time)),
        None => None,
    }
}

// A time of the wire.
pub(crate) fn time_out(time: Time) -> journal_inode::Time
    ensures { result ≡ time_out time }
{
    journal_inode::Time {
        secs: time.secs,
        nanos: time.nanos,
    }
}

fn new_time_in(time: journal_file_types::NewTime) -> NewTime
    ensures { result ≡ new_time_in time }
{
    match time {
        journal_file_types::NewTime::Leave => NewTime::Leave,
        journal_file_types::NewTime::Server => NewTime::Server,
        journal_file_types::NewTime::Client(time) => NewTime::Client(time_in(time)),
    }
}

// The settings that attributes ask for. A time of the last access has no effect.
pub(crate) fn settings_in(attributes: NewAttributes) -> Settings
    ensures { result ≡ settings_in attributes }
{
    Settings {
        mode: attributes.mode,
        owner: attributes.uid,
        group: attributes.gid,
        size: attributes.size,
        mtime: new_time_in(attributes.mtime),
    }
}

// How CREATE treats a name that is there.
pub(crate) fn create_mode_in(how: &CreateHow<'_>) -> CreateMode
    ensures { result ≡ create_mode_in (how_of how.now) }
{
    match *how {
        CreateHow::Unchecked(attributes) => CreateMode::Unchecked(settings_in(attributes)),
        CreateHow::Guarded(attributes) => CreateMode::Guarded(settings_in(attributes)),
        CreateHow::Exclusive(verifier) => CreateMode::Exclusive(verifier_in(verifier)),
    }
}

// The number that 8 bytes are, the lowest first.
fn verifier_in(verifier: &[u8]) -> u64
    ensures { result ≡ verifier_in verifier.now }
{
    u64::from_le_bytes([
        byte_in(verifier, 0),
        byte_in(verifier, 1),
        byte_in(verifier, 2),
        byte_in(verifier, 3),
        byte_in(verifier, 4),
        byte_in(verifier, 5),
        byte_in(verifier, 6),
        byte_in(verifier, 7),
    ])
}

// The byte at a place, if there is one, and else 0.
fn byte_in(bytes: &[u8], at: usize) -> u8
    ensures { result ≡ get_or bytes.now at 0 }
{
    if at < bytes.len() { bytes[at] } else { 0 }
}

/// The number of a refusal on the wire.
pub fn error_of(status: Status) -> NfsError
    ensures { result ≡ error_of status }
{
    match status {
        Status::NotOwner => NfsError::NotOwner,
        Status::NoEntry => NfsError::NoEntry,
        Status::NoAccess => NfsError::NoAccess,
        Status::Exists => NfsError::Exists,
        Status::NotDirectory => NfsError::NotDirectory,
        Status::IsDirectory => NfsError::IsDirectory,
        Status::Invalid => NfsError::Invalid,
        Status::TooBig => NfsError::TooBig,
        Status::NoSpace => NfsError::NoSpace,
        Status::NameTooLong => NfsError::NameTooLong,
        Status::NotEmpty => NfsError::NotEmpty,
        Status::Stale => NfsError::Stale,
        Status::NotSync => NfsError::NotSync,
        Status::NotSupported => NfsError::NotSupported,
        Status::TooSmall => NfsError::TooSmall,
    }
}
