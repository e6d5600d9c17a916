// The calls of the file store, and its answers in the protocol's words.
ghost use Rattle.std.specs.Prelude.{◌≡◌};
ghost use Rattle.journal_filestore.specs.Operations.{is_waiting};
ghost use Rattle.journal_nfs3_wire.specs.Arguments.{how_of};
ghost use Rattle.journal_nfs3.specs.Served.{settings_of, create_mode_of, waits, error_of, refusal_error, answer_to_nfs, to_nfs, committed_answer, committed_wait};

use crate::pending::Pending;
use journal_filestore::{
    Answer, Committed, CreateMode, Fault, PendingWait, Settings, Stability, Status,
};
use journal_nfs3_wire::{CreateHow, NewAttributes, NfsError, StableHow};
use journal_world::Refusal;

// An answer of the file store in the protocol's words, or that it has none.
pub(crate) fn to_nfs<A, C: Drop>(answer: Result<Answer<A>, Fault<C>>) -> Result<A, NfsError>
    ensures { result ≡ to_nfs answer }
{
    match answer {
        Ok(answer) => convert_answer(answer),
        Err(Fault::Refused(why) | Fault::Unsure(why)) => Err(refusal_error(&why)),
    }
}

// The same of an answer that is not waited for, with its pending wait.
pub(crate) fn to_nfs_no_wait<A, P, C: Drop>(
    answer: Result<Committed<A, P>, Refusal<C>>,
) -> Pending<Result<A, NfsError>, P>
    ensures value { result.value ≡ to_nfs (committed_answer answer) }
    ensures wait { result.wait ≡ committed_wait answer }
{
    match answer {
        Ok(done) => {
            let Committed { answer, wait } = done;
            Pending {
                value: convert_answer(answer),
                wait,
            }
        }
        Err(why) => Pending::ready(Err(refusal_error(&why))),
    }
}

fn convert_answer<A>(answer: Answer<A>) -> Result<A, NfsError>
    ensures { result ≡ answer_to_nfs answer }
{
    match answer {
        Ok(value) => Ok(value),
        Err(status) => Err(error_of(status)),
    }
}

fn error_of(status: Status) -> NfsError
    ensures { result ≡ error_of status }
{
    match status {
        Status::NoEntry => NfsError::NoEntry,
        Status::Exists => NfsError::Exists,
        Status::NotDirectory => NfsError::NotDirectory,
        Status::Invalid => NfsError::Invalid,
        Status::TooBig => NfsError::TooBig,
        Status::NoSpace => NfsError::NoSpace,
        Status::Stale => NfsError::Stale,
        Status::NotSync => NfsError::NotSync,
        Status::NotSupported => NfsError::NotSupported,
    }
}

// A refusal of the journal, as clients see it: try again later, a fault of the device, or one of
// the server.
pub(crate) fn refusal_error<C>(refusal: &Refusal<C>) -> NfsError
    ensures { result ≡ refusal_error refusal.now }
{
    match refusal {
        Refusal::Busy => NfsError::Jukebox,
        Refusal::DeviceFailed(_) => NfsError::Io,
        _ => NfsError::ServerFault,
    }
}

// The settings of a file: its mode, owner, group and time of access are not kept.
pub(crate) fn settings_of(attributes: &NewAttributes) -> Settings
    ensures { result ≡ settings_of attributes.now }
{
    Settings {
        size: attributes.size,
        mtime: attributes.mtime,
    }
}

pub(crate) fn create_mode_of(how: &CreateHow<'_>) -> CreateMode
    ensures { result ≡ create_mode_of (how_of how.now) }
{
    match how {
        CreateHow::Unchecked(attributes) => CreateMode::Unchecked(settings_of(attributes)),
        CreateHow::Guarded(attributes) => CreateMode::Guarded(settings_of(attributes)),
        CreateHow::Exclusive(_) => CreateMode::Exclusive,
    }
}

// The stability that a write waits for.
pub(crate) fn stability_of(how: StableHow) -> Stability
    ensures { is_waiting result ≡ waits how }
{
    match how {
        StableHow::Unstable => Stability::Unstable,
        StableHow::DataSync | StableHow::FileSync => Stability::Stable,
    }
}
