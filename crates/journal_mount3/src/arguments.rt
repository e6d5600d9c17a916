// The questions of callers beside the nine procedures.
use journal_mount_wire::MountCall;
use journal_nfs3_wire::{Operation, Query};

// The question of a call to the two programs.
#[derive(Clone, Copy, Debug)]
pub(crate) enum Requested<'a> {
    // One of the nine procedures of `journal_nfs3`.
    Nine(Operation<'a>),
    Query(Query<'a>),
    Mount(MountCall<'a>),
}
