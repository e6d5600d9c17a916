// A name in a directory that a caller may search.
ghost use Rattle.std.specs.Prelude.{◌≡◌, [], IfOk};
ghost use Rattle.journal_treecalls.specs.Disks.{Learns};
ghost use Rattle.journal_treecalls.specs.Names.{name_status, IsNameFor, IsFoundIn, IsUnrefused, HasInside, HasKind};

use crate::TreeDisk;
use crate::name::name_kind;
use crate::node::{Record, searched};
use crate::search::{Hit, find};
use journal_tree::{Caller, Handle, NameKind, Status};

// A directory that the caller may search, and the node that it has under a name.
#[derive(Clone, Copy)]
pub(crate) struct Named {
    pub(crate) directory: Record,
    pub(crate) hit: Option<Hit>,
}

// The directory, and its node of the name. If the name is `.` or `..`, the call says the answer.
pub(crate) fn find_name<T: TreeDisk>(
    disk: &mut T,
    caller: &Caller,
    handle: Handle,
    name: &[u8],
    at_dot: Status,
    at_dot_dot: Status,
) -> Result<Result<Named, Status>, T::Fault>
    requires first { T.writes disk.old ≡ [] }
    ensures learns { IfOk result (λ found. Learns (T.may_be disk.old) (T.may_be disk.new) (λ V. IsNameFor V caller.now handle name.now at_dot at_dot_dot found)) }
    ensures inside { IfOk result HasInside }
    ensures named { IfOk result (HasKind name.now) }
    ensures first { T.writes disk.new ≡ [] }
{
    let refusal = name_status(name_kind(name), at_dot, at_dot_dot);
    match searched(disk, caller, handle)? {
        Ok(directory) => find_in(disk, directory, name, refusal),
        Err(status) => Ok(Err(status)),
    }
}

// The node that a directory has under a name, if that is one.
fn find_in<T: TreeDisk>(
    disk: &mut T,
    directory: Record,
    name: &[u8],
    refusal: Option<Status>,
) -> Result<Result<Named, Status>, T::Fault>
    requires first { T.writes disk.old ≡ [] }
    ensures learns { IfOk result (λ found. Learns (T.may_be disk.old) (T.may_be disk.new) (λ V. IsFoundIn V directory name.now refusal found)) }
    ensures inside { IfOk result HasInside }
    ensures named { IfOk result (IsUnrefused refusal) }
    ensures first { T.writes disk.new ≡ [] }
{
    match refusal {
        Some(status) => Ok(Err(status)),
        None => {
            let hit = find(disk, &directory.head, name)?;
            Ok(Ok(Named { directory, hit }))
        }
    }
}

// The answer to a name that is none.
pub(crate) fn name_status(kind: NameKind, at_dot: Status, at_dot_dot: Status) -> Option<Status>
    ensures { result ≡ name_status kind at_dot at_dot_dot }
{
    match kind {
        NameKind::Dot => Some(at_dot),
        NameKind::DotDot => Some(at_dot_dot),
        NameKind::NoName => Some(Status::Invalid),
        NameKind::LongName => Some(Status::NameTooLong),
        NameKind::Name => None,
    }
}
