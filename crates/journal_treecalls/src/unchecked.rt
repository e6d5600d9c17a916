// CREATE of a name that may be there.
ghost use Rattle.std.specs.Prelude.{◌≡◌, ◌≤◌, [], IfOk, length};
ghost use Rattle.journal_tree.specs.declared.limits.TheConstants.{MOST_NAME};
ghost use Rattle.journal_tree.specs.declared.settings.CreateMode.TheVariants.{Unchecked};
ghost use Rattle.journal_tree.specs.Names.{size_alone};
ghost use Rattle.journal_tree.specs.Times.{IsTime};
ghost use Rattle.journal_tree.specs.Op.Call.{create as create_call};
ghost use Rattle.journal_tree.specs.Op.Reply.{made};
ghost use Rattle.journal_treestore.specs.Inodes.{name_from};
ghost use Rattle.journal_treecalls.specs.Disks.{Does};
ghost use Rattle.journal_treecalls.specs.Takings.{taking_status, is_sized, taken_made, IsRecordOf, Sizes, SizesAny, Takes, TakesOver, Creates};

use crate::TreeDisk;
use crate::bytes::new_bytes;
use crate::creation::{Plan, are_asked, create_plan, is_too_big, make_planned};
use crate::named::{Named, find_name};
use crate::node::{Record, told};
use crate::removal::are_words;
use crate::room::Spare;
use crate::search::Hit;
use crate::setting::{put_head, set_head};
use journal_tree::{Caller, Changed, Handle, Kind, Made, NewTime, Settings, Status, Time, Told};
use journal_treestore::Head;

/// CREATE in the mode UNCHECKED (RFC 1813, 3.3.8): a file of a name. If the directory has a file of
/// the name, it is this one, and only its size is set, if one is asked for. Else one is made as by
/// `create_guarded`. At most eight objects are written.
///
/// # Errors
/// - The call is given up.
///
/// The other answers. The first that holds:
/// - Those of `create_guarded` up to `NameTooLong`.
/// - If the directory has a node of the name:
///   - `Exists`: it is a directory.
///   - `NoAccess`: a size is asked for, and the caller may not write the file.
///   - `TooBig`: no file has as many bytes.
/// - If it has none, the others of `create_guarded`.
pub fn create_unchecked<T: TreeDisk>(
    disk: &mut T,
    caller: &Caller,
    directory: Handle,
    name: &[u8],
    settings: Settings,
    spare: &Spare,
    now: Time,
) -> Result<Result<Made, Status>, T::Fault>
    requires first { T.writes disk.old ≡ [] }
    requires time { IsTime now }
    ensures does { IfOk result (λ reply. Does (T.may_be disk.new) (T.writes disk.new) (create_call directory name.now (Unchecked settings)) caller.now now (made reply)) }
    ensures few { IfOk result (λ _. length (T.writes disk.new) ≤ 8) }
{
    are_words(*caller);
    are_asked(settings);
    let taken = Status::Exists;
    match find_name(disk, caller, directory, name, taken, taken)? {
        Ok(found) => {
            let within = &found.directory.head.attributes;
            let plan = create_plan(caller, &settings, within, now);
            let wanted = Wanted {
                directory: directory.number,
                plan,
                size: settings.size,
            };
            create_found(disk, caller, &found, name, &wanted, spare, now)
        }
        Err(status) => Ok(Err(status)),
    }
}

// The number of the directory, the file that is to be made there if the name is free, and the size
// that is asked for.
#[derive(Clone, Copy)]
struct Wanted {
    directory: u32,
    plan: Plan,
    size: Option<u64>,
}

// CREATE of a name that was looked for.
fn create_found<T: TreeDisk>(
    disk: &mut T,
    caller: &Caller,
    found: &Named,
    name: &[u8],
    wanted: &Wanted,
    spare: &Spare,
    now: Time,
) -> Result<Result<Made, Status>, T::Fault>
    requires first { T.writes disk.old ≡ [] }
    requires time { IsTime now }
    requires named { length name.now ≤ MOST_NAME }
    ensures creates { IfOk result (Creates (T.may_be disk.old) (T.may_be disk.new) (T.writes disk.new) caller.now wanted.now.directory found.now name.now wanted.now.plan wanted.now.size now) }
    ensures few { IfOk result (λ _. length (T.writes disk.new) ≤ 8) }
{
    let number = wanted.directory;
    match found.hit {
        None => make_planned(
            disk,
            number,
            &found.directory,
            name,
            &wanted.plan,
            spare,
            now,
        ),
        Some(hit) => {
            let directory = told(number, &found.directory.head);
            take_over(disk, caller, directory, &hit, name, wanted.size, now)
        }
    }
}

// A node of the name is taken, if it is a file.
fn take_over<T: TreeDisk>(
    disk: &mut T,
    caller: &Caller,
    directory: Told,
    hit: &Hit,
    name: &[u8],
    size: Option<u64>,
    now: Time,
) -> Result<Result<Made, Status>, T::Fault>
    requires first { T.writes disk.old ≡ [] }
    requires time { IsTime now }
    requires named { length name.now ≤ MOST_NAME }
    ensures takes { IfOk result (TakesOver (T.may_be disk.old) (T.may_be disk.new) (T.writes disk.new) caller.now directory hit.now name.now size now) }
    ensures few { IfOk result (λ _. length (T.writes disk.new) ≤ 3) }
{
    match taking_status(caller, &hit.head, size) {
        Some(status) => Ok(Err(status)),
        None => {
            let head = set_size(disk, caller, hit, name, size, now)?;
            Ok(Ok(taken_made(directory, hit, &head)))
        }
    }
}

// The reason not to take a node of the name, if there is one.
fn taking_status(caller: &Caller, head: &Head, size: Option<u64>) -> Option<Status>
    ensures { result ≡ taking_status caller.now head.now size }
{
    let may = caller.may_store(&head.attributes);
    match head.kind {
        Kind::Directory | Kind::Link => Some(Status::Exists),
        Kind::File => status_of_size(may, size),
    }
}

// The reason not to set the size of a file, if one is asked for.
fn status_of_size(may: bool, size: Option<u64>) -> Option<Status>
    ensures { result ≡ is_sized may size }
{
    if size.is_none() {
        return None;
    }
    if !may {
        return Some(Status::NoAccess);
    }
    if is_too_big(size) {
        return Some(Status::TooBig);
    }
    None
}

// The size of a file that was found is set, if one is asked for.
fn set_size<T: TreeDisk>(
    disk: &mut T,
    caller: &Caller,
    hit: &Hit,
    name: &[u8],
    size: Option<u64>,
    now: Time,
) -> Result<Head, T::Fault>
    requires first { T.writes disk.old ≡ [] }
    requires time { IsTime now }
    requires named { length name.now ≤ MOST_NAME }
    ensures sizes { IfOk result (SizesAny (T.may_be disk.old) (T.may_be disk.new) (T.writes disk.new) caller.now hit.now name.now size now) }
    ensures few { IfOk result (λ _. length (T.writes disk.new) ≤ 3) }
{
    match size {
        None => Ok(hit.head),
        Some(_bytes) => set_some_size(disk, caller, hit, name, size, now),
    }
}

// It is set.
fn set_some_size<T: TreeDisk>(
    disk: &mut T,
    caller: &Caller,
    hit: &Hit,
    name: &[u8],
    size: Option<u64>,
    now: Time,
) -> Result<Head, T::Fault>
    requires first { T.writes disk.old ≡ [] }
    requires time { IsTime now }
    requires named { length name.now ≤ MOST_NAME }
    ensures sizes { IfOk result (Sizes (T.may_be disk.old) (T.may_be disk.new) (T.writes disk.new) caller.now hit.now name.now size now) }
    ensures few { IfOk result (λ _. length (T.writes disk.new) ≤ 3) }
{
    let record = record_of(hit.head, name);
    let settings = size_alone(size);
    let head = set_head(caller, &settings, &hit.head, now);
    put_head(disk, hit.number, &record, &head)?;
    Ok(head)
}

// A size, and nothing else.
fn size_alone(size: Option<u64>) -> Settings
    ensures { result ≡ size_alone size }
{
    Settings {
        mode: None,
        owner: None,
        group: None,
        size,
        mtime: NewTime::Leave,
    }
}

// The inode of these fields and this name, as it is read.
fn record_of(head: Head, name: &[u8]) -> Record
    requires { length name.now ≤ MOST_NAME }
    ensures { IsRecordOf head name.now result }
{
    let bytes = new_bytes(head, name);
    Record { head, bytes }
}

// The reply: a file that was there, and its directory, which stays.
pub(crate) fn taken_made(directory: Told, hit: &Hit, head: &Head) -> Made
    ensures { result ≡ taken_made directory hit.now head.now }
{
    Made {
        generation: hit.head.generation,
        node: told(hit.number, head),
        directory: Changed {
            before: directory,
            after: directory,
        },
    }
}
