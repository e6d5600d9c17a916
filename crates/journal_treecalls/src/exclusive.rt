// CREATE of a file that the same call finds again.
ghost use Rattle.std.specs.Prelude.{◌≡◌, ◌≤◌, [], IfOk, length};
ghost use Rattle.journal_tree.specs.declared.limits.TheConstants.{MOST_NAME};
ghost use Rattle.journal_tree.specs.declared.settings.CreateMode.TheVariants.{Exclusive};
ghost use Rattle.journal_tree.specs.Fit.{IsLong};
ghost use Rattle.journal_tree.specs.Times.{IsTime};
ghost use Rattle.journal_tree.specs.Op.Call.{create as create_call};
ghost use Rattle.journal_tree.specs.Op.Reply.{made};
ghost use Rattle.journal_treecalls.specs.Disks.{Does};
ghost use Rattle.journal_treecalls.specs.Exclusives.{exclusive_plan, exclusive_refusal, is_same_file, told_before, CreatesOnce};

use crate::TreeDisk;
use crate::creation::{NewNode, Plan, make_planned};
use crate::named::{Named, find_name};
use crate::node::told;
use crate::removal::are_words;
use crate::room::Spare;
use crate::search::Hit;
use crate::unchecked::taken_made;
use journal_tree::{Attributes, Caller, Handle, Kind, Made, Status, Time, Told};
use journal_treestore::Head;

// The number of the directory, the file that is to be made there if the name is free, and the
// verifier of the call.
#[derive(Clone, Copy)]
struct Wanted {
    directory: u32,
    plan: Plan,
    verifier: u64,
}

/// CREATE in the mode EXCLUSIVE (RFC 1813, 3.3.8): an empty file of a name that the directory does
/// not have, under the first of these numbers that is free. It has the mode 0, and keeps the
/// verifier of the call until anything of it changes. If the directory has a file of the name with
/// this verifier, the same call has made it: it is told, and nothing is written. The directory gets
/// a block as in `mkdir`, and the same objects are written.
///
/// # Errors
/// - The call is given up.
///
/// The other answers. The first that holds:
/// - Those of `mkdir` up to `NameTooLong`.
/// - `Exists`: the directory has a node of the name that is no file of this verifier.
/// - `NoAccess`: the caller may not write the directory.
/// - `NoSpace` as of `mkdir`.
pub fn create_exclusive<T: TreeDisk>(
    disk: &mut T,
    caller: &Caller,
    directory: Handle,
    name: &[u8],
    verifier: u64,
    spare: &Spare,
    now: Time,
) -> Result<Result<Made, Status>, T::Fault>
    requires first { T.writes disk.old ≡ [] }
    requires time { IsTime now }
    ensures does { IfOk result (λ reply. Does (T.may_be disk.new) (T.writes disk.new) (create_call directory name.now (Exclusive verifier)) caller.now now (made reply)) }
    ensures few { IfOk result (λ _. length (T.writes disk.new) ≤ 8) }
{
    are_words(*caller);
    is_long(verifier);
    let taken = Status::Exists;
    match find_name(disk, caller, directory, name, taken, taken)? {
        Ok(found) => {
            let within = &found.directory.head.attributes;
            let plan = exclusive_plan(caller, verifier, within, now);
            let wanted = Wanted {
                directory: directory.number,
                plan,
                verifier,
            };
            create_once(disk, &found, name, &wanted, spare, now)
        }
        Err(status) => Ok(Err(status)),
    }
}

// Does nothing. Its contract says that a verifier has 64 bits.
fn is_long(verifier: u64)
    ensures { IsLong verifier }
{}

// The file that is made within a directory of these attributes.
fn exclusive_plan(caller: &Caller, verifier: u64, within: &Attributes, now: Time) -> Plan
    ensures { result ≡ exclusive_plan caller.now verifier within.now now }
{
    Plan {
        refusal: exclusive_refusal(caller, within),
        node: NewNode {
            attributes: within.within_exclusive(caller, verifier, now),
            kind: Kind::File,
            size: 0,
        },
    }
}

// The reason not to make it, if there is one.
fn exclusive_refusal(caller: &Caller, directory: &Attributes) -> Option<Status>
    ensures { result ≡ exclusive_refusal caller.now directory.now }
{
    if caller.may_rename(directory) {
        None
    } else {
        Some(Status::NoAccess)
    }
}

// CREATE of a name that was looked for.
fn create_once<T: TreeDisk>(
    disk: &mut T,
    found: &Named,
    name: &[u8],
    wanted: &Wanted,
    spare: &Spare,
    now: Time,
) -> Result<Result<Made, Status>, T::Fault>
    requires first { T.writes disk.old ≡ [] }
    requires time { IsTime now }
    requires named { length name.now ≤ MOST_NAME }
    ensures creates { IfOk result (CreatesOnce (T.may_be disk.old) (T.may_be disk.new) (T.writes disk.new) wanted.now.directory found.now name.now wanted.now.plan wanted.now.verifier now) }
    ensures few { IfOk result (λ _. length (T.writes disk.new) ≤ 8) }
{
    let number = wanted.directory;
    match found.hit {
        None => make_planned(
            disk,
            number,
            &found.directory,
            name,
            &wanted.plan,
            spare,
            now,
        ),
        Some(hit) => {
            let directory = told(number, &found.directory.head);
            Ok(told_before(directory, &hit, wanted.verifier))
        }
    }
}

// The reply where the directory has the name: the file, if the same call made it.
fn told_before(directory: Told, hit: &Hit, verifier: u64) -> Result<Made, Status>
    ensures { result ≡ told_before directory hit.now verifier }
{
    if is_same_file(verifier, &hit.head) {
        Ok(taken_made(directory, hit, &hit.head))
    } else {
        Err(Status::Exists)
    }
}

// True if it is a file that an exclusive CREATE of this verifier made, and that is as it was made.
fn is_same_file(verifier: u64, head: &Head) -> bool
    ensures { result ≡ is_same_file verifier head.now }
{
    match head.kind {
        Kind::File => head.attributes.has_verifier(verifier),
        Kind::Directory | Kind::Link => false,
    }
}
