// MKDIR, and CREATE of a name that must be free.
ghost use Rattle.std.specs.Prelude.{◌≡◌, ◌<◌, ◌≤◌, [], length, IfOk};
ghost use Rattle.journal_tree.specs.declared.limits.TheConstants.{LAST_GENERATION, MOST_NAME};
ghost use Rattle.journal_tree.specs.declared.settings.CreateMode.TheVariants.{Guarded};
ghost use Rattle.journal_tree.specs.Attributes.{is_no_time, is_too_big};
ghost use Rattle.journal_tree.specs.Fit.{IsOptionalWord, IsAskedTime, IsAsked};
ghost use Rattle.journal_tree.specs.Times.{IsTime};
ghost use Rattle.journal_tree.specs.Op.Call.{create as create_call, mkdir as mkdir_call};
ghost use Rattle.journal_tree.specs.Op.Reply.{made};
ghost use Rattle.journal_treecalls.specs.Disks.{Does};
ghost use Rattle.journal_treecalls.specs.declared.room.NewPlace.TheVariants.{Here, Further};
ghost use Rattle.journal_treecalls.specs.Rooms.{making_status, new_head, new_entry, told_made, making_call, mkdir_plan, create_plan, plan_for, IsFitGrowth, IsInsidePlace, Plants, MakesNode, MakesPlanned, Makes};

use crate::TreeDisk;
use crate::bytes::{moved, new_bytes, put_entry, used_bytes};
use crate::growth::{Growth, grown, put_growth};
use crate::named::{Named, find_name};
use crate::node::{Record, told};
use crate::removal::are_words;
use crate::room::{
    FreeNumber, FreePlace, FreeRoom, NewPlace, Spare, find_room, first_place, place_number,
};
use journal_tree::{
    Attributes, BLOCK_PLACES, Caller, Changed, DIRECTORY_MODE, FILE_MODE, Handle, Kind, MOST_BYTES,
    Made, NANOS, NewTime, Settings, Status, Time,
};
use journal_treestore::{DIRECT_BLOCKS, Entry, Head, PLACES, tag_of};

// A node that is to be made.
#[derive(Clone, Copy)]
pub(crate) struct NewNode {
    pub(crate) attributes: Attributes,
    pub(crate) kind: Kind,
    pub(crate) size: u64,
}

// Which call makes a node.
#[derive(Clone, Copy)]
enum Making {
    Mkdir,
    // In the mode GUARDED.
    Create,
}

// By which call a node is asked for, and with which attributes.
#[derive(Clone, Copy)]
struct Wanted {
    by: Making,
    settings: Settings,
}

// A node that is to be made, or the reason not to.
#[derive(Clone, Copy)]
pub(crate) struct Plan {
    pub(crate) refusal: Option<Status>,
    pub(crate) node: NewNode,
}

/// MKDIR (RFC 1813, 3.3.9): an empty directory, under the first of these numbers that is free. If
/// the directory above has no free place for the name, it gets a block, which is the first of these
/// that is free. At most eight objects are written: both inodes and the entry's block; and if this
/// is new, its record, and the two blocks by which a large directory finds the numbers of its
/// blocks, each with its record if it is new too.
///
/// # Errors
/// - The call is given up.
///
/// The other answers. The first that holds:
/// - `Stale`: the handle's node was removed.
/// - `NotDirectory`: the handle is a file's.
/// - `NoAccess`: the caller may not search the directory.
/// - `Exists`: the name is `.` or `..`.
/// - `Invalid`: the name is empty, or has a byte 0 or `/`.
/// - `NameTooLong`: the name has more than 255 bytes.
/// - `Exists`: the directory has a node of the name.
/// - `NoAccess`: the caller may not write the directory.
/// - `Invalid`: the mtime that is asked for is none.
/// - `NoSpace`: none of the numbers is free, or the directory has no free place for the name and
///   too few of the blocks are free (at most three are taken), or it has all the blocks in which
///   the name may lie, and these are full.
pub fn mkdir<T: TreeDisk>(
    disk: &mut T,
    caller: &Caller,
    directory: Handle,
    name: &[u8],
    settings: Settings,
    spare: &Spare,
    now: Time,
) -> Result<Result<Made, Status>, T::Fault>
    requires first { T.writes disk.old ≡ [] }
    requires time { IsTime now }
    ensures does { IfOk result (λ reply. Does (T.may_be disk.new) (T.writes disk.new) (mkdir_call directory name.now settings) caller.now now (made reply)) }
    ensures few { IfOk result (λ _. length (T.writes disk.new) ≤ 8) }
{
    let by = Making::Mkdir;
    make(
        disk,
        caller,
        directory,
        name,
        Wanted { by, settings },
        spare,
        now,
    )
}

/// CREATE in the mode GUARDED (RFC 1813, 3.3.8): a file of a name that the directory does not have,
/// under the first of these numbers that is free. The directory gets a block as in `mkdir`, and the
/// same objects are written.
///
/// # Errors
/// - The call is given up.
///
/// The other answers are those of `mkdir`, and before `NoSpace`:
/// - `TooBig`: no file has as many bytes.
pub fn create_guarded<T: TreeDisk>(
    disk: &mut T,
    caller: &Caller,
    directory: Handle,
    name: &[u8],
    settings: Settings,
    spare: &Spare,
    now: Time,
) -> Result<Result<Made, Status>, T::Fault>
    requires first { T.writes disk.old ≡ [] }
    requires time { IsTime now }
    ensures does { IfOk result (λ reply. Does (T.may_be disk.new) (T.writes disk.new) (create_call directory name.now (Guarded settings)) caller.now now (made reply)) }
    ensures few { IfOk result (λ _. length (T.writes disk.new) ≤ 8) }
{
    let by = Making::Create;
    make(
        disk,
        caller,
        directory,
        name,
        Wanted { by, settings },
        spare,
        now,
    )
}

// MKDIR, or CREATE in the mode GUARDED.
fn make<T: TreeDisk>(
    disk: &mut T,
    caller: &Caller,
    directory: Handle,
    name: &[u8],
    wanted: Wanted,
    spare: &Spare,
    now: Time,
) -> Result<Result<Made, Status>, T::Fault>
    requires first { T.writes disk.old ≡ [] }
    requires time { IsTime now }
    ensures does { IfOk result (λ reply. Does (T.may_be disk.new) (T.writes disk.new) (making_call wanted.by directory name.now wanted.settings) caller.now now (made reply)) }
    ensures few { IfOk result (λ _. length (T.writes disk.new) ≤ 8) }
{
    are_words(*caller);
    are_asked(wanted.settings);
    let taken = Status::Exists;
    match find_name(disk, caller, directory, name, taken, taken)? {
        Ok(found) => {
            let within = &found.directory.head.attributes;
            let plan = plan_for(caller, wanted.by, &wanted.settings, within, now);
            make_found(disk, directory.number, &found, name, &plan, spare, now)
        }
        Err(status) => Ok(Err(status)),
    }
}

// Does nothing. Its contract says that the numbers of settings have 32 bits.
pub(crate) fn are_asked(settings: Settings)
    ensures { IsAsked settings }
{
    is_word(settings.owner);
    is_word(settings.group);
    is_asked_time(settings.mtime);
}

fn is_word(number: Option<u32>)
    ensures { IsOptionalWord number }
{
    match number {
        None => {}
        Some(_number) => {}
    }
}

fn is_asked_time(mtime: NewTime)
    ensures { IsAskedTime mtime }
{
    match mtime {
        NewTime::Client(_time) => {}
        NewTime::Server => {}
        NewTime::Leave => {}
    }
}

// The node that is made within a directory of these attributes.
fn plan_for(
    caller: &Caller,
    by: Making,
    settings: &Settings,
    within: &Attributes,
    now: Time,
) -> Plan
    ensures { result ≡ plan_for by caller.now settings.now within.now now }
{
    match by {
        Making::Mkdir => mkdir_plan(caller, settings, within, now),
        Making::Create => create_plan(caller, settings, within, now),
    }
}

// The directory that MKDIR makes there.
fn mkdir_plan(caller: &Caller, settings: &Settings, within: &Attributes, now: Time) -> Plan
    ensures { result ≡ mkdir_plan caller.now settings.now within.now now }
{
    Plan {
        refusal: making_status(caller, settings, None, within),
        node: NewNode {
            attributes: within.within(caller, settings, Kind::Directory, DIRECTORY_MODE, now),
            kind: Kind::Directory,
            size: 0,
        },
    }
}

// The file that CREATE makes there.
pub(crate) fn create_plan(
    caller: &Caller,
    settings: &Settings,
    within: &Attributes,
    now: Time,
) -> Plan
    ensures { result ≡ create_plan caller.now settings.now within.now now }
{
    Plan {
        refusal: making_status(caller, settings, settings.size, within),
        node: NewNode {
            attributes: within.within(caller, settings, Kind::File, FILE_MODE, now),
            kind: Kind::File,
            size: settings.size.unwrap_or(0),
        },
    }
}

// The reason not to make a node, if there is one.
fn making_status(
    caller: &Caller,
    settings: &Settings,
    size: Option<u64>,
    directory: &Attributes,
) -> Option<Status>
    ensures { result ≡ making_status caller.now settings.now size directory.now }
{
    if !caller.may_rename(directory) {
        return Some(Status::NoAccess);
    }
    if is_no_time(settings.mtime) {
        return Some(Status::Invalid);
    }
    if is_too_big(size) {
        return Some(Status::TooBig);
    }
    None
}

// True if a client asks for a time that no clock shows.
pub(crate) fn is_no_time(mtime: NewTime) -> bool
    ensures { result ≡ is_no_time mtime }
{
    match mtime {
        NewTime::Client(time) => NANOS <= time.nanos,
        NewTime::Server => false,
        NewTime::Leave => false,
    }
}

// True if no file has this size.
pub(crate) fn is_too_big(size: Option<u64>) -> bool
    ensures { result ≡ is_too_big size }
{
    match size {
        None => false,
        Some(size) => MOST_BYTES < size,
    }
}

// A node is made under a name that was looked for.
fn make_found<T: TreeDisk>(
    disk: &mut T,
    number: u32,
    found: &Named,
    name: &[u8],
    plan: &Plan,
    spare: &Spare,
    now: Time,
) -> Result<Result<Made, Status>, T::Fault>
    requires first { T.writes disk.old ≡ [] }
    requires time { IsTime now }
    requires named { length name.now ≤ MOST_NAME }
    ensures makes { IfOk result (Makes (T.may_be disk.old) (T.may_be disk.new) (T.writes disk.new) number found.now name.now plan.now now) }
    ensures few { IfOk result (λ _. length (T.writes disk.new) ≤ 8) }
{
    match found.hit {
        None => make_planned(disk, number, &found.directory, name, plan, spare, now),
        Some(_hit) => Ok(Err(Status::Exists)),
    }
}

// A node is made if the plan has no refusal.
pub(crate) fn make_planned<T: TreeDisk>(
    disk: &mut T,
    number: u32,
    directory: &Record,
    name: &[u8],
    plan: &Plan,
    spare: &Spare,
    now: Time,
) -> Result<Result<Made, Status>, T::Fault>
    requires first { T.writes disk.old ≡ [] }
    requires time { IsTime now }
    requires named { length name.now ≤ MOST_NAME }
    ensures makes { IfOk result (MakesPlanned (T.may_be disk.old) (T.may_be disk.new) (T.writes disk.new) number directory.now name.now plan.now now) }
    ensures few { IfOk result (λ _. length (T.writes disk.new) ≤ 8) }
{
    match plan.refusal {
        None => make_node(disk, number, directory, name, &plan.node, spare, now),
        Some(status) => Ok(Err(status)),
    }
}

// A node is made if there is room for it.
fn make_node<T: TreeDisk>(
    disk: &mut T,
    number: u32,
    directory: &Record,
    name: &[u8],
    node: &NewNode,
    spare: &Spare,
    now: Time,
) -> Result<Result<Made, Status>, T::Fault>
    requires first { T.writes disk.old ≡ [] }
    requires time { IsTime now }
    requires named { length name.now ≤ MOST_NAME }
    ensures makes { IfOk result (MakesNode (T.may_be disk.old) (T.may_be disk.new) (T.writes disk.new) number directory.now name.now node.now now) }
    ensures few { IfOk result (λ _. length (T.writes disk.new) ≤ 8) }
{
    match find_room(disk, &directory.head, tag_of(name), spare)? {
        None => Ok(Err(Status::NoSpace)),
        Some(room) => {
            let made = put_node(disk, number, directory, name, node, &room, now)?;
            Ok(Ok(made))
        }
    }
}

// A node is put into a directory, under a number that is free.
pub(crate) fn put_node<T: TreeDisk>(
    disk: &mut T,
    number: u32,
    directory: &Record,
    name: &[u8],
    node: &NewNode,
    room: &FreeRoom,
    now: Time,
) -> Result<Made, T::Fault>
    requires first { T.writes disk.old ≡ [] }
    requires time { IsTime now }
    requires named { length name.now ≤ MOST_NAME }
    requires young { room.now.number.generation < LAST_GENERATION }
    requires inside { IsInsidePlace room.now.place }
    ensures plants { IfOk result (Plants (T.may_be disk.old) (T.may_be disk.new) (T.writes disk.new) number directory.now name.now node.now room.now.number room.now.place now) }
    ensures few { IfOk result (λ _. length (T.writes disk.new) ≤ 8) }
{
    let free = room.number;
    match &room.place {
        NewPlace::Here(place) => plant(disk, number, directory, name, node, (free, *place), now),
        NewPlace::Further(growth) => {
            plant_further(disk, number, directory, name, node, (free, growth), now)
        }
    }
}

// A node is put at a place that the directory has: it has an entry, the directory has new times,
// and its inode is in use.
fn plant<T: TreeDisk>(
    disk: &mut T,
    number: u32,
    directory: &Record,
    name: &[u8],
    node: &NewNode,
    room: (FreeNumber, FreePlace),
    now: Time,
) -> Result<Made, T::Fault>
    requires first { T.writes disk.old ≡ [] }
    requires time { IsTime now }
    requires named { length name.now ≤ MOST_NAME }
    requires young { room.0.generation < LAST_GENERATION }
    requires inside { IsInsidePlace (Here room.1) }
    ensures plants { IfOk result (Plants (T.may_be disk.old) (T.may_be disk.new) (T.writes disk.new) number directory.now name.now node.now room.0 (Here room.1) now) }
    ensures few { IfOk result (λ _. length (T.writes disk.new) ≤ 3) }
{
    let free = room.0;
    let place = room.1;
    let entry = new_entry(free, name);
    let block = disk.block(place.block)?;
    let entries = put_entry(block, place.at, entry);
    let head = moved(&directory.head, now);
    let new = new_head(number, free, place_number(&NewPlace::Here(place)), node);
    disk.put_block(place.block, entries)?;
    disk.put_inode(number, used_bytes(head, directory))?;
    disk.put_inode(free.number, new_bytes(new, name))?;
    Ok(told_made(number, &directory.head, &head, free.number, &new))
}

// A node is put at the first place of a block that the directory gets: the block has its entry
// alone, the directory has the block and new times, and the node's inode is in use.
fn plant_further<T: TreeDisk>(
    disk: &mut T,
    number: u32,
    directory: &Record,
    name: &[u8],
    node: &NewNode,
    room: (FreeNumber, &Growth),
    now: Time,
) -> Result<Made, T::Fault>
    requires first { T.writes disk.old ≡ [] }
    requires time { IsTime now }
    requires named { length name.now ≤ MOST_NAME }
    requires young { room.0.generation < LAST_GENERATION }
    requires fits { IsFitGrowth room.1.now }
    ensures plants { IfOk result (Plants (T.may_be disk.old) (T.may_be disk.new) (T.writes disk.new) number directory.now name.now node.now room.entry.0 (Further room.entry.1.now) now) }
    ensures few { IfOk result (λ _. length (T.writes disk.new) ≤ 8) }
{
    let free = room.0;
    let growth = room.1;
    let zeros = disk.zero_block()?;
    let entries = put_entry(zeros, 0, new_entry(free, name));
    let head = moved(&grown(&directory.head, growth), now);
    let new = new_head(number, free, first_place(growth.j), node);
    put_growth(disk, number, growth, entries.bytes())?;
    disk.put_inode(number, used_bytes(head, directory))?;
    disk.put_inode(free.number, new_bytes(new, name))?;
    Ok(told_made(number, &directory.head, &head, free.number, &new))
}

// The entry of a new node.
fn new_entry(free: FreeNumber, name: &[u8]) -> Entry
    ensures { result ≡ new_entry free name.now }
{
    Entry {
        number: free.number,
        tag: tag_of(name),
    }
}

// The inode of a new node.
pub(crate) fn new_head(directory: u32, free: FreeNumber, place: u32, node: &NewNode) -> Head
    requires { free.generation < LAST_GENERATION }
    ensures { result ≡ new_head directory free place node.now }
{
    Head {
        kind: node.kind,
        generation: free.generation + 1,
        attributes: node.attributes,
        directory,
        place,
        size: node.size,
        blocks: [0; DIRECT_BLOCKS],
        index: 0,
    }
}

// The reply: a node that was made, and its directory before and after.
fn told_made(directory: u32, before: &Head, after: &Head, number: u32, new: &Head) -> Made
    ensures { result ≡ told_made directory before.now after.now number new.now }
{
    Made {
        generation: new.generation,
        node: told(number, new),
        directory: Changed {
            before: told(directory, before),
            after: told(directory, after),
        },
    }
}
