// RENAME.
ghost use Rattle.std.specs.Prelude.{ℕ, ◌≡◌, ◌<◌, ◌≤◌, true, List, [], length, IfOk};
ghost use Rattle.journal_tree.specs.declared.limits.TheConstants.{MOST_NAME};
ghost use Rattle.journal_tree.specs.Times.{IsTime};
ghost use Rattle.journal_tree.specs.Op.Call.{rename as rename_call};
ghost use Rattle.journal_tree.specs.Op.Reply.{renamed};
ghost use Rattle.journal_treestore.specs.Entries.{tag_of};
ghost use Rattle.journal_treecalls.specs.Disks.{Learns, Does};
ghost use Rattle.journal_treecalls.specs.Renamings.{names_status, ways_of, IsWayTo, IsWay, is_within, keeps_parent, may_go, TellsBelowGoal, IsBareIf, MayReplace, NeedsSecond, found_place, onto_of, IsInsideDecision, DecidesOwn, DecidesNew, DecidesOver, DecidesHit, DecidesName, both_same, Renames, RenamesNamed};
ghost use Rattle.journal_treecalls.specs.Moves.{Performs};

use crate::TreeDisk;
use crate::ancestry::is_above;
use crate::entries::find_entry;
use crate::moving::put_move;
use crate::name::name_kind;
use crate::named::name_status;
use crate::node::{Record, directory_for, node};
use crate::removal::are_words;
use crate::room::{FreePlace, NewPlace, Spare, find_place};
use crate::search::{Hit, find};
use crate::setting::{changed, is_directory_kind};
use journal_tree::{Caller, Handle, Renamed, Status, Time};
use journal_treestore::{Head, PLACES, is_block_for, tag_of};

/// A name in a directory.
#[derive(Clone, Copy, Debug)]
pub struct NameIn<'a> {
    pub directory: Handle,
    pub name: &'a [u8],
}

// One of the two directories: its number, and its inode.
#[derive(Clone, Copy)]
pub(crate) struct Side {
    pub(crate) number: u32,
    pub(crate) inode: Record,
}

// The directories from which and to which a node is to go.
#[derive(Clone, Copy)]
pub(crate) struct Way {
    pub(crate) source: Side,
    pub(crate) goal: Side,
}

// Where a node goes.
#[derive(Drop)]
pub(crate) enum Destination {
    // To another name of its directory. It stays at its own place. If the name would not be looked
    // for there, a second entry names the node at this other place.
    Own(Option<NewPlace>),
    // The same. This node, which had the new name, goes. True if a second entry is needed, which is
    // put where the name was.
    OwnOver(Hit, bool),
    // To another directory, at the place of this node, which goes.
    Onto(Hit),
    // To another directory, at a place that is free there.
    Into(NewPlace),
}

// The outcome of RENAME: both names are one node, or this node goes there.
#[derive(Drop)]
pub(crate) enum Decision {
    Stays,
    Goes(Hit, Destination),
}

/// RENAME (RFC 1813, 3.3.14): a node gets another name, in its directory or in another. The
/// node that had the new name is removed. Within one directory the node keeps its place. If its
/// new name would not be looked for there, a second entry names it where it would be. If a
/// directory has no free place in which the name may lie, it gets the first of these blocks that
/// are free, one and the index blocks with its number. At most eleven objects are written, however
/// large the nodes are and whatever hangs in them: three inodes, blocks of entries, and blocks that
/// a directory gets, with the records of who has them.
///
/// # Errors
/// - The call is given up.
///
/// The other answers. The first that holds:
/// - `Stale`: the node of one of the handles was removed.
/// - `NotDirectory`: the first handle is a file's.
/// - `NoAccess`: the caller may not search the first directory.
/// - These two for the second directory.
/// - `Invalid`: the first name is `.`, `..` or empty, or has a byte 0 or `/`.
/// - `NameTooLong`: the first name has more than 255 bytes.
/// - These two for the second name.
/// - `NoEntry`: the first directory has no node of the first name.
/// - `NoAccess`: the caller may not write one of the directories, or the first is sticky and
///   neither it nor the node is his, or the node is a directory that goes to another one, and he
///   may not write it.
/// - If both names are one node: both directories as they are, and nothing changes.
/// - `Invalid`: the second directory is the node, or lies below it.
/// - `NoAccess`: the second directory is sticky, and neither it nor the node of the second name is
///   his.
/// - `Exists`: a file would replace a directory, or a directory a file or one that has entries.
/// - `NoSpace`: the second directory has no node of the second name, and no free place in which the
///   name may lie. And too few of the blocks are free, or it has all blocks in which the name may
///   lie. A name within one directory needs no such place where it may lie at that of its node, as
///   in each directory of at most 24576 places.
pub fn rename<T: TreeDisk>(
    disk: &mut T,
    caller: &Caller,
    source: &NameIn,
    goal: &NameIn,
    spare: &Spare,
    now: Time,
) -> Result<Result<Renamed, Status>, T::Fault>
    requires first { T.writes disk.old ≡ [] }
    requires time { IsTime now }
    ensures does { IfOk result (λ reply. Does (T.may_be disk.new) (T.writes disk.new) (rename_call source.now.directory source.now.name.now goal.now.directory goal.now.name.now) caller.now now (renamed reply)) }
    ensures few { IfOk result (λ _. length (T.writes disk.new) ≤ 11) }
{
    are_words(*caller);
    let (name, new_name) = (source.name, goal.name);
    match find_way(disk, caller, source.directory, goal.directory)? {
        Ok(way) => rename_on(disk, caller, &way, name, new_name, spare, now),
        Err(status) => Ok(Err(status)),
    }
}

// ── the directories and the names ──

// The two directories, if the caller may search them.
fn find_way<T: TreeDisk>(
    disk: &mut T,
    caller: &Caller,
    source: Handle,
    goal: Handle,
) -> Result<Result<Way, Status>, T::Fault>
    requires first { T.writes disk.old ≡ [] }
    ensures learns { IfOk result (λ way. Learns (T.may_be disk.old) (T.may_be disk.new) (λ V. IsWay V caller.now source goal way)) }
    ensures first { T.writes disk.new ≡ [] }
{
    match node(disk, source)? {
        None => Ok(Err(Status::Stale)),
        Some(inode) => {
            let number = source.number;
            way_to(disk, caller, Side { number, inode }, goal)
        }
    }
}

// The same, from this node.
fn way_to<T: TreeDisk>(
    disk: &mut T,
    caller: &Caller,
    source: Side,
    goal: Handle,
) -> Result<Result<Way, Status>, T::Fault>
    requires first { T.writes disk.old ≡ [] }
    ensures learns { IfOk result (λ way. Learns (T.may_be disk.old) (T.may_be disk.new) (λ V. IsWayTo V caller.now source goal way)) }
    ensures first { T.writes disk.new ≡ [] }
{
    match node(disk, goal)? {
        None => Ok(Err(Status::Stale)),
        Some(inode) => {
            let number = goal.number;
            Ok(way_of(caller, source, Side { number, inode }))
        }
    }
}

// Two nodes, if they are directories that the caller may search.
fn way_of(caller: &Caller, source: Side, goal: Side) -> Result<Way, Status>
    ensures { result ≡ ways_of caller.now source goal }
{
    let first = directory_for(caller, source.inode)?;
    let second = directory_for(caller, goal.inode)?;
    Ok(Way {
        source: Side {
            number: source.number,
            inode: first,
        },
        goal: Side {
            number: goal.number,
            inode: second,
        },
    })
}

// RENAME in these directories.
fn rename_on<T: TreeDisk>(
    disk: &mut T,
    caller: &Caller,
    way: &Way,
    name: &[u8],
    new_name: &[u8],
    spare: &Spare,
    now: Time,
) -> Result<Result<Renamed, Status>, T::Fault>
    requires first { T.writes disk.old ≡ [] }
    requires time { IsTime now }
    ensures renames { IfOk result (Renames (T.may_be disk.old) (T.may_be disk.new) (T.writes disk.new) caller.now way.now name.now new_name.now now) }
    ensures few { IfOk result (λ _. length (T.writes disk.new) ≤ 11) }
{
    match names_status(name, new_name) {
        Some(status) => Ok(Err(status)),
        None => rename_named(disk, caller, way, name, new_name, spare, now),
    }
}

// The answer to names that are none.
fn names_status(name: &[u8], new_name: &[u8]) -> Option<Status>
    ensures { result ≡ names_status name.now new_name.now }
{
    let none = Status::Invalid;
    match name_status(name_kind(name), none, none) {
        Some(status) => Some(status),
        None => name_status(name_kind(new_name), none, none),
    }
}

// RENAME of a name that is one, to another.
fn rename_named<T: TreeDisk>(
    disk: &mut T,
    caller: &Caller,
    way: &Way,
    name: &[u8],
    new_name: &[u8],
    spare: &Spare,
    now: Time,
) -> Result<Result<Renamed, Status>, T::Fault>
    requires first { T.writes disk.old ≡ [] }
    requires time { IsTime now }
    requires short { length new_name.now ≤ MOST_NAME }
    ensures renames { IfOk result (RenamesNamed (T.may_be disk.old) (T.may_be disk.new) (T.writes disk.new) caller.now way.now name.now new_name.now now) }
    ensures few { IfOk result (λ _. length (T.writes disk.new) ≤ 11) }
{
    match decide(disk, caller, way, name, new_name, spare)? {
        Ok(decision) => {
            let renamed = perform(disk, way, &decision, new_name, now)?;
            Ok(Ok(renamed))
        }
        Err(status) => Ok(Err(status)),
    }
}

// Does what was decided.
fn perform<T: TreeDisk>(
    disk: &mut T,
    way: &Way,
    decision: &Decision,
    new_name: &[u8],
    now: Time,
) -> Result<Renamed, T::Fault>
    requires first { T.writes disk.old ≡ [] }
    requires time { IsTime now }
    requires short { length new_name.now ≤ MOST_NAME }
    requires inside { IsInsideDecision decision.now }
    ensures performs { IfOk result (Performs (T.may_be disk.old) (T.may_be disk.new) (T.writes disk.new) way.now decision.now new_name.now now) }
    ensures few { IfOk result (λ _. length (T.writes disk.new) ≤ 11) }
{
    match decision {
        Decision::Stays => Ok(both_same(way)),
        Decision::Goes(hit, to) => put_move(disk, way, hit, to, new_name, now),
    }
}

// The reply where nothing changes.
fn both_same(way: &Way) -> Renamed
    ensures { result ≡ both_same way.now }
{
    let (source, goal) = (&way.source, &way.goal);
    Renamed {
        source: changed(source.number, &source.inode.head, &source.inode.head),
        goal: changed(goal.number, &goal.inode.head, &goal.inode.head),
    }
}

// ── the decision ──

// The decision on a name.
fn decide<T: TreeDisk>(
    disk: &mut T,
    caller: &Caller,
    way: &Way,
    name: &[u8],
    new_name: &[u8],
    spare: &Spare,
) -> Result<Result<Decision, Status>, T::Fault>
    requires first { T.writes disk.old ≡ [] }
    ensures learns { IfOk result (λ decision. Learns (T.may_be disk.old) (T.may_be disk.new) (λ V. DecidesName V caller.now way.now name.now new_name.now decision)) }
    ensures inside { IfOk result (λ decision. IfOk decision IsInsideDecision) }
    ensures first { T.writes disk.new ≡ [] }
{
    match find(disk, &way.source.inode.head, name)? {
        None => Ok(Err(Status::NoEntry)),
        Some(hit) => decide_hit(disk, caller, way, &hit, new_name, spare),
    }
}

// The decision on a node that was found.
fn decide_hit<T: TreeDisk>(
    disk: &mut T,
    caller: &Caller,
    way: &Way,
    hit: &Hit,
    new_name: &[u8],
    spare: &Spare,
) -> Result<Result<Decision, Status>, T::Fault>
    requires first { T.writes disk.old ≡ [] }
    requires inside { hit.now.at < PLACES }
    ensures learns { IfOk result (λ decision. Learns (T.may_be disk.old) (T.may_be disk.new) (λ V. DecidesHit V caller.now way.now hit.now new_name.now decision)) }
    ensures inside { IfOk result (λ decision. IfOk decision IsInsideDecision) }
    ensures first { T.writes disk.new ≡ [] }
{
    if !may_go(caller, way, &hit.head) {
        return Ok(Err(Status::NoAccess));
    }
    match find(disk, &way.goal.inode.head, new_name)? {
        None => decide_new(disk, way, hit, new_name, spare),
        Some(over) => decide_over(disk, caller, way, hit, new_name, &over),
    }
}

// True if the caller may take the node out of the one directory and put a name into the other. A
// directory that gets another parent he must be allowed to write too.
fn may_go(caller: &Caller, way: &Way, node: &Head) -> bool
    ensures { result ≡ may_go caller.now way.now node.now }
{
    let source = &way.source.inode.head.attributes;
    let goal = &way.goal.inode.head.attributes;
    let keeps = keeps_parent(way, node);
    caller.may_rename(source)
        && caller.may_take(source, &node.attributes)
        && caller.may_rename(goal)
        && (keeps || caller.may_write(&node.attributes))
}

// True if a node is no directory, or keeps the directory in which it hangs.
fn keeps_parent(way: &Way, node: &Head) -> bool
    ensures { result ≡ keeps_parent way.now node.now }
{
    is_within(way) || !is_directory_kind(node.kind)
}

// True if both directories are one.
fn is_within(way: &Way) -> bool
    ensures { result ≡ is_within way.now }
{
    way.source.number == way.goal.number
}

// The decision on a node, if the goal has none of the new name.
fn decide_new<T: TreeDisk>(
    disk: &mut T,
    way: &Way,
    hit: &Hit,
    new_name: &[u8],
    spare: &Spare,
) -> Result<Result<Decision, Status>, T::Fault>
    requires first { T.writes disk.old ≡ [] }
    requires inside { hit.now.at < PLACES }
    ensures learns { IfOk result (λ decision. Learns (T.may_be disk.old) (T.may_be disk.new) (λ V. DecidesNew V way.now hit.now new_name.now decision)) }
    ensures inside { IfOk result (λ decision. IfOk decision IsInsideDecision) }
    ensures first { T.writes disk.new ≡ [] }
{
    if is_below(disk, way, hit)? {
        return Ok(Err(Status::Invalid));
    }
    let tag = tag_of(new_name);
    if is_within(way) {
        return decide_own(disk, way, hit, tag, spare);
    }
    match find_place(disk, &way.goal.inode.head, tag, spare.blocks)? {
        None => Ok(Err(Status::NoSpace)),
        Some(place) => Ok(Ok(Decision::Goes(*hit, Destination::Into(place)))),
    }
}

// The same within one directory, for a name of this tag. A second entry that the node has is put to
// use if it may stay where it is.
fn decide_own<T: TreeDisk>(
    disk: &mut T,
    way: &Way,
    hit: &Hit,
    tag: u32,
    spare: &Spare,
) -> Result<Result<Decision, Status>, T::Fault>
    requires first { T.writes disk.old ≡ [] }
    requires inside { hit.now.at < PLACES }
    requires within { is_within way.now ≡ true }
    ensures learns { IfOk result (λ decision. Learns (T.may_be disk.old) (T.may_be disk.new) (λ V. (new_name : List ℕ) → tag_of new_name ≡ tag → DecidesOwn V way.now hit.now new_name decision)) }
    ensures inside { IfOk result (λ decision. IfOk decision IsInsideDecision) }
    ensures first { T.writes disk.new ≡ [] }
{
    if !needs_second(tag, hit) {
        return Ok(Ok(Decision::Goes(*hit, Destination::Own(None))));
    }
    if is_block_for(tag, hit.j) {
        let own = NewPlace::Here(found_place(hit));
        return Ok(Ok(Decision::Goes(*hit, Destination::Own(Some(own)))));
    }
    match find_place(disk, &way.source.inode.head, tag, spare.blocks)? {
        None => Ok(Err(Status::NoSpace)),
        Some(place) => Ok(Ok(Decision::Goes(*hit, Destination::Own(Some(place))))),
    }
}

// True if a name of this tag would not be looked for at the place of the node's home.
fn needs_second(tag: u32, hit: &Hit) -> bool
    ensures { NeedsSecond tag hit.now result }
{
    let block = u64::from(hit.head.place) / PLACES as u64;
    !is_block_for(tag, block)
}

// The place at which a node was found.
fn found_place(hit: &Hit) -> FreePlace
    ensures { result ≡ found_place hit.now }
{
    FreePlace {
        j: hit.j,
        block: hit.block,
        at: hit.at,
    }
}

// True if the goal is the node, or lies below it. A node that keeps its parent needs no look.
fn is_below<T: TreeDisk>(disk: &mut T, way: &Way, hit: &Hit) -> Result<bool, T::Fault>
    requires first { T.writes disk.old ≡ [] }
    ensures learns { IfOk result (λ below. Learns (T.may_be disk.old) (T.may_be disk.new) (λ V. TellsBelowGoal V way.now hit.now below)) }
    ensures first { T.writes disk.new ≡ [] }
{
    if keeps_parent(way, &hit.head) {
        return Ok(false);
    }
    is_above(disk, hit.number, way.goal.number)
}

// The decision on a node, if this one has the new name.
fn decide_over<T: TreeDisk>(
    disk: &mut T,
    caller: &Caller,
    way: &Way,
    hit: &Hit,
    new_name: &[u8],
    over: &Hit,
) -> Result<Result<Decision, Status>, T::Fault>
    requires first { T.writes disk.old ≡ [] }
    requires inside { hit.now.at < PLACES }
    requires over { over.now.at < PLACES }
    ensures learns { IfOk result (λ decision. Learns (T.may_be disk.old) (T.may_be disk.new) (λ V. DecidesOver V caller.now way.now hit.now new_name.now over.now decision)) }
    ensures inside { IfOk result (λ decision. IfOk decision IsInsideDecision) }
    ensures first { T.writes disk.new ≡ [] }
{
    if over.number == hit.number {
        return Ok(Ok(Decision::Stays));
    }
    if is_below(disk, way, hit)? {
        return Ok(Err(Status::Invalid));
    }
    if !caller.may_take(&way.goal.inode.head.attributes, &over.head.attributes) {
        return Ok(Err(Status::NoAccess));
    }
    if !may_replace(disk, &hit.head, &over.head)? {
        return Ok(Err(Status::Exists));
    }
    let needs = needs_second(tag_of(new_name), hit);
    Ok(Ok(Decision::Goes(*hit, onto(way, over, needs))))
}

// True if a node may replace another: a directory replaces one without entries, and what is none
// replaces what is none.
fn may_replace<T: TreeDisk>(disk: &mut T, node: &Head, over: &Head) -> Result<bool, T::Fault>
    requires first { T.writes disk.old ≡ [] }
    ensures learns { IfOk result (λ may. Learns (T.may_be disk.old) (T.may_be disk.new) (λ V. MayReplace V node.now over.now may)) }
    ensures first { T.writes disk.new ≡ [] }
{
    if is_directory_kind(node.kind) {
        return is_bare(disk, over);
    }
    Ok(!is_directory_kind(over.kind))
}

// True if a node is a directory without entries.
fn is_bare<T: TreeDisk>(disk: &mut T, over: &Head) -> Result<bool, T::Fault>
    requires first { T.writes disk.old ≡ [] }
    ensures learns { IfOk result (λ is. Learns (T.may_be disk.old) (T.may_be disk.new) (λ V. IsBareIf V over.now is)) }
    ensures first { T.writes disk.new ≡ [] }
{
    if !is_directory_kind(over.kind) {
        return Ok(false);
    }
    let entry = find_entry(disk, over)?;
    Ok(entry.is_none())
}

// Where a node goes that replaces another. True if it needs a second entry in its directory.
fn onto(way: &Way, over: &Hit, needs: bool) -> Destination
    ensures { result ≡ onto_of way.now over.now needs }
{
    if is_within(way) {
        Destination::OwnOver(*over, needs)
    } else {
        Destination::Onto(*over)
    }
}
