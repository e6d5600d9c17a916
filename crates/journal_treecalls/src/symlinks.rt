// SYMLINK and READLINK.
ghost use Rattle.std.specs.Prelude.{◌≡◌, ◌<◌, ◌≤◌, [], None, IfOk, length, ◌+◌};
ghost use Rattle.journal_tree.specs.declared.caller.Caller.{Caller};
ghost use Rattle.journal_tree.specs.declared.limits.TheConstants.{LAST_GENERATION, MOST_NAME, MOST_LINK};
ghost use Rattle.journal_tree.specs.declared.time.Time.{Time};
ghost use Rattle.journal_tree.specs.Times.{IsTime};
ghost use Rattle.journal_tree.specs.Op.Call.{symlink as symlink_call, readlink as readlink_call};
ghost use Rattle.journal_tree.specs.Op.Reply.{made, link_read};
ghost use Rattle.journal_treestore.specs.Steps.{text_block};
ghost use Rattle.journal_treestore.specs.Views.{zero_block};
ghost use Rattle.journal_treecalls.specs.Disks.{Learns, Does};
ghost use Rattle.journal_treecalls.specs.Rooms.{IsInsidePlace};
ghost use Rattle.journal_treecalls.specs.Symlinks.{linking_status, link_plan, link_refusal, PutsText, PutsLink, LinksWithin, LinksNode, LinksFound, link_told, ReadsLink};

use crate::TreeDisk;
use crate::blocks::other_of;
use crate::bytes::{new_bytes, put};
use crate::creation::{NewNode, Plan, are_asked, is_no_time, new_head, put_node};
use crate::growth::{owner_at, with_first};
use crate::named::{Named, find_name};
use crate::node::{Record, node};
use crate::portion::read_file;
use crate::removal::are_words;
use crate::room::{FreeRoom, Spare, find_room, place_number};
use journal_tree::{
    Attributes, Caller, Handle, Kind, LINK_MODE, MOST_LINK, Made, Settings, Status, Time, Told,
};
use journal_treestore::{Head, tag_of};
use journal_world::Value;

/// What a SYMLINK makes.
#[derive(Clone, Copy, Debug)]
pub struct NewLink<'a> {
    pub settings: Settings,
    /// The text: where the link leads. It is not looked at.
    pub text: &'a [u8],
}

/// The answer of READLINK.
#[derive(Debug, Drop)]
pub struct LinkReply {
    pub node: Told,
    pub text: Vec<u8>,
}

// A link that is to be made, or the reason not to, and its text.
#[derive(Clone, Copy)]
struct Wanted<'a> {
    plan: Plan,
    text: &'a [u8],
}

/// SYMLINK (RFC 1813, 3.3.10): a symbolic link of a name that the directory does not have, under
/// the first of these numbers that is free. Its text goes into the first of these blocks that is
/// free and that the directory does not get. The directory gets others as in `mkdir`. At most
/// eleven writes are made, two of them of the link's inode.
///
/// # Errors
/// - The call is given up.
///
/// The other answers. The first that holds:
/// - Those of `mkdir` up to the `NoAccess` of who may not write the directory.
/// - `Invalid`: the mtime that is asked for is none, or the text is empty.
/// - `NameTooLong`: the text has more than 4095 bytes.
/// - `NoSpace`: none of the numbers is free, or too few of the blocks are, or the directory has all
///   the blocks in which the name may lie, and these are full.
pub fn symlink<T: TreeDisk>(
    disk: &mut T,
    caller: &Caller,
    directory: Handle,
    name: &[u8],
    link: &NewLink,
    spare: &Spare,
    now: Time,
) -> Result<Result<Made, Status>, T::Fault>
    requires first { T.writes disk.old ≡ [] }
    requires time { IsTime now }
    ensures does { IfOk result (λ reply. Does (T.may_be disk.new) (T.writes disk.new) (symlink_call directory name.now link.now.settings link.now.text.now) caller.now now (made reply)) }
    ensures few { IfOk result (λ _. length (T.writes disk.new) ≤ 11) }
{
    are_words(*caller);
    let settings = link.settings;
    let text = link.text;
    are_asked(settings);
    let taken = Status::Exists;
    match find_name(disk, caller, directory, name, taken, taken)? {
        Ok(found) => {
            let within = &found.directory.head.attributes;
            let plan = link_plan(caller, &settings, text, within, now);
            let wanted = Wanted { plan, text };
            link_found(disk, directory.number, &found, name, &wanted, spare, now)
        }
        Err(status) => Ok(Err(status)),
    }
}

// The link that is made within a directory of these attributes.
fn link_plan(
    caller: &Caller,
    settings: &Settings,
    text: &[u8],
    within: &Attributes,
    now: Time,
) -> Plan
    ensures { result ≡ link_plan caller.now settings.now text.now within.now now }
{
    Plan {
        refusal: linking_status(caller, settings, text, within),
        node: NewNode {
            attributes: within.within(caller, settings, Kind::Link, LINK_MODE, now),
            kind: Kind::Link,
            size: text.len() as u64,
        },
    }
}

// The reason not to make a link, if there is one.
fn linking_status(
    caller: &Caller,
    settings: &Settings,
    text: &[u8],
    directory: &Attributes,
) -> Option<Status>
    ensures { result ≡ linking_status caller.now settings.now text.now directory.now }
{
    if !caller.may_rename(directory) {
        return Some(Status::NoAccess);
    }
    if is_no_time(settings.mtime) || text.is_empty() {
        return Some(Status::Invalid);
    }
    if MOST_LINK < text.len() as u64 {
        return Some(Status::NameTooLong);
    }
    None
}

// A link is made under a name that was looked for, if there is no reason not to.
fn link_found<T: TreeDisk>(
    disk: &mut T,
    number: u32,
    found: &Named,
    name: &[u8],
    wanted: &Wanted,
    spare: &Spare,
    now: Time,
) -> Result<Result<Made, Status>, T::Fault>
    requires first { T.writes disk.old ≡ [] }
    requires time { IsTime now }
    requires named { length name.now ≤ MOST_NAME }
    requires few { link_refusal found.now wanted.now.plan ≡ None → length wanted.now.text.now ≤ MOST_LINK }
    ensures links { IfOk result (LinksFound (T.may_be disk.old) (T.may_be disk.new) (T.writes disk.new) number found.now name.now wanted.now.plan wanted.now.text.now now) }
    ensures few { IfOk result (λ _. length (T.writes disk.new) ≤ 11) }
{
    match link_refusal(found, &wanted.plan) {
        Some(status) => Ok(Err(status)),
        None => link_node(disk, number, &found.directory, name, wanted, spare, now),
    }
}

// The reason not to make a link under a name that was looked for, if there is one.
fn link_refusal(found: &Named, plan: &Plan) -> Option<Status>
    ensures { result ≡ link_refusal found.now plan.now }
{
    match found.hit {
        Some(_hit) => Some(Status::Exists),
        None => plan.refusal,
    }
}

// A link is made if there is room for it.
fn link_node<T: TreeDisk>(
    disk: &mut T,
    number: u32,
    directory: &Record,
    name: &[u8],
    wanted: &Wanted,
    spare: &Spare,
    now: Time,
) -> Result<Result<Made, Status>, T::Fault>
    requires first { T.writes disk.old ≡ [] }
    requires time { IsTime now }
    requires named { length name.now ≤ MOST_NAME }
    requires few { length wanted.now.text.now ≤ MOST_LINK }
    ensures links { IfOk result (LinksNode (T.may_be disk.old) (T.may_be disk.new) (T.writes disk.new) number directory.now name.now wanted.now.plan.node wanted.now.text.now now) }
    ensures few { IfOk result (λ _. length (T.writes disk.new) ≤ 11) }
{
    let blocks = spare.blocks;
    match find_room(disk, &directory.head, tag_of(name), spare)? {
        None => Ok(Err(Status::NoSpace)),
        Some(room) => link_within(disk, number, directory, name, wanted, (&room, blocks), now),
    }
}

// A link is made in this room if one of the blocks can have its text: nobody has it, and the
// directory does not get it.
fn link_within<T: TreeDisk>(
    disk: &mut T,
    number: u32,
    directory: &Record,
    name: &[u8],
    wanted: &Wanted,
    spare: (&FreeRoom, &[u32]),
    now: Time,
) -> Result<Result<Made, Status>, T::Fault>
    requires first { T.writes disk.old ≡ [] }
    requires time { IsTime now }
    requires named { length name.now ≤ MOST_NAME }
    requires few { length wanted.now.text.now ≤ MOST_LINK }
    requires young { spare.0.now.number.generation < LAST_GENERATION }
    requires inside { IsInsidePlace spare.0.now.place }
    ensures links { IfOk result (LinksWithin (T.may_be disk.old) (T.may_be disk.new) (T.writes disk.new) number directory.now name.now wanted.now.plan.node wanted.now.text.now spare.entry.0.now now) }
    ensures few { IfOk result (λ _. length (T.writes disk.new) ≤ 11) }
{
    let room = spare.0;
    match other_of(disk, &room.place, spare.1)? {
        None => Ok(Err(Status::NoSpace)),
        Some(block) => {
            let made = put_link(disk, number, directory, name, wanted, (room, block), now)?;
            Ok(Ok(made))
        }
    }
}

// A link is put into a directory, and its text into a block.
fn put_link<T: TreeDisk>(
    disk: &mut T,
    number: u32,
    directory: &Record,
    name: &[u8],
    wanted: &Wanted,
    room: (&FreeRoom, u32),
    now: Time,
) -> Result<Made, T::Fault>
    requires first { T.writes disk.old ≡ [] }
    requires time { IsTime now }
    requires named { length name.now ≤ MOST_NAME }
    requires few { length wanted.now.text.now ≤ MOST_LINK }
    requires young { room.0.now.number.generation < LAST_GENERATION }
    requires inside { IsInsidePlace room.0.now.place }
    ensures puts { IfOk result (PutsLink (T.may_be disk.old) (T.may_be disk.new) (T.writes disk.new) number directory.now name.now wanted.now.plan.node wanted.now.text.now room.entry.0.now room.entry.1 now) }
    ensures few { IfOk result (λ _. length (T.writes disk.new) ≤ 11) }
{
    let within = room.0;
    let free = within.number;
    let text = wanted.text;
    let new = &wanted.plan.node;
    let made = put_node(disk, number, directory, name, new, within, now)?;
    let link = new_head(number, free, place_number(&within.place), new);
    put_text(disk, free.number, &link, name, room.1, text)?;
    Ok(made)
}

// A new link gets a block with its text: the block is written, its record, and the link's inode
// once more, with the block.
fn put_text<T: TreeDisk>(
    disk: &mut T,
    number: u32,
    link: &Head,
    name: &[u8],
    block: u32,
    text: &[u8],
) -> Result<(), T::Fault>
    requires named { length name.now ≤ MOST_NAME }
    requires few { length text.now ≤ MOST_LINK }
    ensures puts { IfOk result (λ _. PutsText (T.may_be disk.old) (T.may_be disk.new) (T.writes disk.old) (T.writes disk.new) number link.now name.now block text.now) }
    ensures few { IfOk result (λ _. length (T.writes disk.new) ≤ length (T.writes disk.old) + 3) }
{
    let zeros = disk.zero_block()?;
    let head = with_first(link, block);
    disk.put_block(block, text_block(zeros, text))?;
    disk.put_owner(block, owner_at(number, 0))?;
    disk.put_inode(number, new_bytes(head, name))?;
    Ok(())
}

// The block of a text, over a block of zeros.
fn text_block(zeros: Value, text: &[u8]) -> Value
    requires zeros { zeros ≡ zero_block }
    requires whole { length zeros ≡ 4096 }
    requires few { length text.now ≤ MOST_LINK }
    ensures is { result ≡ text_block text.now }
    ensures whole { length result ≡ 4096 }
{
    let mut bytes = zeros.into_bytes();
    put(&mut bytes, 0, text);
    Value::new(bytes)
}

/// READLINK (RFC 1813, 3.3.5): the text of a symbolic link. It asks for no right.
///
/// # Errors
/// - The call is given up.
///
/// The other answers. The first that holds:
/// - `Stale`: the handle's node was removed.
/// - `Invalid`: it is no symbolic link.
pub fn readlink<T: TreeDisk>(
    disk: &mut T,
    handle: Handle,
) -> Result<Result<LinkReply, Status>, T::Fault>
    requires first { T.writes disk.old ≡ [] }
    ensures does { IfOk result (λ reply. (caller : Caller) (now : Time) → Does (T.may_be disk.new) (T.writes disk.new) (readlink_call handle) caller now (link_read (link_told reply))) }
    ensures unwritten { T.writes disk.new ≡ [] }
{
    match node(disk, handle)? {
        None => Ok(Err(Status::Stale)),
        Some(target) => read_link(disk, handle.number, &target),
    }
}

// READLINK of the node of an inode.
fn read_link<T: TreeDisk>(
    disk: &mut T,
    number: u32,
    target: &Record,
) -> Result<Result<LinkReply, Status>, T::Fault>
    requires first { T.writes disk.old ≡ [] }
    ensures learns { IfOk result (λ reply. Learns (T.may_be disk.old) (T.may_be disk.new) (λ V. ReadsLink V number target.now reply)) }
    ensures first { T.writes disk.new ≡ [] }
{
    match target.head.kind {
        Kind::Directory | Kind::File => Ok(Err(Status::Invalid)),
        Kind::Link => {
            let read = read_file(disk, number, &target.head, 0, MOST_LINK as u32)?;
            Ok(Ok(LinkReply {
                node: read.file,
                text: read.bytes,
            }))
        }
    }
}
