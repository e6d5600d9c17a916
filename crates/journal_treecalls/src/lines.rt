// Lines of a listing, as many as have room.
ghost use Rattle.std.specs.Prelude.{◌≡◌, ◌<◌, ◌≤◌, IfOk, length};
ghost use Rattle.journal_tree.specs.declared.limits.TheConstants.{MOST_NAME};
ghost use Rattle.journal_tree.specs.Listing.{line_bytes};
ghost use Rattle.journal_treecalls.specs.Lines.{item_of, bytes_beside, room_after, left_after, IsLine, Adds};

use crate::TreeDisk;
use crate::bytes::put;
use journal_tree::{MOST_NAME, Told};

/// A line of a listing: what READDIR returns, and beside that what READDIRPLUS returns.
#[derive(Clone, Copy)]
pub struct Line {
    /// With which the next call goes on.
    pub cookie: u64,
    /// The number of its node.
    pub number: u32,
    /// The bytes of its name, and then zeros.
    pub name: [u8; MOST_NAME],
    /// How many bytes its name has.
    pub name_bytes: u8,
    /// The generation of the node.
    pub generation: u32,
    /// What the node has, if it is there.
    pub node: Option<Told>,
}

// The room that is left: for lines as READDIR returns them, and for all of them.
#[derive(Clone, Copy)]
pub(crate) struct Room {
    pub(crate) names: u64,
    pub(crate) bytes: u64,
    pub(crate) is_plus: bool,
}

// The lines so far, and the room that is left. Once a line had none, there is none.
#[derive(Drop)]
pub(crate) struct Page {
    pub(crate) lines: Vec<Line>,
    pub(crate) room: Option<Room>,
}

// The bytes that READDIRPLUS takes for a line beside those of READDIR.
const BESIDE: u64 = 88 + 4 + 4 + 16;

// A line of a name.
pub(crate) fn named_line(
    cookie: u64,
    number: u32,
    name: &[u8],
    generation: u32,
    node: Option<Told>,
) -> Line
    requires { length name.now ≤ MOST_NAME }
    ensures { IsLine result cookie number name.now generation node }
{
    let mut bytes = [0; MOST_NAME];
    put(&mut bytes, 0, name);
    Line {
        cookie,
        number,
        name: bytes,
        name_bytes: name.len() as u8,
        generation,
        node,
    }
}

// A line is added, if it has room.
pub(crate) fn add<T: TreeDisk>(disk: &T, page: &mut Page, line: Line) -> Result<(), T::Fault>
    ensures { IfOk result (λ _. Adds page.old page.new line) }
{
    let left = left_after(page.room, &line);
    page.room = left;
    match left {
        None => Ok(()),
        Some(_room) => disk.add_line(&mut page.lines, line),
    }
}

// The room that is left after a line.
fn left_after(room: Option<Room>, line: &Line) -> Option<Room>
    ensures { result ≡ left_after room (item_of line.now) }
{
    match room {
        None => None,
        Some(room) => room_after(room, line),
    }
}

// The same, where there was room.
fn room_after(room: Room, line: &Line) -> Option<Room>
    ensures { result ≡ room_after room (item_of line.now) }
{
    let bytes = line_bytes(line);
    let all = bytes_beside(room.is_plus, bytes);
    if bytes <= room.names && all <= room.bytes {
        return Some(Room {
            names: room.names - bytes,
            bytes: room.bytes - all,
            is_plus: room.is_plus,
        });
    }
    None
}

// How many more lines have room, if they are as long as the last one. It is a guess, and tells only
// how much is read ahead.
pub(crate) fn lines_left(lines: &[Line], room: Room) -> u64 {
    let Some(last) = lines.last() else {
        return u64::MAX;
    };
    let bytes = line_bytes(last);
    let by_names = room.names / bytes;
    if !room.is_plus {
        return by_names;
    }
    by_names.min(room.bytes / (bytes + BESIDE))
}

// The bytes that READDIR takes for a line.
fn line_bytes(line: &Line) -> u64
    ensures is { result ≡ line_bytes (item_of line.now) }
    ensures few { result ≤ 300 }
    ensures some { 0 < result }
{
    let padded = 4 * ((u64::from(line.name_bytes) + 3) / 4);
    4 + 8 + (4 + padded) + 8
}

// Those that READDIRPLUS takes for it. READDIR has no such bound.
fn bytes_beside(is_plus: bool, bytes: u64) -> u64
    requires { bytes ≤ 300 }
    ensures { result ≡ bytes_beside is_plus bytes }
{
    if is_plus { bytes + BESIDE } else { 0 }
}
