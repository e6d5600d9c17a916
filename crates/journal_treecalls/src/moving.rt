// The writes of RENAME.
ghost use Rattle.std.specs.Prelude.{◌≡◌, ◌<◌, ◌≤◌, [], length, IfOk, ◌+◌, Some};
ghost use Rattle.journal_tree.specs.declared.limits.TheConstants.{MOST_NAME};
ghost use Rattle.journal_tree.specs.Times.{IsTime};
ghost use Rattle.journal_treecalls.specs.declared.room.NewPlace.TheVariants.{Here, Further};
ghost use Rattle.journal_treecalls.specs.declared.renaming.Destination.TheVariants.{Own, OwnOver, Onto, Into};
ghost use Rattle.journal_treecalls.specs.Disks.{Learns};
ghost use Rattle.journal_treecalls.specs.Rooms.{IsInsidePlace, IsFitGrowth};
ghost use Rattle.journal_treecalls.specs.Seats.{AreInside};
ghost use Rattle.journal_treecalls.specs.Renamings.{IsInsideOwn, IsInsideDestination};
ghost use Rattle.journal_treecalls.specs.Moves.{own_place, rehomed_head, IsMovedHeads, changed_both, AreEntriesOf, named_entry, entry_place, placed, placed_if, name_place, second_over, PutsTwo, PutsThree, PutsGrowth, MovesTo};

use crate::TreeDisk;
use crate::bytes::{bounded, free_bytes, moved, new_bytes, put_entry, used_bytes};
use crate::changes::{PlacedEntry, put_changes};
use crate::growth::{Growth, grown, put_growth};
use crate::renaming::{Destination, Way};
use crate::room::{FreePlace, NewPlace, first_place, place_number};
use crate::search::Hit;
use crate::seats::{EntryPlace, EntryPlaces, block_numbers, places_of};
use crate::setting::changed;
use journal_tree::{Attributes, Renamed, Time};
use journal_treestore::{Entry, Head, PLACES, tag_of};

// The inodes of the two directories and of the node, once it has gone.
#[derive(Clone, Copy)]
pub(crate) struct Moved {
    pub(crate) source: Head,
    pub(crate) goal: Head,
    pub(crate) node: Head,
}

// A node goes where it was decided.
pub(crate) fn put_move<T: TreeDisk>(
    disk: &mut T,
    way: &Way,
    hit: &Hit,
    to: &Destination,
    new_name: &[u8],
    now: Time,
) -> Result<Renamed, T::Fault>
    requires first { T.writes disk.old ≡ [] }
    requires time { IsTime now }
    requires short { length new_name.now ≤ MOST_NAME }
    requires inside { hit.now.at < PLACES }
    requires there { IsInsideDestination to.now }
    ensures moves { IfOk result (MovesTo (T.may_be disk.old) (T.may_be disk.new) (T.writes disk.new) way.now hit.now to.now new_name.now now) }
    ensures few { IfOk result (λ _. length (T.writes disk.new) ≤ 11) }
{
    match to {
        Destination::Own(place) => put_own(disk, way, hit, place, new_name, now),
        Destination::OwnOver(over, needs) => {
            put_own_over(disk, way, hit, over, *needs, new_name, now)
        }
        Destination::Onto(over) => put_onto(disk, way, hit, over, new_name, now),
        Destination::Into(place) => put_into(disk, way, hit, place, new_name, now),
    }
}

// ── within one directory ──

// A node gets another name at its place. A second entry names it at the other place, if there is
// one.
fn put_own<T: TreeDisk>(
    disk: &mut T,
    way: &Way,
    hit: &Hit,
    place: &Option<NewPlace>,
    new_name: &[u8],
    now: Time,
) -> Result<Renamed, T::Fault>
    requires first { T.writes disk.old ≡ [] }
    requires time { IsTime now }
    requires short { length new_name.now ≤ MOST_NAME }
    requires inside { hit.now.at < PLACES }
    requires there { IsInsideOwn place.now }
    ensures moves { IfOk result (MovesTo (T.may_be disk.old) (T.may_be disk.new) (T.writes disk.new) way.now hit.now (Own place.now) new_name.now now) }
    ensures few { IfOk result (λ _. length (T.writes disk.new) ≤ 11) }
{
    match place {
        None => put_named(disk, way, hit, None, new_name, now),
        Some(NewPlace::Here(here)) => put_named(disk, way, hit, Some(*here), new_name, now),
        Some(NewPlace::Further(growth)) => put_grown(disk, way, hit, growth, new_name, now),
    }
}

// The directory has the place of the second entry: the node's entry gets the tag of the name, and
// the directory and the node are written.
fn put_named<T: TreeDisk>(
    disk: &mut T,
    way: &Way,
    hit: &Hit,
    second: Option<FreePlace>,
    new_name: &[u8],
    now: Time,
) -> Result<Renamed, T::Fault>
    requires first { T.writes disk.old ≡ [] }
    requires time { IsTime now }
    requires short { length new_name.now ≤ MOST_NAME }
    requires inside { hit.now.at < PLACES }
    requires there { IsInsideOwn (own_place second) }
    ensures moves { IfOk result (MovesTo (T.may_be disk.old) (T.may_be disk.new) (T.writes disk.new) way.now hit.now (Own (own_place second)) new_name.now now) }
    ensures few { IfOk result (λ _. length (T.writes disk.new) ≤ 11) }
{
    let entry = named_entry(hit.number, new_name);
    let old = entries_of(disk, &way.source.inode.head, hit)?;
    let heads = moved_heads(way, hit, hit.head.directory, hit.head.place, now);
    let changes = [
        placed_if(old.second, Entry::NONE),
        Some(placed(old.home, entry)),
        placed_if(entry_place(second), entry),
    ];
    put_changes(disk, &changes)?;
    put_two_heads(disk, way, hit.number, &heads, new_name)
}

// It is the first place of a block that the directory gets.
fn put_grown<T: TreeDisk>(
    disk: &mut T,
    way: &Way,
    hit: &Hit,
    growth: &Growth,
    new_name: &[u8],
    now: Time,
) -> Result<Renamed, T::Fault>
    requires first { T.writes disk.old ≡ [] }
    requires time { IsTime now }
    requires short { length new_name.now ≤ MOST_NAME }
    requires inside { hit.now.at < PLACES }
    requires fits { IsFitGrowth growth.now }
    ensures moves { IfOk result (MovesTo (T.may_be disk.old) (T.may_be disk.new) (T.writes disk.new) way.now hit.now (Own (Some (Further growth.now))) new_name.now now) }
    ensures few { IfOk result (λ _. length (T.writes disk.new) ≤ 11) }
{
    let entry = named_entry(hit.number, new_name);
    let old = entries_of(disk, &way.source.inode.head, hit)?;
    let source = grown(&way.source.inode.head, growth);
    let goal = grown(&way.goal.inode.head, growth);
    let heads = Moved {
        source: moved(&source, now),
        goal: moved(&goal, now),
        ..moved_heads(way, hit, hit.head.directory, hit.head.place, now)
    };
    let changes = [
        placed_if(old.second, Entry::NONE),
        Some(placed(old.home, entry)),
    ];
    put_changes(disk, &changes)?;
    put_first(disk, way.source.number, growth, entry)?;
    put_two_heads(disk, way, hit.number, &heads, new_name)
}

// A node gets the name of another at its place. The other goes, with its entries. If the name needs
// it, a second entry names the node where the name was.
fn put_own_over<T: TreeDisk>(
    disk: &mut T,
    way: &Way,
    hit: &Hit,
    over: &Hit,
    needs: bool,
    new_name: &[u8],
    now: Time,
) -> Result<Renamed, T::Fault>
    requires first { T.writes disk.old ≡ [] }
    requires time { IsTime now }
    requires short { length new_name.now ≤ MOST_NAME }
    requires inside { hit.now.at < PLACES }
    requires there { over.now.at < PLACES }
    ensures moves { IfOk result (MovesTo (T.may_be disk.old) (T.may_be disk.new) (T.writes disk.new) way.now hit.now (OwnOver over.now needs) new_name.now now) }
    ensures few { IfOk result (λ _. length (T.writes disk.new) ≤ 11) }
{
    let entry = named_entry(hit.number, new_name);
    let old = entries_of(disk, &way.source.inode.head, hit)?;
    let other = entries_of(disk, &way.goal.inode.head, over)?;
    let heads = moved_heads(way, hit, hit.head.directory, hit.head.place, now);
    let changes = [
        Some(placed(other.home, Entry::NONE)),
        placed_if(other.second, Entry::NONE),
        placed_if(old.second, Entry::NONE),
        Some(placed(old.home, entry)),
        placed_if(second_over(&other, needs), entry),
    ];
    put_changes(disk, &changes)?;
    disk.put_inode(over.number, free_bytes(over.head.generation))?;
    put_two_heads(disk, way, hit.number, &heads, new_name)
}

// The place of a second entry, if one is needed: that at which the name of the other was.
fn second_over(other: &EntryPlaces, needs: bool) -> Option<EntryPlace>
    ensures { result ≡ second_over other.now needs }
{
    if needs { Some(name_place(other)) } else { None }
}

// The place at which the name of a node is looked for.
fn name_place(places: &EntryPlaces) -> EntryPlace
    ensures { result ≡ name_place places.now }
{
    match places.second {
        None => places.home,
        Some(second) => second,
    }
}

// ── to another directory ──

// A node goes to another directory, at the place of one that goes. Where that had a second entry,
// it has one.
fn put_onto<T: TreeDisk>(
    disk: &mut T,
    way: &Way,
    hit: &Hit,
    over: &Hit,
    new_name: &[u8],
    now: Time,
) -> Result<Renamed, T::Fault>
    requires first { T.writes disk.old ≡ [] }
    requires time { IsTime now }
    requires short { length new_name.now ≤ MOST_NAME }
    requires inside { hit.now.at < PLACES }
    requires there { over.now.at < PLACES }
    ensures moves { IfOk result (MovesTo (T.may_be disk.old) (T.may_be disk.new) (T.writes disk.new) way.now hit.now (Onto over.now) new_name.now now) }
    ensures few { IfOk result (λ _. length (T.writes disk.new) ≤ 11) }
{
    let entry = named_entry(hit.number, new_name);
    let old = entries_of(disk, &way.source.inode.head, hit)?;
    let other = entries_of(disk, &way.goal.inode.head, over)?;
    let heads = moved_heads(way, hit, way.goal.number, over.head.place, now);
    let changes = [
        Some(placed(other.home, Entry::NONE)),
        placed_if(other.second, Entry::NONE),
        Some(placed(old.home, Entry::NONE)),
        placed_if(old.second, Entry::NONE),
        Some(placed(other.home, entry)),
        placed_if(other.second, entry),
    ];
    put_changes(disk, &changes)?;
    disk.put_inode(over.number, free_bytes(over.head.generation))?;
    put_three_heads(disk, way, hit.number, &heads, new_name)
}

// A node goes to a free place of another directory.
fn put_into<T: TreeDisk>(
    disk: &mut T,
    way: &Way,
    hit: &Hit,
    place: &NewPlace,
    new_name: &[u8],
    now: Time,
) -> Result<Renamed, T::Fault>
    requires first { T.writes disk.old ≡ [] }
    requires time { IsTime now }
    requires short { length new_name.now ≤ MOST_NAME }
    requires inside { hit.now.at < PLACES }
    requires there { IsInsidePlace place.now }
    ensures moves { IfOk result (MovesTo (T.may_be disk.old) (T.may_be disk.new) (T.writes disk.new) way.now hit.now (Into place.now) new_name.now now) }
    ensures few { IfOk result (λ _. length (T.writes disk.new) ≤ 11) }
{
    match place {
        NewPlace::Here(here) => put_here(disk, way, hit, *here, new_name, now),
        NewPlace::Further(growth) => put_further(disk, way, hit, growth, new_name, now),
    }
}

// The directory has the place.
fn put_here<T: TreeDisk>(
    disk: &mut T,
    way: &Way,
    hit: &Hit,
    here: FreePlace,
    new_name: &[u8],
    now: Time,
) -> Result<Renamed, T::Fault>
    requires first { T.writes disk.old ≡ [] }
    requires time { IsTime now }
    requires short { length new_name.now ≤ MOST_NAME }
    requires inside { hit.now.at < PLACES }
    requires there { IsInsidePlace (Here here) }
    ensures moves { IfOk result (MovesTo (T.may_be disk.old) (T.may_be disk.new) (T.writes disk.new) way.now hit.now (Into (Here here)) new_name.now now) }
    ensures few { IfOk result (λ _. length (T.writes disk.new) ≤ 11) }
{
    let entry = named_entry(hit.number, new_name);
    let old = entries_of(disk, &way.source.inode.head, hit)?;
    let place = place_number(&NewPlace::Here(here));
    let heads = moved_heads(way, hit, way.goal.number, place, now);
    let changes = [
        Some(placed(old.home, Entry::NONE)),
        placed_if(old.second, Entry::NONE),
        placed_if(entry_place(Some(here)), entry),
    ];
    put_changes(disk, &changes)?;
    put_three_heads(disk, way, hit.number, &heads, new_name)
}

// It is the first place of a block that the directory gets.
fn put_further<T: TreeDisk>(
    disk: &mut T,
    way: &Way,
    hit: &Hit,
    growth: &Growth,
    new_name: &[u8],
    now: Time,
) -> Result<Renamed, T::Fault>
    requires first { T.writes disk.old ≡ [] }
    requires time { IsTime now }
    requires short { length new_name.now ≤ MOST_NAME }
    requires inside { hit.now.at < PLACES }
    requires fits { IsFitGrowth growth.now }
    ensures moves { IfOk result (MovesTo (T.may_be disk.old) (T.may_be disk.new) (T.writes disk.new) way.now hit.now (Into (Further growth.now)) new_name.now now) }
    ensures few { IfOk result (λ _. length (T.writes disk.new) ≤ 11) }
{
    let entry = named_entry(hit.number, new_name);
    let old = entries_of(disk, &way.source.inode.head, hit)?;
    let place = first_place(growth.j);
    let goal = grown(&way.goal.inode.head, growth);
    let heads = Moved {
        goal: moved(&goal, now),
        ..moved_heads(way, hit, way.goal.number, place, now)
    };
    let changes = [
        Some(placed(old.home, Entry::NONE)),
        placed_if(old.second, Entry::NONE),
    ];
    put_changes(disk, &changes)?;
    put_first(disk, way.goal.number, growth, entry)?;
    put_three_heads(disk, way, hit.number, &heads, new_name)
}

// ── entries ──

// Where the entries of a node lie that was found in a directory.
fn entries_of<T: TreeDisk>(
    disk: &mut T,
    directory: &Head,
    hit: &Hit,
) -> Result<EntryPlaces, T::Fault>
    requires first { T.writes disk.old ≡ [] }
    requires inside { hit.now.at < PLACES }
    ensures learns { IfOk result (λ places. Learns (T.may_be disk.old) (T.may_be disk.new) (λ V. AreEntriesOf V directory.now hit.now places)) }
    ensures inside { IfOk result AreInside }
    ensures first { T.writes disk.new ≡ [] }
{
    let numbers = block_numbers(disk, directory)?;
    Ok(places_of(&numbers, hit))
}

// The entry of a node under a name.
fn named_entry(number: u32, name: &[u8]) -> Entry
    ensures { result ≡ named_entry number name.now }
{
    let tag = tag_of(name);
    Entry { number, tag }
}

// An entry at a place.
fn placed(place: EntryPlace, entry: Entry) -> PlacedEntry
    ensures { result ≡ placed place entry }
{
    PlacedEntry {
        block: place.block,
        at: place.at,
        entry,
    }
}

// The same, if there is a place.
fn placed_if(place: Option<EntryPlace>, entry: Entry) -> Option<PlacedEntry>
    ensures { result ≡ placed_if place entry }
{
    match place {
        None => None,
        Some(place) => Some(placed(place, entry)),
    }
}

// A place that was free, if there is one.
fn entry_place(free: Option<FreePlace>) -> Option<EntryPlace>
    ensures { result ≡ entry_place free }
{
    match free {
        None => None,
        Some(free) => Some(EntryPlace {
            j: free.j,
            block: free.block,
            at: free.at,
        }),
    }
}

// A block that a directory gets is written with this entry at its first place.
fn put_first<T: TreeDisk>(
    disk: &mut T,
    number: u32,
    growth: &Growth,
    entry: Entry,
) -> Result<(), T::Fault>
    requires fits { IsFitGrowth growth.now }
    ensures puts { IfOk result (λ _. PutsGrowth (T.may_be disk.old) (T.may_be disk.new) (T.writes disk.old) (T.writes disk.new) number growth.now entry) }
    ensures few { IfOk result (λ _. length (T.writes disk.new) ≤ length (T.writes disk.old) + 6) }
{
    let zeros = disk.zero_block()?;
    let block = put_entry(zeros, 0, entry);
    put_growth(disk, number, growth, block.bytes())
}

// ── inodes ──

// The inodes once the node hangs at this place. The directories have new times.
fn moved_heads(way: &Way, hit: &Hit, directory: u32, place: u32, now: Time) -> Moved
    requires { IsTime now }
    ensures { IsMovedHeads way.now hit.now directory place now result }
{
    Moved {
        source: moved(&way.source.inode.head, now),
        goal: moved(&way.goal.inode.head, now),
        node: rehomed(&hit.head, directory, place, now),
    }
}

// A node with another place, changed at a moment.
fn rehomed(node: &Head, directory: u32, place: u32, now: Time) -> Head
    requires { IsTime now }
    ensures { IsTime node.now.attributes.ctime → result ≡ rehomed_head node.now directory place now }
{
    let head = *node;
    let last = bounded(head.attributes.ctime);
    Head {
        attributes: Attributes {
            ctime: last.of_change(now),
            verifier: None,
            ..head.attributes
        },
        directory,
        place,
        ..head
    }
}

// The inodes of a directory and of its node are written.
fn put_two_heads<T: TreeDisk>(
    disk: &mut T,
    way: &Way,
    number: u32,
    heads: &Moved,
    new_name: &[u8],
) -> Result<Renamed, T::Fault>
    requires short { length new_name.now ≤ MOST_NAME }
    ensures puts { IfOk result (PutsTwo (T.may_be disk.old) (T.may_be disk.new) (T.writes disk.old) (T.writes disk.new) way.now number heads.now new_name.now) }
    ensures few { IfOk result (λ _. length (T.writes disk.new) ≤ length (T.writes disk.old) + 2) }
{
    let source = used_bytes(heads.source, &way.source.inode);
    disk.put_inode(way.source.number, source)?;
    disk.put_inode(number, new_bytes(heads.node, new_name))?;
    Ok(changed_both(way, heads))
}

// The same of two directories.
fn put_three_heads<T: TreeDisk>(
    disk: &mut T,
    way: &Way,
    number: u32,
    heads: &Moved,
    new_name: &[u8],
) -> Result<Renamed, T::Fault>
    requires short { length new_name.now ≤ MOST_NAME }
    ensures puts { IfOk result (PutsThree (T.may_be disk.old) (T.may_be disk.new) (T.writes disk.old) (T.writes disk.new) way.now number heads.now new_name.now) }
    ensures few { IfOk result (λ _. length (T.writes disk.new) ≤ length (T.writes disk.old) + 3) }
{
    let source = used_bytes(heads.source, &way.source.inode);
    let goal = used_bytes(heads.goal, &way.goal.inode);
    disk.put_inode(way.source.number, source)?;
    disk.put_inode(way.goal.number, goal)?;
    disk.put_inode(number, new_bytes(heads.node, new_name))?;
    Ok(changed_both(way, heads))
}

// The reply: both directories before and after.
fn changed_both(way: &Way, heads: &Moved) -> Renamed
    ensures { result ≡ changed_both way.now heads.now }
{
    let (source, goal) = (&way.source, &way.goal);
    Renamed {
        source: changed(source.number, &source.inode.head, &heads.source),
        goal: changed(goal.number, &goal.inode.head, &heads.goal),
    }
}
