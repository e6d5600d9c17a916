// The entries of a directory, from a place on.
ghost use Rattle.std.specs.Prelude.{◌≡◌, ◌+◌, ◌<◌, ◌≤◌, [], IfOk, length};
ghost use Rattle.journal_tree.specs.declared.limits.TheConstants.{MOST_BLOCKS, MOST_NAME, MOST_PLACES};
ghost use Rattle.journal_treestore.specs.Entries.{entry_from};
ghost use Rattle.journal_treestore.specs.Views.{View};
ghost use Rattle.journal_treecalls.specs.Disks.{Learns};
ghost use Rattle.journal_treecalls.specs.Seats.{AreWhole};
ghost use Rattle.journal_treecalls.specs.Walks.{IsNodeLine, ShowsEntry, ShowsPlace, ShowsBytes, ShowsBlock, ShowsBlocks};

use crate::TreeDisk;
use crate::lines::{Line, Page, add, lines_left, named_line};
use crate::node::told;
use crate::seats::BlockNumbers;
use journal_tree::BLOCK_PLACES;
use journal_treestore::{Entry, Head, Inode, PLACES, name_in};

// How many inodes are read ahead at once. A page of 230 lines so asks some 15 times and not 230
// times.
const AHEAD: usize = 16;

// The numbers of the next entries of a block, as many as are read ahead at once.
#[derive(Clone, Copy)]
struct NextNumbers {
    numbers: [u32; AHEAD],
    // How many there are.
    count: usize,
    // The place after the last one that was looked at.
    end: usize,
}

// The lines of the entries in the first blocks of a directory, which have these numbers, come onto
// the page, from a place on.
pub(crate) fn show_blocks<T: TreeDisk>(
    disk: &mut T,
    numbers: &BlockNumbers,
    count: u64,
    begin: u64,
    page: &mut Page,
) -> Result<(), T::Fault>
    requires first { T.writes disk.old ≡ [] }
    requires whole { AreWhole numbers.now }
    requires few { count ≤ MOST_BLOCKS }
    ensures learns { IfOk result (λ _. Learns (T.may_be disk.old) (T.may_be disk.new) (λ V. ShowsBlocks V begin numbers.now count page.old page.new)) }
    ensures first { T.writes disk.new ≡ [] }
{
    for j in 0..count {
        show_block(disk, numbers.number(j), j, begin, page)?;
    }
    Ok(())
}

// So do those of block j, which has this number. Block 0 is none, and none is read once the page
// has no room.
fn show_block<T: TreeDisk>(
    disk: &mut T,
    number: u32,
    j: u64,
    begin: u64,
    page: &mut Page,
) -> Result<(), T::Fault>
    requires first { T.writes disk.old ≡ [] }
    requires low { j < MOST_BLOCKS }
    ensures learns { IfOk result (λ _. Learns (T.may_be disk.old) (T.may_be disk.new) (λ V. ShowsBlock V begin number j page.old page.new)) }
    ensures first { T.writes disk.new ≡ [] }
{
    if number == 0 {
        return Ok(());
    }
    if BLOCK_PLACES * (j + 1) <= begin {
        return Ok(());
    }
    match page.room {
        None => Ok(()),
        Some(_room) => {
            let block = disk.block(number)?;
            show_bytes(disk, block.bytes(), j, begin, page)
        }
    }
}

// So do those of the bytes of a block.
fn show_bytes<T: TreeDisk>(
    disk: &mut T,
    block: &[u8],
    j: u64,
    begin: u64,
    page: &mut Page,
) -> Result<(), T::Fault>
    requires first { T.writes disk.old ≡ [] }
    requires low { j < MOST_BLOCKS }
    requires whole { length block.now ≡ 4096 }
    ensures learns { IfOk result (λ _. Learns (T.may_be disk.old) (T.may_be disk.new) (λ V. ShowsBytes V begin block.now j PLACES page.old page.new)) }
    ensures first { T.writes disk.new ≡ [] }
{
    // No inode of a place before the first one is read.
    let mut ahead = begin.saturating_sub(BLOCK_PLACES * j) as usize;
    for at in 0..PLACES {
        ahead = read_ahead(disk, block, at, ahead, page);
        let place = BLOCK_PLACES * j + at as u64;
        show_place(disk, Entry::read(block, at), place, begin, page)?;
    }
    Ok(())
}

// So does that of a place, if the place is not before the first.
fn show_place<T: TreeDisk>(
    disk: &mut T,
    entry: Entry,
    place: u64,
    begin: u64,
    page: &mut Page,
) -> Result<(), T::Fault>
    requires first { T.writes disk.old ≡ [] }
    requires low { place < MOST_PLACES }
    ensures learns { IfOk result (λ _. Learns (T.may_be disk.old) (T.may_be disk.new) (λ V. ShowsPlace V begin place entry page.old page.new)) }
    ensures first { T.writes disk.new ≡ [] }
{
    if place < begin {
        return Ok(());
    }
    if entry.number == 0 {
        return Ok(());
    }
    match page.room {
        None => Ok(()),
        Some(_room) => show_entry(disk, entry.number, place, page),
    }
}

// So does that of an entry. A node's second entry has none.
fn show_entry<T: TreeDisk>(
    disk: &mut T,
    number: u32,
    place: u64,
    page: &mut Page,
) -> Result<(), T::Fault>
    requires first { T.writes disk.old ≡ [] }
    requires low { place < MOST_PLACES }
    ensures learns { IfOk result (λ _. Learns (T.may_be disk.old) (T.may_be disk.new) (λ V. ShowsEntry V place number page.old page.new)) }
    ensures first { T.writes disk.new ≡ [] }
{
    let bytes = disk.inode(number)?;
    match Inode::read(&bytes) {
        Inode::Used(head) => {
            if u64::from(head.place) != place {
                return Ok(());
            }
            let shown = line_of(place, number, &head, name_in(&bytes));
            add(disk, page, shown)
        }
        Inode::Free(_) => Ok(()),
    }
}

// The line of an entry.
fn line_of(place: u64, number: u32, head: &Head, name: &[u8]) -> Line
    requires low { place < MOST_PLACES }
    requires named { length name.now ≤ MOST_NAME }
    ensures { IsNodeLine result (place + 3) number head.now name.now }
{
    named_line(
        place + 3,
        number,
        name,
        head.generation,
        Some(told(number, head)),
    )
}

// Reads ahead the inodes of the next entries of a block, from a place on, if those before it alone
// were and the page has room. Returns the place before which they were.
fn read_ahead<T: TreeDisk>(
    disk: &mut T,
    block: &[u8],
    at: usize,
    ahead: usize,
    page: &Page,
) -> usize
    requires first { T.writes disk.old ≡ [] }
    requires whole { length block.now ≡ 4096 }
    ensures same { (V : View) → T.may_be disk.new V → T.may_be disk.old V }
    ensures first { T.writes disk.new ≡ [] }
{
    let Some(room) = page.room else {
        return ahead;
    };
    if at < ahead {
        return ahead;
    }
    let next = next_numbers(block, at, lines_left(&page.lines, room));
    disk.prefetch_inodes(&next.numbers[..next.count]);
    next.end
}

// The numbers of the next entries of a block, from a place on: those that may have room on the page
// and the first that has none, but no more than are read ahead at once.
fn next_numbers(block: &[u8], from: usize, lines: u64) -> NextNumbers
    requires { length block.now ≡ 4096 }
    ensures { result.count ≤ AHEAD }
{
    let mut numbers = [0; AHEAD];
    let mut count = 0;
    for at in from..PLACES {
        if count == AHEAD || lines < count as u64 {
            return NextNumbers {
                numbers,
                count,
                end: at,
            };
        }
        let number = Entry::read(block, at).number;
        if number != 0 {
            numbers[count] = number;
            count += 1;
        }
    }
    NextNumbers {
        numbers,
        count,
        end: PLACES,
    }
}
