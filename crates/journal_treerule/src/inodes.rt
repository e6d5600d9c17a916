// Each inode alone.
ghost use Rattle.std.specs.Prelude.{◌≡◌, ◌≢◌, ◌<◌, ◌≤◌, ◌↔◌, ◌⊎◌, IsTrue, IfOk, IfErr, IfSome, MatchOption, length};
ghost use Rattle.journal_world.specs.Refusals.{IsReadingRefusal};
ghost use Rattle.journal_tree.specs.declared.limits.TheConstants.{ROOT, MOST_NAME, MOST_PLACES, LAST_GENERATION};
ghost use Rattle.journal_tree.specs.Calls.{name_kind, has_zero_or_slash};
ghost use Rattle.journal_tree.specs.Fit.{IsOptionalLong};
ghost use Rattle.journal_tree.specs.Times.{IsTime};
ghost use Rattle.journal_tree.specs.declared.name.NameKind.TheVariants.{Name};
ghost use Rattle.journal_treestore.specs.Places.{shape_of, IsCut};
ghost use Rattle.journal_treestore.specs.Views.{held_of};
ghost use Rattle.journal_treeobjects.specs.Maps.{view_of};
ghost use Rattle.journal_treerule.specs.Directories.{is_of_directory};
ghost use Rattle.journal_treerule.specs.Parts.{IsNode, IsInPlace, IsWithinBounds, AreAttributesFit, IsSizeOf, IsIndexOf, is_dots, IsRightInode, AreInodesRight, is_used, AreInUse};

use crate::blocks::are_blocks_sound;
use crate::reading::read_inode;
use journal_tree::{
    Attributes, BLOCK_BYTES, ENTRY_BYTES, Kind, MODES, MOST_BYTES, MOST_LINK, MOST_NAME,
    MOST_PLACES, NANOS, ROOT, Time,
};
use journal_treestore::{Cut, Head, Inode, name_in};
use journal_world::{ObjectReader, Refusal};
use std::alloc::Global;

// The most bytes of a directory.
const MOST_DIRECTORY: u64 = ENTRY_BYTES * MOST_PLACES;

// Which of the numbers have nodes, or `None` if some inode is not right by itself. The map stays.
pub(crate) fn nodes_in_use<O: ObjectReader>(
    reader: &mut O,
    cut: Cut,
    alloc: Global,
) -> Result<Option<Vec<bool>>, Refusal<O::Cause>>
    requires cut { IsCut cut }
    requires layout { (O.map reader.old).layout ≡ shape_of cut }
    ensures right { IsTrue (O.trusted reader.old) → IfOk result (λ found.
        MatchOption found (AreInodesRight (view_of cut (O.map reader.old)) cut.numbers → ⊥)
        (λ used. AreInodesRight (view_of cut (O.map reader.old)) cut.numbers × AreInUse (view_of cut (O.map reader.old)) cut.numbers used.items)) }
    ensures whole { IfOk result (λ found. IfSome found (λ used. length used.items ≡ cut.numbers)) }
    ensures refusal { IfErr result (IsReadingRefusal (O.failed reader.new)) }
    ensures stays_failed { IsTrue (O.failed reader.old) → IsTrue (O.failed reader.new) }
    ensures same_map { O.map reader.new ≡ O.map reader.old }
    ensures same_trust { O.trusted reader.new ≡ O.trusted reader.old }
{
    let mut in_use = vec![in alloc; false; cut.numbers as usize]?;
    for number in 0..cut.numbers as u32 {
        let Some(is_used) = right_inode(reader, cut, number)? else {
            return Ok(None);
        };
        in_use[number as usize] = is_used;
    }
    Ok(Some(in_use))
}

// True if the number has a node. `None` if its inode is not right by itself. The map stays.
fn right_inode<O: ObjectReader>(
    reader: &mut O,
    cut: Cut,
    number: u32,
) -> Result<Option<bool>, Refusal<O::Cause>>
    requires cut { IsCut cut }
    requires layout { (O.map reader.old).layout ≡ shape_of cut }
    requires inside { number < cut.numbers }
    ensures right { IsTrue (O.trusted reader.old) → IfOk result (λ found.
        MatchOption found (IsRightInode (view_of cut (O.map reader.old)) number ((view_of cut (O.map reader.old)).inode number) → ⊥)
        (λ used. IsRightInode (view_of cut (O.map reader.old)) number ((view_of cut (O.map reader.old)).inode number)
        × (used ≡ is_used ((view_of cut (O.map reader.old)).inode number)))) }
    ensures refusal { IfErr result (IsReadingRefusal (O.failed reader.new)) }
    ensures stays_failed { IsTrue (O.failed reader.old) → IsTrue (O.failed reader.new) }
    ensures same_map { O.map reader.new ≡ O.map reader.old }
    ensures same_trust { O.trusted reader.new ≡ O.trusted reader.old }
{
    let value = read_inode(reader, cut, number)?;
    let bytes = value.bytes();
    match Inode::read(bytes) {
        Inode::Free(generation) => {
            if !may_be_free(number, generation) {
                return Ok(None);
            }
            Ok(Some(false))
        }
        Inode::Used(head) => {
            let is_right = is_node(reader, cut, number, &head, name_in(bytes))?;
            if !is_right {
                return Ok(None);
            }
            Ok(Some(true))
        }
    }
}

// True if the inode of a number may be free: any but the root's. Each generation fits its type.
fn may_be_free(number: u32, generation: u32) -> bool
    ensures { IsTrue result ↔ ((number ≢ ROOT) × (generation ≤ LAST_GENERATION)) }
{
    let _fits = generation;
    number != ROOT
}

// True if an inode in use, with this name, is right by itself. The map stays.
fn is_node<O: ObjectReader>(
    reader: &mut O,
    cut: Cut,
    number: u32,
    head: &Head,
    name: &[u8],
) -> Result<bool, Refusal<O::Cause>>
    requires cut { IsCut cut }
    requires layout { (O.map reader.old).layout ≡ shape_of cut }
    ensures right { IsTrue (O.trusted reader.old) → IfOk result (λ right.
        IsTrue right ↔ IsNode (view_of cut (O.map reader.old)) number (held_of head.now name.now)) }
    ensures refusal { IfErr result (IsReadingRefusal (O.failed reader.new)) }
    ensures stays_failed { IsTrue (O.failed reader.old) → IsTrue (O.failed reader.new) }
    ensures same_map { O.map reader.new ≡ O.map reader.old }
    ensures same_trust { O.trusted reader.new ≡ O.trusted reader.old }
{
    if !is_in_place(number, head, name) {
        return Ok(false);
    }
    if !is_within_bounds(head, name) {
        return Ok(false);
    }
    are_blocks_sound(reader, cut, number, head)
}

// True if the inode may have the number.
fn is_in_place(number: u32, head: &Head, name: &[u8]) -> bool
    ensures { IsTrue result ↔ IsInPlace number (held_of head.now name.now) }
{
    if number == ROOT {
        is_directory(head.kind) && head.directory == 0 && head.place == 0 && name.is_empty()
    } else {
        number != 0
    }
}

// True if the fields of the inode are within their bounds.
fn is_within_bounds(head: &Head, name: &[u8]) -> bool
    ensures { IsTrue result ↔ IsWithinBounds (held_of head.now name.now) }
{
    is_home(head.directory, name)
        && is_place(head.place)
        && has_size(head.kind, head.size)
        && may_have_index(head.kind, head.index)
        && are_fit(head.attributes)
        && is_generation(head.generation)
}

// True if a node of this name may hang in the directory. The root has none.
fn is_home(directory: u32, name: &[u8]) -> bool
    ensures { IsTrue result ↔ ((directory ≡ 0) ⊎ (name_kind name.now ≡ Name)) }
{
    directory == 0 || is_name(name)
}

// True if a directory may have the place.
fn is_place(place: u32) -> bool
    ensures { IsTrue result ↔ (place < MOST_PLACES) }
{
    u64::from(place) < MOST_PLACES
}

// True if a node may be of the generation. Each generation fits its type.
fn is_generation(generation: u32) -> bool
    ensures { IsTrue result ↔ ((1 ≤ generation) × (generation ≤ LAST_GENERATION)) }
{
    generation >= 1
}

// True if attributes are within their bounds.
fn are_fit(attributes: Attributes) -> bool
    ensures { IsTrue result ↔ AreAttributesFit attributes }
{
    is_verifier(attributes.verifier);
    u32::from(attributes.mode) < MODES && is_time(attributes.mtime) && is_time(attributes.ctime)
}

// Does nothing. Its contract says that a verifier fits its type.
fn is_verifier(verifier: Option<u64>)
    ensures { IsOptionalLong verifier }
{
    match verifier {
        None => {}
        Some(_verifier) => {}
    }
}

// True if it is a time.
fn is_time(time: Time) -> bool
    ensures { IsTrue result ↔ IsTime time }
{
    time.nanos < NANOS
}

// True if a node of the kind may have the size.
fn has_size(kind: Kind, size: u64) -> bool
    ensures { IsTrue result ↔ IsSizeOf kind size }
{
    match kind {
        Kind::Directory => size % BLOCK_BYTES == 0 && size <= MOST_DIRECTORY,
        Kind::File => size <= MOST_BYTES,
        Kind::Link => size <= MOST_LINK,
    }
}

// True if a node of the kind may have this block with the numbers of its index blocks. Where there
// is none, it is 0.
fn may_have_index(kind: Kind, index: u32) -> bool
    ensures { IsTrue result ↔ IsIndexOf kind index }
{
    match kind {
        Kind::Directory | Kind::File => true,
        Kind::Link => index == 0,
    }
}

// True if it is the kind of a directory.
pub(crate) fn is_directory(kind: Kind) -> bool
    ensures { result ≡ is_of_directory kind }
{
    match kind {
        Kind::Directory => true,
        Kind::File | Kind::Link => false,
    }
}

// True if the bytes are a name.
fn is_name(name: &[u8]) -> bool
    ensures { IsTrue result ↔ (name_kind name.now ≡ Name) }
{
    if is_dots(name) {
        return false;
    }
    if has_zero_or_slash(name) {
        return false;
    }
    is_short(name)
}

// True if a name may have as many bytes.
fn is_short(name: &[u8]) -> bool
    ensures { IsTrue result ↔ (length name.now ≤ MOST_NAME) }
{
    name.len() <= MOST_NAME
}

// True if a byte is 0 or `/`.
fn has_zero_or_slash(name: &[u8]) -> bool
    ensures { result ≡ has_zero_or_slash name.now }
{
    name.contains(&0) || name.contains(&b'/')
}

// True if the bytes are none, or those of `.` or `..`.
fn is_dots(name: &[u8]) -> bool
    ensures { result ≡ is_dots name.now }
{
    match name {
        [] => true,
        [byte] => *byte == b'.',
        [first, second] => *first == b'.' && *second == b'.',
        _ => false,
    }
}
