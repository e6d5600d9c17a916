// FSSTAT, FSINFO and PATHCONF.
ghost use Rattle.std.specs.Prelude.{◌≡◌, ◌≤◌, ◌-◌, [], IfOk};
ghost use Rattle.journal_tree.specs.declared.time.Time.{Time};
ghost use Rattle.journal_tree.specs.declared.caller.Caller.{Caller};
ghost use Rattle.journal_tree.specs.Op.Call.{fsstat as fsstat_call, fsinfo as fsinfo_call, pathconf as pathconf_call};
ghost use Rattle.journal_tree.specs.Op.Reply.{space, facts, name_facts};
ghost use Rattle.journal_treestore.specs.declared.place.TheConstants.{MOST_DISK_BLOCKS};
ghost use Rattle.journal_treecalls.specs.Disks.{Does};
ghost use Rattle.journal_treecalls.specs.Facts.{at_most, space_of, facts_of, facts_told, name_facts_of, name_facts_told};

use crate::TreeDisk;
use crate::node::{node, told};
use journal_tree::{
    BLOCK_BYTES, Free, Handle, MOST_BYTES, MOST_NAME, Space, Status, TRANSFER_BYTES, Told,
};
use journal_treestore::Head;

// There are symbolic links, all nodes have the same facts of PATHCONF, and a client may set times.
const PROPERTIES: u32 = 26;

/// The answer of FSINFO.
#[derive(Clone, Copy, Debug, PartialEq, Eq)]
pub struct FactsReply {
    pub node: Told,
    /// The most bytes of a READ, of a WRITE and of a READDIR that are asked for at best.
    pub transfer: u32,
    /// Of which number of bytes they are best a multiple.
    pub multiple: u64,
    /// The most bytes of a file.
    pub file: u64,
    /// The seconds from one time to the next.
    pub step_secs: u32,
    /// And the nanoseconds.
    pub step_nanos: u32,
    /// What files can be.
    pub properties: u32,
}

/// The answer of PATHCONF.
#[derive(Clone, Copy, Debug, PartialEq, Eq)]
pub struct NameFactsReply {
    pub node: Told,
    /// How many names a node may have.
    pub links: u32,
    /// The most bytes of a name.
    pub name: usize,
    /// True if a longer name is refused, and not cut.
    pub refuses_long: bool,
    /// True if root alone changes an owner.
    pub owner_restricted: bool,
    /// True if names that differ in case alone are one.
    pub ignores_case: bool,
    /// True if the case of a name is kept.
    pub keeps_case: bool,
}

/// FSSTAT (RFC 1813, 3.3.18): how much room there is, and how much of it may be free. What is given
/// as free is a hint, and at most what there is of it is told. It asks for no right.
///
/// # Errors
/// - The call is given up.
///
/// The other answer:
/// - `Stale`: the handle's node was removed.
pub fn fsstat<T: TreeDisk>(
    disk: &mut T,
    handle: Handle,
    free: Free,
) -> Result<Result<Space, Status>, T::Fault>
    requires first { T.writes disk.old ≡ [] }
    ensures does { IfOk result (λ reply. (caller : Caller) (now : Time) → Does (T.may_be disk.new) (T.writes disk.new) (fsstat_call handle) caller now (space reply)) }
    ensures unwritten { T.writes disk.new ≡ [] }
{
    let blocks = disk.data_blocks();
    let numbers = disk.numbers();
    match node(disk, handle)? {
        None => Ok(Err(Status::Stale)),
        Some(target) => Ok(Ok(space_of(told(handle.number, &target.head), blocks, numbers, free))),
    }
}

// FSSTAT's reply. Number 0 is no node's.
fn space_of(node: Told, blocks: u64, numbers: u64, free: Free) -> Space
    requires { blocks ≤ MOST_DISK_BLOCKS }
    ensures { result ≡ space_of node blocks numbers free }
{
    let nodes = less_one(numbers);
    Space {
        node,
        total_bytes: BLOCK_BYTES * blocks,
        free_bytes: BLOCK_BYTES * at_most(free.blocks, blocks),
        total_nodes: nodes,
        free_nodes: at_most(free.numbers, nodes),
    }
}

// The lesser one of two numbers.
fn at_most(number: u64, most: u64) -> u64
    ensures is { result ≡ at_most number most }
    ensures few { result ≤ most }
{
    if most < number { most } else { number }
}

// The number less one, and 0 of 0.
fn less_one(number: u64) -> u64
    ensures { result ≡ number - 1 }
{
    if number == 0 { 0 } else { number - 1 }
}

/// FSINFO (RFC 1813, 3.3.19): what the file system takes. It asks for no right.
///
/// # Errors
/// - The call is given up.
///
/// The other answer:
/// - `Stale`: the handle's node was removed.
pub fn fsinfo<T: TreeDisk>(
    disk: &mut T,
    handle: Handle,
) -> Result<Result<FactsReply, Status>, T::Fault>
    requires first { T.writes disk.old ≡ [] }
    ensures does { IfOk result (λ reply. (caller : Caller) (now : Time) → Does (T.may_be disk.new) (T.writes disk.new) (fsinfo_call handle) caller now (facts (facts_told reply))) }
    ensures unwritten { T.writes disk.new ≡ [] }
{
    match node(disk, handle)? {
        None => Ok(Err(Status::Stale)),
        Some(target) => Ok(Ok(facts_of(handle.number, &target.head))),
    }
}

// FSINFO's reply for a node.
fn facts_of(number: u32, head: &Head) -> FactsReply
    ensures { result ≡ facts_of number head.now }
{
    FactsReply {
        node: told(number, head),
        transfer: TRANSFER_BYTES,
        multiple: BLOCK_BYTES,
        file: MOST_BYTES,
        step_secs: 0,
        step_nanos: 1,
        properties: PROPERTIES,
    }
}

/// PATHCONF (RFC 1813, 3.3.20): what is said of names. It asks for no right.
///
/// # Errors
/// - The call is given up.
///
/// The other answer:
/// - `Stale`: the handle's node was removed.
pub fn pathconf<T: TreeDisk>(
    disk: &mut T,
    handle: Handle,
) -> Result<Result<NameFactsReply, Status>, T::Fault>
    requires first { T.writes disk.old ≡ [] }
    ensures does { IfOk result (λ reply. (caller : Caller) (now : Time) → Does (T.may_be disk.new) (T.writes disk.new) (pathconf_call handle) caller now (name_facts (name_facts_told reply))) }
    ensures unwritten { T.writes disk.new ≡ [] }
{
    match node(disk, handle)? {
        None => Ok(Err(Status::Stale)),
        Some(target) => Ok(Ok(name_facts_of(handle.number, &target.head))),
    }
}

// PATHCONF's reply for a node.
fn name_facts_of(number: u32, head: &Head) -> NameFactsReply
    ensures { result ≡ name_facts_of number head.now }
{
    NameFactsReply {
        node: told(number, head),
        links: 1,
        name: MOST_NAME,
        refuses_long: true,
        owner_restricted: true,
        ignores_case: false,
        keeps_case: true,
    }
}
