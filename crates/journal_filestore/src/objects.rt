// The objects of files, read and overwritten through a transaction. An operation reads each object
// once, and reads first and then writes.
ghost use Rattle.std.specs.Prelude.{◌≡◌, ◌<◌, ◌≤◌, ◌+◌, ◌-◌, ◌↔◌, [], ◌∷◌, length, true, IsTrue, IfOk, IfErr, OnOk, if◌then◌else◌};
ghost use Rattle.journal_world.specs.declared.address.Kind.TheVariants.{Bit};
ghost use Rattle.journal_world.specs.declared.layout.TheConstants.{FIRST_DATA, BLOCK_BITS, BLOCK_BYTES};
ghost use Rattle.journal_world.specs.Addresses.{is_value_of};
ghost use Rattle.journal_inode.specs.declared.place.TheConstants.{INODES};
ghost use Rattle.journal_inode.specs.declared.node.TheConstants.{NODE_BYTES};
ghost use Rattle.journal_inode.specs.Places.{object, HasFiles};
ghost use Rattle.journal_inode.specs.Places.Object.{bit, inode, block};
ghost use Rattle.journal_inode.specs.Nodes.{inode_bytes, Fits};
ghost use Rattle.journal_inode.specs.Sound.{node_at};
ghost use Rattle.journal_attempts.specs.Refusals.{IsAttemptEnd};
ghost use Rattle.journal_filestore.specs.Handles.{IsSmall};
ghost use Rattle.journal_filestore.specs.Doing.{LearnsThat, WritesObject, IsNotYetRead, ReadsOnly, HasReadNoData, HasBit};

use crate::operation::AttemptEnd;
use crate::store::FileTxn;
use journal_attempts::{AttemptFault, overwrite, read};
use journal_disk::BlockDisk;
use journal_history::Naming;
use journal_inode::{FormatVersion, Node, Version, bit_addr, block_addr, inode_addr};
use journal_world::{BLOCK_BITS, FIRST_DATA, Refusal, Value};
use std::sync::Wait;

// Reads an inode.
pub(crate) fn read_node<'j, 'b, D: BlockDisk, J: Naming, V: Version, W: Wait>(
    rt: &W,
    txn: &mut FileTxn<'j, 'b, D, J, V>,
    number: u32,
) -> Result<Node, AttemptEnd<'b, J, V>>
    requires cut { HasFiles J.layout }
    requires number { number < INODES }
    requires unread { IsNotYetRead txn.old (inode number) }
    requires writes { txn.old.writes ≡ [] }
    ensures told { IfOk result (λ node. LearnsThat V.VERSION J.layout txn.old txn.new (λ m. node_at m number ≡ node)) }
    ensures reads { OnOk result (ReadsOnly txn.old txn.new (inode number)) }
    ensures no_data { OnOk result (HasReadNoData txn.old → HasReadNoData txn.new) }
    ensures fits { IfOk result Fits }
    ensures small { IfOk result (IsSmall V.VERSION) }
    ensures refusal { IfErr result IsAttemptEnd }
{
    let value = read(rt, txn, inode_addr(number))?;
    let node = Node::read(value.bytes());
    if !is_small(V::VERSION, node) {
        return Err(AttemptFault::Refused(Refusal::BadAddress));
    }
    Ok(node)
}

// True if a file has no more bytes than its inode has blocks for. A size above the version's most
// is J2 when it is read, as other numbers are that no sound disk has. So slices of its numbers are
// in range, and no disk can make an operation write outside the data blocks.
fn is_small(version: FormatVersion, node: Node) -> bool
    ensures { IsTrue result ↔ IsSmall version node }
{
    match node {
        Node::File(file) => file.size <= version.most_bytes(),
        _ => true,
    }
}

// Reads a data block.
pub(crate) fn read_block<'j, 'b, D: BlockDisk, J: Naming, V: Version, W: Wait>(
    rt: &W,
    txn: &mut FileTxn<'j, 'b, D, J, V>,
    number: u64,
) -> Result<Value, AttemptEnd<'b, J, V>>
    requires cut { HasFiles J.layout }
    requires unread { FIRST_DATA ≤ number → IsNotYetRead txn.old (block number) }
    requires writes { txn.old.writes ≡ [] }
    ensures told { IfOk result (λ value. LearnsThat V.VERSION J.layout txn.old txn.new (λ m. object m (block number) ≡ value)) }
    ensures reads { OnOk result (ReadsOnly txn.old txn.new (block number)) }
    ensures whole { IfOk result (λ value. length value ≡ 4096) }
    ensures data_block { OnOk result (FIRST_DATA ≤ number) }
    ensures refusal { IfErr result IsAttemptEnd }
{
    if number < FIRST_DATA {
        return Err(AttemptFault::Refused(Refusal::BadAddress));
    }
    read(rt, txn, block_addr(number))
}

// True if the bit of a data block is set.
pub(crate) fn read_bit<'j, 'b, D: BlockDisk, J: Naming, V: Version, W: Wait>(
    rt: &W,
    txn: &mut FileTxn<'j, 'b, D, J, V>,
    number: u64,
) -> Result<bool, AttemptEnd<'b, J, V>>
    requires cut { HasFiles J.layout }
    requires unread { HasBit number → IsNotYetRead txn.old (bit (number - FIRST_DATA)) }
    requires writes { txn.old.writes ≡ [] }
    ensures told { IfOk result (λ is_set. LearnsThat V.VERSION J.layout txn.old txn.new
        (λ m. object m (bit (number - FIRST_DATA)) ≡ (if is_set then 1 else 0) ∷ [])) }
    ensures reads { OnOk result (ReadsOnly txn.old txn.new (bit (number - FIRST_DATA))) }
    ensures data_block { OnOk result (HasBit number) }
    ensures refusal { IfErr result IsAttemptEnd }
{
    if !has_bit(number) {
        return Err(AttemptFault::Refused(Refusal::BadAddress));
    }
    let value = read(rt, txn, bit_addr(number))?;
    Ok(is_one(value.bytes()))
}

// Overwrites an inode.
pub(crate) fn write_node<'j, 'b, D: BlockDisk, J: Naming, V: Version, W: Wait>(
    rt: &W,
    txn: &mut FileTxn<'j, 'b, D, J, V>,
    number: u32,
    node: &Node,
) -> Result<(), AttemptEnd<'b, J, V>>
    requires cut { HasFiles J.layout }
    requires number { number < INODES }
    ensures writes { OnOk result (WritesObject J.layout txn.old txn.new (inode number) (inode_bytes node.now)) }
    ensures refusal { IfErr result IsAttemptEnd }
{
    write_inode(rt, txn, number, &node.bytes())
}

// Overwrites an inode by its bytes.
fn write_inode<'j, 'b, D: BlockDisk, J: Naming, V: Version, W: Wait>(
    rt: &W,
    txn: &mut FileTxn<'j, 'b, D, J, V>,
    number: u32,
    bytes: &[u8],
) -> Result<(), AttemptEnd<'b, J, V>>
    requires cut { HasFiles J.layout }
    requires number { number < INODES }
    requires whole { length bytes.now ≡ NODE_BYTES }
    ensures writes { OnOk result (WritesObject J.layout txn.old txn.new (inode number) bytes.now) }
    ensures refusal { IfErr result IsAttemptEnd }
{
    overwrite(rt, txn, inode_addr(number), bytes)
}

// Overwrites a data block.
pub(crate) fn write_block<'j, 'b, D: BlockDisk, J: Naming, V: Version, W: Wait>(
    rt: &W,
    txn: &mut FileTxn<'j, 'b, D, J, V>,
    number: u64,
    bytes: &[u8],
) -> Result<(), AttemptEnd<'b, J, V>>
    requires cut { HasFiles J.layout }
    requires whole { length bytes.now ≡ BLOCK_BYTES }
    ensures writes { OnOk result (WritesObject J.layout txn.old txn.new (block number) bytes.now) }
    ensures refusal { IfErr result IsAttemptEnd }
{
    if number < FIRST_DATA {
        return Err(AttemptFault::Refused(Refusal::BadAddress));
    }
    overwrite(rt, txn, block_addr(number), bytes)
}

// Overwrites the bit of a data block.
pub(crate) fn write_bit<'j, 'b, D: BlockDisk, J: Naming, V: Version, W: Wait>(
    rt: &W,
    txn: &mut FileTxn<'j, 'b, D, J, V>,
    number: u64,
    is_set: bool,
) -> Result<(), AttemptEnd<'b, J, V>>
    requires cut { HasFiles J.layout }
    ensures writes { OnOk result (WritesObject J.layout txn.old txn.new (bit (number - FIRST_DATA)) ((if is_set then 1 else 0) ∷ [])) }
    ensures refusal { IfErr result IsAttemptEnd }
{
    if !has_bit(number) {
        return Err(AttemptFault::Refused(Refusal::BadAddress));
    }
    overwrite(rt, txn, bit_addr(number), &[u8::from(is_set)])
}

// True if the block may have a bit in the bitmap.
fn has_bit(number: u64) -> bool
    ensures { IsTrue result ↔ HasBit number }
{
    FIRST_DATA <= number && number < FIRST_DATA + u64::from(BLOCK_BITS)
}

// True if a bit's value is 1.
fn is_one(bytes: &[u8]) -> bool
    requires { IsTrue (is_value_of Bit bytes.now) }
    ensures { bytes.now ≡ (if result then 1 else 0) ∷ [] }
{
    bytes[0] == 1
}
