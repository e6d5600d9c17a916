// The target of a handle.
ghost use Rattle.std.specs.Prelude.{◌≡◌, [], IfOk, IfErr, OnOk};
ghost use Rattle.journal_inode.specs.Places.{HasFiles};
ghost use Rattle.journal_inode.specs.Places.Object.{inode};
ghost use Rattle.journal_attempts.specs.Refusals.{IsAttemptEnd};
ghost use Rattle.journal_filestore.specs.Doing.{LearnsThat, ReadsOnly, HasReadNoData};
ghost use Rattle.journal_filestore.specs.Handles.{IsAt, IsTarget, target_of};

use crate::Handle;
use crate::objects::read_node;
use crate::operation::AttemptEnd;
use crate::store::FileTxn;
use journal_disk::BlockDisk;
use journal_history::Naming;
use journal_inode::{FileNode, Node, Time, Version};
use std::sync::Wait;

// The target of a handle.
#[derive(Clone, Copy, Debug, PartialEq, Eq)]
pub enum Target {
    // Nothing: its file was removed.
    Gone,
    // The root.
    Directory(Time),
    // A file.
    Regular(FileNode),
}

// Finds the target of a handle, as a transaction's first step.
pub(crate) fn find<'j, 'b, D: BlockDisk, J: Naming, V: Version, W: Wait>(
    rt: &W,
    txn: &mut FileTxn<'j, 'b, D, J, V>,
    handle: Handle,
) -> Result<Target, AttemptEnd<'b, J, V>>
    requires cut { HasFiles J.layout }
    requires reads { txn.old.reads ≡ [] }
    requires writes { txn.old.writes ≡ [] }
    ensures told { IfOk result (λ place. LearnsThat V.VERSION J.layout txn.old txn.new (λ m. IsAt V.VERSION handle.number handle.generation m place)) }
    ensures reads { OnOk result (ReadsOnly txn.old txn.new (inode handle.number)) }
    ensures no_data { OnOk result (HasReadNoData txn.new) }
    ensures fits { IfOk result (IsTarget V.VERSION handle.number) }
    ensures refusal { IfErr result IsAttemptEnd }
{
    let node = read_node(rt, txn, handle.number)?;
    Ok(target_of(node, handle.number, handle.generation))
}

fn target_of(node: Node, number: u32, generation: u32) -> Target
    ensures { result ≡ target_of node number generation }
{
    match node {
        Node::Root(mtime) if number == 1 && generation == 1 => Target::Directory(mtime),
        Node::File(file) if file.generation == generation => Target::Regular(file),
        _ => Target::Gone,
    }
}
