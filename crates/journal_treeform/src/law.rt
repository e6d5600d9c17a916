// Laws of the definitions, for all disks.
ghost use Rattle.journal_treeform.specs.NewDisks.{NewDisksAreSound};
ghost use Rattle.journal_treeform.specs.GrownDisks.{GrownDisksKeepTheTree};

/// The map that the blocks of a new disk are is a disk with a sound tree, whose description has the
/// numbers that were asked for, and whose only node is the root directory, without entries.
pub fn new_disks_are_sound()
    ensures { NewDisksAreSound }
{}

/// The map that the blocks of a grown disk are is a disk with a sound tree, if the map that they
/// were before is one. It has the same nodes.
pub fn grown_disks_keep_the_tree()
    ensures { GrownDisksKeepTheTree }
{}
