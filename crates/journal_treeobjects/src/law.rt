// Laws of the definitions, for all disks and maps.
ghost use Rattle.journal_treeobjects.specs.Maps.{IsRuleOfValues, IsCutOnce};
ghost use Rattle.journal_treeobjects.specs.GrownMaps.{GrownMapsKeepTheTree};
ghost use Rattle.journal_treeobjects.specs.Effects.{WritesShow};

/// The rule of a sound tree speaks of a map's values alone, as the rule of a mount has to.
pub fn the_rule_is_of_values()
    ensures { IsRuleOfValues }
{}

/// Where inodes fill their blocks, the layout of a disk says how it is cut.
pub fn one_layout_is_cut_in_one_way()
    ensures { IsCutOnce }
{}

/// A map that has each object of a disk with a sound tree, cut so that there are more blocks, is a
/// disk with a sound tree, which has the same nodes.
pub fn grown_maps_keep_the_tree()
    ensures { GrownMapsKeepTheTree }
{}

/// A map that is overwritten by a call's writes is the disk after these writes.
pub fn writes_show_the_disk_after_them()
    ensures { WritesShow }
{}
