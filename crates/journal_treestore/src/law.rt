// Laws of the definitions, for all disks.
ghost use Rattle.journal_treestore.specs.Places.{PlacesAreObjects, PlacesAreApart};
ghost use Rattle.journal_treestore.specs.Lookups.{BlocksAreHadOnce, LookupFinds, LookupMisses};
ghost use Rattle.journal_treestore.specs.Steps.{PlantingShows, FillingShows, CuttingShows, GrowingShows, GrowingStaysSound, CallsStaySound};
ghost use Rattle.journal_treestore.specs.Growths.{GrowthKeepsTheTree};
ghost use Rattle.journal_treestore.specs.Moves.{DroppingShows, DroppingStaysSound, RenamingShows, MovingShows};

/// Each object of a disk has an address that its layout knows, and no two have one address.
pub fn places_never_overlap()
    ensures objects { PlacesAreObjects }
    ensures apart { PlacesAreApart }
{}

/// No two inodes of a sound disk have one block, and none has a block twice, index blocks among
/// them: each block's record says who has it, and where.
pub fn blocks_are_had_once()
    ensures { BlocksAreHadOnce }
{}

/// LOOKUP's answer follows from what it reads of a sound disk: from an entry of the directory whose
/// inode has the name, or, where none has it, from all entries of the name's tag in the blocks in
/// which the name may lie, and their inodes.
pub fn lookups_answer_by_what_they_read()
    ensures found { LookupFinds }
    ensures missed { LookupMisses }
{}

/// The tree that a sound disk shows after the writes of a step: a node is put into a directory by
/// three, a symbolic link gets its text by three, a node is taken out by three, or four where it
/// has a second entry, or a directory gets a block. A node that is taken out may have any size.
pub fn writes_show_the_tree_after_them()
    ensures planted { PlantingShows }
    ensures filled { FillingShows }
    ensures cut { CuttingShows }
    ensures grown { GrowingShows }
    ensures sound { GrowingStaysSound }
{}

/// The tree that a sound disk shows once a node that is replaced goes by two writes, and once a
/// node gets another name in its directory by three, or a free place of another directory by five.
/// Each second entry that goes or comes is one write more. They are as many however large the node
/// is, and whatever hangs in it.
pub fn renames_show_the_tree_after_them()
    ensures dropped { DroppingShows }
    ensures sound { DroppingStaysSound }
    ensures renamed { RenamingShows }
    ensures moved { MovingShows }
{}

/// A sound disk that gets more blocks, and keeps its inodes, its blocks and the records of these,
/// is sound, and has the same nodes. The new blocks and their records may have any bytes.
pub fn growth_keeps_the_tree()
    ensures { GrowthKeepsTheTree }
{}

/// A call that leads to the tree that is shown by such steps leaves a sound disk.
pub fn calls_leave_a_sound_disk()
    ensures { CallsStaySound }
{}
