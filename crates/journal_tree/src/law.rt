// What holds of the definitions, for all trees, callers and moments.
ghost use Rattle.journal_tree.specs.Laws.{KeepsTrees, KeepsFit, BeginsAsTree, BeginsFit, NamesOnce, LinksAreTrees, ListsAll, ListsPlaces, TellsPages, TellsPagesPlus, RenamesWhole, RenamesHaveRoom, RefusalsChangeNothing, RepliesAreTrue, ChangesMoveCtime, NamesMoveCtime, NamesMoveMtime, CallsKeepRights, OwnersReadAndWrite};
ghost use Rattle.journal_tree.specs.Laws.{ExclusiveMakes, ExclusiveAgain, ExclusiveOther, CallsGiveVerifiers, ChangesTakeVerifiers};
ghost use Rattle.journal_tree.specs.Walks.{WalkDecides, NoWalkNeeded};

/// Each call leaves a tree: each node but the root hangs in one directory, no two of a directory
/// under one name or at one place, and the parents lead to the root.
pub fn calls_keep_trees()
    ensures { KeepsTrees }
{}

/// Each call leaves the nodes of a tree within the bounds that their fields have on a disk, where
/// the clock shows a time.
pub fn calls_keep_bounds()
    ensures { KeepsFit }
{}

/// An empty root is a tree within its bounds.
pub fn first_is_a_tree()
    ensures tree { BeginsAsTree }
    ensures bounds { BeginsFit }
{}

/// Each node but the root is found in its directory under its name, and nowhere else.
pub fn nodes_are_named_once()
    ensures { NamesOnce }
{}

/// Where inodes say where they hang, entries name them, no two names of a directory are alike, and
/// all that is in use is reached from the root by entries, there is a tree.
pub fn links_are_trees()
    ensures { LinksAreTrees }
{}

/// Calls of READDIR, each from the last cookie of the one before, up to the end: a line that stands
/// in the directory at each of them is told, no cookie is told twice, and each line that is told
/// stood there at one of them. A place that something has at each of them is told, with what it had
/// at one of them.
pub fn listings_miss_nothing()
    ensures lines { ListsAll }
    ensures places { ListsPlaces }
{}

/// What READDIR and READDIRPLUS answer is a page of such a listing, and the tree stays as it was.
/// Where the page is not the last, its last cookie is above the one of the call.
pub fn listings_are_pages()
    ensures names { TellsPages }
    ensures nodes { TellsPagesPlus }
{}

/// A RENAME that is answered OK is whole: the node stands under the new name and no longer under
/// the old one, and is the same but for its ctime and its verifier; all others hang where they did,
/// and none is lost but what stood under the new name.
pub fn renames_are_whole()
    ensures { RenamesWhole }
{}

/// A RENAME within a directory of at most 24576 places, or to a name that is there, is never
/// refused for lack of room. Within a larger directory one to another name may be.
pub fn renames_have_room()
    ensures { RenamesHaveRoom }
{}

/// As many steps from a directory up its parents as there are numbers tell whether it is a node, or
/// lies below it.
pub fn a_walk_decides()
    ensures { WalkDecides }
{}

/// A node that is no directory has none below it, and neither has a directory the one in which it
/// hangs. So no walk is needed for a RENAME of those.
pub fn most_renames_need_no_walk()
    ensures { NoWalkNeeded }
{}

/// A call that is refused leaves the tree as it was.
pub fn refusals_change_nothing()
    ensures { RefusalsChangeNothing }
{}

/// A node before and after a call, in the replies of SETATTR, WRITE, LOOKUP, CREATE, MKDIR, SYMLINK,
/// REMOVE, RMDIR and RENAME, is the one of the tree before and after it.
pub fn replies_are_true()
    ensures { RepliesAreTrue }
{}

/// An exclusive CREATE that is answered OK has a file of its verifier under its name: one that is
/// there already, and nothing changes, or a new one.
pub fn exclusive_calls_make_one()
    ensures { ExclusiveMakes }
{}

/// The same exclusive CREATE that comes once more is answered OK with the same node, and
/// changes nothing. One of another verifier is refused, because the name is there.
pub fn exclusive_calls_come_again()
    ensures same { ExclusiveAgain }
    ensures other { ExclusiveOther }
{}

/// A node that a call makes has a verifier if the call is an exclusive CREATE, and then the one of
/// the call. Over any calls, a node is as it was, or it has none: nothing that was changed is taken
/// for what an exclusive CREATE has made.
pub fn verifiers_are_of_creations()
    ensures new { CallsGiveVerifiers }
    ensures changes { ChangesTakeVerifiers }
{}

/// Over any calls, also where the clock stands or goes back and a client sets mtime: a node of one
/// generation is as it was, or its ctime is later. A directory has the same names for the same
/// numbers, or its ctime is later. One call that changes a directory's names changes its mtime as
/// well. At the greatest time of 32 bits of seconds, in the year 2106, ctime stays.
pub fn changes_move_times()
    ensures nodes { ChangesMoveCtime }
    ensures names { NamesMoveCtime }
    ensures mtime { NamesMoveMtime }
{}

/// A call by somebody who is not root changes no owner; changes a group only of what he owns, and
/// to one that he is in; changes bytes only of a file that he may write or owns; and changes the
/// names of a directory only where he may write and search it, and where it is sticky takes out of
/// it only what is his, or what he likes if the directory is his. He moves a node only where he may
/// take it out of its directory, and gives a directory another parent only where he may write it.
pub fn calls_keep_rights()
    ensures { CallsKeepRights }
{}

/// READ is never refused for the mode to who owns the file or may run it, nor WRITE to who owns it.
pub fn owners_read_and_write()
    ensures { OwnersReadAndWrite }
{}
