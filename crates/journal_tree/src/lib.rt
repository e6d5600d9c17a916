//! What a tree of directories, files and symbolic links is, and what each call of NFS version 3
//! does to it: the definitions that a file system over the journal is to be proved by, and what
//! holds of them.
//!
//! A `Tree` has numbers, and each number a generation and at most one `Node`. A node has
//! attributes, a body, and a `Home`: the directory in which it hangs, the place of its entry there,
//! and its name. So each node has one name by the form of a tree, and a directory is no list:
//! `find` gives the number that hangs in it under a name. A directory knows how many places it has,
//! because it grows by whole blocks of entries and never shrinks, and because a listing goes by
//! places. The rule `HasTree` says the rest: a home is a place of a directory, no two homes of a
//! directory are alike by name or by place, and the parents lead to the root.
//!
//! A call leads from a tree to a tree with a reply, at a moment, for a `Caller`. `specs/Op.antt`
//! has the calls; the cases of each stand in their order in `Attributes`, `Contents`, `Names`,
//! `Renames`, `Listing` and `Facts`, and the first that holds is answered. What is free for the
//! code to choose is an argument with a premise: the number and the place of a new node, the place
//! of a node that goes to another directory, whether blocks were handed out, and how many are told
//! as free. LINK and MKNOD are answered `NotSupported` after their checks.
//!
//! A file that an exclusive CREATE makes keeps the verifier of the call until anything of it
//! changes. The same call that comes once more meanwhile, because its reply was lost, finds the
//! file that the first has made; one of another verifier is refused.
//!
//! A symbolic link has a text of 1 to 4095 bytes, of any bytes: READLINK tells it, and no call
//! changes it or follows it.
//!
//! RENAME gives a node another home. Within its directory the node keeps its place. In another it
//! has the place of what it replaces, or else the one that was handed out. A file replaces a file,
//! and a directory replaces one without entries. No directory goes below itself: whether it would
//! is an argument with a premise too, and `specs/Walks.antt` says how a walk up the parents decides
//! it.
//!
//! Rights are those of POSIX and of RFC 1813, section 4.4 (`specs/Rights.antt`): a caller has a
//! user, a group and the groups that he is in; root may all, unless it is squashed; who says
//! nothing of himself is nobody. READ and WRITE let a file's owner pass whatever the mode is, and
//! READ lets pass who may run the file. ctime grows with each change of a node, by a nanosecond
//! where the clock does not show a later time.
//!
//! The functions of `law` do nothing: their contracts are what is proved of the definitions, for
//! all trees, callers and clocks. A proof goes by steps: each call leaves the tree, sets one node,
//! plants one, cuts one off, or moves one (`proofs/Steps.antt`), and each law is shown of these
//! five.
#![tactic(auto)]

mod caller;
mod law;
mod limits;
mod name;
mod reply;
mod rights;
mod settings;
mod status;
mod time;

pub use caller::{Caller, GROUPS};
pub use law::{
    a_walk_decides, calls_keep_bounds, calls_keep_rights, calls_keep_trees, changes_move_times,
    exclusive_calls_come_again, exclusive_calls_make_one, first_is_a_tree, links_are_trees,
    listings_are_pages, listings_miss_nothing, most_renames_need_no_walk, nodes_are_named_once,
    owners_read_and_write, refusals_change_nothing, renames_are_whole, renames_have_room,
    replies_are_true, verifiers_are_of_creations,
};
pub use limits::{
    BLOCK_BYTES, BLOCK_PLACES, DIRECTORY_MODE, ENTRY_BYTES, FILE_MODE, FIRST_BLOCKS, FIRST_PLACES,
    HANDLE_BYTES, LAST_GENERATION, LINK_MODE, MODES, MOST_BLOCKS, MOST_BYTES, MOST_FILE_BLOCKS,
    MOST_LINK, MOST_NAME, MOST_PLACES, NOBODY, ROOT, TRANSFER_BYTES,
};
pub use name::NameKind;
pub use reply::{Attributes, Changed, Found, Free, Handle, Kind, Made, Renamed, Room, Space, Told};
pub use settings::{CreateMode, NewTime, Settings};
pub use status::Status;
pub use time::{LAST_SECOND, NANOS, Time};
