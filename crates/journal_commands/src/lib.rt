//! The parts that the programs `jnl` and `jnlfs` share: the words of their command lines, how they
//! open and lock a disk, what they print of it, and what they print where they fail.
//!
//! A program has a name, its subcommands and what these do. `program_command` begins its grammar,
//! `start` takes its words and its output, and `Fault::report` ends it. `find` and `settle` open a
//! disk to write it, and `open_to_read` to look at it. `make_socket` makes a socket that its owner
//! alone may open. `AskedLayout` and `Regions` are the layout that words name, and `told` gives the
//! regions of a label.
#![tactic(auto)]

mod arguments;
mod fault;
mod labels;
mod opening;
mod regions;
mod socket;
mod starting;
mod versions;

pub use arguments::{FILE, file_arg, flag_arg, option_arg, program_command, subcommand, word};
pub use fault::Fault;
pub use labels::{label_of, refuse_other_regions, regions_of_files, told};
pub use opening::{find, open_to_read, print_line, settle};
pub use regions::{AskedLayout, OtherRegions, RegionWords, Regions, named_regions};
pub use socket::{make_socket, remove_socket};
pub use starting::start;
pub use versions::{JNL_VERSIONS, JNLFS_VERSIONS};
