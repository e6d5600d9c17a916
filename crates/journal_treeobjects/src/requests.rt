// The calls of a file system, each as an operation.
mod attributes;
mod contents;
mod facts;
mod listings;
mod making;
mod names;

pub use attributes::{Access, GetAttr, SetAttr};
pub use contents::{Commit, Read, ReadLink, Write};
pub use facts::{FsInfo, FsStat, PathConf};
pub use listings::{ReadDir, ReadDirPlus};
pub use making::{CreateExclusive, CreateGuarded, CreateUnchecked, Link, MkDir, MkNod, SymLink};
pub use names::{Lookup, Remove, Rename, RmDir};
