// The line of `--version` after the name of a program: its version, and those of what it reads and
// speaks. The programs are of one version, and read the same logs and labels.

/// The versions of `jnl`, which speaks the protocol of programs in other languages.
pub const JNL_VERSIONS: &str = "1.0\nlog plain, sealed\nlabel 1\nprotocol 1, 2";

/// The versions of `jnlfs`, which reads disks of files.
pub const JNLFS_VERSIONS: &str = "1.0\nlog plain, sealed\nlabel 1\nfiles 1, 2, 3";
