//! The circular log: groups of updates of a disk's blocks. A crash leaves each group whole or not
//! at all.
//!
//! Blocks 0 to 512 of the disk hold the log, and those from 513 on are its *home blocks*. The log
//! gives each update a *position*, counted from 0 and never used again. Position p has its content
//! in block `2 + p % 511`, its *log block*, and a word in block 0, at byte `8 + 8 * (p % 511)`,
//! that has the number of its home block. Block 1 has the log's start at byte 0. An image of the
//! disk *stands for* its home blocks with the updates of the positions from start to end, one after
//! the other.
//!
//! Bytes 8 to 4095 of block 1 are the *label*. It is no part of the log, which keeps it: opening
//! reads block 1, and each new start is put into the block that was read. So nothing else may write
//! block 1 while the log is open.
//!
//! The log has one of two *forms*, and block 0 says which. In the *plain* form block 0 has the
//! log's end at byte 0. In the *sealed* form it has `2^63 + a`, where `a` is the position at which
//! the last group begins. The last group is then in the log if and only if each of its log blocks
//! has the *tag* that block 0 wants of it. The log then ends after the group, else at `a`. The tag
//! is byte 0 of the log block. The byte that it replaces is in the position's word. `layout.rt` has
//! the bytes of both forms.
//!
//! Two cycles change the log, each with a header block of its own, so that one group is logged
//! while another is brought home. The *logger* adds a group: `put_slot` for each update, and then
//! of a plain log `sync_slots`, `put_end`, `sync_end`, of a sealed one `put_group`, `sync_end`.
//! Until block 0 is put each image stands for the blocks without the group, and after `sync_end`
//! for those with it. In between it stands for one of the two. The *installer* frees positions:
//! `put_home` for each home block, `sync_homes`, `put_start`, `sync_start`. It changes nothing that
//! an image stands for. The steps of the two may come in any order beside each other. Each cycle
//! passes on a state of its own, an empty token: opening the log makes the first, and only the step
//! before makes the next. So a step without the barrier that it needs does not compile. The token
//! knows a number of the log's, which the steps of the other cycle leave.
//!
//! A plain log makes two barriers a group: its log blocks must be stable before block 0 names them.
//! A sealed log makes one. Its block 0 may reach the disk before the log blocks that it names, and
//! each log block before it, because an image whose group lacks a tag ends where the log ended.
//! That needs a tag which no earlier write can have left there. `put_slot` takes a tag that differs
//! from the one of the log block as it reads, and from the one that block 0 on the disk wants of
//! it. With the first of these, an image with the new block 0 and the old log block would have the
//! group. With the second, an image with the new log block and the old block 0, of an earlier group
//! that a crash tore, would have that group. So there are three tags. A group has at most 255
//! positions, so that the last group and the one being put never share a log block.
//!
//! Each step makes one device call, and its contract names it: an honest disk's past has that one
//! event more. If the call failed, the past may have it.
//!
//! Once a device call failed, no later step or read makes one: each answers J6 until the disk is
//! opened again.
//!
//! A failed barrier may have lost writes that reads still give: the device lacks them, and no later
//! barrier makes them stable. `mend` looks at the log of a disk that is to be opened. Then it
//! writes the log, and the home blocks that it names, as they read, so that nothing is lost.
//!
//! `seal` makes an empty log a sealed one, and `unseal` a plain one.
//!
//! `specs/Log.antt` has the layout, and `specs/StandsFor.antt` says which blocks an image stands
//! for. `specs/Ring.antt` has the state of a [`Circ`] that contracts see, and
//! `specs/Soundness.antt` the invariant of each.
#![tactic(auto)]

mod circ;
mod extent;
mod fail_stop;
mod law;
mod layout;
mod tag;

pub use circ::installer::{Freed, HomesPut, HomesSynced, StartPut};
pub use circ::logger::{EndPut, LogBlocksPut, LogBlocksSynced};
pub use circ::{Circ, Opened};
pub use law::prove_mending_law;
pub use layout::{MAX_GROUP, MAX_SEALED_BLOCKS};
