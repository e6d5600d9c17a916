// The room of a new disk in its file system.
ghost use Rattle.std.specs.Prelude.{◌≤◌};
ghost use Rattle.journal_world.specs.declared.layout.TheConstants.{MAX_LAYOUT_BLOCKS};

use crate::system::{TAKES_NO_SYNC, is_done};
use journal_world::{BLOCK_BYTES, FIRST_DATA};
use std::fs::{File, Files, OpenFile};
use std::io;
use std::io::ErrorKind;
use std::os::unix::fs::FileExt;

/// Of which blocks a new disk takes the room in its file system at once.
#[derive(Clone, Copy, Debug, PartialEq, Eq)]
pub enum Room {
    /// Of the log and of what describes the disk. The other blocks take theirs once they are
    /// written home, where there may be none.
    Log,
    /// Of all blocks.
    All,
}

/// Writes zeros over the log and over what describes the disk, or over all of its blocks. A commit
/// that has to wait for room in the file system takes many times as long as one that overwrites.
///
/// Refused for the system's reason, as where the file system has no room. Some blocks have theirs
/// then.
pub(crate) fn take_room(file: &File, blocks: u64, room: Room) -> io::Result<()>
    requires { blocks ≤ MAX_LAYOUT_BLOCKS }
{
    let zeros = [0u8; BLOCK_BYTES];
    let taken = match room {
        Room::Log => FIRST_DATA,
        Room::All => blocks,
    };
    for block in 0..taken {
        file.write_all_at(&zeros, block * BLOCK_BYTES as u64)?;
    }
    Ok(())
}

/// Makes the file's name stable. Where the system keeps no folder so, or does not let it be read,
/// that is left to it.
pub(crate) fn sync_folder<R: Files<File = File>>(rt: &R, path: &str) -> io::Result<()> {
    match File::open(rt, folder_of(path)) {
        Ok(folder) => {
            let _is_kept = is_done(folder.sync_all(), TAKES_NO_SYNC)?;
            Ok(())
        }
        Err(e) if e.kind() == ErrorKind::PermissionDenied => Ok(()),
        Err(e) => Err(e),
    }
}

// The folder in which the file of the path is.
fn folder_of(path: &str) -> &str {
    match path.rsplit_once('/') {
        Some(("", _)) => "/",
        Some((folder, _)) => folder,
        None => ".",
    }
}
