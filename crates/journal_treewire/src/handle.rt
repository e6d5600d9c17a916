// Handles: the names by which callers know the nodes of a tree.
ghost use Rattle.std.specs.Prelude.{◌≡◌};
ghost use Rattle.journal_xdr.specs.Items.{ReadsItem};
ghost use Rattle.journal_nfs3_wire.specs.Whole.{whole};
ghost use Rattle.journal_treewire.specs.Handles.{disk_handle, disk_handle_of, found_handle, handle_in};

use journal_nfs3_wire::NfsError;
use journal_tree::Handle;
use journal_xdr::Reader;

/// The handle that these bytes are on the disk with this number of its own.
///
/// # Errors
/// - `BadHandle`: they are not the 16 bytes of a handle.
/// - `Stale`: they are a handle of another disk.
pub fn read_handle(disk: u64, bytes: &[u8]) -> Result<Handle, NfsError>
    ensures { result ≡ handle_in disk bytes.now }
{
    let Some(found) = read_whole_handle(bytes) else {
        return Err(NfsError::BadHandle);
    };
    if found.disk == disk {
        Ok(found.handle)
    } else {
        Err(NfsError::Stale)
    }
}

// A handle with the number of its disk.
#[derive(Clone, Copy)]
pub(crate) struct DiskHandle {
    pub(crate) disk: u64,
    pub(crate) handle: Handle,
}

fn read_whole_handle(bytes: &[u8]) -> Option<DiskHandle>
    ensures { found_handle result ≡ whole disk_handle bytes.now }
{
    let mut reader = Reader::new(bytes);
    let found = read_disk_handle(&mut reader)?;
    if reader.is_at_end() {
        Some(found)
    } else {
        None
    }
}

#[tactic(auto, unfolding(crate::specs::Handles::disk_handle))]
fn read_disk_handle(reader: &mut Reader<'_>) -> Option<DiskHandle>
    ensures { ReadsItem disk_handle disk_handle_of reader.old reader.new result }
{
    Some(DiskHandle {
        disk: reader.hyper()?,
        handle: Handle {
            number: reader.word()?,
            generation: reader.word()?,
        },
    })
}
