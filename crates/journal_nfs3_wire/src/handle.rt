// Handles: the names by which a caller knows files.
ghost use Rattle.std.specs.Prelude.{◌≡◌};
ghost use Rattle.journal_xdr.specs.Items.{ReadsItem};
ghost use Rattle.journal_nfs3_wire.specs.Handles.{used_handle, handle_of, handle_in, named};

use journal_file_types::Handle;
use journal_xdr::Reader;

// The first four bytes of every handle: `JNL1`.
pub(crate) const HANDLE_MARK: u32 = 0x4a4e_4c31;

// Its form and its range are two things: a reply may name any inode, a call only 1 to 511.
/// The handle of these bytes. `None` unless they are 12, begin with the mark `JNL1`, and have an
/// inode from 1 to 511.
pub fn read_handle(bytes: &[u8]) -> Option<Handle>
    ensures { named result ≡ handle_in bytes.now }
{
    let mut reader = Reader::new(bytes);
    let handle = read_parts(&mut reader)?;
    if reader.is_at_end() {
        Some(handle)
    } else {
        None
    }
}

#[tactic(auto, unfolding(crate::specs::Handles::file_handle))]
fn read_parts(reader: &mut Reader<'_>) -> Option<Handle>
    ensures { ReadsItem used_handle handle_of reader.old reader.new result }
{
    if reader.word()? != HANDLE_MARK {
        return None;
    }
    let number = reader.word()?;
    let generation = reader.word()?;
    Handle::new(number, generation)
}
