// The attributes of nodes, and their handles.
ghost use Rattle.std.specs.Prelude.{◌≡◌, OnOk, Some, option_map};
ghost use Rattle.journal_xdr.specs.Items.{Writes};
ghost use Rattle.journal_nfs3_wire.specs.Attributes.{attributes_told, before_told};
ghost use Rattle.journal_nfs3_wire.specs.Results.{fattr, post_op_attributes, change};
ghost use Rattle.journal_treewire.specs.Profile.{type_of, used_of, fattr_of, before_of, change_of, handle_of};
ghost use Rattle.journal_treewire.specs.Results.{given_handle};

use crate::values::time_out;
use journal_nfs3_wire::{
    EarlierAttributes, FileAttributes, write_attributes_change, write_file_attributes,
    write_some_attributes,
};
use journal_tree::{BLOCK_BYTES, Changed, Kind, MOST_BYTES, Told};
use journal_xdr::Writer;
use std::alloc::AllocError;

// The bytes of a handle.
const HANDLE_LENGTH: u32 = 16;

// The number of a kind of node (RFC 1813, section 2.5, ftype3).
fn type_of(kind: Kind) -> u32
    ensures { result ≡ type_of kind }
{
    match kind {
        Kind::File => 1,
        Kind::Directory => 2,
        Kind::Link => 5,
    }
}

// The bytes of the blocks that a node of this size may have.
fn used_of(size: u64) -> u64
    ensures { result ≡ used_of size }
{
    BLOCK_BYTES * ((size.min(MOST_BYTES) + 4095) / BLOCK_BYTES)
}

// The attributes of a node.
fn file_attributes(disk: u64, told: &Told) -> FileAttributes
    ensures { attributes_told result ≡ fattr_of disk told.now }
{
    let attributes = &told.attributes;
    let mtime = time_out(attributes.mtime);
    FileAttributes {
        kind: type_of(told.kind),
        mode: u32::from(attributes.mode),
        // How many directories a directory has is not counted, of which one link is the sign: with
        // two, a program that looks for directories would take it for one that has none.
        links: 1,
        uid: attributes.owner,
        gid: attributes.group,
        size: told.size,
        used: used_of(told.size),
        fsid: disk,
        fileid: u64::from(told.number),
        // There is no time of the last access.
        atime: mtime,
        mtime,
        ctime: time_out(attributes.ctime),
    }
}

// The attributes of a node before a change.
fn earlier_attributes(told: &Told) -> EarlierAttributes
    ensures { before_told result ≡ before_of told.now }
{
    EarlierAttributes {
        size: told.size,
        mtime: time_out(told.attributes.mtime),
        ctime: time_out(told.attributes.ctime),
    }
}

// Writes the attributes of a node (RFC 1813, section 2.5, fattr3).
pub(crate) fn write_told(writer: &mut Writer, disk: u64, told: &Told) -> Result<(), AllocError>
    ensures { OnOk result (Writes fattr (fattr_of disk told.now) writer.old writer.new) }
{
    write_file_attributes(writer, &file_attributes(disk, told))
}

// Writes that they are there, and they (RFC 1813, section 2.5, post_op_attr).
pub(crate) fn write_some_told(writer: &mut Writer, disk: u64, told: &Told) -> Result<(), AllocError>
    ensures { OnOk result (Writes post_op_attributes (Some (fattr_of disk told.now)) writer.old writer.new) }
{
    write_some_attributes(writer, &file_attributes(disk, told))
}

// The same where they may not be there.
pub(crate) fn write_optional_told(
    writer: &mut Writer,
    disk: u64,
    told: &Option<Told>,
) -> Result<(), AllocError>
    ensures { OnOk result (Writes post_op_attributes (option_map (fattr_of disk) told.now) writer.old writer.new) }
{
    match told {
        Some(told) => write_some_told(writer, disk, told),
        None => writer.boolean(false),
    }
}

// Writes a change of a node (RFC 1813, section 2.5, wcc_data).
pub(crate) fn write_change(
    writer: &mut Writer,
    disk: u64,
    changed: &Changed,
) -> Result<(), AllocError>
    ensures { OnOk result (Writes change (change_of disk changed.now) writer.old writer.new) }
{
    let earlier = earlier_attributes(&changed.before);
    write_attributes_change(writer, &earlier, &file_attributes(disk, &changed.after))
}

// Writes a handle (RFC 1813, section 2.4, nfs_fh3).
pub(crate) fn write_handle(
    writer: &mut Writer,
    disk: u64,
    number: u32,
    generation: u32,
) -> Result<(), AllocError>
    ensures { OnOk result (Writes given_handle (handle_of disk number generation) writer.old writer.new) }
{
    writer.word(HANDLE_LENGTH)?;
    writer.hyper(disk)?;
    writer.word(number)?;
    writer.word(generation)
}
