// Attributes of files, of whatever kind of file system.
ghost use Rattle.std.specs.Prelude.{◌≡◌, ◌++◌, List, ℕ, OnOk, OnErr, Some};
ghost use Rattle.journal_xdr.specs.Items.{Writes};
ghost use Rattle.journal_nfs3_wire.specs.Results.{fattr, post_op_attributes, before, change};
ghost use Rattle.journal_nfs3_wire.specs.Attributes.{attributes_told, before_told, change_told};

use crate::writing::write_time;
use journal_inode::Time;
use journal_xdr::Writer;
use std::alloc::AllocError;

/// The attributes of a file or a directory (RFC 1813, section 2.5, fattr3). It is of no device.
#[derive(Clone, Copy, Debug, PartialEq, Eq)]
pub struct FileAttributes {
    /// The number of its type (ftype3).
    pub kind: u32,
    pub mode: u32,
    /// How many names it has.
    pub links: u32,
    pub uid: u32,
    pub gid: u32,
    /// How many bytes it has.
    pub size: u64,
    /// How many bytes of the disk it uses.
    pub used: u64,
    /// The number of its file system.
    pub fsid: u64,
    /// Its number in the file system.
    pub fileid: u64,
    pub atime: Time,
    pub mtime: Time,
    pub ctime: Time,
}

/// The attributes of a file before a change (RFC 1813, section 2.5, wcc_attr).
#[derive(Clone, Copy, Debug, PartialEq, Eq)]
pub struct EarlierAttributes {
    pub size: u64,
    pub mtime: Time,
    pub ctime: Time,
}

/// Writes attributes (RFC 1813, section 2.5, fattr3).
///
/// # Errors
/// - Memory is refused. Part of the bytes may be written.
#[tactic(auto, unfolding(crate::specs::Results::fattr))]
pub fn write_file_attributes(
    writer: &mut Writer,
    attributes: &FileAttributes,
) -> Result<(), AllocError>
    ensures ok { OnOk result (Writes fattr (attributes_told attributes.now) writer.old writer.new) }
    ensures err { OnErr result ((front : List ℕ) × (writer.new ≡ writer.old ++ front)) }
{
    writer.word(attributes.kind)?;
    writer.word(attributes.mode)?;
    writer.word(attributes.links)?;
    writer.word(attributes.uid)?;
    writer.word(attributes.gid)?;
    writer.hyper(attributes.size)?;
    writer.hyper(attributes.used)?;
    // No device.
    writer.word(0)?;
    writer.word(0)?;
    writer.hyper(attributes.fsid)?;
    writer.hyper(attributes.fileid)?;
    write_time(writer, attributes.atime)?;
    write_time(writer, attributes.mtime)?;
    write_time(writer, attributes.ctime)
}

/// Writes attributes that are there (RFC 1813, section 2.5, post_op_attr).
///
/// # Errors
/// - Memory is refused. Part of the bytes may be written.
pub fn write_some_attributes(
    writer: &mut Writer,
    attributes: &FileAttributes,
) -> Result<(), AllocError>
    ensures ok { OnOk result (Writes post_op_attributes (Some (attributes_told attributes.now)) writer.old writer.new) }
    ensures err { OnErr result ((front : List ℕ) × (writer.new ≡ writer.old ++ front)) }
{
    writer.boolean(true)?;
    write_file_attributes(writer, attributes)
}

// Writes the attributes before a change.
#[tactic(auto, unfolding(crate::specs::Results::before))]
fn write_earlier_attributes(
    writer: &mut Writer,
    attributes: &EarlierAttributes,
) -> Result<(), AllocError>
    ensures { OnOk result (Writes before (before_told attributes.now) writer.old writer.new) }
{
    writer.hyper(attributes.size)?;
    write_time(writer, attributes.mtime)?;
    write_time(writer, attributes.ctime)
}

/// Writes a change (RFC 1813, section 2.5, wcc_data) by what was before it and what is after it.
///
/// # Errors
/// - Memory is refused. Part of the bytes may be written.
#[tactic(auto, unfolding(crate::specs::Results::change))]
pub fn write_attributes_change(
    writer: &mut Writer,
    earlier: &EarlierAttributes,
    attributes: &FileAttributes,
) -> Result<(), AllocError>
    ensures { OnOk result (Writes change (change_told earlier.now attributes.now) writer.old writer.new) }
{
    writer.boolean(true)?;
    write_earlier_attributes(writer, earlier)?;
    write_some_attributes(writer, attributes)
}
