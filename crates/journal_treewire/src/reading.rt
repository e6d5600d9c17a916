// Reading the arguments of the procedures of directories and links.
ghost use Rattle.std.specs.Prelude.{◌≡◌};
ghost use Rattle.journal_xdr.specs.Items.{ReadsItem};
ghost use Rattle.journal_treewire.specs.Directories.{device, device_of, node_data, node_data_of, link_arguments, link_arguments_of, directory_arguments, directory_operation_of};

use crate::arguments::{Device, DirectoryOperation, LinkArguments, NodeData};
use crate::procedure::DirectoryProcedure;
use journal_nfs3_wire::{read_entry, read_new_attributes};
use journal_xdr::Reader;

// The most bytes of a handle (RFC 1813, section 2.4).
const HANDLE_LIMIT: u32 = 64;

// Reads the arguments of a procedure of directories and links.
#[tactic(auto, unfolding(crate::specs::Directories::directory_arguments))]
pub(crate) fn read_directory_operation<'a>(
    procedure: DirectoryProcedure,
    reader: &mut Reader<'a>,
) -> Option<DirectoryOperation<'a>>
    ensures { ReadsItem (directory_arguments procedure) directory_operation_of reader.old reader.new result }
{
    Some(match procedure {
        DirectoryProcedure::ReadLink => DirectoryOperation::ReadLink(reader.opaque(HANDLE_LIMIT)?),
        DirectoryProcedure::MakeDirectory => {
            DirectoryOperation::MakeDirectory(read_entry(reader)?, read_new_attributes(reader)?)
        }
        DirectoryProcedure::MakeLink => DirectoryOperation::MakeLink(read_link_arguments(reader)?),
        DirectoryProcedure::MakeNode => {
            DirectoryOperation::MakeNode(read_entry(reader)?, read_node_data(reader)?)
        }
        DirectoryProcedure::RemoveDirectory => {
            DirectoryOperation::RemoveDirectory(read_entry(reader)?)
        }
        DirectoryProcedure::Rename => {
            DirectoryOperation::Rename(read_entry(reader)?, read_entry(reader)?)
        }
        DirectoryProcedure::Link => {
            DirectoryOperation::Link(reader.opaque(HANDLE_LIMIT)?, read_entry(reader)?)
        }
    })
}

// Reads the arguments of SYMLINK.
#[tactic(auto, unfolding(crate::specs::Directories::link_arguments))]
fn read_link_arguments<'a>(reader: &mut Reader<'a>) -> Option<LinkArguments<'a>>
    ensures { ReadsItem link_arguments link_arguments_of reader.old reader.new result }
{
    Some(LinkArguments {
        entry: read_entry(reader)?,
        attributes: read_new_attributes(reader)?,
        path: reader.string(u32::MAX)?,
    })
}

// Reads what MKNOD is to make.
#[tactic(auto, unfolding(crate::specs::Directories::node_data))]
fn read_node_data(reader: &mut Reader<'_>) -> Option<NodeData>
    ensures { ReadsItem node_data node_data_of reader.old reader.new result }
{
    match reader.word()? {
        1 => Some(NodeData::Regular),
        2 => Some(NodeData::Directory),
        3 => Some(NodeData::BlockDevice(read_new_attributes(reader)?, read_device(reader)?)),
        4 => Some(NodeData::CharacterDevice(read_new_attributes(reader)?, read_device(reader)?)),
        5 => Some(NodeData::SymbolicLink),
        6 => Some(NodeData::Socket(read_new_attributes(reader)?)),
        7 => Some(NodeData::Fifo(read_new_attributes(reader)?)),
        _ => None,
    }
}

// Reads the number of a device.
#[tactic(auto, unfolding(crate::specs::Directories::device))]
fn read_device(reader: &mut Reader<'_>) -> Option<Device>
    ensures { ReadsItem device device_of reader.old reader.new result }
{
    Some(Device {
        major: reader.word()?,
        minor: reader.word()?,
    })
}
