// The content of a block device, as far as it begins with a name.

use crate::zeros::{Span, find_other};
use journal_world::FIRST_DATA;
use std::fs::File;
use std::io;
use std::io::{Seek, SeekFrom};
use std::os::unix::fs::FileExt;

// The most bytes of a name.
const LONGEST: usize = 16;

// From where the place of a name is counted.
#[derive(Clone, Copy)]
enum Place {
    // So many bytes from the beginning of the device.
    Start(u64),
    // So many bytes before its end.
    End(u64),
}

// Bytes by which something on a device is known.
#[derive(Clone, Copy)]
struct Signature {
    place: Place,
    bytes: &'static [u8],
    what: &'static str,
}

fn begins(at: u64, bytes: &'static [u8], what: &'static str) -> Signature {
    Signature {
        place: Place::Start(at),
        bytes,
        what,
    }
}

fn ends(before: u64, bytes: &'static [u8], what: &'static str) -> Signature {
    Signature {
        place: Place::End(before),
        bytes,
        what,
    }
}

// Disks of this project, and file systems. The places and the bytes are those of libblkid.
fn file_systems() -> [Signature; 22] {
    [
        begins(4104, b"JNLLABEL", "a disk of jnl"),
        begins(2101248, b"GJNLDSK1", "a disk of the file service"),
        begins(1080, b"\x53\xef", "an ext2, ext3 or ext4 file system"),
        begins(0, b"XFSB", "an xfs file system"),
        begins(65600, b"_BHRfS_M", "a btrfs file system"),
        begins(1024, b"\x10\x20\xf5\xf2", "an f2fs file system"),
        begins(1024, b"\xe2\xe1\xf5\xe0", "an erofs file system"),
        begins(0, b"hsqs", "a squashfs file system"),
        begins(1030, b"\x34\x34", "a nilfs2 file system"),
        begins(65536, b"\x01\x16\x19\x70", "a gfs2 file system"),
        begins(32768, b"JFS1", "a jfs file system"),
        begins(65588, b"ReIsEr", "a reiserfs file system"),
        begins(4120, b"\xc6\x85\x73\xf6", "a bcache or a bcachefs"),
        begins(3, b"NTFS    ", "an NTFS file system"),
        begins(3, b"EXFAT   ", "an exFAT file system"),
        begins(54, b"FAT1", "a FAT file system"),
        begins(82, b"FAT32", "a FAT file system"),
        begins(1024, b"H+", "an HFS+ file system"),
        begins(1024, b"HX", "an HFS+ file system"),
        begins(32, b"NXSB", "an APFS file system"),
        begins(32769, b"CD001", "an ISO 9660 file system"),
        begins(32769, b"BEA01", "a UDF file system"),
    ]
}

// Volumes and tables of them. Those of partitions come last, because some file systems have the two
// bytes of one too.
fn volumes() -> [Signature; 18] {
    [
        begins(0, b"LUKS\xba\xbe", "an encrypted volume of LUKS"),
        begins(0, b"LABELONE", "a physical volume of LVM"),
        begins(512, b"LABELONE", "a physical volume of LVM"),
        begins(1024, b"LABELONE", "a physical volume of LVM"),
        begins(1536, b"LABELONE", "a physical volume of LVM"),
        begins(0, b"\xfc\x4e\x2b\xa9", "a member of an md array"),
        begins(4096, b"\xfc\x4e\x2b\xa9", "a member of an md array"),
        ends(8192, b"\xfc\x4e\x2b\xa9", "a member of an md array"),
        begins(0, b"bluestore block ", "an OSD of Ceph"),
        ends(4036, b"\x83\x74\x02", "the metadata of DRBD"),
        begins(4086, b"SWAPSPACE2", "a swap area"),
        begins(4086, b"SWAP-SPACE", "a swap area"),
        begins(65526, b"SWAPSPACE2", "a swap area"),
        begins(512, b"EFI PART", "a GPT partition table"),
        begins(4096, b"EFI PART", "a GPT partition table"),
        ends(512, b"EFI PART", "the copy of a GPT partition table"),
        ends(4096, b"EFI PART", "the copy of a GPT partition table"),
        begins(510, b"\x55\xaa", "a partition table or a boot sector"),
    ]
}

// The words for a device that begins with other bytes than zeros, and with no name.
const UNKNOWN: &str = "bytes of something unknown";

/// The content of a block device, as far as its first bytes and their place tell it. A device
/// whose log and description would lie where other bytes than zeros are holds something unknown.
/// `None` where it holds nothing.
///
/// Refused for the system's reason where the device cannot be read.
pub(crate) fn find_content(file: &File, blocks: u64) -> io::Result<Option<&'static str>> {
    let mut device = file;
    let end = device.seek(SeekFrom::End(0))?;
    if let Some(what) = find_in(file, end, &file_systems())? {
        return Ok(Some(what));
    }
    if let Some(what) = find_in(file, end, &volumes())? {
        return Ok(Some(what));
    }
    let begin = Span {
        first: 0,
        end: blocks.min(FIRST_DATA),
    };
    let other = find_other(file, begin)?;
    Ok(other.map(|_| UNKNOWN))
}

// The first of these that is on the device, which has so many bytes.
fn find_in(file: &File, end: u64, signatures: &[Signature]) -> io::Result<Option<&'static str>> {
    for signature in signatures.iter() {
        if has_signature(file, end, signature)? {
            return Ok(Some(signature.what));
        }
    }
    Ok(None)
}

// True if the device, which has so many bytes, has these at their place.
fn has_signature(file: &File, end: u64, signature: &Signature) -> io::Result<bool> {
    let length = signature.bytes.len().min(LONGEST);
    let at = match signature.place {
        Place::Start(at) => at,
        Place::End(before) => end.saturating_sub(before),
    };
    if end.saturating_sub(at) < length as u64 {
        return Ok(false);
    }
    let mut found = [0u8; LONGEST];
    file.read_exact_at(&mut found[..length], at)?;
    Ok(found[..length] == signature.bytes[..length])
}
