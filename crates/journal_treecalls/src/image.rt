// The bytes of the blocks that a WRITE writes.
ghost use Rattle.std.specs.Prelude.{◌≡◌, ◌<◌, ◌≤◌, ◌+◌, ◌-◌, min, [], IfOk, length};
ghost use Rattle.journal_tree.specs.declared.limits.TheConstants.{MOST_BYTES};
ghost use Rattle.journal_treestore.specs.Bytes.{with_piece};
ghost use Rattle.journal_treecalls.specs.Disks.{Learns};
ghost use Rattle.journal_treecalls.specs.Overlays.{begin_of, image_bytes, IsImage};
ghost use Rattle.journal_treecalls.specs.Sizes.{cleared};

use crate::TreeDisk;
use crate::bytes::put;
use crate::fetch::{Span, fetch};
use crate::setting::cut_off;
use journal_tree::BLOCK_BYTES;
use journal_treestore::Head;

// The bytes of the blocks of a file in which others lie that are written from an offset on: those
// bytes, and beside them what the file has there. After its end it has zeros.
pub(crate) fn image_of<T: TreeDisk>(
    disk: &mut T,
    head: &Head,
    offset: u64,
    bytes: &[u8],
) -> Result<Vec<u8>, T::Fault>
    requires first { T.writes disk.old ≡ [] }
    requires some { 0 < length bytes.now }
    requires fits { offset + length bytes.now ≤ MOST_BYTES }
    ensures learns { IfOk result (λ image. Learns (T.may_be disk.old) (T.may_be disk.new) (λ V. IsImage V head.now offset bytes.now image.items)) }
    ensures long { IfOk result (λ image. length image.items ≡ image_bytes offset (offset + length bytes.now)) }
    ensures first { T.writes disk.new ≡ [] }
{
    let span = Span {
        from: offset,
        to: offset + bytes.len() as u64,
    };
    let begin = begin_of(offset);
    let mut image = disk.zeros(image_bytes(span))?;
    fetch(disk, head, begin, span, &mut image)?;
    lay_over(&mut image, head.size, offset, bytes);
    Ok(image)
}

// Where the block begins in which the byte at an offset lies.
pub(crate) fn begin_of(offset: u64) -> u64
    ensures is { result ≡ begin_of offset }
    ensures low { result ≤ offset }
{
    BLOCK_BYTES * (offset / BLOCK_BYTES)
}

// How many bytes the blocks have in which the span lies.
fn image_bytes(span: Span) -> usize
    requires some { span.from < span.to }
    requires fits { span.to ≤ MOST_BYTES }
    ensures { result ≡ image_bytes span.from span.to }
{
    let end = BLOCK_BYTES * ((span.to + BLOCK_BYTES - 1) / BLOCK_BYTES);
    (end - begin_of(span.from)) as usize
}

// Puts zeros after the end of the file, and then the bytes from the offset on.
fn lay_over(image: &mut Vec<u8>, size: u64, offset: u64, bytes: &[u8])
    requires { offset - begin_of offset + length bytes.now ≤ length image.old.items }
    ensures { image.new.items ≡ with_piece (cleared image.old.items (min (size - begin_of offset) (length image.old.items))) (offset - begin_of offset) bytes.now }
{
    let begin = begin_of(offset);
    let after = size.saturating_sub(begin);
    let kept = after.min(image.len() as u64) as usize;
    cut_off(image, kept);
    put(image, (offset - begin) as usize, bytes);
}
