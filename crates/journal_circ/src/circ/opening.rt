// How the log of a disk is opened.
ghost use Rattle.std.specs.Prelude.{ℕ, ◌≡◌, ◌<◌, ◌≤◌, ◌^◌, ◌↔◌, false, true, length, IsTrue, IfOk, IfErr, MatchResult};
ghost use Rattle.journal_world.specs.declared.layout.TheConstants.{MIN_BLOCKS, BLOCK_BYTES, FIRST_HOME, LOG_POSITIONS};
ghost use Rattle.journal_block.specs.Block.{u64_at};
ghost use Rattle.journal_disk.specs.Disks.{Keeps, IsSettled, read_of};
ghost use Rattle.journal_disk.specs.Images.{EveryImage, reading};
ghost use Rattle.journal_circ.specs.Log.{log_block, is_sealed, tag_at, tag_of, home_by, end_by, start_in, end_in, label_of, HasLabel, DescribesLog, IsWellFormed};
ghost use Rattle.journal_circ.specs.StandsFor.{StandsFor};
ghost use Rattle.journal_circ.specs.Ring.{blocks_to, IsFault, IsOpenRefusal, at_rest};

use crate::Circ;
use crate::circ::installer::HomesPut;
use crate::circ::logger::LogBlocksPut;
use crate::extent::Extent;
use crate::fail_stop::FailStop;
use crate::layout::{
    BOUND_AT, HEADER, MAX_SEALED_BLOCKS, START_BLOCK, home_at, is_sealed, log_block,
};
use crate::tag::{end_of, put_tag_at, tag_of};
use journal_block::Block;
use journal_disk::BlockDisk;
use journal_world::{FIRST_HOME, LOG_POSITIONS, Refusal, Refused};
use std::alloc::Global;

/// A log as it is opened, with the first states of its two cycles. Only an opening makes these.
#[derive(Drop)]
pub struct Opened<D: BlockDisk> {
    pub circ: Circ<D>,
    pub logger: LogBlocksPut,
    pub installer: HomesPut,
}

// The content of blocks 0 and 1 of a disk, the tags of a sealed log, and the buffers of later
// steps.
#[derive(Drop)]
pub(crate) struct Headers {
    pub(crate) header: Block,
    tags: Block,
    pub(crate) scratch: Block,
    pub(crate) start: u64,
    pub(crate) end: u64,
    start_block: Block,
}

impl<D: BlockDisk> Circ<D> {
    /// Opens the log of a disk that has at least 532 blocks and on which nothing is pending. It
    /// reads blocks 1 and 0, and of a sealed log the 511 log blocks for their tags. It writes
    /// nothing and makes no barrier.
    ///
    /// # Errors
    /// A refusal gives the disk back, and nothing was written.
    /// - `J1 NoMemory`: memory for its four blocks is refused.
    /// - `J6 DeviceFailed`: the device fails in this call.
    /// - `J7 BadLog`: the disk's log is not well formed. A sealed log on a disk of more than 2^40
    ///   blocks is not.
    pub fn open(alloc: Global, disk: D) -> Result<Opened<D>, Refused<D, ()>>
        requires in_range { MIN_BLOCKS ≤ (D.state disk).past.size }
        requires settled { IsTrue (D.state disk).honest → IsSettled (D.state disk).past }
        ensures refusal { IfErr result (λ refused.
            IsOpenRefusal (D.state disk) (D.state refused.disk) refused.refusal) }
        ensures keeps { MatchResult result
            (λ opened. Keeps (D.state disk) opened.circ.disk)
            (λ refused. Keeps (D.state disk) (D.state refused.disk)) }
        ensures same { IsTrue (D.state disk).honest → MatchResult result
            (λ opened. opened.circ.disk.past ≡ (D.state disk).past)
            (λ refused. (D.state refused.disk).past ≡ (D.state disk).past) }
        ensures well_formed { IsTrue (D.state disk).honest → IfOk result (λ _. IsWellFormed (reading (D.state disk).past)) }
        ensures ok { IfOk result (λ opened. opened.circ ≡ at_rest opened.circ.disk opened.circ.header opened.circ.tags opened.circ.label opened.circ.extent.start opened.circ.extent.end) }
        ensures header { IsTrue (D.state disk).honest → IfOk result (λ opened. opened.circ.header ≡ read_of (D.state disk).past 0) }
        ensures label { IsTrue (D.state disk).honest → IfOk result (λ opened. opened.circ.label ≡ label_of (read_of (D.state disk).past 1)) }
        // The bounds are those on the disk.
        ensures start { IsTrue (D.state disk).honest → IfOk result (λ opened. opened.circ.extent.start ≡ start_in (reading (D.state disk).past)) }
        ensures end { IsTrue (D.state disk).honest → IfOk result (λ opened. opened.circ.extent.end ≡ end_in (reading (D.state disk).past)) }
        ensures labels { IsTrue (D.state disk).honest → IfOk result (λ opened. EveryImage opened.circ.disk.past (HasLabel opened.circ.label)) }
        ensures images { IsTrue (D.state disk).honest → IfOk result (λ opened.
            EveryImage opened.circ.disk.past (StandsFor opened.circ.disk.past.size (blocks_to opened.circ opened.circ.extent.end))) }
    {
        let mut device = FailStop {
            disk,
            faulted: false,
        };
        match read_headers(alloc, &mut device) {
            Ok(
                Headers {
                    header,
                    tags,
                    scratch,
                    start,
                    end,
                    start_block,
                },
            ) => {
                let extent = Extent::at_rest(start, end);
                let sealed = is_sealed(&header);
                Ok(Opened {
                    circ: Circ {
                        device,
                        header,
                        sealed,
                        tags,
                        scratch,
                        start_block,
                        extent,
                        next: extent.end,
                    },
                    logger: LogBlocksPut(()),
                    installer: HomesPut(()),
                })
            }
            Err(refusal) => Err(Refused {
                refusal,
                disk: device.disk,
            }),
        }
    }
}

// Reads blocks 1 and 0, and refuses them if they describe no log.
pub(crate) fn read_headers<D: BlockDisk>(
    alloc: Global,
    device: &mut FailStop<D>,
) -> Result<Headers, Refusal<()>>
    requires in_range { MIN_BLOCKS ≤ (D.state device.old.disk).past.size }
    requires sound { device.old.faulted ≡ false }
    ensures refusal { IfErr result (IsOpenRefusal (D.state device.old.disk) (D.state device.new.disk)) }
    ensures keeps { Keeps (D.state device.old.disk) (D.state device.new.disk) }
    ensures same { IsTrue (D.state device.old.disk).honest →
        (D.state device.new.disk).past ≡ (D.state device.old.disk).past }
    ensures sound { IfOk result (λ _. device.new.faulted ≡ false) }
    ensures log { IfOk result (λ headers. DescribesLog headers.header headers.start headers.end (D.state device.old.disk).past.size) }
    ensures header { IsTrue (D.state device.old.disk).honest →
        IfOk result (λ headers. headers.header ≡ read_of (D.state device.old.disk).past 0) }
    ensures start { IsTrue (D.state device.old.disk).honest →
        IfOk result (λ headers. headers.start ≡ u64_at (read_of (D.state device.old.disk).past 1) 0) }
    ensures label { IsTrue (D.state device.old.disk).honest →
        IfOk result (λ headers. label_of headers.start_block ≡ label_of (read_of (D.state device.old.disk).past 1)) }
    ensures size { IfOk result (λ headers. length headers.tags ≡ BLOCK_BYTES) }
    ensures tags { IsTrue (D.state device.old.disk).honest → IfOk result (λ headers. is_sealed headers.header ≡ true
        → (q : ℕ) → tag_at headers.tags q ≡ tag_of (read_of (D.state device.old.disk).past (log_block q))) }
    ensures end { IsTrue (D.state device.old.disk).honest →
        IfOk result (λ headers. headers.end ≡ end_in (reading (D.state device.old.disk).past)) }
{
    let mut header = Block::try_new(alloc)?;
    let mut start_block = Block::try_new(alloc)?;
    let mut tags = Block::try_new(alloc)?;
    let mut scratch = Block::try_new(alloc)?;
    device.read(START_BLOCK, &mut start_block)?;
    let start = start_block.get_u64(BOUND_AT);
    device.read(HEADER, &mut header)?;
    let end = read_end(device, &header, &mut scratch, &mut tags)?;
    if !is_log(&header, start, end, device.disk.size()) {
        return Err(Refusal::BadLog);
    }
    Ok(Headers {
        header,
        tags,
        scratch,
        start,
        end,
        start_block,
    })
}

// The end of the log of block 0. Of a sealed log it reads the tags, which say whether the last
// group is in the log.
fn read_end<D: BlockDisk>(
    device: &mut FailStop<D>,
    header: &Block,
    scratch: &mut Block,
    tags: &mut Block,
) -> Result<u64, Refusal<()>>
    requires in_range { MIN_BLOCKS ≤ (D.state device.old.disk).past.size }
    requires sound { device.old.faulted ≡ false }
    requires whole { length tags.old ≡ BLOCK_BYTES }
    ensures refusal { IfErr result (IsFault device.old.faulted (D.state device.old.disk) (D.state device.new.disk)) }
    ensures keeps { Keeps (D.state device.old.disk) (D.state device.new.disk) }
    ensures same { IsTrue (D.state device.old.disk).honest →
        (D.state device.new.disk).past ≡ (D.state device.old.disk).past }
    ensures sound { IfOk result (λ _. device.new.faulted ≡ false) }
    ensures size { length tags.new ≡ BLOCK_BYTES }
    ensures tags { IsTrue (D.state device.old.disk).honest → IfOk result (λ _. is_sealed header.now ≡ true
        → (q : ℕ) → tag_at tags.new q ≡ tag_of (read_of (D.state device.old.disk).past (log_block q))) }
    ensures end { IsTrue (D.state device.old.disk).honest → IfOk result (λ end.
        end ≡ end_by header.now (read_of (D.state device.old.disk).past)) }
{
    if is_sealed(header) {
        match read_tags(device, scratch, tags) {
            Ok(()) => Ok(end_of(header, tags)),
            Err(refusal) => Err(refusal),
        }
    } else {
        Ok(header.get_u64(BOUND_AT))
    }
}

// Reads the tag of each log block, so that the next tag there differs from it.
fn read_tags<D: BlockDisk>(
    device: &mut FailStop<D>,
    scratch: &mut Block,
    tags: &mut Block,
) -> Result<(), Refusal<()>>
    requires in_range { MIN_BLOCKS ≤ (D.state device.old.disk).past.size }
    requires sound { device.old.faulted ≡ false }
    requires whole { length tags.old ≡ BLOCK_BYTES }
    ensures refusal { IfErr result (IsFault device.old.faulted (D.state device.old.disk) (D.state device.new.disk)) }
    ensures keeps { Keeps (D.state device.old.disk) (D.state device.new.disk) }
    ensures same { IsTrue (D.state device.old.disk).honest →
        (D.state device.new.disk).past ≡ (D.state device.old.disk).past }
    ensures sound { IfOk result (λ _. device.new.faulted ≡ false) }
    ensures tags { IsTrue (D.state device.old.disk).honest → IfOk result (λ _.
        (q : ℕ) → q < LOG_POSITIONS → tag_at tags.new q ≡ tag_of (read_of (D.state device.old.disk).past (log_block q))) }
    ensures size { length tags.new ≡ BLOCK_BYTES }
{
    for position in 0..LOG_POSITIONS {
        match device.read(log_block(position), scratch) {
            Ok(()) => put_tag_at(tags, position, tag_of(scratch)),
            Err(refusal) => return Err(refusal),
        }
    }
    Ok(())
}

// True if block 0 describes a log from one position to another.
fn is_log(header: &Block, start: u64, end: u64, blocks: u64) -> bool
    ensures { IsTrue result ↔ DescribesLog header.now start end blocks }
{
    if is_sealed(header) && blocks > MAX_SEALED_BLOCKS || start > end || end >= 1 << 62 {
        return false;
    }
    if end - start > LOG_POSITIONS {
        return false;
    }
    are_homes(header, start, end, blocks)
}

// True if each address from one position to another is that of a home block.
fn are_homes(header: &Block, start: u64, end: u64, blocks: u64) -> bool
    requires { start ≤ end }
    ensures { IsTrue result ↔ ((q : ℕ) → start ≤ q → q < end
        → (FIRST_HOME ≤ home_by header.now q) × (home_by header.now q < blocks)) }
{
    for position in start..end {
        let home = home_at(header, position);
        if home < FIRST_HOME || home >= blocks {
            return false;
        }
    }
    true
}
