// Asking a rule about the map now.
ghost use Rattle.std.specs.Prelude.{◌≡◌, ◌<◌, ◌↔◌, false, length, None, IfSome, IsTrue, IsErr, OnOk, IfOk, IfErr, IsOkUnless};
ghost use Rattle.journal_world.specs.Refusals.{IsReadingRefusal};
ghost use Rattle.journal_world.specs.Addresses.{is_valid};
ghost use Rattle.journal_world.specs.Files.{shape};
ghost use Rattle.journal_world.specs.Maps.{value_at, is_object};
ghost use Rattle.journal_object.specs.Objects.{size_at};
ghost use Rattle.journal_wal.specs.Wal.{size_of, blocks_now};
ghost use Rattle.journal_objlog.specs.ObjectLogs.{map_now, KeepsMaps, Crashes, OnlyReads, IsLeft, disk_of, is_faulted};
ghost use Rattle.journal_tail.specs.MapLaws.{map_of-objects};
ghost use Rattle.journal_objlog.specs.Reading.{OnlyReadSince, IsBlockOf};

use crate::object_log::ObjectLog;
use journal_block::Block;
use journal_disk::BlockDisk;
use journal_object::load_valid;
use journal_world::{Addr, Kind, Layout, MapRule, ObjectReader, Refusal, Value};
use std::alloc::Global;
use std::marker::{Brand, Model, PhantomData};
use std::mem;

// The log before its map was read, and the layout that it is read by. Both exist in proofs alone,
// and are picked where the reading begins.
trait Opening {
    ghost use Rattle.journal_world.specs.Addresses.{Shape};
    ghost use Rattle.journal_wal.specs.Wal.{WalState};

    ghost layout: { Shape };

    ghost log: { WalState };
}

impl Opening for Brand {
    ghost use Rattle.journal_world.specs.Files.{files};
    ghost use Rattle.journal_objlog.specs.Reading.{no_log};

    ghost layout = { files 0 };

    ghost log = { no_log };
}

// A block that was read, and its number. It has no number before the first read and after a refused
// one, when its content is not specified.
#[derive(Drop)]
struct KeptBlock {
    number: Option<u64>,
    block: Block,
}

// The two blocks with many objects that were used last, so that a rule that goes through such a
// block reads it once. They are two, because the rule of a tree reads an inode, then the records of
// its blocks, then the next inode: with one kept block each of these reads is one of the device.
#[derive(Drop)]
struct KeptBlocks {
    last: KeptBlock,
    earlier: KeptBlock,
}

// Reads the map that the log had when the reading began. It holds the log, so each reader leaves a
// log that was only read. A block that is one object is read beside those that are kept. The type
// is private, and the log is given by value and always returned: a reader of a borrowed log could
// not say what it did to it.
struct MapReader<D: BlockDisk, O: Opening> {
    layout: Layout,
    objects: ObjectLog<D>,
    kept: KeptBlocks,
    whole: Block,
    opening: PhantomData<O>,
}

impl<D: BlockDisk, O: Opening> Model for MapReader<D, O> {
    ghost use Rattle.std.specs.Prelude.{◌≡◌, IfSome};
    ghost use Rattle.journal_world.specs.Files.{shape};
    ghost use Rattle.journal_wal.specs.Wal.{WalState, size_of};
    ghost use Rattle.journal_objlog.specs.Reading.{OnlyReadSince, IsBlockOf};

    ghost Value = { WalState };

    ghost view = { λ r. r.objects.log };

    ghost invariant = { λ r. (shape r.layout ≡ O.layout) × (O.layout.blocks ≡ size_of O.log)
        × OnlyReadSince O.log r.objects.log
        × IfSome r.kept.last.number (IsBlockOf r.objects.log r.kept.last.block)
        × IfSome r.kept.earlier.number (IsBlockOf r.objects.log r.kept.earlier.block) };
}

impl<D: BlockDisk, O: Opening> ObjectReader for MapReader<D, O> {
    type Cause = ();

    ghost map = { λ _. map_now O.layout O.log };

    ghost trusted = { λ _. (disk_of O.log).honest };

    ghost failed = { λ r. is_faulted r };

    ghost objects = { λ _. map_of-objects O.layout (blocks_now O.log) };

    fn layout(&self) -> Layout {
        self.layout
    }

    fn read(&mut self, addr: Addr) -> Result<Value, Refusal<()>> {
        let MapReader {
            layout,
            objects,
            kept,
            whole,
            ..
        } = self;
        if let Some(Kind::Block) = layout.kind(addr.block) {
            objects.read_block(addr.block, whole)?;
            return objects.value_in(layout, whole, addr);
        }
        keep_block::<O, D>(objects, kept, addr.block)?;
        objects.value_in(layout, &kept.last.block, addr)
    }

    fn read_bits(&mut self, addr: Addr) -> Result<u64, Refusal<()>> {
        let MapReader { objects, kept, .. } = self;
        keep_block::<O, D>(objects, kept, addr.block)?;
        Ok(kept.last.block.bits_from(addr.off as usize))
    }
}

// Puts a block first of the two that are kept. If it is neither of them, it is read over the one
// that was used earlier. After a refusal that one is no longer kept.
fn keep_block<O: Opening, D: BlockDisk>(
    objects: &mut ObjectLog<D>,
    kept: &mut KeptBlocks,
    number: u64,
) -> Result<(), Refusal<()>>
    requires read { OnlyReadSince O.log objects.old.log }
    requires last { IfSome kept.old.last.number (IsBlockOf objects.old.log kept.old.last.block) }
    requires earlier { IfSome kept.old.earlier.number (IsBlockOf objects.old.log kept.old.earlier.block) }
    requires inside { number < size_of objects.old.log }
    ensures read { OnlyReadSince O.log objects.new.log }
    ensures last { IfSome kept.new.last.number (IsBlockOf objects.new.log kept.new.last.block) }
    ensures earlier { IfSome kept.new.earlier.number (IsBlockOf objects.new.log kept.new.earlier.block) }
    ensures block { OnOk result (IsBlockOf objects.new.log kept.new.last.block number) }
    ensures refusal { IfErr result (IsReadingRefusal (is_faulted objects.new.log)) }
    ensures stays_faulted { IsTrue (is_faulted objects.old.log) → IsTrue (is_faulted objects.new.log) }
{
    if kept.last.number == Some(number) {
        return Ok(());
    }
    mem::swap(&mut kept.last, &mut kept.earlier);
    if kept.last.number == Some(number) {
        return Ok(());
    }
    kept.last.number = None;
    objects.read_block(number, &mut kept.last.block)?;
    kept.last.number = Some(number);
    Ok(())
}

impl<D: BlockDisk> ObjectLog<D> {
    /// Asks the rule whether its statement holds of the map now, by a layout of the disk. The log
    /// was only read, and is given back. The maps and the disk's content are as they were, whatever
    /// it answers.
    ///
    /// # Errors
    /// - `J6 DeviceFailed`: the device failed, before or in this call, whatever the rule answered.
    /// - `J1 NoMemory`: the rule was refused memory.
    pub fn admitted_by<R: MapRule>(
        self,
        layout: Layout,
        rule: &R,
    ) -> (ObjectLog<D>, Result<bool, Refusal<()>>)
        requires { layout.blocks ≡ size_of self.log }
        ensures admitted { IsTrue (disk_of self.log).honest →
            IfOk result.1 (λ admitted. IsTrue admitted ↔ R.statement (map_now (shape layout) self.log)) }
        ensures refusal { IfErr result.1 (IsReadingRefusal (is_faulted result.0.log)) }
        ensures faulted { IsTrue (is_faulted self.log) → IsErr result.1 × (result.0.log ≡ self.log) }
        ensures fine { OnOk result.1 ((is_faulted self.log ≡ false) × (is_faulted result.0.log ≡ false)) }
        ensures reads { OnlyReads self.log result.0.log }
        ensures left { IfErr result.1 (IsLeft result.0.log) }
        ensures maps { IsTrue (disk_of self.log).honest → KeepsMaps self.log result.0.log }
        ensures crash { Crashes self.log result.0.log }
    {
        if self.log.is_faulted() {
            return (self, Err(Refusal::DeviceFailed(())));
        }
        let (objects, admitted) = read_by::<Brand, D, R>(self, layout, rule);
        if objects.log.is_faulted() {
            return (objects, Err(Refusal::DeviceFailed(())));
        }
        (objects, admitted)
    }

    // Reads the block, with all overwrites. After a refusal its content is not specified.
    fn read_block(&mut self, number: u64, into: &mut Block) -> Result<(), Refusal<()>>
        requires { number < size_of self.old.log }
        ensures block { OnOk result (IsBlockOf self.new.log into.new number) }
        ensures refusal { IfErr result (IsReadingRefusal (is_faulted self.new.log)) }
        ensures reads { OnlyReads self.old.log self.new.log }
        ensures maps { IsTrue (disk_of self.old.log).honest → KeepsMaps self.old.log self.new.log }
        ensures crash { Crashes self.old.log self.new.log }
    {
        self.log.read(number, into)
    }

    // The value that a block of the log has at the address. No device call is made. Only J1 refuses
    // it.
    fn value_in(&self, layout: &Layout, block: &Block, addr: Addr) -> Result<Value, Refusal<()>>
        requires { IsTrue (is_valid (shape layout.now) addr) }
        ensures value { IsTrue (disk_of self.now.log).honest → IsBlockOf self.now.log block.now addr.block
            → IfOk result (λ value. value ≡ value_at (map_now (shape layout.now) self.now.log) addr) }
        ensures object { IfOk result (λ value. IsTrue (is_object (shape layout.now) (addr, value))) }
        ensures refusal { IsOkUnless result Refusal.NoMemory }
    {
        let mut bytes = room_for(self.alloc, layout, addr)?;
        self.object_in(layout, block, addr, &mut bytes);
        Ok(Value::new(bytes))
    }

    // Reads the object that a block of the log has at the address.
    fn object_in(&self, layout: &Layout, block: &Block, addr: Addr, into: &mut [u8])
        requires valid { IsTrue (is_valid (shape layout.now) addr) }
        requires size { length into.old ≡ size_at (shape layout.now) addr }
        ensures value { IsTrue (disk_of self.now.log).honest → IsBlockOf self.now.log block.now addr.block
            → into.new ≡ value_at (map_now (shape layout.now) self.now.log) addr }
        ensures object { IsTrue (is_object (shape layout.now) (addr, into.new)) }
    {
        load_valid(layout, block, addr, into);
    }

    // A log that was not read since.
    fn prove_unread(&self)
        ensures { OnlyReadSince self.now.log self.now.log }
    {
        // Called for its contract: a crash leaves what the log says.
        let _faulted = self.log.is_faulted();
    }
}

// Lets the rule read the map of the log as it was picked.
fn read_by<O: Opening, D: BlockDisk, R: MapRule>(
    objects: ObjectLog<D>,
    layout: Layout,
    rule: &R,
) -> (ObjectLog<D>, Result<bool, Refusal<()>>)
    requires log { objects.log ≡ O.log }
    requires layout { shape layout ≡ O.layout }
    requires blocks { O.layout.blocks ≡ size_of O.log }
    ensures admitted { IsTrue (disk_of O.log).honest →
        IfOk result.1 (λ admitted. IsTrue admitted ↔ R.statement (map_now O.layout O.log)) }
    ensures refusal { IfErr result.1 (IsReadingRefusal (is_faulted result.0.log)) }
    ensures read { OnlyReadSince O.log result.0.log }
{
    objects.prove_unread();
    let (kept, whole) = match blocks_to_read(objects.alloc) {
        Ok(blocks) => blocks,
        Err(refusal) => return (objects, Err(refusal)),
    };
    let mut reader = MapReader::<D, O> {
        layout,
        objects,
        kept,
        whole,
        opening: PhantomData,
    };
    let admitted = rule.admit(&mut reader);
    let MapReader {
        layout: _,
        objects,
        kept: _,
        whole: _,
        opening: _,
    } = reader;
    (objects, admitted)
}

// Zeros in the number of bytes that the address's object has. Only J1 refuses it.
fn room_for(alloc: Global, layout: &Layout, addr: Addr) -> Result<Vec<u8>, Refusal<()>>
    ensures size { IfOk result (λ bytes. length bytes.items ≡ size_at (shape layout.now) addr) }
    ensures refusal { IsOkUnless result Refusal.NoMemory }
{
    let size = match layout.kind(addr.block) {
        Some(kind) => kind.bytes(),
        None => 0,
    };
    Ok(vec![in alloc; 0u8; size]?)
}

// Blocks to read into: those that are kept, which have no numbers yet, and one beside them. Only J1
// refuses them.
fn blocks_to_read(alloc: Global) -> Result<(KeptBlocks, Block), Refusal<()>>
    ensures last { IfOk result (λ blocks. blocks.0.last.number ≡ None) }
    ensures earlier { IfOk result (λ blocks. blocks.0.earlier.number ≡ None) }
    ensures refusal { IsOkUnless result Refusal.NoMemory }
{
    let last = block_to_keep(alloc)?;
    let earlier = block_to_keep(alloc)?;
    let whole = Block::try_new(alloc)?;
    Ok((KeptBlocks { last, earlier }, whole))
}

// A block to keep, which has no number yet. Only J1 refuses it.
fn block_to_keep(alloc: Global) -> Result<KeptBlock, Refusal<()>>
    ensures number { IfOk result (λ kept. kept.number ≡ None) }
    ensures refusal { IsOkUnless result Refusal.NoMemory }
{
    let block = Block::try_new(alloc)?;
    Ok(KeptBlock {
        number: None,
        block,
    })
}
