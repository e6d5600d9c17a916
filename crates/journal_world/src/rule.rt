// The rule that a mount demands of each map that it ever has.
ghost use Rattle.std.specs.Prelude.{◌≡◌, ◌≤◌, ◌+◌, ◌%◌, ◌↔◌, Bool, Some, IsTrue, IfOk, IfErr};
ghost use Rattle.journal_world.specs.Addresses.{kind_of, is_valid};
ghost use Rattle.journal_world.specs.Files.{shape};
ghost use Rattle.journal_world.specs.Maps.{Map, SameMap, value_at, is_object, are_objects, AreBitsFrom};
ghost use Rattle.journal_world.specs.Refusals.{IsReadingRefusal};

use crate::{Addr, BLOCK_BITS, Kind, Layout, Refusal, Value};

/// Reads the objects of one map.
///
/// A trusted reader, as over a disk that is honest and settled, gives the map's value. Any other
/// reader gives some value of the address's kind. The reader knows whether the device failed during
/// its reads, and answers J6 only then.
pub trait ObjectReader {
    // A type of the trait, in place of a type parameter on each rule.
    /// The cause that the refusals of a read hold.
    type Cause;

    ghost map: { Self → Map };

    // The map's pairs are objects. So each value is of its address's kind, even one that is not
    // read. A rule then knows the length of a value that it does not read, and a mount of files
    // reads no block that is full.
    ghost objects: { (reader : Self) → IsTrue (are_objects (map reader).layout (map reader).pairs) };

    ghost trusted: { Self → Bool };

    /// True if the device failed during a read of the reader, now or before.
    ghost failed: { Self → Bool };

    /// The layout of the map's disk.
    fn layout(&self) -> Layout
        ensures { shape result ≡ (map self.now).layout };

    /// The value of the address. The map stays.
    ///
    /// # Errors
    /// - `J1 NoMemory`: memory is refused. The map and the device are as before.
    /// - `J6 DeviceFailed`: the device has failed, in this read or before. It stays failed.
    fn read(&mut self, addr: Addr) -> Result<Value, Refusal<Self::Cause>>
        requires valid { IsTrue (is_valid (map self.old).layout addr) }
        ensures value { IsTrue (trusted self.old) → IfOk result (λ value. value ≡ value_at (map self.old) addr) }
        ensures object { IfOk result (λ value. IsTrue (is_object (map self.old).layout (addr, value))) }
        ensures refusal { IfErr result (IsReadingRefusal (failed self.new)) }
        ensures stays_failed { IsTrue (failed self.old) → IsTrue (failed self.new) }
        ensures same_map { map self.new ≡ map self.old }
        ensures same_trust { trusted self.new ≡ trusted self.old };

    // 64 at once: a rule that goes over a block of bits would else make 32768 reads, each with a
    // value of its own.
    /// The bits of 64 addresses in a row as one number, that of `addr` in the lowest place. Each
    /// bit is the value that `read` gives its address. The block's objects are bits, and `addr` is
    /// at a multiple of 64. The map stays.
    ///
    /// # Errors
    /// - `J1 NoMemory`: memory is refused. The map and the device are as before.
    /// - `J6 DeviceFailed`: the device has failed, in this read or before. It stays failed.
    fn read_bits(&mut self, addr: Addr) -> Result<u64, Refusal<Self::Cause>>
        requires kind { kind_of (map self.old).layout addr.block ≡ Some Kind.Bit }
        requires inside { addr.off + 64 ≤ BLOCK_BITS }
        requires multiple { addr.off % 64 ≡ 0 }
        ensures bits { IsTrue (trusted self.old) → IfOk result (AreBitsFrom (map self.old) addr) }
        ensures refusal { IfErr result (IsReadingRefusal (failed self.new)) }
        ensures stays_failed { IsTrue (failed self.old) → IsTrue (failed self.new) }
        ensures same_map { map self.new ≡ map self.old }
        ensures same_trust { trusted self.new ≡ trusted self.old };
}

/// A rule of a mount: a statement over maps. It holds of the map that is opened, and each commit
/// keeps it. Two maps with the same values both meet it or both do not.
pub trait MapRule {
    ghost statement: { Map → Type 0 };

    /// True if the statement holds of the map that is read. The map stays.
    ///
    /// # Errors
    /// - `J1 NoMemory`: memory is refused. The map and the device are as before.
    /// - `J6 DeviceFailed`: the device has failed, in a read of this call or before. It stays
    ///   failed.
    fn admit<O: ObjectReader>(&self, reader: &mut O) -> Result<bool, Refusal<O::Cause>>
        ensures admitted { IsTrue (O.trusted reader.old) → IfOk result (λ admitted. IsTrue admitted ↔ statement (O.map reader.old)) }
        ensures refusal { IfErr result (IsReadingRefusal (O.failed reader.new)) }
        ensures stays_failed { IsTrue (O.failed reader.old) → IsTrue (O.failed reader.new) }
        ensures same_map { O.map reader.new ≡ O.map reader.old }
        ensures same_trust { O.trusted reader.new ≡ O.trusted reader.old };

    ghost respects: { (m n : Map) → SameMap m n → statement m → statement n };
}

/// The rule that holds of every map. It reads nothing.
#[derive(Clone, Copy, Debug, PartialEq, Eq)]
pub struct AnyMap;

impl MapRule for AnyMap {
    ghost statement = { λ m. Unit {0} };

    ghost respects = { λ m n same holds. holds };

    fn admit<O: ObjectReader>(&self, _reader: &mut O) -> Result<bool, Refusal<O::Cause>> {
        Ok(true)
    }
}
