// A transaction on the objects of a map.
ghost use Rattle.std.specs.Prelude.{◌≡◌, [], ◌∷◌, None, List, IsTrue, IfOk, IfErr, OnOk, OnErr};
ghost use Rattle.journal_world.specs.Addresses.{Shape};
ghost use Rattle.journal_world.specs.Maps.{Pair, SamePairs, value_among, is_object, are_objects};
ghost use Rattle.journal_treeobjects.specs.Reads.{IsAmong, ReadsOnly};

use journal_world::{Addr, Objects, Value};

/// A transaction on the objects of a disk: what it reads is of one map, and what it overwrites is
/// overwritten, all of it, if it is committed.
pub trait ObjectTransaction {
    /// Why a read or an overwrite is refused.
    type Fault: Drop;

    /// The refusals that there may be.
    ghost is_fault: { Self.Fault → Type 0 };

    /// The layout of the disk.
    ghost layout: { Self → Shape };

    /// The objects that it has read, by address.
    ghost reads: { Self → List Pair };

    /// The objects that it has overwritten.
    ghost writes: { Self → List Pair };

    /// Reads an object that it has not overwritten.
    ///
    /// # Errors
    /// - The transaction refuses. It has read what it had.
    fn read(&mut self, addr: Addr) -> Result<Value, Self::Fault>
        requires unwritten { value_among (writes self.old) addr ≡ None }
        ensures reads { IfOk result (λ value. SamePairs (reads self.new) ((addr, value) ∷ reads self.old)) }
        ensures object { IfOk result (λ value. IsTrue (is_object (layout self.old) (addr, value))) }
        ensures same { OnErr result (reads self.new ≡ reads self.old) }
        ensures fault { IfErr result is_fault }
        ensures same_layout { layout self.new ≡ layout self.old }
        ensures same_writes { writes self.new ≡ writes self.old };

    /// Reads objects ahead, and adds them to those that were found before: of these addresses, in
    /// their order, as many as it can without a wait for a device. It reads none that was found
    /// before. The call refuses nothing: why it read fewer, the next `read` says.
    fn prefetch(&mut self, addrs: &[Addr], found: &mut Objects)
        requires unwritten { writes self.old ≡ [] }
        requires found { IsAmong found.old (reads self.old) }
        ensures found { IsAmong found.new (reads self.new) }
        ensures kept { IsAmong found.old found.new }
        ensures objects { IsTrue (are_objects (layout self.old) found.old) → IsTrue (are_objects (layout self.old) found.new) }
        ensures asked { ReadsOnly addrs.now (reads self.old) (reads self.new) }
        ensures same_layout { layout self.new ≡ layout self.old }
        ensures same_writes { writes self.new ≡ writes self.old };

    /// Overwrites an object by a value of its kind.
    ///
    /// # Errors
    /// - The transaction refuses.
    fn overwrite(&mut self, addr: Addr, bytes: &[u8]) -> Result<(), Self::Fault>
        requires object { IsTrue (is_object (layout self.old) (addr, bytes.now)) }
        ensures writes { OnOk result (SamePairs (writes self.new) ((addr, bytes.now) ∷ writes self.old)) }
        ensures same_layout { layout self.new ≡ layout self.old }
        ensures same_reads { reads self.new ≡ reads self.old }
        ensures fault { IfErr result is_fault };
}
