// Values by address.
ghost use Rattle.std.specs.Prelude.{◌≡◌, [], ◌∷◌, IsTrue, OnOk, OnErr};
ghost use Rattle.std.specs.Option.{option_copied};
ghost use Rattle.journal_world.specs.Addresses.{Shape};
ghost use Rattle.journal_world.specs.Maps.{Map, value_among, value_at, SamePairs, Agrees, is_object, are_objects};
ghost use Rattle.journal_world.specs.Orders.{HasAscendingBlocks};

use crate::{Addr, Value};
use std::alloc::{AllocError, Global};
use std::collections::BTreeMap;
use std::collections::btree_map::Iter;
use std::marker::Model;

// Over a `BTreeMap`, because transactions look their own values up by address. It is not made of a
// `Vec`, which would take a sort.
/// Values by address, at most one for each. Contracts see the pairs, addresses ascending.
#[derive(Debug, Drop)]
pub struct Objects {
    values: BTreeMap<Addr, Value>,
}

impl Model for Objects {
    ghost use Rattle.std.specs.Prelude.{List};
    ghost use Rattle.journal_world.specs.Addresses.{Shape};
    ghost use Rattle.journal_world.specs.Maps.{Pair};

    ghost Value = { List Pair };

    ghost view = { λ objects. objects.values.entries };
}

impl Objects {
    /// No values. The call takes no memory.
    pub fn new(alloc: Global) -> Objects
        ensures { result ≡ [] }
    {
        Objects {
            values: BTreeMap::new(alloc),
        }
    }

    /// The address's value, if it has one.
    pub fn get(&self, addr: Addr) -> Option<&Value>
        ensures { option_copied result ≡ value_among self.now addr }
    {
        self.values.get(&addr)
    }

    /// The pairs, addresses ascending.
    pub fn iter(&self) -> Iter<'_, Addr, Value>
        ensures pairs { result ≡ self.now }
        ensures ascending { HasAscendingBlocks self.now }
    {
        self.values.iter()
    }

    /// Gives the address this value, in place of the one that it had.
    ///
    /// # Errors
    /// - Memory for a new address is refused. Nothing changed. An address that has a value already
    ///   is never refused.
    pub fn insert(&mut self, addr: Addr, value: Value) -> Result<(), AllocError>
        ensures ok { OnOk result (SamePairs self.new ((addr, value) ∷ self.old)) }
        ensures err { OnErr result (self.new ≡ self.old) }
        ensures err_only_if_absent { OnErr result (value_among self.old addr ≡ None) }
        ensures objects { (layout : Shape) → IsTrue (are_objects layout self.old) → IsTrue (is_object layout (addr, value)) → IsTrue (are_objects layout self.new) }
        ensures agrees { (m : Map) → Agrees m self.old → value_at m addr ≡ value → Agrees m self.new }
    {
        self.values.insert(addr, value)?;
        Ok(())
    }
}

impl Clone for Objects {
    ghost is_clone = { λ objects copy. copy ≡ objects };

    fn clone(&self) -> Result<Objects, AllocError> {
        Ok(Objects {
            values: self.values.clone()?,
        })
    }
}
