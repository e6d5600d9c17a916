// The nodes that the entries of a directory name, and their names.
ghost use Rattle.std.specs.Prelude.{ℕ, ◌≡◌, ◌||◌, ◌&&◌, ◌++◌, ◌∷◌, ◌↔◌, if◌then◌else◌, List, [], IsTrue, IfOk, OnOk, true, not, bytes_eq};
ghost use Rattle.journal_treerule.specs.Directories.{has_name};

use std::alloc::{AllocError, Global};
use std::collections::BTreeSet;
use std::marker::Model;

// A node that an entry names.
#[derive(Clone, Copy, Debug, PartialEq, Eq)]
pub(crate) struct Child {
    pub number: u32,
    pub is_directory: bool,
}

// Names, of which no two are alike. Contracts see their list.
#[derive(Drop)]
pub(crate) struct Names {
    set: BTreeSet<Vec<u8>>,
}

impl Model for Names {
    ghost use Rattle.std.specs.Prelude.{List, ℕ, map};

    ghost Value = { List (List ℕ) };

    ghost view = { λ names. map (λ name. name.items) names.set.keys };
}

impl Names {
    // No names. The call takes no memory.
    pub fn new(alloc: Global) -> Names
        ensures { result ≡ [] }
    {
        Names {
            set: BTreeSet::new(alloc),
        }
    }

    /// Adds a name. False if it is there already.
    ///
    /// # Errors
    /// - Memory is refused. No name is added.
    pub fn add(&mut self, alloc: Global, name: &[u8]) -> Result<bool, AllocError>
        ensures added { IfOk result (λ added. added ≡ not (has_name self.old name.now)) }
        ensures names { OnOk result ((other : List ℕ) → has_name self.new other ≡ (bytes_eq name.now other || has_name self.old other)) }
    {
        Ok(self.set.insert(name.to_vec(alloc)?)?)
    }

    // True if each of the names is one of the others.
    pub fn are_within(&self, others: &Names) -> bool
        ensures { IsTrue result ↔ ((name : List ℕ) → has_name self.now name ≡ true → has_name others.now name ≡ true) }
    {
        self.set.is_subset(&others.set)
    }
}

// The nodes that hang at the first places of a directory, and their names; those of them that need
// a second entry; and the names of the nodes whose second entries were found.
#[derive(Drop)]
pub(crate) struct Children {
    pub list: Vec<Child>,
    pub names: Names,
    pub needing: Names,
    pub seconds: Names,
}

impl Children {
    // Nothing. The call takes no memory.
    pub fn new(alloc: Global) -> Children
        ensures list { result.list.items ≡ [] }
        ensures names { result.names ≡ [] }
        ensures needing { result.needing ≡ [] }
        ensures seconds { result.seconds ≡ [] }
    {
        Children {
            list: Vec::new(alloc),
            names: Names::new(alloc),
            needing: Names::new(alloc),
            seconds: Names::new(alloc),
        }
    }

    /// Adds a node that hangs at a place. False if its name is there already.
    ///
    /// # Errors
    /// - Memory is refused. The name may be there then, and the node is not.
    pub fn add(
        &mut self,
        alloc: Global,
        child: Child,
        name: &[u8],
        needs_second: bool,
    ) -> Result<bool, AllocError>
        ensures added { IfOk result (λ added. added ≡ not (has_name self.old.names name.now)) }
        ensures names { OnOk result ((other : List ℕ) → has_name self.new.names other ≡ (bytes_eq name.now other || has_name self.old.names other)) }
        ensures list { IfOk result (λ added. self.new.list.items ≡ (if added then self.old.list.items ++ child ∷ [] else self.old.list.items)) }
        ensures needing { IfOk result (λ added. IsTrue added → (other : List ℕ) → has_name self.new.needing other ≡ (needs_second && bytes_eq name.now other || has_name self.old.needing other)) }
        ensures seconds { OnOk result (self.new.seconds ≡ self.old.seconds) }
    {
        let is_new = self.names.add(alloc, name)?;
        if !is_new {
            return Ok(false);
        }
        if needs_second {
            self.needing.add(alloc, name)?;
        }
        self.list.push(child)?;
        Ok(true)
    }
}
