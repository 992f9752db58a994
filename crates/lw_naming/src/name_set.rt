// Names, to be found fast.
ghost use Rattle.std.specs.Prelude.{◌≡◌, [], ◌∷◌, IfOk, OnOk};
ghost use Rattle.lw_laws.specs.Names.{is_name_among};
ghost use Rattle.lw_naming.specs.Naming.{HoldsAlso};

use indexmap::IndexSet;
use lw_pool::Name;
use std::alloc::{AllocError, Global};
use std::marker::Model;

// Names that differ, in the order in which they came.
#[derive(Drop)]
pub(crate) struct NameSet {
    alloc: Global,
    names: IndexSet<Vec<u8>>,
}

impl Model for NameSet {
    ghost use Rattle.std.specs.Prelude.{List, ℕ, map};

    ghost Value = { List (List ℕ) };

    ghost view = { λ s. map (λ name. name.items) s.names.keys };
}

impl NameSet {
    // No names, and room for so many.
    pub(crate) fn with_capacity(alloc: Global, count: usize) -> Result<Self, AllocError>
        ensures { IfOk result (λ set. set ≡ []) }
    {
        let names = IndexSet::with_capacity(alloc, count)?;
        Ok(NameSet { alloc, names })
    }

    pub(crate) fn contains(&self, name: &[u8]) -> bool
        ensures { result ≡ is_name_among name.now self.now }
    {
        self.names.contains(name)
    }

    // Adds a name, if it is not there.
    pub(crate) fn add(&mut self, name: &[u8]) -> Result<(), AllocError>
        ensures { OnOk result (HoldsAlso self.old self.new (name.now ∷ [])) }
    {
        let name = Vec::from_slice(self.alloc, name)?;
        self.names.insert(name)?;
        Ok(())
    }

    // Adds those of the names that are not there.
    pub(crate) fn add_all(&mut self, names: &[Name]) -> Result<(), AllocError>
        ensures { OnOk result (HoldsAlso self.old self.new names.now) }
    {
        for name in names {
            self.add(name.as_bytes())?;
        }
        Ok(())
    }
}
