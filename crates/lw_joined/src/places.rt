// The inputs of a network among those of another.
ghost use Rattle.std.specs.Prelude.{◌≡◌, ◌≤◌, length, IfOk};
ghost use Rattle.std.specs.List.{IsDistinct};
ghost use Rattle.std.specs.Str.{bytes_eq};
ghost use Rattle.lw_net.specs.Networks.{input_names};
ghost use Rattle.lw_pool.specs.Numbers.{most_signals};
ghost use Rattle.lw_joined.specs.Places.{IsPlacing, ArePlaced};

use indexmap::IndexSet;
use lw_net::Network;
use lw_pool::Name;
use std::alloc::{AllocError, Global};
use std::marker::Model;

/// The names of the inputs of a network.
#[derive(Drop)]
pub struct Inputs {
    names: IndexSet<Name>,
}

impl Model for Inputs {
    ghost use Rattle.std.specs.Prelude.{List, ℕ, ◌≤◌, length};
    ghost use Rattle.lw_pool.specs.Numbers.{most_signals};

    ghost Value = { List (List ℕ) };

    ghost view = { λ i. i.names.keys };

    ghost invariant = { λ i. length i.names.keys ≤ most_signals };
}

/// The places of the inputs of a network among those of another, or the first one that is none.
#[derive(Drop)]
pub enum Places {
    At(Vec<u32>),
    Strange(Name),
}

// Names as a set.
fn set_of(alloc: Global, names: &[Name]) -> Result<IndexSet<Name>, AllocError>
    requires { IsDistinct bytes_eq names.now }
    ensures { IfOk result (λ set. set.keys ≡ names.now) }
{
    let mut set = IndexSet::new(alloc);
    for name in names {
        set.insert(Name::from_slice(alloc, name.as_bytes())?)?;
    }
    Ok(set)
}

// Where names stand among others, or the first one that is none of them.
fn places_in(alloc: Global, all: &IndexSet<Name>, names: &[Name]) -> Result<Places, AllocError>
    requires { length all.now.keys ≤ most_signals }
    ensures { IfOk result (ArePlaced all.now.keys names.now) }
{
    let mut places = Vec::new(alloc);
    for name in names {
        let Some(place) = all.get_index_of(name) else {
            drop(places);
            return Ok(Places::Strange(Name::from_slice(alloc, name.as_bytes())?));
        };
        places.push(place as u32)?;
    }
    Ok(Places::At(places))
}

impl Inputs {
    /// The names of the inputs of this network.
    pub fn of(alloc: Global, net: &Network) -> Result<Self, AllocError>
        requires { IsDistinct bytes_eq (input_names net.now) }
        ensures { IfOk result (λ inputs. inputs ≡ input_names net.now) }
    {
        let inputs = net.inputs() as usize;
        let names = set_of(alloc, &net.names()[..inputs])?;
        Ok(Inputs { names })
    }

    /// Where the inputs of another network stand among them.
    pub fn places_of(&self, alloc: Global, other: &Network) -> Result<Places, AllocError>
        ensures { IfOk result (IsPlacing self.now other.now) }
    {
        let inputs = other.inputs() as usize;
        places_in(alloc, &self.names, &other.names()[..inputs])
    }
}
