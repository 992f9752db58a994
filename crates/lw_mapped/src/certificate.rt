// Labels and classes that show that a netlist is the fastest.
ghost use Rattle.std.specs.Prelude.{◌≡◌};

use lw_fixed::Micro;
use lw_pool::ClassId;
use std::marker::Model;

/// Labels in order, where there are any.
#[derive(Drop)]
pub struct OptMicros {
    items: Vec<Option<Micro>>,
}

impl Model for OptMicros {
    ghost use Rattle.std.specs.Prelude.{List, Option};
    ghost use Rattle.lw_fixed.specs.declared.micro.Micro.{Micro};

    ghost Value = { List (Option Micro) };

    ghost view = { λ l. l.items.items };
}

impl OptMicros {
    /// The entries of a vector, without memory.
    pub fn from_vec(items: Vec<Option<Micro>>) -> Self
        ensures { result ≡ items.items }
    {
        OptMicros { items }
    }

    /// The labels, one for each class.
    pub fn as_slice(&self) -> &[Option<Micro>]
        ensures { result.now ≡ self.now }
    {
        &self.items
    }
}

/// Classes in order, where there are any.
#[derive(Drop)]
pub struct OptClasses {
    items: Vec<Option<ClassId>>,
}

impl Model for OptClasses {
    ghost use Rattle.std.specs.Prelude.{List, Option};
    ghost use Rattle.lw_pool.specs.declared.id.ClassId.{ClassId};

    ghost Value = { List (Option ClassId) };

    ghost view = { λ l. l.items.items };
}

impl OptClasses {
    /// The entries of a vector, without memory.
    pub fn from_vec(items: Vec<Option<ClassId>>) -> Self
        ensures { result ≡ items.items }
    {
        OptClasses { items }
    }

    /// The classes of the gates, in order.
    pub fn as_slice(&self) -> &[Option<ClassId>]
        ensures { result.now ≡ self.now }
    {
        &self.items
    }
}

/// What shows that a netlist is the fastest: a label for some of the classes, by their numbers, and
/// the class of each gate that has one.
#[derive(Drop)]
pub struct Certificate {
    pub labels: OptMicros,
    pub nets: OptClasses,
}
