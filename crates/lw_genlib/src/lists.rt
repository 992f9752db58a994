ghost use Rattle.std.specs.Prelude.{◌≡◌, ◌<◌, ◌++◌, [], ◌∷◌, length, MatchResult, Some, slice_get};

use crate::Expr;
use std::alloc::{AllocError, Global};
use std::marker::Model;

/// Expressions in order.
#[derive(Drop)]
pub struct Exprs {
    items: Vec<Expr>,
}

impl Model for Exprs {
    ghost use Rattle.std.specs.Prelude.{List};
    ghost use Rattle.std.specs.Coded.{coded_list};
    ghost use Rattle.lw_laws.specs.Expressions.{Expr as Expression};
    ghost use Rattle.lw_genlib.specs.Codes.{expr_code};

    ghost Value = { List Expression };

    ghost coded = { coded_list expr_code };

    ghost view = { λ l. l.items.items };
}

impl Exprs {
    /// No entries. Growth takes memory from `alloc`.
    pub fn new(alloc: Global) -> Self
        ensures { result ≡ [] }
    {
        Exprs {
            items: Vec::new(alloc),
        }
    }

    /// The entries of a vector, without memory.
    pub fn from_vec(items: Vec<Expr>) -> Self
        ensures { result ≡ items.items }
    {
        Exprs { items }
    }

    /// How many expressions there are.
    pub fn len(&self) -> usize
        ensures { result ≡ length self.now }
    {
        self.items.len()
    }

    /// The expressions, in order.
    pub fn as_slice(&self) -> &[Expr]
        ensures { result.now ≡ self.now }
    {
        &self.items
    }

    /// The entry at a place.
    pub fn get(&self, place: usize) -> &Expr
        requires { place < length self.now }
        ensures { slice_get self.now place ≡ Some result.now }
    {
        &self.items[place]
    }

    /// Appends an entry. If memory runs out, nothing is changed.
    pub fn push(&mut self, item: Expr) -> Result<(), AllocError>
        ensures { MatchResult result (λ _. self.new ≡ self.old ++ item ∷ [])
            (λ _. self.new ≡ self.old) }
    {
        self.items.push(item)?;
        Ok(())
    }
}
