ghost use Rattle.std.specs.Prelude.{◌≡◌, ◌<◌, ◌≤◌, ℕ, length, slice_index};
ghost use Rattle.lw_laws.specs.Networks.{given};
ghost use Rattle.lw_genlib.specs.Words.{bit};

use crate::ExprOp;
use crate::eval::run_words;
use std::marker::Model;

/// A function of a cell: the expression that these steps spell, in postfix order.
#[derive(Drop)]
pub struct Expr {
    ops: Vec<ExprOp>,
}

impl Model for Expr {
    ghost use Rattle.lw_laws.specs.Expressions.{Expr as Expression};
    ghost use Rattle.lw_genlib.specs.Postfix.{tree_of, IsPostfix};
    ghost use Rattle.lw_genlib.specs.Codes.{expr_code};

    ghost Value = { Expression };

    ghost coded = { expr_code };

    ghost view = { λ e. tree_of e.ops.items };

    ghost invariant = { λ e. IsPostfix e.ops.items };
}

impl Expr {
    ghost use Rattle.std.specs.Prelude.{◌≡◌, ◌<◌, ◌≤◌, ℕ, length};
    ghost use Rattle.lw_laws.specs.Expressions.{expr_value, MentionsPin};
    ghost use Rattle.lw_laws.specs.Networks.{given};
    ghost use Rattle.lw_genlib.specs.Words.{bit, pins_at};
    ghost use Rattle.lw_genlib.specs.Postfix.{tree_of, postfix, literals, IsWide, IsPostfix};

    /// The expression that steps spell, without memory.
    pub fn new(ops: Vec<ExprOp>) -> Self
        requires { IsPostfix ops.items }
        ensures { result ≡ tree_of ops.items }
    {
        Expr { ops }
    }

    /// The steps.
    pub fn ops(&self) -> &[ExprOp]
        ensures steps { result.now ≡ postfix self.now }
        ensures few { literals self.now ≤ 64 }
        ensures wide { IsWide self.now }
    {
        &self.ops
    }

    /// Its values at 64 assignments at once: bit k of a word is the value under assignment k.
    pub fn words(&self, pins: &[u64]) -> u64
        requires { (k : ℕ) → MentionsPin self.now k → k < length pins.now }
        ensures { (k : ℕ) → k < 64 → bit k result ≡ expr_value (pins_at k pins.now) self.now }
    {
        run_words(&self.ops, pins)
    }

    /// Its value at these values of the pins.
    pub fn value(&self, pins: &[bool]) -> bool
        requires pins { (k : ℕ) → MentionsPin self.now k → k < length pins.now }
        requires few { length pins.now ≤ 16 }
        ensures { result ≡ expr_value (given pins.now) self.now }
    {
        let words = as_words(pins);
        self.words(&words[..pins.len()]) & 1 == 1
    }
}

// A word for each value, with the value in its lowest bit.
fn as_words(values: &[bool]) -> [u64; 16]
    requires { length values.now ≤ 16 }
    ensures { (k : ℕ) → k < length values.now → bit 0 (slice_index result k) ≡ given values.now k }
{
    let mut words = [0; 16];
    for place in 0..values.len() {
        words[place] = u64::from(values[place]);
    }
    words
}
