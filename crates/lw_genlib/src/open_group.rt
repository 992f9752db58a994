ghost use Rattle.std.specs.Prelude.{◌≡◌, ◌+◌, ◌<◌, ◌^◌, ◌++◌, OnOk, replicate};
ghost use Rattle.lw_genlib.specs.Parsing.{no_group, operator};

use crate::ExprOp;
use std::alloc::AllocError;

/// What is kept of a group of an expression that is not closed: how many operands stand there whose
/// operator is to come.
#[derive(Clone, Copy, Drop)]
pub(crate) struct OpenGroup {
    // the products that a `+` ended
    products: u8,
    // the factors of the product behind them
    factors: u8,
    // the `!` whose operand is to come
    bangs: usize,
}

impl OpenGroup {
    pub(crate) fn new() -> Self
        ensures { result ≡ no_group }
    {
        OpenGroup {
            products: 0,
            factors: 0,
            bangs: 0,
        }
    }

    pub(crate) fn add_bang(&mut self)
        requires { self.old.bangs < 2 ^ 32 }
        ensures { self.new ≡ record self.old { bangs = self.old.bangs + 1 } }
    {
        self.bangs += 1;
    }

    /// The operand whose steps are the last becomes a factor, under the `!` that wait.
    pub(crate) fn end_factor(&mut self, ops: &mut Vec<ExprOp>) -> Result<(), AllocError>
        requires { self.old.factors < 255 }
        ensures { OnOk result
            ((self.new ≡ record self.old { factors = self.old.factors + 1; bangs = 0 })
            × (ops.new.items ≡ ops.old.items ++ replicate self.old.bangs ExprOp.Not)) }
    {
        for _ in 0..self.bangs {
            ops.push(ExprOp::Not)?;
        }
        self.bangs = 0;
        self.factors += 1;
        Ok(())
    }

    /// The factors become a product.
    pub(crate) fn end_product(&mut self, ops: &mut Vec<ExprOp>) -> Result<(), AllocError>
        requires { self.old.products < 255 }
        ensures { OnOk result
            ((self.new ≡ record self.old { products = self.old.products + 1; factors = 0 })
            × (ops.new.items ≡ ops.old.items ++ operator ExprOp.And self.old.factors)) }
    {
        if self.factors > 1 {
            ops.push(ExprOp::And(self.factors))?;
        }
        self.products += 1;
        self.factors = 0;
        Ok(())
    }

    /// The factors become a product, and the products a sum.
    pub(crate) fn end_sum(&mut self, ops: &mut Vec<ExprOp>) -> Result<(), AllocError>
        requires { self.old.products < 255 }
        ensures { OnOk result (ops.new.items ≡ ops.old.items
            ++ operator ExprOp.And self.old.factors
            ++ operator ExprOp.Or (self.old.products + 1)) }
    {
        self.end_product(ops)?;
        if self.products > 1 {
            ops.push(ExprOp::Or(self.products))?;
        }
        Ok(())
    }
}
