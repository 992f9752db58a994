// Trees that grow out of their operands.
ghost use Rattle.std.specs.Prelude.{◌≡◌, ◌++◌, ◌∷◌, [], OnOk, IfOk, IsTrue};
ghost use Rattle.lw_laws.specs.Trees.{Tree, leaf};
ghost use Rattle.lw_laws.specs.Patterns.{inverted, tree_by, constant_tree};
ghost use Rattle.lw_pattern.specs.Steps.{steps_of, spelled, is_single, is_complement, law_operator};
ghost use Rattle.lw_pattern.specs.Steps.{operand_of, operator_steps, IsTail};

use crate::step::{Operator, Step};
use std::alloc::{AllocError, Global};
use std::marker::Model;

/// A tree.
#[derive(Drop)]
pub(crate) struct Shape {
    steps: Vec<Step>,
}

impl Model for Shape {
    ghost use Rattle.std.specs.Prelude.{◌≡◌};
    ghost use Rattle.lw_laws.specs.Trees.{Tree};
    ghost use Rattle.lw_pattern.specs.Codes.{tree_code};
    ghost use Rattle.lw_pattern.specs.Steps.{steps_of, spelled};

    ghost Value = { Tree };

    ghost coded = { tree_code };

    ghost view = { λ s. spelled s.steps.items };

    ghost invariant = { λ s. steps_of (spelled s.steps.items) ≡ s.steps.items };
}

impl Shape {
    /// A pin.
    pub(crate) fn pin(alloc: Global, pin: u8) -> Result<Self, AllocError>
        ensures { IfOk result (λ t. t ≡ leaf pin) }
    {
        Shape::single(alloc, Step::Leaf(pin))
    }

    /// A constant.
    pub(crate) fn constant(alloc: Global, value: bool) -> Result<Self, AllocError>
        ensures { IfOk result (λ t. t ≡ constant_tree value) }
    {
        Shape::single(alloc, if value { Step::True } else { Step::False })
    }

    fn single(alloc: Global, step: Step) -> Result<Self, AllocError>
        requires { IsTrue (is_single step) }
        ensures { IfOk result (λ t. t ≡ spelled (step ∷ [])) }
    {
        let mut steps = Vec::with_capacity(alloc, 1)?;
        steps.push_reserved(step);
        Ok(Shape { steps })
    }

    /// Two trees joined by an operator.
    pub(crate) fn joined(
        alloc: Global,
        operator: Operator,
        left: &Shape,
        right: &Shape,
    ) -> Result<Self, AllocError>
        ensures { IfOk result (λ t. t ≡ tree_by (law_operator operator) left.now right.now) }
    {
        let operands = left.steps().len().saturating_add(right.steps().len());
        let mut steps = Vec::with_capacity(alloc, operands.saturating_add(4))?;
        left.push_operand(operator, &mut steps)?;
        right.push_operand(operator, &mut steps)?;
        push_operator(operator, &mut steps)?;
        Ok(Shape { steps })
    }

    /// Joins the tree with the one that a tail is made of.
    pub(crate) fn join(&mut self, operator: Operator, tail: &[Step]) -> Result<(), AllocError>
        requires { (u : Tree) × IsTail operator u tail.now }
        ensures { (u : Tree) → IsTail operator u tail.now →
            OnOk result (self.new ≡ tree_by (law_operator operator) self.old u) }
    {
        self.become_operand(operator)?;
        self.steps.extend_from_slice(tail)?;
        Ok(())
    }

    // Puts what stands under the NAND of the operator in the place of the tree.
    fn become_operand(&mut self, operator: Operator) -> Result<(), AllocError>
        ensures { OnOk result (self.new ≡ operand_of operator self.old) }
    {
        if operator == Operator::Or {
            self.invert()?;
        }
        Ok(())
    }

    /// What stands behind the other operand's steps where this tree is the right operand.
    pub(crate) fn tail(&self, alloc: Global, operator: Operator) -> Result<Vec<Step>, AllocError>
        ensures { IfOk result (λ tail. IsTail operator self.now tail.items) }
    {
        let mut tail = Vec::new(alloc);
        self.push_operand(operator, &mut tail)?;
        push_operator(operator, &mut tail)?;
        Ok(tail)
    }

    /// The steps.
    pub(crate) fn steps(&self) -> &[Step]
        ensures { result.now ≡ steps_of self.now }
    {
        &self.steps
    }

    /// Puts the complement in the place of the tree. Two complements in a row fall away.
    pub(crate) fn invert(&mut self) -> Result<(), AllocError>
        ensures { OnOk result (self.new ≡ inverted self.old) }
    {
        if self.is_complement() {
            self.steps.pop();
        } else {
            self.steps.push(Step::Not)?;
        }
        Ok(())
    }

    fn is_complement(&self) -> bool
        ensures { result ≡ is_complement self.now }
    {
        match self.steps() {
            [.., last] => *last == Step::Not,
            [] => false,
        }
    }

    // Appends the steps of what stands under the NAND of the operator.
    fn push_operand(&self, operator: Operator, steps: &mut Vec<Step>) -> Result<(), AllocError>
        ensures { OnOk result (steps.new.items ≡ steps.old.items
            ++ steps_of (operand_of operator self.now)) }
    {
        let own = self.steps();
        if operator == Operator::And {
            steps.extend_from_slice(own)?;
        } else if self.is_complement() {
            steps.extend_from_slice(&own[..own.len() - 1])?;
        } else {
            steps.extend_from_slice(own)?;
            steps.push(Step::Not)?;
        }
        Ok(())
    }
}

// Appends the NAND of the operator, and what stands over it.
fn push_operator(operator: Operator, steps: &mut Vec<Step>) -> Result<(), AllocError>
    ensures { OnOk result (steps.new.items ≡ steps.old.items ++ operator_steps operator) }
{
    steps.push(Step::Both)?;
    if operator == Operator::And {
        steps.push(Step::Not)?;
    }
    Ok(())
}
