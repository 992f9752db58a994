// Lists of trees, and the bracketings of operands.
ghost use Rattle.std.specs.Prelude.{◌≡◌, ◌++◌, ◌∷◌, [], map, OnOk, IfOk};
ghost use Rattle.lw_laws.specs.Patterns.{inverted, each_with, all_pairs, three, four, left_chain};
ghost use Rattle.lw_pattern.specs.Steps.{law_operator};

use crate::shape::Shape;
use crate::step::Operator;
use std::alloc::{AllocError, Global};
use std::marker::Model;

/// Trees in order.
#[derive(Drop)]
pub(crate) struct Shapes {
    items: Vec<Shape>,
}

impl Model for Shapes {
    ghost use Rattle.std.specs.Prelude.{List};
    ghost use Rattle.std.specs.Coded.{coded_list};
    ghost use Rattle.lw_laws.specs.Trees.{Tree};
    ghost use Rattle.lw_pattern.specs.Codes.{tree_code};

    ghost Value = { List Tree };

    ghost coded = { coded_list tree_code };

    ghost view = { λ l. l.items.items };
}

impl Shapes {
    /// No trees. Growth takes memory from `alloc`.
    pub(crate) fn new(alloc: Global) -> Self
        ensures { result ≡ [] }
    {
        Shapes {
            items: Vec::new(alloc),
        }
    }

    /// One tree.
    pub(crate) fn single(alloc: Global, shape: Shape) -> Result<Self, AllocError>
        ensures { IfOk result (λ trees. trees ≡ shape ∷ []) }
    {
        let mut shapes = Shapes::new(alloc);
        shapes.items.push(shape)?;
        Ok(shapes)
    }

    pub(crate) fn as_slice(&self) -> &[Shape]
        ensures { result.now ≡ self.now }
    {
        &self.items
    }

    /// Puts the complement of each tree in its place.
    pub(crate) fn invert(&mut self) -> Result<(), AllocError>
        ensures { OnOk result (self.new ≡ map inverted self.old) }
    {
        for shape in self.items.iter_mut() {
            shape.invert()?;
        }
        Ok(())
    }

    // Joins each tree with another one.
    fn join_each(
        &mut self,
        alloc: Global,
        operator: Operator,
        other: &Shape,
    ) -> Result<(), AllocError>
        ensures { OnOk result (self.new
            ≡ all_pairs (law_operator operator) self.old (other.now ∷ [])) }
    {
        let tail = other.tail(alloc, operator)?;
        for shape in self.items.iter_mut() {
            shape.join(operator, &tail)?;
        }
        Ok(())
    }

    // Appends a tree joined with each of the others.
    fn push_each(
        &mut self,
        alloc: Global,
        operator: Operator,
        first: &Shape,
        others: &Shapes,
    ) -> Result<(), AllocError>
        ensures { OnOk result (self.new ≡ self.old
            ++ each_with (law_operator operator) first.now others.now) }
    {
        for other in others.as_slice() {
            self.items
                .push(Shape::joined(alloc, operator, first, other)?)?;
        }
        Ok(())
    }

    // Appends each tree of the left ones joined with each of the right ones.
    fn push_pairs(
        &mut self,
        alloc: Global,
        operator: Operator,
        left: &Shapes,
        right: &Shapes,
    ) -> Result<(), AllocError>
        ensures { OnOk result (self.new ≡ self.old
            ++ all_pairs (law_operator operator) left.now right.now) }
    {
        for first in left.as_slice() {
            self.push_each(alloc, operator, first, right)?;
        }
        Ok(())
    }

    // Appends all bracketings of three operands.
    fn push_three(
        &mut self,
        alloc: Global,
        operator: Operator,
        a: &Shapes,
        b: &Shapes,
        c: &Shapes,
    ) -> Result<(), AllocError>
        ensures { OnOk result (self.new ≡ self.old
            ++ three (law_operator operator) a.now b.now c.now) }
    {
        self.push_pairs(alloc, operator, &pairs(alloc, operator, a, b)?, c)?;
        self.push_pairs(alloc, operator, a, &pairs(alloc, operator, b, c)?)
    }

    // Appends all bracketings of four operands.
    fn push_four(
        &mut self,
        alloc: Global,
        operator: Operator,
        a: &Shapes,
        b: &Shapes,
        c: &Shapes,
        d: &Shapes,
    ) -> Result<(), AllocError>
        ensures { OnOk result (self.new ≡ self.old
            ++ four (law_operator operator) a.now b.now c.now d.now) }
    {
        self.push_pairs(alloc, operator, &three(alloc, operator, a, b, c)?, d)?;
        let left = pairs(alloc, operator, a, b)?;
        self.push_pairs(alloc, operator, &left, &pairs(alloc, operator, c, d)?)?;
        drop(left);
        self.push_pairs(alloc, operator, a, &three(alloc, operator, b, c, d)?)
    }
}

/// Each tree of the left ones joined with each of the right ones.
pub(crate) fn pairs(
    alloc: Global,
    operator: Operator,
    left: &Shapes,
    right: &Shapes,
) -> Result<Shapes, AllocError>
    ensures { IfOk result (λ trees. trees ≡ all_pairs (law_operator operator) left.now right.now) }
{
    let mut shapes = Shapes::new(alloc);
    shapes.push_pairs(alloc, operator, left, right)?;
    Ok(shapes)
}

/// All bracketings of three operands.
pub(crate) fn three(
    alloc: Global,
    operator: Operator,
    a: &Shapes,
    b: &Shapes,
    c: &Shapes,
) -> Result<Shapes, AllocError>
    ensures { IfOk result (λ trees. trees ≡ three (law_operator operator) a.now b.now c.now) }
{
    let mut shapes = Shapes::new(alloc);
    shapes.push_three(alloc, operator, a, b, c)?;
    Ok(shapes)
}

/// All bracketings of four operands.
pub(crate) fn four(
    alloc: Global,
    operator: Operator,
    a: &Shapes,
    b: &Shapes,
    c: &Shapes,
    d: &Shapes,
) -> Result<Shapes, AllocError>
    ensures { IfOk result (λ trees. trees ≡ four (law_operator operator) a.now b.now c.now d.now) }
{
    let mut shapes = Shapes::new(alloc);
    shapes.push_four(alloc, operator, a, b, c, d)?;
    Ok(shapes)
}

/// The left chain of the operands.
pub(crate) fn left_chain(
    alloc: Global,
    operator: Operator,
    first: Shapes,
    rest: &[Shapes],
) -> Result<Shapes, AllocError>
    ensures { IfOk result (λ trees. trees ≡ left_chain (law_operator operator) first rest.now) }
{
    let mut chain = first;
    for next in rest {
        match next.as_slice() {
            [alone] => chain.join_each(alloc, operator, alone)?,
            _ => chain = pairs(alloc, operator, &chain, next)?,
        }
    }
    Ok(chain)
}
