// The trees of an expression.
ghost use Rattle.std.specs.Prelude.{◌≡◌, ◌-◌, ◌≤◌, ◌++◌, ◌∷◌, [], vec_len, map, take, drop, OnOk};
ghost use Rattle.std.specs.Prelude.{IfOk};
ghost use Rattle.lw_genlib.specs.Postfix.{arity, stepped, run, postfix};
ghost use Rattle.lw_laws.specs.Patterns.{trees_of_expr, inverted};
ghost use Rattle.lw_pattern.specs.Steps.{law_operator};
ghost use Rattle.lw_pattern.specs.Growing.{joined_by, trees_by, first_trees, IsWideStep};

use crate::counting::bracketing_count;
use crate::shape::Shape;
use crate::shapes::{Shapes, four, left_chain, three};
use crate::step::{Bracketing, Operator};
use lw_genlib::{Expr, ExprOp};
use std::alloc::{AllocError, Global};

/// More trees than this are too many.
const MOST_TREES: u8 = 64;

/// The trees of an expression: with all bracketings, or with the left chains alone where these are
/// too many.
pub(crate) fn trees(alloc: Global, form: &Expr) -> Result<Shapes, AllocError>
    ensures { IfOk result (λ trees. trees ≡ trees_of_expr form.now) }
{
    if bracketing_count(alloc, form)? <= MOST_TREES {
        grown(alloc, Bracketing::Every, form)
    } else {
        grown(alloc, Bracketing::LeftChain, form)
    }
}

fn grown(alloc: Global, way: Bracketing, form: &Expr) -> Result<Shapes, AllocError>
    ensures { IfOk result (λ trees. run (trees_by way) (postfix form.now) [] ≡ trees ∷ []) }
{
    let mut stack = Vec::new(alloc);
    for op in form.ops() {
        grow(alloc, way, *op, &mut stack)?;
    }
    Ok(stack.swap_remove(0))
}

// Puts the trees of a step in the place of those of its operands.
fn grow(
    alloc: Global,
    way: Bracketing,
    op: ExprOp,
    stack: &mut Vec<Shapes>,
) -> Result<(), AllocError>
    requires takes { arity op ≤ vec_len stack.old }
    requires wide { IsWideStep op }
    ensures { OnOk result (stack.new.items ≡ stepped (trees_by way) op stack.old.items) }
{
    match op {
        ExprOp::Const(value) => push_single(alloc, Shape::constant(alloc, value)?, stack),
        ExprOp::Pin(pin) => push_single(alloc, Shape::pin(alloc, pin)?, stack),
        ExprOp::Not => invert_last(stack),
        ExprOp::And(parts) => join_last(alloc, way, Operator::And, parts, stack),
        ExprOp::Or(parts) => join_last(alloc, way, Operator::Or, parts, stack),
    }
}

fn push_single(alloc: Global, shape: Shape, stack: &mut Vec<Shapes>) -> Result<(), AllocError>
    ensures { OnOk result (stack.new.items ≡ stack.old.items ++ (shape ∷ []) ∷ []) }
{
    stack.push(Shapes::single(alloc, shape)?)?;
    Ok(())
}

fn invert_last(stack: &mut Vec<Shapes>) -> Result<(), AllocError>
    requires { 1 ≤ vec_len stack.old }
    ensures { OnOk result (stack.new.items ≡ take (vec_len stack.old - 1) stack.old.items
        ++ map inverted (first_trees (drop (vec_len stack.old - 1) stack.old.items)) ∷ []) }
{
    let last = stack.len() - 1;
    stack[last].invert()?;
    Ok(())
}

// Joins the last operands.
fn join_last(
    alloc: Global,
    way: Bracketing,
    operator: Operator,
    parts: u8,
    stack: &mut Vec<Shapes>,
) -> Result<(), AllocError>
    requires some { 2 ≤ parts }
    requires takes { parts ≤ vec_len stack.old }
    ensures { OnOk result (stack.new.items ≡ take (vec_len stack.old - parts) stack.old.items
        ++ joined_by way (law_operator operator) (drop (vec_len stack.old - parts) stack.old.items)
        ∷ []) }
{
    let base = stack.len() - usize::from(parts);
    let first = stack.remove(base);
    let trees = joined(alloc, way, operator, first, &stack[base..])?;
    stack.truncate(base);
    stack.push(trees)?;
    Ok(())
}

fn joined(
    alloc: Global,
    way: Bracketing,
    operator: Operator,
    first: Shapes,
    rest: &[Shapes],
) -> Result<Shapes, AllocError>
    ensures { IfOk result (λ trees. trees
        ≡ joined_by way (law_operator operator) (first ∷ rest.now)) }
{
    if way == Bracketing::Every && rest.len() == 2 {
        three(alloc, operator, &first, &rest[0], &rest[1])
    } else if way == Bracketing::Every && rest.len() == 3 {
        four(alloc, operator, &first, &rest[0], &rest[1], &rest[2])
    } else {
        left_chain(alloc, operator, first, rest)
    }
}
