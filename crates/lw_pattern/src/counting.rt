// How many bracketings the operators of an expression have together.
ghost use Rattle.std.specs.Prelude.{◌≡◌, ◌*◌, ◌≤◌, min, vec_len, length, OnOk, IfOk};
ghost use Rattle.lw_genlib.specs.Postfix.{arity, stepped};
ghost use Rattle.lw_laws.specs.Patterns.{bracketed};
ghost use Rattle.lw_pattern.specs.Growing.{capped, shape_count, count_by};

use lw_genlib::{Expr, ExprOp};
use std::alloc::{AllocError, Global};

const CAP: u8 = 65;

/// How many trees the expression has with all bracketings, none of them counted past 65.
pub(crate) fn bracketing_count(alloc: Global, form: &Expr) -> Result<u8, AllocError>
    ensures { IfOk result (λ n. n ≡ capped (length (bracketed form.now))) }
{
    let mut stack = Vec::new(alloc);
    for op in form.ops() {
        count(*op, &mut stack)?;
    }
    Ok(stack[0])
}

// Puts the number of a step in the place of those of its operands.
fn count(op: ExprOp, stack: &mut Vec<u8>) -> Result<(), AllocError>
    requires { arity op ≤ vec_len stack.old }
    ensures { OnOk result (stack.new.items ≡ stepped count_by op stack.old.items) }
{
    let base = stack.len() - usize::from(arity(op));
    let number = count_by(op, &stack[base..]);
    stack.truncate(base);
    stack.push(number)?;
    Ok(())
}

fn arity(op: ExprOp) -> u8
    ensures { result ≡ arity op }
{
    match op {
        ExprOp::Const(_) | ExprOp::Pin(_) => 0,
        ExprOp::Not => 1,
        ExprOp::And(parts) | ExprOp::Or(parts) => parts,
    }
}

fn count_by(op: ExprOp, parts: &[u8]) -> u8
    requires { length parts.now ≡ arity op }
    ensures { result ≡ count_by op parts.now }
{
    match op {
        ExprOp::Const(_) | ExprOp::Pin(_) => 1,
        ExprOp::Not => parts[0],
        ExprOp::And(operands) | ExprOp::Or(operands) => parts.iter().fold(
            shape_count(operands),
            |all, part| capped_product(all, *part),
        ),
    }
}

fn shape_count(operands: u8) -> u8
    ensures { result ≡ shape_count operands }
{
    match operands {
        3 => 2,
        4 => 5,
        _ => 1,
    }
}

fn capped_product(all: u8, part: u8) -> u8
    ensures { result ≡ capped (all * part) }
{
    (u16::from(all) * u16::from(part)).min(u16::from(CAP)) as u8
}
