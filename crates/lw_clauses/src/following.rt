// The check by which a clause is taken in: from the complements of its literals, along antecedents.
ghost use Rattle.std.specs.Prelude.{◌≡◌, IsTrue, IfOk, IfSome, All, Some, slice_get};
ghost use Rattle.lw_aig.specs.declared.gate.Gate.TheVariants.{Zero, And};
ghost use Rattle.lw_aig.specs.Aigs.{IsAig};
ghost use Rattle.lw_clauses.specs.Clauses.{Holds};
ghost use Rattle.lw_clauses.specs.Checks.{Tells, Denies};

use crate::Cause;
use crate::denied::{Denied, Left};
use crate::store::Store;
use lw_aig::{Gate, Literal};
use std::alloc::AllocError;

// The literals of a conjunction.
fn sides(gates: &[Gate], node: u32) -> Option<(Literal, Literal)>
    ensures { IfSome result (λ (a, b). slice_get gates.now node ≡ Some (And a b)) }
{
    match gates.get(node as usize) {
        Some(Gate::And(a, b)) => Some((*a, *b)),
        _ => None,
    }
}

// Whether a node is the constant.
fn is_zero(gates: &[Gate], node: u32) -> bool
    ensures { IsTrue result → slice_get gates.now node ≡ Some Zero }
{
    matches!(gates.get(node as usize), Some(Gate::Zero))
}

// What is left of: the constant is false.
fn left_of_zero(gates: &[Gate], denied: &Denied, node: u32) -> Left
    requires { IsAig gates.now }
    ensures { Tells gates.now denied.now result }
{
    if !is_zero(gates, node) {
        return Left::More;
    }
    denied.left_of(&[Literal::of(node).flip()])
}

// What is left of: the conjunction is false, or its first literal is true.
fn left_of_first(gates: &[Gate], denied: &Denied, node: u32) -> Left
    requires { IsAig gates.now }
    ensures { Tells gates.now denied.now result }
{
    match sides(gates, node) {
        Some((a, _)) => denied.left_of(&[Literal::of(node).flip(), a]),
        None => Left::More,
    }
}

// What is left of: the conjunction is false, or its second literal is true.
fn left_of_second(gates: &[Gate], denied: &Denied, node: u32) -> Left
    requires { IsAig gates.now }
    ensures { Tells gates.now denied.now result }
{
    match sides(gates, node) {
        Some((_, b)) => denied.left_of(&[Literal::of(node).flip(), b]),
        None => Left::More,
    }
}

// What is left of: the conjunction is true, or one of its literals is false.
fn left_of_both(gates: &[Gate], denied: &Denied, node: u32) -> Left
    requires { IsAig gates.now }
    ensures { Tells gates.now denied.now result }
{
    match sides(gates, node) {
        Some((a, b)) => denied.left_of(&[Literal::of(node), a.flip(), b.flip()]),
        None => Left::More,
    }
}

// What is left of a clause that was taken in.
fn left_of_clause(store: &Store, denied: &Denied, number: u32, gates: &[Gate]) -> Left
    requires { All (Holds gates.now) store.now }
    ensures { Tells gates.now denied.now result }
{
    match store.get(number) {
        Some(clause) => denied.left_of(clause),
        None => Left::More,
    }
}

// What is left of an antecedent.
fn left_of(gates: &[Gate], store: &Store, denied: &Denied, cause: Cause) -> Left
    requires aig { IsAig gates.now }
    requires hold { All (Holds gates.now) store.now }
    ensures { Tells gates.now denied.now result }
{
    match cause {
        Cause::Free => Left::More,
        Cause::Zero(node) => left_of_zero(gates, denied, node),
        Cause::First(node) => left_of_first(gates, denied, node),
        Cause::Second(node) => left_of_second(gates, denied, node),
        Cause::Both(node) => left_of_both(gates, denied, node),
        Cause::Clause(number) => left_of_clause(store, denied, number, gates),
    }
}

// Denies the literals of a clause, and nothing else.
fn deny_all(denied: &mut Denied, clause: &[Literal], nodes: usize) -> Result<(), AllocError>
    ensures { IfOk result (λ _. denied.new ≡ clause.now) }
{
    denied.clear(nodes)?;
    for literal in clause {
        denied.deny(*literal)?;
    }
    Ok(())
}

/// Whether a clause follows. Its literals are denied, and where an antecedent has one literal left,
/// the complement of that is denied too, until an antecedent has none left: no values of the inputs
/// make the clause false.
pub(crate) fn follows(
    gates: &[Gate],
    store: &Store,
    denied: &mut Denied,
    clause: &[Literal],
    hints: &[Cause],
) -> Result<bool, AllocError>
    requires aig { IsAig gates.now }
    requires hold { All (Holds gates.now) store.now }
    ensures { IfOk result (λ yes. IsTrue yes → Holds gates.now clause.now) }
{
    deny_all(denied, clause, gates.len())?;
    for cause in hints {
        match left_of(gates, store, denied, *cause) {
            Left::Nothing => return Ok(true),
            Left::One(literal) => denied.deny(literal.flip())?,
            Left::More => (),
        }
    }
    Ok(false)
}
