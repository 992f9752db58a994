// Clauses that a search comes to: taken in where they follow, and read as a refutation where they
// are over complements of the roots.
ghost use Rattle.std.specs.Prelude.{◌≡◌, IsTrue, IfOk, OnSome, Contains};
ghost use Rattle.lw_clauses.specs.Clauses.{Holds};
ghost use Rattle.lw_search.specs.Queries.{AreNeverTrue, ArePartOfComplements};

use crate::lesson::Lesson;
use crate::watches::Watches;
use lw_aig::Literal;
use lw_clauses::Clauses;
use std::alloc::AllocError;

// Takes the clause of a lesson in and watches it: its number, if it follows.
pub(crate) fn learn(
    clauses: &mut Clauses,
    watches: &mut Watches,
    lesson: &Lesson,
) -> Result<Option<u32>, AllocError>
    ensures kept { clauses.new ≡ clauses.old }
    ensures holds { IfOk result (λ number.
        OnSome number (Holds clauses.old lesson.now.clause.items)) }
{
    let Some(number) = clauses.learn(&lesson.clause, &lesson.hints)? else {
        return Ok(None);
    };
    watches.add(number, &lesson.clause)?;
    Ok(Some(number))
}

// Whether a literal is among some.
fn is_among(literals: &[Literal], literal: Literal) -> bool
    ensures { IsTrue result → Contains literals.now literal }
{
    for other in literals {
        if *other == literal {
            return true;
        }
    }
    false
}

// Whether each literal of a clause is the complement of a root.
fn are_complements(roots: &[Literal], clause: &[Literal]) -> bool
    ensures { IsTrue result → ArePartOfComplements roots.now clause.now }
{
    for literal in clause {
        if !is_among(roots, literal.flip()) {
            return false;
        }
    }
    true
}

// Takes the clause of a lesson in, where it is over complements of the roots: whether it was.
pub(crate) fn refutes(
    clauses: &mut Clauses,
    watches: &mut Watches,
    lesson: &Lesson,
    roots: &[Literal],
) -> Result<bool, AllocError>
    ensures kept { clauses.new ≡ clauses.old }
    ensures never { IfOk result (λ yes. IsTrue yes → AreNeverTrue clauses.old roots.now) }
{
    if !are_complements(roots, &lesson.clause) {
        return Ok(false);
    }
    let Some(_) = learn(clauses, watches, lesson)? else {
        return Ok(false);
    };
    Ok(true)
}
