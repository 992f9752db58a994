// From an antecedent that fails back along the trail to a clause.
use crate::lesson::Lesson;
use crate::trail::{Trail, Truth};
use lw_aig::{Gate, Literal};
use lw_clauses::{Cause, Clauses};
use std::alloc::AllocError;

// How many literals are to be walked over, in all and of the last level.
#[derive(Drop)]
struct Left {
    all: u32,
    last: u32,
}

// Meets the node of a literal that is false.
fn meet(
    trail: &Trail,
    lesson: &mut Lesson,
    left: &mut Left,
    literal: Literal,
) -> Result<(), AllocError> {
    if trail.truth(literal) != Truth::False || !lesson.meet(literal.node())? {
        return Ok(());
    }
    left.all = left.all.wrapping_add(1);
    if trail.level_of(literal.node()) as usize == trail.level() {
        left.last = left.last.wrapping_add(1);
    }
    Ok(())
}

// Meets the literals of an antecedent of a conjunction.
fn meet_gate(
    trail: &Trail,
    lesson: &mut Lesson,
    left: &mut Left,
    gates: &[Gate],
    cause: Cause,
    node: u32,
) -> Result<(), AllocError> {
    let Some(Gate::And(a, b)) = gates.get(node as usize) else {
        return Ok(());
    };
    let whole = Literal(node.wrapping_mul(2));
    match cause {
        Cause::First(_) => {
            meet(trail, lesson, left, whole.flip())?;
            meet(trail, lesson, left, *a)
        }
        Cause::Second(_) => {
            meet(trail, lesson, left, whole.flip())?;
            meet(trail, lesson, left, *b)
        }
        _ => {
            meet(trail, lesson, left, whole)?;
            meet(trail, lesson, left, a.flip())?;
            meet(trail, lesson, left, b.flip())
        }
    }
}

// Meets the literals of an antecedent.
fn meet_cause(
    trail: &Trail,
    lesson: &mut Lesson,
    left: &mut Left,
    clauses: &Clauses,
    cause: Cause,
) -> Result<(), AllocError> {
    match cause {
        Cause::Free => Ok(()),
        Cause::Zero(_) => meet(trail, lesson, left, Literal(1)),
        Cause::First(node) | Cause::Second(node) | Cause::Both(node) => {
            meet_gate(trail, lesson, left, clauses.aig().gates(), cause, node)
        }
        Cause::Clause(number) => {
            for literal in clauses.clause(number).unwrap_or(&[]) {
                meet(trail, lesson, left, *literal)?;
            }
            Ok(())
        }
    }
}

// Whether a literal that was met stays in the clause, as one of an earlier level or the last one of
// this level does; or, where the conflict is one of the roots alone, what was decided.
fn stays(trail: &Trail, left: &Left, node: u32, whole: bool) -> bool {
    if trail.cause(node) == Cause::Free {
        return true;
    }
    let level = trail.level_of(node) as usize;
    !whole && level > 0 && (level < trail.level() || left.last == 0)
}

// Traces a conflict back. The clause has one literal of the last level, its first; or, with `whole`,
// only complements of what was decided, behind those that stand in it now.
pub(crate) fn trace(
    trail: &Trail,
    lesson: &mut Lesson,
    clauses: &Clauses,
    conflict: Cause,
    whole: bool,
) -> Result<(), AllocError> {
    let mut left = Left { all: 0, last: 0 };
    lesson.hints.push(conflict)?;
    meet_cause(trail, lesson, &mut left, clauses, conflict)?;
    for back in 1..=trail.len() {
        if left.all == 0 {
            break;
        }
        let Some(literal) = trail.get(trail.len().wrapping_sub(back)) else {
            break;
        };
        let node = literal.node();
        if lesson.has(node) {
            left.all = left.all.wrapping_sub(1);
            if trail.level_of(node) as usize == trail.level() {
                left.last = left.last.wrapping_sub(1);
            }
            if stays(trail, &left, node, whole) {
                lesson.clause.push(literal.flip())?;
            } else {
                let cause = trail.cause(node);
                lesson.hints.push(cause)?;
                meet_cause(trail, lesson, &mut left, clauses, cause)?;
            }
        }
    }
    lesson.end();
    Ok(())
}
