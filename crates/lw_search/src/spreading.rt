// What values force, along gates and clauses.
use crate::cones::Cones;
use crate::trail::{Trail, Truth};
use crate::watches::{NONE, Watches};
use lw_aig::{Gate, Literal};
use lw_clauses::{Cause, Clauses};

// A literal to make true, and why; and the antecedent that fails where it is false.
#[inline]
fn force(trail: &mut Trail, literal: Literal, cause: Cause) -> Option<Cause> {
    if trail.put(literal, cause) {
        None
    } else {
        Some(cause)
    }
}

// The conjunction whose literal became true.
fn spread_down(trail: &mut Trail, literal: Literal, a: Literal, b: Literal) -> Option<Cause> {
    let node = literal.node();
    if literal.0 % 2 == 0 {
        if !trail.put(a, Cause::First(node)) {
            return Some(Cause::First(node));
        }
        return force(trail, b, Cause::Second(node));
    }
    if trail.truth(a) == Truth::True {
        return force(trail, b.flip(), Cause::Both(node));
    }
    if trail.truth(b) == Truth::True {
        return force(trail, a.flip(), Cause::Both(node));
    }
    None
}

// A conjunction that the node of a literal goes to, which became true.
#[inline]
fn spread_up(
    trail: &mut Trail,
    literal: Literal,
    out: u32,
    a: Literal,
    b: Literal,
) -> Option<Cause> {
    let first = a.node() == literal.node();
    let (side, other) = if first { (a, b) } else { (b, a) };
    let whole = Literal(out.wrapping_mul(2));
    if side != literal {
        let cause = if first {
            Cause::First(out)
        } else {
            Cause::Second(out)
        };
        return force(trail, whole.flip(), cause);
    }
    if trail.truth(other) == Truth::True {
        return force(trail, whole, Cause::Both(out));
    }
    if trail.truth(whole) == Truth::False {
        return force(trail, other.flip(), Cause::Both(out));
    }
    None
}

// The gates round a literal that became true.
fn spread_gates(
    trail: &mut Trail,
    cones: &Cones,
    gates: &[Gate],
    literal: Literal,
) -> Option<Cause> {
    if cones.goes_on(literal.node()) {
        if let Some(Gate::And(a, b)) = gates.get(literal.node() as usize) {
            let failed = spread_down(trail, literal, *a, *b);
            if failed.is_some() {
                return failed;
            }
        }
    }
    for out in cones.outs(literal.node()) {
        if let Some(Gate::And(a, b)) = gates.get(*out as usize) {
            let failed = spread_up(trail, literal, *out, *a, *b);
            if failed.is_some() {
                return failed;
            }
        }
    }
    None
}

// Where a literal stands in a clause that is not false, and is not the other one that is watched.
#[inline]
fn further(trail: &Trail, clause: &[Literal], other: Literal) -> Option<(usize, Literal)> {
    for (place, literal) in clause.iter().enumerate() {
        if *literal != other && trail.truth(*literal) != Truth::False {
            return Some((place, *literal));
        }
    }
    None
}

// The clauses that watch a literal that became false.
fn spread_clauses(
    trail: &mut Trail,
    watches: &mut Watches,
    clauses: &Clauses,
    off: Literal,
) -> Option<Cause> {
    let mut watch = watches.head(off);
    let mut before = NONE;
    for _ in 0..watches.len() {
        if watch == NONE {
            break;
        }
        let after = watches.after(watch);
        let number = watch / 2;
        let clause = clauses.clause(number).unwrap_or(&[]);
        let other = clause.get(watches.place(watch ^ 1)).copied().unwrap_or(off);
        if trail.truth(other) == Truth::True {
            before = watch;
        } else if let Some((place, literal)) = further(trail, clause, other) {
            watches.leave(off, before, watch);
            watches.enter(literal, watch, place);
        } else {
            if !trail.put(other, Cause::Clause(number)) {
                return Some(Cause::Clause(number));
            }
            before = watch;
        }
        watch = after;
    }
    None
}

// Spreads all values: an antecedent that fails, if there is one.
pub(crate) fn spread(
    trail: &mut Trail,
    watches: &mut Watches,
    cones: &Cones,
    clauses: &Clauses,
    steps: &mut u64,
) -> Option<Cause> {
    let gates = clauses.aig().gates();
    for _ in 0..gates.len() {
        let literal = trail.next()?;
        *steps = steps.saturating_sub(1);
        if cones.has(literal.node()) {
            let failed = spread_gates(trail, cones, gates, literal);
            if failed.is_some() {
                return failed;
            }
        }
        let failed = spread_clauses(trail, watches, clauses, literal.flip());
        if failed.is_some() {
            return failed;
        }
    }
    None
}
