// Conjunctions that need no node.
ghost use Rattle.std.specs.Prelude.{IfSome};
ghost use Rattle.lw_sweep.specs.Sweeps.{IsAlwaysConjunction};

use lw_aig::Literal;

// The conjunction of two literals, where it is one of them or a constant.
pub(crate) fn simple(left: Literal, right: Literal) -> Option<Literal>
    ensures { IfSome result (IsAlwaysConjunction left right) }
{
    if left == right {
        return Some(left);
    }
    if left == right.flip() {
        return Some(Literal(0));
    }
    simple_constant(left, right)
}

// The conjunction of two literals, where one of them is a constant.
fn simple_constant(left: Literal, right: Literal) -> Option<Literal>
    ensures { IfSome result (IsAlwaysConjunction left right) }
{
    if left.0 == 0 {
        return Some(left);
    }
    if right.0 == 0 {
        return Some(right);
    }
    if left.0 == 1 {
        return Some(right);
    }
    if right.0 == 1 {
        return Some(left);
    }
    None
}
