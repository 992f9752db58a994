// The pair of two base forms whose literals are of one node.
ghost use Rattle.std.specs.Prelude.{◌≡◌, ◌<◌, ◌≤◌, ◌+◌, ◌*◌, ◌%◌, length, IfSome};
ghost use Rattle.lw_form.specs.Limits.{most_bases};
ghost use Rattle.lw_form.specs.Links.{HaveOneValue};
ghost use Rattle.lw_laws.specs.NumberedForms.{NumberedForms};
ghost use Rattle.lw_links.specs.Linked.{TellPairs};

use lw_aig::Literal;
use lw_pool::FormId;

/// Two listed forms.
#[derive(Clone, Copy)]
pub(crate) struct FormPair {
    pub(crate) left: FormId,
    pub(crate) right: FormId,
}

// The form of a base form that has the value of the literal's node.
fn form_at(b: u32, literal: Literal) -> FormId
    requires { b < most_bases }
    ensures { result.0 ≡ 2 * b + literal.0 % 2 }
{
    FormId(2 * b + literal.0 % 2)
}

/// The forms of two base forms that have the value of one node, if their literals are of one.
pub(crate) fn pair_of(literals: &[Literal], a: u32, b: u32) -> Option<FormPair>
    requires { length literals.now ≤ most_bases }
    ensures { (forms : NumberedForms) → TellPairs forms literals.now →
        IfSome result (λ pair. HaveOneValue forms pair.left.0 pair.right.0) }
{
    if a as usize >= literals.len() || b as usize >= literals.len() {
        return None;
    }
    let one = literals[a as usize];
    let other = literals[b as usize];
    if one.node() != other.node() {
        return None;
    }
    Some(FormPair {
        left: form_at(a, one),
        right: form_at(b, other),
    })
}
