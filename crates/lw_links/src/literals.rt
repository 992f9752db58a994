// The literals of listed forms.
ghost use Rattle.std.specs.Prelude.{◌≡◌, ◌<◌, ◌≤◌, ◌/◌, ◌-◌, ◌^◌, length, Some, slice_get};
ghost use Rattle.std.specs.Prelude.{IfOk, IfSome};
ghost use Rattle.lw_laws.specs.NumberedForms.Base.{base_and};
ghost use Rattle.lw_sweep.specs.Sweeps.{IsExtended, inputs_alone};
ghost use Rattle.lw_links.specs.Linked.{AreHalves, HasBaseValue, StandFor, signed_literal};

use lw_aig::Literal;
use lw_form::{Base, FormIds, Forms};
use lw_pool::FormId;
use lw_sweep::Sweep;
use std::alloc::{AllocError, Global};

// The literal of a form, by those of the base forms.
fn literal_of(literals: &[Literal], form: FormId) -> Literal
    requires { form.0 / 2 < length literals.now }
    ensures { result ≡ signed_literal literals.now form.0 }
{
    let base = literals[(form.0 / 2) as usize];
    if form.0 % 2 == 0 { base } else { base.flip() }
}

// The mask of all of so many operands but the last.
fn but_last(count: usize) -> u32
    requires some { 1 ≤ count }
    requires few { count ≤ 8 }
    ensures { result ≡ 2 ^ (count - 1) - 1 }
{
    (1 << (count - 1)) - 1
}

// Two forms, of which an And is the conjunction.
#[derive(Clone, Copy)]
struct Halves {
    others: FormId,
    last: FormId,
}

// The And of all operands but the last, and the last.
fn halves_of(forms: &Forms, b: u32, ids: &FormIds) -> Halves
    requires { slice_get forms.now.bases b ≡ Some (base_and ids.now) }
    ensures { AreHalves forms.now b result.others.0 result.last.0 }
{
    let _ = forms.inputs();
    let count = ids.len();
    let others = forms.part(b, but_last(count));
    let last = ids.get(count - 1);
    Halves { others, last }
}

// The literal of an And: the conjunction of the literals of its halves. None where there is no room
// for a node.
fn and_literal(
    sweep: &mut Sweep,
    alloc: Global,
    forms: &Forms,
    b: u32,
    ids: &FormIds,
    literals: &[Literal],
) -> Result<Option<Literal>, AllocError>
    requires is { slice_get forms.now.bases b ≡ Some (base_and ids.now) }
    requires before { length literals.now ≡ b }
    requires stand { StandFor sweep.old forms.now literals.now }
    ensures grows { IsExtended sweep.old sweep.new }
    ensures literal { IfOk result (λ l. IfSome l (HasBaseValue sweep.new forms.now b)) }
{
    let halves = halves_of(forms, b, ids);
    let others = literal_of(literals, halves.others);
    let last = literal_of(literals, halves.last);
    sweep.and(alloc, others, last)
}

// The literal of a base form, by those before it.
fn base_literal(
    sweep: &mut Sweep,
    alloc: Global,
    forms: &Forms,
    b: u32,
    literals: &[Literal],
) -> Result<Option<Literal>, AllocError>
    requires within { b < length forms.now.bases }
    requires before { length literals.now ≡ b }
    requires stand { StandFor sweep.old forms.now literals.now }
    ensures grows { IsExtended sweep.old sweep.new }
    ensures literal { IfOk result (λ l. IfSome l (HasBaseValue sweep.new forms.now b)) }
{
    let _ = sweep.aig().gates();
    match forms.base(b) {
        Base::True => Ok(Some(Literal(1))),
        Base::Input(input) => Ok(Some(Literal::of(*input + 1))),
        Base::And(ids) => and_literal(sweep, alloc, forms, b, ids, literals),
    }
}

/// The literals of the base forms, from the first on, as far as there is room for nodes.
pub(crate) fn form_literals(
    sweep: &mut Sweep,
    alloc: Global,
    forms: &Forms,
) -> Result<Vec<Literal>, AllocError>
    requires { sweep.old ≡ inputs_alone forms.now.inputs }
    ensures { IfOk result (λ literals. StandFor sweep.new forms.now literals.items) }
{
    let mut literals = Vec::new(alloc);
    'bases: for b in 0..forms.len() {
        let Some(literal) = base_literal(sweep, alloc, forms, b, &literals)? else {
            return Ok(literals);
        };
        literals.push(literal)?;
    }
    Ok(literals)
}
