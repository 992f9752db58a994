// The facts of the further mode: pairs of different parts of an And that together have each
// operand, and each form by its complement twice.
ghost use Rattle.std.specs.Prelude.{◌+◌, ◌/◌, ◌<◌, length, OnOk};
ghost use Rattle.lw_laws.specs.Modes.Mode.{idempotent};
ghost use Rattle.lw_assoc.specs.Drafting.{AddsInverter, AddsNands, HasBases, HasFactsUpTo};
ghost use Rattle.lw_assoc.specs.Drafting.{IsOverlapping};
ghost use Rattle.lw_assoc.specs.Facts.{AddsFacts, AddsOverlaps, CanAddFacts, CanOverlap};
ghost use Rattle.lw_assoc.specs.Facts.{CanOverlapFrom, HasAllParts};

use crate::drafting::add_split;
use crate::parts::BaseParts;
use crate::splits::half_of;
use lw_form::{Base, Forms};
use lw_pool::FormId;
use lw_reduce::Draft;
use std::alloc::AllocError;

// Adds the fact of two parts, where together they have each operand.
fn add_overlap(
    draft: &mut Draft,
    base: &BaseParts,
    left: u32,
    right: u32,
    all: u32,
) -> Result<(), AllocError>
    requires { CanOverlap base.now left right all draft.old }
    ensures { OnOk result (AddsOverlaps base.now left (right + 1) draft.old draft.new) }
{
    let _ = base.forms.inputs();
    if left | right != all {
        return Ok(());
    }
    add_split(draft, base, left, right)?;
    Ok(())
}

// Adds the facts of one part and those of higher masks.
fn add_overlaps_with(
    draft: &mut Draft,
    base: &BaseParts,
    left: u32,
    all: u32,
) -> Result<(), AllocError>
    requires { CanOverlapFrom base.now left all draft.old }
    ensures { OnOk result (AddsOverlaps base.now (left + 1) 0 draft.old draft.new) }
{
    for right in left + 1..all + 1 {
        add_overlap(draft, base, left, right, all)?;
    }
    Ok(())
}

// Adds the facts of all two parts of a base form, of which an And alone has some.
fn add_overlaps(draft: &mut Draft, base: &BaseParts) -> Result<(), AllocError>
    requires parts { HasAllParts base.now }
    requires before { IsOverlapping base.now.forms.now base.now.b 0 0 draft.old }
    ensures { OnOk result (AddsFacts idempotent base.now draft.old draft.new) }
{
    let Base::And(ids) = base.forms.base(base.b) else {
        return Ok(());
    };
    let all = 2 * half_of(ids.len()) - 1;
    for left in 1..all {
        add_overlaps_with(draft, base, left, all)?;
    }
    Ok(())
}

// Adds the fact that a form is the NAND of its complement twice.
fn add_inverter(draft: &mut Draft, forms: &Forms, form: FormId) -> Result<(), AllocError>
    requires within { form.0 / 2 < length forms.now.bases }
    requires bases { HasBases forms.now (length forms.now.bases) draft.old }
    ensures { OnOk result (AddsInverter form.0 draft.old draft.new) }
{
    let _ = forms.inputs();
    if draft.is_full() {
        return Err(AllocError);
    }
    draft.nand(form, form.flip(), form.flip())?;
    Ok(())
}

// Adds the facts that a base form and its complement are each the NAND of the other one twice.
fn add_inverters(draft: &mut Draft, forms: &Forms, b: u32) -> Result<(), AllocError>
    requires within { b < length forms.now.bases }
    requires before { HasFactsUpTo idempotent forms.now b draft.old }
    ensures so_far { OnOk result (IsOverlapping forms.now b 0 0 draft.new) }
    ensures kept { OnOk result (AddsNands draft.old draft.new) }
{
    let _ = forms.inputs();
    add_inverter(draft, forms, FormId(2 * b))?;
    add_inverter(draft, forms, FormId(2 * b + 1))?;
    Ok(())
}

/// Adds the facts of a base form in the further mode.
pub(crate) fn add_further(draft: &mut Draft, base: &BaseParts) -> Result<(), AllocError>
    requires { CanAddFacts idempotent base.now draft.old }
    ensures { OnOk result (AddsFacts idempotent base.now draft.old draft.new) }
{
    add_inverters(draft, base.forms, base.b)?;
    add_overlaps(draft, base)
}
