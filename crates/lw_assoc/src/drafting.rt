// The draft of all splits and links of listed forms.
ghost use Rattle.std.specs.Prelude.{◌≡◌, ◌+◌, ◌*◌, length, OnOk, IfOk};
ghost use Rattle.lw_laws.specs.Modes.Mode.{plain};
ghost use Rattle.lw_assoc.specs.Drafting.{AddsBases, AddsLinks, AddsSplit, HasBases, HasFactsUpTo};
ghost use Rattle.lw_assoc.specs.Drafting.{HasLinksUpTo, IsDraftOf};
ghost use Rattle.lw_assoc.specs.Facts.{AddsAllFacts, AddsFacts, CanAddFacts, CanAddSplit};
ghost use Rattle.lw_assoc.specs.Modes.{law_mode};
ghost use Rattle.lw_assoc.specs.Parts.{HasDrops};

use crate::Mode;
use crate::drops::drops_of;
use crate::overlaps::add_further;
use crate::parts::{BaseParts, MASKS, put_parts};
use crate::splits::half_of;
use lw_form::{Base, Forms};
use lw_pool::{FormId, NetId};
use lw_reduce::Draft;
use std::alloc::{AllocError, Global};

// Adds the base forms that come after the inputs.
fn add_bases(draft: &mut Draft, forms: &Forms) -> Result<(), AllocError>
    requires { HasBases forms.now (forms.now.inputs + 1) draft.old }
    ensures bases { OnOk result (HasBases forms.now (length forms.now.bases) draft.new) }
    ensures kept { OnOk result (AddsBases draft.old draft.new) }
{
    for b in forms.inputs() + 1..forms.len() {
        draft.add(forms.sample(FormId(2 * b)))?;
    }
    Ok(())
}

/// Adds the fact that an And has by the parts of two masks. The draft is never full: the limit on
/// splits leaves room for all facts.
pub(crate) fn add_split(
    draft: &mut Draft,
    base: &BaseParts,
    mask: u32,
    rest: u32,
) -> Result<(), AllocError>
    requires { CanAddSplit base.now mask rest draft.old }
    ensures { OnOk result (AddsSplit base.now.forms.now base.now.b mask rest draft.old draft.new) }
{
    let _ = base.forms.inputs();
    if draft.is_full() {
        return Err(AllocError);
    }
    let left = FormId(base.parts[mask as usize]);
    let right = FormId(base.parts[rest as usize]);
    draft.nand(FormId(2 * base.b + 1), left, right)
}

// Adds the splits of a base form, of which an And alone has some. The last operand stands in the
// second part.
fn add_splits(draft: &mut Draft, base: &BaseParts) -> Result<(), AllocError>
    requires { CanAddFacts plain base.now draft.old }
    ensures { OnOk result (AddsFacts plain base.now draft.old draft.new) }
{
    let Base::And(ids) = base.forms.base(base.b) else {
        return Ok(());
    };
    let half = half_of(ids.len());
    let all = 2 * half - 1;
    for mask in 1..half {
        add_split(draft, base, mask, all - mask)?;
    }
    Ok(())
}

// Adds the splits of a base form in a mode.
fn add_base(draft: &mut Draft, base: &BaseParts, mode: Mode) -> Result<(), AllocError>
    requires { CanAddFacts (law_mode mode) base.now draft.old }
    ensures { OnOk result (AddsFacts (law_mode mode) base.now draft.old draft.new) }
{
    match mode {
        Mode::Plain => add_splits(draft, base),
        Mode::Idempotent => add_further(draft, base),
    }
}

// Adds the splits of all base forms.
fn add_all_splits(
    draft: &mut Draft,
    forms: &Forms,
    parts: &mut [u32],
    drops: &[u32],
    mode: Mode,
) -> Result<(), AllocError>
    requires size { length parts.old ≡ 256 }
    requires drops { HasDrops forms.now (length forms.now.bases) drops.now }
    requires none { HasFactsUpTo (law_mode mode) forms.now 0 draft.old }
    ensures { OnOk result (AddsAllFacts (law_mode mode) forms.now draft.old draft.new) }
{
    for b in 0..forms.len() {
        put_parts(parts, forms, drops, b);
        add_base(draft, &BaseParts { forms, parts, b }, mode)?;
    }
    Ok(())
}

// Adds the splits of all base forms, with memory for what they are found by.
fn find_splits(
    alloc: Global,
    draft: &mut Draft,
    forms: &Forms,
    mode: Mode,
) -> Result<(), AllocError>
    requires { HasFactsUpTo (law_mode mode) forms.now 0 draft.old }
    ensures { OnOk result (AddsAllFacts (law_mode mode) forms.now draft.old draft.new) }
{
    let drops = drops_of(alloc, forms)?;
    let mut parts = [0; MASKS];
    add_all_splits(draft, forms, &mut parts, &drops, mode)
}

// Links the two forms of each net.
fn add_links(draft: &mut Draft, forms: &Forms) -> Result<(), AllocError>
    requires bases { HasBases forms.now (length forms.now.bases) draft.old }
    requires none { HasLinksUpTo forms.now 0 draft.old.links }
    ensures links { OnOk result (HasLinksUpTo forms.now (length forms.now.sops) draft.new.links) }
    ensures kept { OnOk result (AddsLinks draft.old draft.new) }
{
    for net in 0..forms.nets() {
        draft.link(forms.sop(NetId(net)), forms.fac(NetId(net)))?;
    }
    Ok(())
}

/// The draft of all base forms, the splits of a mode, and links.
pub(crate) fn draft_of(alloc: Global, forms: &Forms, mode: Mode) -> Result<Draft, AllocError>
    ensures { IfOk result (λ d. IsDraftOf (law_mode mode) forms.now d) }
{
    let mut draft = Draft::new(alloc, forms.inputs())?;
    add_bases(&mut draft, forms)?;
    find_splits(alloc, &mut draft, forms, mode)?;
    add_links(&mut draft, forms)?;
    Ok(draft)
}
