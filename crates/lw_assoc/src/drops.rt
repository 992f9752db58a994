// The Ands of all operands but one, for each operand of each listed And.
ghost use Rattle.std.specs.Prelude.{◌≡◌, ◌+◌, ◌*◌, ◌^◌, ◌<◌, length, IfOk};
ghost use Rattle.lw_assoc.specs.Parts.{HasDrops};

use crate::splits::half_of;
use lw_form::{Base, Forms};
use std::alloc::{AllocError, Global};

/// How many places a base form has for its operands.
pub(crate) const PLACES: usize = 8;

/// The bit at a place of a mask.
pub(crate) fn bit(place: usize) -> u32
    requires { place < 8 }
    ensures { result ≡ 2 ^ place }
{
    1 << place
}

// Puts, for each operand of a base form, the And of the others. An And alone has some.
fn put_drops(drops: &mut [u32], forms: &Forms, b: u32)
    requires within { b < length forms.now.bases }
    requires before { HasDrops forms.now b drops.old }
    ensures { HasDrops forms.now (b + 1) drops.new }
{
    let Base::And(ids) = forms.base(b) else {
        return;
    };
    let all = 2 * half_of(ids.len()) - 1;
    for place in 0..ids.len() {
        let others = forms.part(b, all - bit(place));
        drops[PLACES * b as usize + place] = others.0;
    }
}

// Puts them for all base forms.
fn put_all_drops(drops: &mut [u32], forms: &Forms)
    requires { length drops.old ≡ 8 * length forms.now.bases }
    ensures { HasDrops forms.now (length forms.now.bases) drops.new }
{
    for b in 0..forms.len() {
        put_drops(drops, forms, b);
    }
}

/// The Ands of all operands but one: at 8b + k that without the operand of And b at place k.
pub(crate) fn drops_of(alloc: Global, forms: &Forms) -> Result<Vec<u32>, AllocError>
    ensures { IfOk result (λ drops. HasDrops forms.now (length forms.now.bases) drops.items) }
{
    let mut drops = vec![in alloc; 0; PLACES * forms.len() as usize]?;
    put_all_drops(&mut drops, forms);
    Ok(drops)
}
