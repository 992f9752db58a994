// The parts of an And by their masks, each found from one with an operand more.
ghost use Rattle.std.specs.Prelude.{◌≡◌, ◌+◌, ◌<◌, length};
ghost use Rattle.lw_assoc.specs.Parts.{CanPutPart, HasDrops, HasParts, IsFirstUnset};

use crate::drops::{PLACES, bit};
use crate::splits::half_of;
use lw_form::{Base, Forms};

/// How many masks there are for the operands of an And.
pub(crate) const MASKS: usize = 256;

/// A listed base form, with its parts by their masks.
#[derive(Clone, Copy)]
pub(crate) struct BaseParts<'a> {
    pub(crate) forms: &'a Forms,
    pub(crate) parts: &'a [u32],
    pub(crate) b: u32,
}

// The place of the lowest bit that is not set.
fn first_unset(mask: u32) -> usize
    requires { mask < 255 }
    ensures place { IsFirstUnset mask result }
    ensures few { result < 8 }
{
    let mut rest = mask;
    let mut place = 0;
    'bits: while rest % 2 == 1 {
        rest /= 2;
        place += 1;
    }
    place
}

// Puts the part of a mask, once those of higher masks are there: the one with the lowest further
// operand, less that operand.
fn put_part(parts: &mut [u32], forms: &Forms, drops: &[u32], b: u32, mask: u32)
    requires { CanPutPart forms.now drops.now b mask parts.old }
    ensures { HasParts forms.now b mask parts.new }
{
    let _ = forms.inputs();
    let place = first_unset(mask);
    let more = parts[(mask + bit(place)) as usize];
    parts[mask as usize] = drops[PLACES * (more / 2) as usize + place];
}

/// Puts all parts of an And.
pub(crate) fn put_parts(parts: &mut [u32], forms: &Forms, drops: &[u32], b: u32)
    requires within { b < length forms.now.bases }
    requires size { length parts.old ≡ 256 }
    requires drops { HasDrops forms.now (length forms.now.bases) drops.now }
    ensures { HasParts forms.now b 1 parts.new }
{
    let Base::And(ids) = forms.base(b) else {
        return;
    };
    let all = 2 * half_of(ids.len()) - 1;
    parts[all as usize] = 2 * b;
    for step in 1..all {
        put_part(parts, forms, drops, b, all - step);
    }
}
