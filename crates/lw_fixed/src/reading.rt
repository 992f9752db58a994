ghost use Rattle.std.specs.Prelude.{◌≡◌, ◌≤◌, ◌<◌, ◌*◌, ◌&&◌, nat_lt, length, IfOk};
ghost use Rattle.std.specs.List.{before_first, after_first, position, position_or_len};
ghost use Rattle.lw_fixed.specs.Decimals.{one_unit, most_units, decimal_of, is_negative};
ghost use Rattle.lw_fixed.specs.Decimals.{without_sign, is_point};

use crate::digits::{capped_value, has_digits, is_finer, value_of_decimals};
use crate::micro::UNIT;
use crate::{DecimalFault, Micro};

/// Reads a decimal: an optional `+` or `-`, then digits with at most one point and at least one
/// digit. The whole part must be below `units`, digits past the sixth decimal must be 0, and what
/// follows a `-` must be 0. A text may be of any length.
pub fn read(text: &[u8], units: u64) -> Result<Micro, DecimalFault>
    requires some { 1 ≤ units }
    requires limit { units ≤ most_units }
    ensures value { result ≡ decimal_of text.now units }
    ensures below { IfOk result (λ value. value.0 < units * one_unit) }
{
    let (whole, decimals) = around_point(after_sign(text));
    if !has_digits(whole, decimals) {
        return Err(DecimalFault::Shape);
    }
    let whole = capped_value(whole, units);
    if whole >= units {
        return Err(DecimalFault::Large);
    }
    if is_finer(decimals) {
        return Err(DecimalFault::Fine);
    }
    let millionths = whole * UNIT + value_of_decimals(decimals);
    if is_below_zero(text, millionths) {
        return Err(DecimalFault::Negative);
    }
    Ok(Micro(millionths))
}

fn is_below_zero(text: &[u8], millionths: u64) -> bool
    ensures { result ≡ (is_negative text.now && nat_lt 0 millionths) }
{
    millionths > 0 && matches!(text, [b'-', ..])
}

fn after_sign(text: &[u8]) -> &[u8]
    ensures { result.now ≡ without_sign text.now }
{
    match text {
        [b'+' | b'-', rest @ ..] => rest,
        _ => text,
    }
}

// What stands before the first point, and behind it.
fn around_point(bytes: &[u8]) -> (&[u8], &[u8])
    ensures before { result.0.now ≡ before_first is_point bytes.now }
    ensures after { result.1.now ≡ after_first is_point bytes.now }
{
    let place = place_of_point(bytes);
    (&bytes[..place], &bytes[bytes.len().min(place + 1)..])
}

fn place_of_point(bytes: &[u8]) -> usize
    ensures place { result ≡ position_or_len is_point bytes.now }
    ensures within { result ≤ length bytes.now }
{
    first_point(bytes).unwrap_or(bytes.len())
}

fn first_point(bytes: &[u8]) -> Option<usize>
    ensures { result ≡ position is_point bytes.now }
{
    bytes.iter().position(|b| *b == b'.')
}
