ghost use Rattle.std.specs.Prelude.{◌≡◌, ◌≤◌, ◌+◌, ◌-◌, ◌/◌, ◌%◌, ◌==◌, ◌∷◌, ◌++◌, take, drop};
ghost use Rattle.std.specs.Prelude.{length, decimal};
ghost use Rattle.std.specs.List.{suffix_len};
ghost use Rattle.lw_fixed.specs.Decimals.{one_unit};
ghost use Rattle.lw_fixed.specs.Printed.{decimal_text, six_decimals};

use crate::Micro;
use crate::micro::UNIT;
use itoa::write_digits;

/// Writes the value to the front of `out`, and tells the length of the text: the whole part without
/// leading zeros, and where the rest is not 0, a point and the decimals without trailing zeros.
pub fn print(value: Micro, out: &mut [u8; 21]) -> usize
    ensures within { result ≤ 21 }
    ensures text { take result out.new ≡ decimal_text value.0 }
{
    let mut text = [0; 21];
    let start = write_in_full(value.0, &mut text);
    let places = places_kept(&text[15..]);
    let end = if places == 0 { 14 } else { 15 + places };
    let written = &text[start..end];
    out[..written.len()].copy_from_slice(written);
    written.len()
}

// Writes the whole part, the point and six decimals to the end of `text`, and tells where they
// start.
fn write_in_full(value: u64, text: &mut [u8; 21]) -> usize
    ensures start { result + length (decimal (value / one_unit)) ≡ 14 }
    ensures text { drop result text.new ≡ decimal (value / one_unit) ++ 46
        ∷ six_decimals (value % one_unit) }
{
    write_digits(UNIT + value % UNIT, text, 21);
    text[14] = b'.';
    write_digits(value / UNIT, text, 14)
}

// How many digits stand before the zeros at the end.
fn places_kept(digits: &[u8]) -> usize
    ensures { result ≡ length digits.now - suffix_len (λ digit. digit == 48) digits.now }
{
    let mut places = digits.len();
    while places > 0 && digits[places - 1] == b'0' {
        places -= 1;
    }
    places
}
