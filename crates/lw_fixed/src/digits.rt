ghost use Rattle.std.specs.Prelude.{◌≡◌, ◌≤◌, ◌<◌, min, IsTrue, slice_index, ◌++◌, replicate};
ghost use Rattle.std.specs.List.{list_all};
ghost use Rattle.std.specs.Char.{is_ascii_digit};
ghost use Rattle.std.specs.Str.Parse.{digits_value};
ghost use Rattle.lw_fixed.specs.Decimals as decimal;

/// Whether both are digits alone, one of them at least.
pub(crate) fn has_digits(whole: &[u8], decimals: &[u8]) -> bool
    ensures { result ≡ decimal.has_digits whole.now decimals.now }
{
    are_digits(whole) && are_digits(decimals) && !(whole.is_empty() && decimals.is_empty())
}

/// Whether all bytes are decimal digits.
pub fn are_digits(bytes: &[u8]) -> bool
    ensures { result ≡ list_all is_ascii_digit bytes.now }
{
    bytes.iter().all(|b| b.is_ascii_digit())
}

/// The value of the digits, or the cap where it is greater.
pub(crate) fn capped_value(digits: &[u8], cap: u64) -> u64
    requires digits { IsTrue (list_all is_ascii_digit digits.now) }
    requires limit { cap ≤ decimal.most_units }
    ensures { result ≡ min (digits_value 10 digits.now) cap }
{
    let mut value = 0;
    for digit in digits {
        value = (value * 10 + u64::from(*digit - b'0')).min(cap);
    }
    value
}

/// Whether a digit other than 0 stands past the sixth.
pub(crate) fn is_finer(decimals: &[u8]) -> bool
    ensures { result ≡ decimal.is_finer decimals.now }
{
    decimals.iter().skip(6).any(|digit| *digit != b'0')
}

/// The value of the first six digits, with zeros for those that are missing.
pub(crate) fn value_of_decimals(decimals: &[u8]) -> u64
    requires { IsTrue (list_all is_ascii_digit decimals.now) }
    ensures value { result ≡ decimal.value_of_decimals decimals.now }
    ensures below_one { result < decimal.one_unit }
{
    let mut value = 0;
    for place in 0..6 {
        value = value * 10 + u64::from(digit_or_zero(decimals, place) - b'0');
    }
    value
}

fn digit_or_zero(decimals: &[u8], place: usize) -> u8
    requires digits { IsTrue (list_all is_ascii_digit decimals.now) }
    requires place { place < 6 }
    ensures digit { result ≡ slice_index (decimals.now ++ replicate 6 48) place }
    ensures range { (48 ≤ result) × (result ≤ 57) }
{
    decimals.get(place).copied().unwrap_or(b'0')
}
