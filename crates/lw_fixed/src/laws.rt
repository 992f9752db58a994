ghost use Rattle.std.specs.Prelude.{◌≡◌, ◌*◌, ◌<◌, Ok};
ghost use Rattle.lw_fixed.specs.Decimals.{one_unit, most_units, decimal_of};
ghost use Rattle.lw_fixed.specs.Printed.{decimal_text, IsShortest};

use crate::Micro;

/// What is printed for a number below 2^43 units is read as that number.
pub fn printed_reads_back(value: Micro)
    ensures { value.0 < most_units * one_unit →
        decimal_of (decimal_text value.0) most_units ≡ Ok value }
{}

/// What is printed has no sign, and no zero or point that could be left out.
pub fn printed_is_shortest(value: Micro)
    ensures { IsShortest (decimal_text value.0) }
{}

/// A text that has no sign, and no zero or point that could be left out, is what is printed for
/// the number that it is read as.
pub fn shortest_is_printed(text: &[u8], value: Micro)
    ensures { IsShortest text.now → decimal_of text.now most_units ≡ Ok value →
        text.now ≡ decimal_text value.0 }
{}
