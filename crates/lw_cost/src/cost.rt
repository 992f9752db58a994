// What matches are priced with: the trait of costs, and the laws that each cost keeps.
use lw_pool::CellId;

/// What inputs cost, and what cells cost over the costs of their pins: numbers from 0 to `CAP`. A
/// cell costs no less than each of its pins, and a greater pin never makes it cost less.
pub trait Cost {
    ghost use Rattle.std.specs.Prelude.{◌≡◌, ◌<◌, ◌≤◌, ◌+◌, List, ℕ, length, slice_index};
    ghost use Rattle.lw_laws.specs.Costs.{Cost as PlainCost, IsCost};
    ghost use Rattle.lw_laws.specs.Covers.{HasPins};

    ghost CAP: { ℕ };

    /// The costs as plain functions, and the number of pins of each cell.
    ghost costs: { Self → PlainCost };

    /// What an input costs.
    fn leaf(&self, input: u32) -> u64
        ensures { result ≡ (costs self.now).leaf input };

    /// What a cell costs, given what its pins cost.
    fn value(&self, cell: CellId, pins: &[u64]) -> u64
        requires { HasPins (costs self.now).pin_counts cell.0 (length pins.now) }
        ensures { result ≡ (costs self.now).value cell.0 pins.now };

    /// Up to which number it is known, without a call of `value`, that the cell costs no less than
    /// one of its pins with this gap: nothing where that is not known.
    fn known_up_to(&self, cell: CellId, pins: usize, pin: usize, gap: u64) -> u64
        requires has { HasPins (costs self.now).pin_counts cell.0 pins }
        requires pin { pin < pins }
        ensures { (ds : List ℕ) → length ds ≡ pins → slice_index ds pin + gap ≤ result →
            slice_index ds pin + gap ≤ (costs self.now).value cell.0 ds }
    {
        // Nothing is known by itself; an implementation may look at them.
        let _ = (cell, pins, pin, gap);
        0
    }

    ghost cap: { (c : Self) → (costs c).cap ≡ CAP };

    ghost laws: { (c : Self) → IsCost (costs c) };
}
