// The area of covers as a cost.
ghost use Rattle.std.specs.Prelude.{◌≡◌, ◌+◌, min};
ghost use Rattle.lw_choices.specs.Areas.{most_area, total};

use lw_cost::Cost;
use lw_genlib::Library;
use lw_pool::CellId;

/// The area of a cover, in millionths: an input has none, and a cell its own and those of its pins
/// together, so that each use of a shared part counts. Areas are cut at 2^62.
#[derive(Drop)]
pub struct AreaCost<'a> {
    pub lib: &'a Library,
}

impl<'a> AreaCost<'a> {
    /// The area by the cells of a library.
    pub fn new(lib: &'a Library) -> Self
        ensures { result.lib.now ≡ lib.now }
    {
        AreaCost { lib }
    }
}

impl Cost for AreaCost<'_> {
    ghost use Rattle.std.specs.Prelude.{refl, length};
    ghost use Rattle.lw_laws.specs.Covers.{HasPins};
    ghost use Rattle.lw_choices.specs.Areas.{area_cost};
    ghost use Rattle.lw_choices.specs.AreaLaws.{area_cost_is};

    ghost CAP = { 4611686018427387904 };

    ghost costs = { λ c. area_cost c.lib.now };

    ghost cap = { λ c. refl };

    ghost laws = { λ c. area_cost_is c.lib.now };

    // An input has no area.
    fn leaf(&self, _input: u32) -> u64
        ensures { result ≡ (area_cost self.now.lib.now).leaf _input }
    {
        0
    }

    // The area of a cell and those of its pins together, in millionths, at most `MOST_AREA`.
    fn value(&self, cell: CellId, pins: &[u64]) -> u64
        requires { HasPins (area_cost self.now.lib.now).pin_counts cell.0 (length pins.now) }
        ensures { result ≡ (area_cost self.now.lib.now).value cell.0 pins.now }
    {
        together(self.lib.cell(cell).area().0, pins)
    }
}

/// The area at which sums are cut: 2^62, in millionths of a unit of area.
pub const MOST_AREA: u64 = 4_611_686_018_427_387_904;

/// The sum of two areas in millionths, or 2^62 if it is greater.
pub fn joined(a: u64, b: u64) -> u64
    ensures { result ≡ min most_area (a + b) }
{
    a.saturating_add(b).min(MOST_AREA)
}

// The sum of an area and those of some pins in millionths, or 2^62 if it is greater.
fn together(area: u64, pins: &[u64]) -> u64
    ensures { result ≡ min most_area (area + total pins.now) }
{
    let mut total = area.min(MOST_AREA);
    for pin in pins {
        total = joined(total, *pin);
    }
    total
}
