// A cost that is a sum, and jumps at a threshold.
ghost use Rattle.std.specs.Prelude.{◌≡◌, length};
ghost use Rattle.lw_test_matches.specs.Steep.{joined, total};

use lw_genlib::Library;
use lw_match::Cost;
use lw_pool::CellId;

/// The sum of the pins, a jump where it is no less than a threshold, and one for each pin but the
/// first: so inverters cost nothing, and cycles of them neither.
#[derive(Drop)]
pub(crate) struct SteepCost<'a> {
    pub(crate) lib: &'a Library,
    pub(crate) from: u64,
    pub(crate) rise: u64,
}

impl Cost for SteepCost<'_> {
    ghost use Rattle.std.specs.Prelude.{refl};
    ghost use Rattle.lw_laws.specs.Covers.{HasPins};
    ghost use Rattle.lw_test_matches.specs.Steep.{steep_cost};
    ghost use Rattle.lw_test_matches.specs.SteepLaws.{steep_is};

    ghost CAP = { 4611686018427387904 };

    ghost costs = { λ c. steep_cost c.lib.now c.from c.rise };

    ghost cap = { λ c. refl };

    ghost laws = { λ c. steep_is c.lib.now c.from c.rise };

    fn leaf(&self, _input: u32) -> u64
        ensures { result ≡ (steep_cost self.now.lib.now self.now.from self.now.rise).leaf _input }
    {
        0
    }

    fn value(&self, _cell: CellId, pins: &[u64]) -> u64
        requires { HasPins (steep_cost self.now.lib.now self.now.from self.now.rise).pin_counts
            _cell.0 (length pins.now) }
        ensures { result ≡ (steep_cost self.now.lib.now self.now.from self.now.rise).value
            _cell.0 pins.now }
    {
        let total = together(pins);
        let more = if total < self.from { 0 } else { self.rise };
        cut_sum(cut_sum(total, more), pins.len().saturating_sub(1) as u64)
    }
}

// The sum of two costs, or the greatest cost.
fn cut_sum(a: u64, b: u64) -> u64
    ensures { result ≡ joined a b }
{
    a.saturating_add(b).min(4_611_686_018_427_387_904)
}

fn together(pins: &[u64]) -> u64
    ensures { result ≡ joined 0 (total pins.now) }
{
    let mut total = 0;
    for pin in pins {
        total = cut_sum(total, *pin);
    }
    total
}
