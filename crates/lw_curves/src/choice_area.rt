// The least area that a choice gives by a time.
ghost use Rattle.std.specs.Prelude.{◌≡◌, ◌<◌, ◌≤◌, List, All, IfSome, length, map};
ghost use Rattle.lw_genlib.specs.Tables.{millionths};
ghost use Rattle.lw_laws.specs.Covers.{start_of, Pattern as TreeOfCell};
ghost use Rattle.lw_laws.specs.Graphs.{Graph as PlainGraph};
ghost use Rattle.lw_choices.specs.Areas.{most_area};
ghost use Rattle.lw_curves.specs.Setups.{task_of};
ghost use Rattle.lw_curves.specs.Pricing.{IsBestOfPins};
ghost use Rattle.lw_choices.specs.Choices.{IsPartFor};
ghost use Rattle.lw_choices.specs.Stands.{plain_part};
ghost use Rattle.lw_curves.specs.Settling.{IsBest};
ghost use Rattle.lw_pool.specs.Numbers.{numbers};

use crate::pareto_fronts::Fronts;
use crate::setup::Setup;
use lw_choices::{Stand, joined};
use lw_fixed::Micro;
use lw_pool::ClassId;

/// When an input starts, in millionths: 0 past the last start that is given.
pub(crate) fn start_of(starts: &[Micro], input: u32) -> u64
    ensures { result ≡ start_of (map millionths starts.now) input }
{
    let input = input as usize;
    if input < starts.len() {
        starts[input].0
    } else {
        0
    }
}

/// The least area that a choice gives by a time, with the points that were found so far; none if it
/// gives nothing by then.
pub(crate) fn price(stand: &Stand, setup: &Setup, fronts: &Fronts, time: u64) -> Option<u64>
    requires { IsPartFor setup.now.lib.now (length fronts.now.least) (plain_part stand.now) }
    ensures low { IfSome result (λ area. area ≤ most_area) }
    ensures best { (g : PlainGraph) (pats : List TreeOfCell) →
        IsBest (task_of setup.now g pats) fronts.now.spots (plain_part stand.now) time result }
{
    match stand {
        Stand::Input(input) if start_of(setup.starts, *input) > time => None,
        Stand::Input(_) => Some(0),
        Stand::Gate(gate) => {
            let cell = setup.lib.cell(gate.cell);
            let pins = area_of_pins(cell.delays(), gate.pins, fronts, time)?;
            Some(joined(cell.area().0, pins))
        }
    }
}

// The least area of some pins together by a time, each with its delay; none if one has no point by
// then.
fn area_of_pins(delays: &[Micro], pins: &[ClassId], fronts: &Fronts, time: u64) -> Option<u64>
    requires one_each { length delays.now ≡ length pins.now }
    requires within { All (λ (c : ClassId). c.0 < length fronts.now.least) pins.now }
    ensures { IsBestOfPins fronts.now.spots (map millionths delays.now)
        (numbers pins.now) time result }
{
    let mut area = 0;
    let mut pin = pins.len();
    while pin > 0 {
        pin -= 1;
        if delays[pin].0 > time {
            return None;
        }
        let first = fronts.area_by(pins[pin], time - delays[pin].0)?;
        area = joined(first, area);
    }
    Some(area)
}
