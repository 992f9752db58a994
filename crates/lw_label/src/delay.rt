// The time of covers as a cost, in millionths of the library's unit.
ghost use Rattle.std.specs.Prelude.{◌≡◌, ◌<◌, ◌+◌, All, min, max, map, length};
ghost use Rattle.lw_laws.specs.Covers.{latest};
ghost use Rattle.lw_genlib.specs.Cells.{IsSmall};
ghost use Rattle.lw_genlib.specs.Tables.{millionths};
ghost use Rattle.lw_label.specs.Delays.{most_time, start_at};

use lw_cost::Cost;
use lw_fixed::{Micro, Micros};
use lw_genlib::Library;
use lw_pool::CellId;

/// The time of a cover, without loads, in millionths: an input arrives at its start, and a cell at
/// the greatest of its pins' arrivals with their delays. Times are cut at 2^63 - 1.
#[derive(Drop)]
pub struct DelayCost<'a> {
    pub lib: &'a Library,
    pub starts: &'a Micros,
    ghost small: { All IsSmall starts.now },
}

impl<'a> DelayCost<'a> {
    /// The time by the delays of a library, where inputs start at these times, and at 0 past the
    /// last of them.
    pub fn new(lib: &'a Library, starts: &'a Micros) -> Self
        requires { All IsSmall starts.now }
        ensures lib { result.lib.now ≡ lib.now }
        ensures starts { result.starts.now ≡ starts.now }
    {
        DelayCost { lib, starts }
    }
}

impl Cost for DelayCost<'_> {
    ghost use Rattle.std.specs.Prelude.{refl, ℕ, List, ◌≤◌, slice_index};
    ghost use Rattle.lw_label.specs.Delays.{most_time, time_cost};
    ghost use Rattle.lw_laws.specs.Covers.{HasPins};
    ghost use Rattle.lw_laws.proofs.Delays.{delay_cost_is};
    ghost use Rattle.lw_genlib.specs.Tables.{timing_of};

    ghost CAP = { 9223372036854775807 };

    ghost costs = { λ c. time_cost c.lib.now c.starts.now };

    ghost cap = { λ c. refl };

    ghost laws = { λ c. delay_cost_is (timing_of c.lib.now c.starts.now) most_time };

    // When an input starts, in millionths.
    fn leaf(&self, input: u32) -> u64
        ensures { result ≡ (time_cost self.now.lib.now self.now.starts.now).leaf input }
    {
        start_of(self.starts.as_slice(), input as usize)
    }

    // When the output of a cell arrives, given when its pins do, in millionths and at most
    // `MOST_TIME`.
    fn value(&self, cell: CellId, pins: &[u64]) -> u64
        requires { HasPins (time_cost self.now.lib.now self.now.starts.now).pin_counts cell.0
            (length pins.now) }
        ensures { result ≡ (time_cost self.now.lib.now self.now.starts.now).value cell.0 pins.now }
    {
        let delays = self.lib.cell(cell).delays();
        earlier(latest(delays, pins), MOST_TIME)
    }

    // The cell arrives no earlier than a pin plus `gap` if the pin's delay is at least that, up to
    // the greatest time. Else nothing is known, which 0 says.
    fn known_up_to(&self, cell: CellId, pins: usize, pin: usize, gap: u64) -> u64
        requires has { HasPins (time_cost self.now.lib.now self.now.starts.now).pin_counts cell.0
            pins }
        requires pin { pin < pins }
        ensures { (ds : List ℕ) → length ds ≡ pins → slice_index ds pin + gap ≤ result →
            slice_index ds pin + gap
            ≤ (time_cost self.now.lib.now self.now.starts.now).value cell.0 ds }
    {
        let delays = self.lib.cell(cell).delays();
        if delays[pin].0 < gap {
            return 0;
        }
        MOST_TIME
    }
}

// When an input starts, in millionths: 0 past the last start that is given.
fn start_of(starts: &[Micro], input: usize) -> u64
    ensures { result ≡ start_at starts.now input }
{
    if input < starts.len() {
        starts[input].0
    } else {
        0
    }
}

// The greatest time that is reported, 2^63 - 1 millionths: later ones are cut to it.
const MOST_TIME: u64 = 9_223_372_036_854_775_807;

// The later of two times.
fn later(a: u64, b: u64) -> u64
    ensures { result ≡ max a b }
{
    if a < b { b } else { a }
}

// The earlier of two times.
fn earlier(a: u64, b: u64) -> u64
    ensures { result ≡ min a b }
{
    if a < b { a } else { b }
}

// The sum of two times in millionths, or 2^64 - 1 if it is greater: `latest` adds a pin's delay to
// its arrival by it.
fn sum(a: u64, b: u64) -> u64
    ensures { min result most_time ≡ min most_time (a + b) }
{
    a.saturating_add(b)
}

// The greatest of each pin's arrival plus its delay, in millionths, cut at 2^64 - 1. The caller
// cuts it at `MOST_TIME`.
fn latest(delays: &[Micro], pins: &[u64]) -> u64
    requires { length delays.now ≡ length pins.now }
    ensures { min result most_time ≡ min most_time (latest (map millionths delays.now) pins.now) }
{
    let mut latest = 0;
    for (k, pin) in pins.iter().enumerate() {
        latest = later(latest, sum(*pin, delays[k].0));
    }
    latest
}
