// By when each output has to arrive.
ghost use Rattle.std.specs.Prelude.{◌≡◌, IfOk, map};
ghost use Rattle.lw_area.specs.Deadlines.{common_time, deadlines_of, greatest_of, put_off};

use crate::words::Deadline;
use lw_fixed::Micro;
use std::alloc::{AllocError, Global};

// The greatest time that is told.
const MOST_TIME: u64 = 0x7fff_ffff_ffff_ffff;

fn greatest_of(times: &[Micro]) -> u64
    ensures { result ≡ greatest_of times.now }
{
    times.iter().fold(0, |most, time| most.max(time.0))
}

// A part of a time in percent.
fn part_of(time: u64, part: u32) -> u64
    ensures { result ≡ common_time (Deadline.Percent part) time }
{
    let whole = u128::from(time) * u128::from(part) / 100;
    if whole < u128::from(MOST_TIME) {
        whole as u64
    } else {
        MOST_TIME
    }
}

// The time that all outputs may take.
fn common_time(deadline: Deadline, greatest: u64) -> u64
    ensures { result ≡ common_time deadline greatest }
{
    match deadline {
        Deadline::Greatest => greatest,
        Deadline::Each => 0,
        Deadline::Percent(part) => part_of(greatest, part),
        Deadline::At(time) => time.0,
    }
}

/// The deadlines of outputs with these least times.
pub(crate) fn deadlines_of(
    alloc: Global,
    deadline: Deadline,
    least: &[Micro],
) -> Result<Vec<Micro>, AllocError>
    ensures { IfOk result (λ times. times.items ≡ deadlines_of deadline least.now) }
{
    let common = common_time(deadline, greatest_of(least));
    least
        .iter()
        .map(|time| Micro(time.0.max(common)))
        .collect(alloc)
}
