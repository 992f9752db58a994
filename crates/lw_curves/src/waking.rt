// The groups that come at a time, and which of their choices wait from then on to be priced.
ghost use Rattle.std.specs.Prelude.{◌≡◌, ◌<◌, ◌≤◌, IsFalse, IsTrue, OnOk, length};
ghost use Rattle.lw_curves.specs.Setups.{AreGroupsOver, AreTalliedIn, GivesNoMoreIn};
ghost use Rattle.lw_curves.specs.Setups.{IsGroupLookedAtIn, IsLookedAtIn, IsReadyAt, IsReadyFor};
ghost use Rattle.lw_curves.specs.Setups.{IsUnderWay};

use crate::pareto_fronts::Fronts;
use crate::seen_areas::{Seen, see};
use crate::setup::Setup;
use crate::tallies::UNSEEN;
use lw_choices::MOST_AREA;
use lw_queue::Queue;
use std::alloc::AllocError;

/// What choices are looked at by.
#[derive(Drop)]
pub(crate) struct View<'a, 'b, 'c, 'd> {
    pub setup: &'a Setup<'b>,
    /// What the groups have seen.
    pub seen: &'c Seen,
    /// The points that were found.
    pub fronts: &'d Fronts,
}

/// Whether the choice with this number may give its class a point at a time. By its tally, each
/// group of its pins has seen a point, and its area may be less than the class has.
pub(crate) fn may_give(at: &View, number: u32, time: u64) -> bool
    requires { IsReadyFor at.now.setup.now time at.now.seen.now at.now.fronts.now }
    ensures listed { IsTrue result → number < length at.now.setup.now.rows.now }
    ensures no_more { IsFalse result → GivesNoMoreIn at.now time number }
{
    let place = number as usize;
    if place >= at.seen.tallies.len() {
        return false;
    }
    let tally = at.seen.tallies[place];
    let bound = tally.bound();
    if bound >= UNSEEN {
        return false;
    }
    let area = bound.min(MOST_AREA as u128) as u64;
    at.fronts.is_less(tally.class, time, area)
}

/// Takes the groups that come at a time from `coming`. Each sees the last point of its class, and
/// then those of its choices wait in `queue` that may give a point at that time.
pub(crate) fn look_at_groups(
    setup: &Setup,
    seen: &mut Seen,
    fronts: &Fronts,
    coming: &mut Queue,
    queue: &mut Queue,
    time: u64,
) -> Result<(), AllocError>
    requires { IsUnderWay setup.now time seen.old fronts.now coming.old queue.old }
    ensures horizon { coming.new.horizon ≡ coming.old.horizon }
    ensures tallied { AreTalliedIn setup.now seen.new }
    ensures over { OnOk result (AreGroupsOver setup.now time seen.new fronts.now.spots coming.old
        coming.new queue.old queue.new) }
{
    while let Some((place, group)) = coming.take_hinted_at(time) {
        see(setup.pin_groups, fronts, seen, group, time, place);
        look_at_group(
            &View {
                setup,
                seen,
                fronts,
            },
            queue,
            group,
            time,
        )?;
    }
    Ok(())
}

// Lets the choice with this number wait at a time, if `may_give` says that it may give a point
// then.
fn look_at(at: &View, queue: &mut Queue, number: u32, time: u64) -> Result<(), AllocError>
    requires time { time ≤ queue.old.horizon }
    requires ready { IsReadyFor at.now.setup.now time at.now.seen.now at.now.fronts.now }
    ensures horizon { queue.new.horizon ≡ queue.old.horizon }
    ensures looked { OnOk result (IsLookedAtIn at.now time number queue.old queue.new) }
{
    if may_give(at, number, time) {
        queue.push(0, time, 0, number)?;
        return Ok(());
    }
    Ok(())
}

// Lets the choices with a pin in a group wait at a time, those that may give a point then.
fn look_at_group(at: &View, queue: &mut Queue, group: u32, time: u64) -> Result<(), AllocError>
    requires time { time ≤ queue.old.horizon }
    requires ready { IsReadyAt at.now.setup.now time at.now.seen.now at.now.fronts.now group }
    ensures horizon { queue.new.horizon ≡ queue.old.horizon }
    ensures looked { OnOk result (IsGroupLookedAtIn at.now time group queue.old queue.new) }
{
    let pin_groups = at.setup.pin_groups;
    let _ = pin_groups.members.len();
    let first = pin_groups.by_group.starts[group as usize];
    let end = pin_groups.by_group.starts[group as usize + 1];
    for place in first..end {
        let number = pin_groups.by_group.numbers[place];
        look_at(at, queue, number, time)?;
    }
    Ok(())
}
