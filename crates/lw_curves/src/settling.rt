// The points of classes, found by rising time.
ghost use Rattle.std.specs.Prelude.{◌≡◌, ◌+◌, ◌<◌, ◌≤◌, ℕ, IfOk, MatchResult, OnOk, length};
ghost use Rattle.lw_curves.specs.Setups.{HaveGained, HaveGainedAll, IsGainBy, IsKeptOf, IsUnderWay};
ghost use Rattle.lw_curves.specs.Setups.{WhereStill, turns_in};
ghost use Rattle.lw_queue.specs.Queues.{IsFirstOf, Waits};
ghost use Rattle.lw_curves.specs.Settling.{AreGroupsAdded, AreSettledOr, IsLetWait};
ghost use Rattle.lw_choices.specs.PinGroups.{AreGroups};
ghost use Rattle.lw_curves.specs.Turns.{ComesAfter};

use crate::choice_area::price;
use crate::pareto_fronts::Fronts;
use crate::point::CurveFault;
use crate::seen_areas::Seen;
use crate::setup::Setup;
use crate::waking::{View, look_at_groups, may_give};
use lw_choices::{PinGroups, lane_of};
use lw_pool::ClassId;
use lw_queue::Queue;
use std::alloc::AllocError;

// Lets the choice with this number wait at a time, unless that is past the horizon.
pub(crate) fn push_due(queue: &mut Queue, time: u64, number: u32) -> Result<(), AllocError>
    ensures { MatchResult result (λ _. IsLetWait queue.old queue.new time number)
        (λ _. queue.new.horizon ≡ queue.old.horizon) }
{
    if time > queue.horizon() {
        return Ok(());
    }
    queue.push(0, time, 0, number)?;
    Ok(())
}

/// When a class gained a point, and where that may stand.
#[derive(Clone, Copy)]
pub(crate) struct Gain {
    pub time: u64,
    pub hint: u64,
}

// Gives the classes their points at a time, before which nothing waits or comes. With each point
// the groups of its class come later.
pub(crate) fn settle_at(
    setup: &Setup,
    seen: &mut Seen,
    fronts: &mut Fronts,
    coming: &mut Queue,
    queue: &mut Queue,
    time: u64,
) -> Result<(), AllocError>
    requires { IsUnderWay setup.now time seen.old fronts.old coming.old queue.old }
    ensures kept { IsKeptOf setup.now seen.new fronts.old fronts.new coming.old coming.new }
    ensures gained { OnOk result
        (HaveGained setup.now time seen.new fronts.old fronts.new coming.old
        coming.new queue.old queue.new) }
{
    while let Some(class) = gain_at(setup, seen, fronts, coming, queue, time)? {
        let hint = fronts.last_place(class);
        push_groups(setup.pin_groups, coming, class, Gain { time, hint })?;
    }
    Ok(())
}

// How many points all classes have together at most.
const MOST_POINTS: u32 = 8_000_000;

/// Gives the classes their points by rising time, up to the horizon of the queues. It stops behind
/// the first time by which all classes together have more than 8,000,000.
pub(crate) fn settle_all(
    setup: &Setup,
    seen: &mut Seen,
    fronts: &mut Fronts,
    coming: &mut Queue,
    queue: &mut Queue,
) -> Result<(), CurveFault>
    requires { IsUnderWay setup.now 0 seen.old fronts.old coming.old queue.old }
    ensures count { length fronts.new.least ≡ length fronts.old.least }
    ensures settled { WhereStill setup.now 0 fronts.old.spots
        (turns_in setup.now coming.old queue.old) (λ s choices.
        AreSettledOr s choices coming.old.horizon fronts.new.spots result) }
    ensures gained { OnOk result (HaveGainedAll setup.now fronts.old fronts.new coming.old
        queue.old) }
{
    while let Some(time) = first_time(coming, queue) {
        settle_at(setup, seen, fronts, coming, queue, time)?;
        if fronts.len() > MOST_POINTS {
            return Err(CurveFault::Limit);
        }
        let _ = coming.horizon();
        let _ = queue.horizon();
    }
    Ok(())
}

// Lets a group come by its delay after a gain, unless that is past the horizon.
fn push_after(
    pin_groups: &PinGroups,
    to: &mut Queue,
    group: u32,
    gain: Gain,
) -> Result<(), AllocError>
    requires group { group < length pin_groups.now.delays.items }
    requires time { gain.time ≤ to.old.horizon }
    ensures horizon { to.new.horizon ≡ to.old.horizon }
    ensures due { OnOk result (ComesAfter pin_groups.now group gain.time to.old to.new) }
{
    let delay = pin_groups.delays[group as usize];
    if delay > to.horizon() - gain.time {
        return Ok(());
    }
    to.push(
        lane_of(pin_groups, group),
        gain.time + delay,
        gain.hint,
        group,
    )?;
    Ok(())
}

// Lets all groups of a class that gained a point come, each by its delay after that.
fn push_groups(
    pin_groups: &PinGroups,
    to: &mut Queue,
    class: ClassId,
    gain: Gain,
) -> Result<(), AllocError>
    requires class { class.0 < pin_groups.now.links.count }
    requires are { AreGroups pin_groups.now }
    requires time { gain.time ≤ to.old.horizon }
    ensures horizon { to.new.horizon ≡ to.old.horizon }
    ensures added { OnOk result
        (AreGroupsAdded pin_groups.now.links.classes pin_groups.now.delays.items
        class.0 gain.time to.old to.new) }
{
    let _ = pin_groups.links.len();
    let mut next = pin_groups.links.last(class);
    while let Some(group) = next {
        push_after(pin_groups, to, group, gain)?;
        next = pin_groups.links.before(group);
    }
    Ok(())
}

// Prices the choices that wait at a time until one gives its class a point, and says which class it
// is; none if none does.
fn next_gain(
    setup: &Setup,
    seen: &Seen,
    fronts: &mut Fronts,
    coming: &Queue,
    queue: &mut Queue,
    time: u64,
) -> Result<Option<ClassId>, AllocError>
    requires under_way { IsUnderWay setup.now time seen.now fronts.old coming.now queue.old }
    requires over { (t g : ℕ) → Waits coming.now t g → time < t }
    ensures count { length fronts.new.least ≡ length fronts.old.least }
    ensures gain { IfOk result (IsGainBy setup.now time seen.now fronts.old fronts.new coming.now
        coming.now queue.old queue.new) }
{
    while let Some(number) = queue.take_at(time) {
        if !may_give(
            &View {
                setup,
                seen,
                fronts,
            },
            number,
            time,
        ) {
            continue;
        }
        let row = setup.rows.at(number as usize);
        let Some(area) = price(&row.stand, setup, fronts, time) else {
            continue;
        };
        if fronts.gain(row.class, time, area, number)? {
            return Ok(Some(row.class));
        }
    }
    Ok(None)
}

// Looks at the groups that come at a time, and then prices the choices that wait until one gives
// its class a point, and says which class it is.
fn gain_at(
    setup: &Setup,
    seen: &mut Seen,
    fronts: &mut Fronts,
    coming: &mut Queue,
    queue: &mut Queue,
    time: u64,
) -> Result<Option<ClassId>, AllocError>
    requires { IsUnderWay setup.now time seen.old fronts.old coming.old queue.old }
    ensures kept { IsKeptOf setup.now seen.new fronts.old fronts.new coming.old coming.new }
    ensures gain { IfOk result (IsGainBy setup.now time seen.new fronts.old fronts.new coming.old
        coming.new queue.old queue.new) }
{
    look_at_groups(setup, seen, fronts, coming, queue, time)?;
    next_gain(setup, seen, fronts, coming, queue, time)
}

// The first time at which a group comes or a choice waits, none if nothing is left.
fn first_time(coming: &Queue, queue: &Queue) -> Option<u64>
    ensures { IsFirstOf coming.now queue.now result }
{
    let Some(one) = coming.next_time() else {
        return queue.next_time();
    };
    let Some(other) = queue.next_time() else {
        return Some(one);
    };
    if one < other {
        return Some(one);
    }
    Some(other)
}
