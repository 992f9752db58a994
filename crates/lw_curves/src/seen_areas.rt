// What the groups of pins have seen: the least area of the points of their class that came.
ghost use Rattle.std.specs.Prelude.{◌≡◌, All, IfOk, replicate};
ghost use Rattle.lw_curves.specs.Setups.{MaySee, StayTallied};
ghost use Rattle.lw_choices.specs.Choices.{Choice, IsOfLibrary};
ghost use Rattle.lw_curves.specs.SeenAreas.{IsSeeing};
ghost use Rattle.lw_curves.specs.Tallies.{AreFirstTallies, unseen};

use crate::pareto_fronts::Fronts;
use crate::tallies::{Tally, UNSEEN, first_tallies, lower_tallies};
use lw_choices::{Listing, MOST_AREA, PinGroups};
use lw_genlib::Library;
use std::alloc::{AllocError, Global};

/// What each group has seen, and what that makes of the choices.
#[derive(Drop)]
pub(crate) struct Seen {
    /// The least area that each group has seen, or `UNSEEN`.
    pub areas: Vec<u128>,
    /// The tally of each choice.
    pub tallies: Vec<Tally>,
}

/// What is seen at the start, made once by `finding`: for each of `groups` the area `UNSEEN`, above
/// any sum of areas in millionths, and for each choice in `rows` its first tally.
pub(crate) fn none_seen(
    alloc: Global,
    rows: &Listing,
    lib: &Library,
    groups: u32,
) -> Result<Seen, AllocError>
    requires { All (λ (r : Choice). IsOfLibrary lib.now r.part) rows.now }
    ensures areas { IfOk result (λ seen. seen.areas.items ≡ replicate groups unseen) }
    ensures tallies { IfOk result (λ seen. AreFirstTallies lib.now rows.now seen.tallies.items) }
{
    let areas = vec![in alloc; UNSEEN; groups as usize]?;
    let tallies = first_tallies(alloc, rows, lib)?;
    Ok(Seen { areas, tallies })
}

/// Lets a group see the last point of its class that comes, by the group's delay, no later than
/// `time`. If that has less area, the bounds of the group's choices fall. `place` is where the
/// point may stand.
pub(crate) fn see(
    pin_groups: &PinGroups,
    fronts: &Fronts,
    seen: &mut Seen,
    group: u32,
    time: u64,
    place: u64,
)
    requires { MaySee pin_groups.now seen.old fronts.now group }
    ensures seeing { IsSeeing pin_groups.now fronts.now.spots seen.old.areas.items
        seen.new.areas.items group time }
    ensures tallied { StayTallied pin_groups.now seen.old seen.new }
{
    let delay = pin_groups.delays[group as usize];
    if delay > time {
        return;
    }
    let class = pin_groups.links.class(group);
    let Some(area) = fronts.area_near(class, time - delay, place) else {
        return;
    };
    let (old, new) = (seen.areas[group as usize], area.min(MOST_AREA) as u128);
    if new >= old {
        return;
    }
    seen.areas[group as usize] = new;
    lower_tallies(pin_groups, &mut seen.tallies, group, old - new);
}
