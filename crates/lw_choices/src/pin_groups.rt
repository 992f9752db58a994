// The pins of choices, in groups by class and delay.
ghost use Rattle.std.specs.Prelude.{◌≡◌, ◌<◌, IfOk, IfSome, MatchResult, OnOk, length};
ghost use Rattle.lw_choices.specs.Choices.{IsPartFor};
ghost use Rattle.lw_choices.specs.Rows.{ArePartsFor};
ghost use Rattle.lw_choices.specs.Stands.{plain_part, plain_row};
ghost use Rattle.lw_choices.specs.PinGroups.{AreGroups, AreGroupsTo, ArePinsAdded, AreUses};
ghost use Rattle.lw_choices.specs.PinGroups.{HasFirst, HasNoUses, HasNoUsesFor, HaveDelays};
ghost use Rattle.lw_choices.specs.PinGroups.{IsChoiceAdded, IsFirstAdded, IsGroup, IsGroupAdded};
ghost use Rattle.lw_choices.specs.PinGroups.{IsPinAdded};

use crate::chains::Chains;
use crate::group_choices::{GroupChoices, choices_by_group, no_group_choices};
use crate::rows::{ListedChoice, Listing, Stand};
use lw_fixed::Micro;
use lw_genlib::Library;
use lw_pool::ClassId;
use std::alloc::{AllocError, Global};
use std::mem;

/// The pins of choices, in groups: those of one class with one delay.
#[derive(Drop)]
pub struct PinGroups {
    // the groups, linked by their classes
    pub links: Chains,
    // the delay of each group
    pub delays: Vec<u64>,
    // the lane in which each group waits
    pub lanes: Vec<u32>,
    // the delay that each lane is for
    pub lane_delays: Vec<u64>,
    // the pins, linked by their groups
    pub members: Chains,
    // the choice of each pin
    pub owners: Vec<u32>,
    // the place of the first pin of each choice, behind which its others stand
    pub firsts: Vec<u32>,
    // the choices of each group
    pub by_group: GroupChoices,
}

/// The lane in which a group waits in the queue of coming groups: one for each delay, since what
/// one delay puts off comes in order. It is 0 past the first 1024 delays, and past the last group.
pub fn lane_of(pin_groups: &PinGroups, group: u32) -> u32 {
    let group = group as usize;
    if group < pin_groups.lanes.len() {
        pin_groups.lanes[group]
    } else {
        0
    }
}

/// The pins of all choices in groups, over so many classes. `rows` are the choices.
pub fn pin_groups_of(
    alloc: Global,
    rows: &Listing,
    lib: &Library,
    classes: usize,
) -> Result<PinGroups, AllocError>
    requires { ArePartsFor lib.now classes rows.now }
    ensures count { IfOk result (λ pin_groups. pin_groups.links.count ≡ classes) }
    ensures pin_groups { IfOk result (AreUses lib.now rows.now) }
{
    let mut pin_groups = no_uses(alloc, classes, rows)?;
    add_all(alloc, &mut pin_groups, rows, lib)?;
    Ok(pin_groups)
}

// The number of the group of a class and a delay in millionths, if there is one.
fn group_with(links: &Chains, delays: &[u64], class: ClassId, delay: u64) -> Option<u32>
    requires class { class.0 < links.now.count }
    requires one_each { length delays.now ≡ length links.now.classes }
    ensures { IfSome result (IsGroup links.now.classes delays.now class.0 delay) }
{
    let mut next = links.last(class);
    while let Some(place) = next {
        if delays[place as usize] == delay {
            return Some(place);
        }
        next = links.before(place);
    }
    None
}

// How many lanes there are at most.
const MOST_LANES: usize = 1024;

// The lane of a delay, which is added where there is none. Where there are as many lanes as there
// may be, it is lane 0.
fn lane_for(lane_delays: &mut Vec<u64>, delay: u64) -> Result<u32, AllocError> {
    for lane in 0..lane_delays.len().min(MOST_LANES) {
        if lane_delays[lane] == delay {
            return Ok(lane as u32);
        }
    }
    if lane_delays.len() >= MOST_LANES {
        return Ok(0);
    }
    let lane = lane_delays.len() as u32;
    lane_delays.push(delay)?;
    Ok(lane)
}

// Adds a group of a class and a delay, without pins, and gives its number.
fn new_group(pin_groups: &mut PinGroups, class: ClassId, delay: u64) -> Result<u32, AllocError>
    requires class { class.0 < pin_groups.old.links.count }
    ensures count { pin_groups.new.links.count ≡ pin_groups.old.links.count }
    ensures added { IfOk result (IsGroupAdded pin_groups.old pin_groups.new class.0 delay) }
{
    let group = pin_groups.links.len();
    let lane = lane_for(&mut pin_groups.lane_delays, delay)?;
    pin_groups.links.push(class)?;
    pin_groups.delays.push(delay)?;
    pin_groups.lanes.push(lane)?;
    pin_groups.members.grow()?;
    Ok(group)
}

// The number of the group of a class and a delay, which is added where there is none.
fn group_for(pin_groups: &mut PinGroups, class: ClassId, delay: u64) -> Result<u32, AllocError>
    requires class { class.0 < pin_groups.old.links.count }
    requires are { AreGroups pin_groups.old }
    ensures count { pin_groups.new.links.count ≡ pin_groups.old.links.count }
    ensures added { IfOk result (IsGroupAdded pin_groups.old pin_groups.new class.0 delay) }
{
    let delays = pin_groups.delays.as_slice();
    if let Some(group) = group_with(&pin_groups.links, delays, class, delay) {
        return Ok(group);
    }
    new_group(pin_groups, class, delay)
}

// Adds a pin of a choice, by its number, to the group of its class and its delay.
fn add_pin(
    pin_groups: &mut PinGroups,
    class: ClassId,
    delay: u64,
    choice: u32,
) -> Result<(), AllocError>
    requires class { class.0 < pin_groups.old.links.count }
    requires are { AreGroups pin_groups.old }
    ensures count { pin_groups.new.links.count ≡ pin_groups.old.links.count }
    ensures added { OnOk result (IsPinAdded pin_groups.old pin_groups.new class.0 delay choice) }
{
    let group = group_for(pin_groups, class, delay)?;
    pin_groups.members.push(ClassId(group))?;
    pin_groups.owners.push(choice)?;
    Ok(())
}

// Adds the pins of a choice, by its number: their classes and their delays.
fn add_pins(
    pin_groups: &mut PinGroups,
    delays: &[Micro],
    pins: &[ClassId],
    choice: u32,
) -> Result<(), AllocError>
    requires pins { HaveDelays pin_groups.old.links.count delays.now pins.now }
    requires first { HasFirst choice pin_groups.old }
    ensures count { pin_groups.new.links.count ≡ pin_groups.old.links.count }
    ensures added { OnOk result
        (ArePinsAdded delays.now pins.now choice pin_groups.old pin_groups.new) }
{
    for (pin, class) in pins.iter().enumerate() {
        add_pin(pin_groups, *class, delays[pin].0, choice)?;
    }
    Ok(())
}

// Notes where the pins of the next choice begin.
fn add_first(pin_groups: &mut PinGroups) -> Result<(), AllocError>
    ensures { MatchResult result (λ _. IsFirstAdded pin_groups.old pin_groups.new)
        (λ _. pin_groups.new.links.count ≡ pin_groups.old.links.count) }
{
    pin_groups.firsts.push(pin_groups.members.len())?;
    Ok(())
}

// Adds the pins of the next choice, if it has any. `row` is the choice, and `choice` its number.
fn add_choice(
    pin_groups: &mut PinGroups,
    lib: &Library,
    row: &ListedChoice,
    choice: u32,
) -> Result<(), AllocError>
    requires part { IsPartFor lib.now pin_groups.old.links.count (plain_part row.now.stand) }
    requires of { AreGroupsTo choice pin_groups.old }
    ensures count { pin_groups.new.links.count ≡ pin_groups.old.links.count }
    ensures added { OnOk result (IsChoiceAdded lib.now (plain_row row.now) choice pin_groups.old
        pin_groups.new) }
{
    add_first(pin_groups)?;
    match &row.stand {
        Stand::Input(_) => Ok(()),
        Stand::Gate(gate) => {
            let delays = lib.cell(gate.cell).delays();
            add_pins(pin_groups, delays, gate.pins, choice)?;
            Ok(())
        }
    }
}

// Groups of no pins, over so many classes, with room for the pins of these choices.
fn no_uses(alloc: Global, classes: usize, rows: &Listing) -> Result<PinGroups, AllocError>
    ensures { IfOk result (HasNoUsesFor classes) }
{
    let links = Chains::new(alloc, classes)?;
    let members = Chains::with_room(alloc, 0, rows.pins())?;
    let owners = Vec::with_capacity(alloc, rows.pins())?;
    let firsts = Vec::with_capacity(alloc, rows.len())?;
    Ok(PinGroups {
        links,
        delays: Vec::new(alloc),
        lanes: Vec::new(alloc),
        lane_delays: Vec::new(alloc),
        members,
        owners,
        firsts,
        by_group: no_group_choices(alloc),
    })
}

// Adds the pins of all choices, and then lists the choices of each group.
fn add_all(
    alloc: Global,
    pin_groups: &mut PinGroups,
    rows: &Listing,
    lib: &Library,
) -> Result<(), AllocError>
    requires rows { ArePartsFor lib.now pin_groups.old.links.count rows.now }
    requires none { HasNoUses pin_groups.old }
    ensures count { pin_groups.new.links.count ≡ pin_groups.old.links.count }
    ensures pin_groups { OnOk result (AreUses lib.now rows.now pin_groups.new) }
{
    for choice in 0..rows.len() {
        add_choice(pin_groups, lib, &rows.at(choice), choice as u32)?;
    }
    let groups = pin_groups.links.len();
    let by_group = choices_by_group(
        alloc,
        &pin_groups.members,
        pin_groups.owners.as_slice(),
        groups,
    )?;
    drop(mem::replace(&mut pin_groups.by_group, by_group));
    Ok(())
}
