// The choices of each group, one group after another.
ghost use Rattle.std.specs.Prelude.{◌≡◌, ◌<◌, IfOk, OnOk, length};
ghost use Rattle.lw_choices.specs.GroupChoices.{AreGroupChoicesOf, AreOwnersAdded};

use crate::chains::Chains;
use lw_pool::ClassId;
use std::alloc::{AllocError, Global};

/// The numbers of the choices of each group, once for each pin in it.
#[derive(Drop)]
pub struct GroupChoices {
    // where the choices of each group begin, and where those of the last one end
    pub starts: Vec<usize>,
    pub numbers: Vec<u32>,
}

/// For each of so many groups the choices with a pin in it. `members` has the group of each pin,
/// and `owners` its choice.
pub fn choices_by_group(
    alloc: Global,
    members: &Chains,
    owners: &[u32],
    groups: u32,
) -> Result<GroupChoices, AllocError>
    requires groups { groups ≡ members.now.count }
    requires owners { length owners.now ≡ length members.now.classes }
    ensures { IfOk result (AreGroupChoicesOf members.now.classes owners.now groups) }
{
    let mut starts = Vec::with_capacity(alloc, groups as usize + 1)?;
    let mut numbers = Vec::with_capacity(alloc, owners.len())?;
    for group in 0..groups {
        starts.push(numbers.len())?;
        list_group(members, owners, group, &mut numbers)?;
    }
    starts.push(numbers.len())?;
    Ok(GroupChoices { starts, numbers })
}

/// The choices of no groups, as they are until `choices_by_group` lists them.
pub fn no_group_choices(alloc: Global) -> GroupChoices {
    GroupChoices {
        starts: Vec::new(alloc),
        numbers: Vec::new(alloc),
    }
}

// Appends to `to` the choice of each pin in a group, the last pin first.
fn list_group(
    pins: &Chains,
    owners: &[u32],
    group: u32,
    to: &mut Vec<u32>,
) -> Result<(), AllocError>
    requires group { group < pins.now.count }
    requires one_each { length owners.now ≡ length pins.now.classes }
    ensures { OnOk result (AreOwnersAdded pins.now.classes owners.now group to.old.items
        to.new.items) }
{
    let _ = pins.len();
    let mut next = pins.last(ClassId(group));
    while let Some(place) = next {
        to.push(owners[place as usize])?;
        next = pins.before(place);
    }
    Ok(())
}
