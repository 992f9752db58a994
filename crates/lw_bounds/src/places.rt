// The rules of parts, in groups by the lists in which the numbers of their sides stand.
ghost use Rattle.std.specs.Prelude.{◌≡◌, ◌<◌, ◌≤◌, length, IfOk, IsTrue, ◌↔◌};
ghost use Rattle.lw_bounds.specs.Places.{list_of, place_of, shift_of, rule_of, root_of, AreGrouped};
ghost use Rattle.lw_bounds.specs.Places.{AreListed, IsGroupOf};
ghost use Rattle.lw_pattern.specs.Listed.{most_patterns};
ghost use Rattle.lw_bounds.specs.Numbers.{most_numbers};

use crate::parts::{Group, Kind, Part, Root, Rule, Side};
use std::alloc::{AllocError, Global};

// The list in which the number of a side stands: that of pins and constants, the row of the class,
// or the row of its complement.
fn list_of(side: Side) -> u8
    ensures { result ≡ list_of side }
{
    match side.kind {
        Kind::Joined(_part, _shift) => { if side.flipped { 2 } else { 1 } }
        _ => 0,
    }
}

// The place of the number of a side in its list.
fn place_of(side: Side) -> u32
    ensures { result ≡ place_of side }
{
    match side.kind {
        Kind::Leaf(_shift) => { if side.flipped { 1 } else { 0 } }
        Kind::One => { if side.flipped { 3 } else { 2 } }
        Kind::Any => 4,
        Kind::Joined(part, _shift) => part,
    }
}

// What is added to the number below a side.
fn shift_of(side: Side) -> u64
    ensures { result ≡ shift_of side.kind }
{
    match side.kind {
        Kind::Leaf(shift) => shift,
        Kind::Joined(_part, shift) => shift,
        _ => 0,
    }
}

// The rule of a part.
fn rule_of(number: u32, part: Part) -> Rule
    ensures { result ≡ rule_of number part }
{
    Rule {
        part: number,
        left: place_of(part.left),
        right: place_of(part.right),
        left_shift: shift_of(part.left),
        right_shift: shift_of(part.right),
    }
}

// Whether the sides of a part have their numbers in two lists.
fn is_in(part: Part, left: u8, right: u8) -> bool
    ensures { IsTrue result ↔ ((list_of part.left ≡ left) × (list_of part.right ≡ right)) }
{
    list_of(part.left) == left && list_of(part.right) == right
}

// The rules of the parts whose sides have their numbers in two lists.
fn group_of(alloc: Global, parts: &[Part], left: u8, right: u8) -> Result<Group, AllocError>
    requires few { length parts.now ≤ most_numbers }
    ensures { IfOk result (λ group. IsGroupOf parts.now left right group) }
{
    let mut rules = Vec::new(alloc);
    for number in 0..parts.len() {
        let part = parts[number];
        if is_in(part, left, right) {
            rules.push(rule_of(number as u32, part))?;
        }
    }
    Ok(Group { left, right, rules })
}

// The rules of all parts, in groups of which none is empty.
pub(crate) fn groups_of(alloc: Global, parts: &[Part]) -> Result<Vec<Group>, AllocError>
    requires few { length parts.now ≤ most_numbers }
    ensures { IfOk result (λ groups. AreGrouped parts.now groups.items) }
{
    let mut groups = Vec::new(alloc);
    for number in 0..9 {
        let group = group_of(alloc, parts, number / 3, number % 3)?;
        if !group.rules.is_empty() {
            groups.push(group)?;
        }
    }
    Ok(groups)
}

// The root of a pattern with this number, whose root is a side.
fn root_of(number: u32, side: Side) -> Root
    ensures { result ≡ root_of number side }
{
    Root {
        pattern: number,
        place: place_of(side),
        shift: shift_of(side),
    }
}

// The roots, given the sides that they are, that have their numbers in a list.
pub(crate) fn roots_in(alloc: Global, sides: &[Side], list: u8) -> Result<Vec<Root>, AllocError>
    requires few { length sides.now ≤ most_patterns }
    ensures { IfOk result (λ roots. AreListed sides.now list roots.items (length sides.now)) }
{
    let mut roots = Vec::new(alloc);
    for number in 0..sides.len() {
        let side = sides[number];
        if list_of(side) == list {
            roots.push(root_of(number as u32, side))?;
        }
    }
    Ok(roots)
}
