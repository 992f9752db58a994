// Numbers of parts that fall to what pairs give.
ghost use Rattle.std.specs.Prelude.{◌≡◌, ◌<◌, ◌≤◌, ℕ, length, max, min, Some, slice_get};
ghost use Rattle.std.specs.Prelude.{slice_index};
ghost use Rattle.lw_graph.specs.declared.pair.Pair.{Pair};
ghost use Rattle.lw_bounds.specs.Numbers.{reading, pair_number};
ghost use Rattle.lw_bounds.specs.Lowering.{AreAtMostGiven, AreLessened, AreNumbersOf, AreViews};
ghost use Rattle.lw_bounds.specs.Lowering.{IsPlanned};
ghost use Rattle.lw_bounds.specs.declared.parts.Part.{Part};
ghost use Rattle.lw_bounds.specs.Places.{list_at, view_number, given, AreGrouped, AreWithin};
ghost use Rattle.lw_bounds.specs.Places.{IsGroupAmong};

use crate::numbers::Numbers;
use crate::parts::{Group, Part, Rule};
use crate::renewing::either;
use crate::rows::{View, leaves_at, list_at, view_at};
use lw_graph::Pair;

/// The parts of all patterns, and the rules of these parts in groups.
#[derive(Clone, Copy)]
pub struct Plan<'a> {
    pub parts: &'a [Part],
    pub groups: &'a [Group],
}

// What a rule gives as the number of its part: the greater of its two sides' numbers, each with its
// shift. `bound` is the part's number so far, which is the answer as soon as a side is not below
// it. `xs` and `ys` are the lists in which the left and the right side have their numbers. A number
// below a bound is not `u64::MAX`, and a shift does not make it so.
fn given_below(bound: u64, rule: Rule, xs: &[u64], ys: &[u64]) -> u64
    requires left { rule.left < length xs.now }
    requires right { rule.right < length ys.now }
    ensures { min result bound ≡ min (given xs.now ys.now rule) bound }
{
    let y = ys[rule.right as usize];
    if y >= bound {
        return bound;
    }
    let x = xs[rule.left as usize];
    if x >= bound {
        return bound;
    }
    let left = x.saturating_add(rule.left_shift);
    let right = y.saturating_add(rule.right_shift);
    left.max(right).min(u64::MAX - 1)
}

// Lets the number at a place fall to `least` if that is lower, and says whether it fell.
fn lower_number(numbers: &mut [u64], place: usize, least: u64) -> bool
    requires { place < length numbers.old }
    ensures low { slice_index numbers.new place ≤ least }
    ensures lessened { AreLessened numbers.old numbers.new result }
{
    if least < numbers[place] {
        numbers[place] = least;
        true
    } else {
        false
    }
}

// Lets the number of each rule's part in the row `least` fall to what two lists give, and says
// whether one fell.
fn lower(rules: &[Rule], xs: &[u64], ys: &[u64], least: &mut [u64]) -> bool
    requires within { AreWithin xs.now ys.now least.old rules.now }
    ensures lessened { AreLessened least.old least.new result }
    ensures lowered { AreAtMostGiven rules.now xs.now ys.now least.new }
{
    let mut fell = false;
    for number in 0..rules.len() {
        let rule = rules[number];
        let part = rule.part as usize;
        let given = given_below(least[part], rule, xs, ys);
        fell = either(lower_number(least, part, given), fell);
    }
    fell
}

// Lets the numbers in the row `least` fall to what the rules of one group give, if the left sides
// stand at the class of `one` and the right sides at that of `other`. Where the list of a side is
// an empty row, nothing stands there.
fn lower_where(plan: Plan, group: &Group, one: View, other: View, least: &mut [u64]) -> bool
    requires group { IsGroupAmong plan.parts.now group.now }
    requires views { AreViews (length plan.parts.now) one other }
    requires numbers { AreNumbersOf plan.parts.now least.old }
    ensures lessened { AreLessened least.old least.new result }
    ensures lowered { AreAtMostGiven group.now.rules.items (list_at one.entry group.now.left)
        (list_at other.entry group.now.right) least.new }
{
    let xs = list_at(one, group.left);
    if xs.is_empty() {
        return false;
    }
    let ys = list_at(other, group.right);
    if ys.is_empty() {
        return false;
    }
    lower(&group.rules, xs, ys, least)
}

// Lets the number of each part in the row `least` fall to what it is with its left side at the
// class of `one` and its right side at that of `other`, and says whether one fell.
fn lower_all(plan: Plan, one: View, other: View, least: &mut [u64]) -> bool
    requires grouped { AreGrouped plan.parts.now plan.groups.now }
    requires views { AreViews (length plan.parts.now) one other }
    requires numbers { AreNumbersOf plan.parts.now least.old }
    ensures lessened { AreLessened least.old least.new result }
    ensures lowered { (n : ℕ) (p : Part) → slice_get plan.entry.parts.now n ≡ Some p →
        slice_index least.new n
        ≤ max (view_number one.entry p.left) (view_number other.entry p.right) }
{
    let mut fell = false;
    for number in 0..plan.groups.len() {
        let one_fell = lower_where(plan, &plan.groups[number], one, other, least);
        fell = either(one_fell, fell);
    }
    fell
}

// Lets the number of each part in the row `least` fall to what one pair of classes gives, either
// way round, and says whether one fell.
fn lower_by(at: Numbers, plan: Plan, pair: Pair, least: &mut [u64]) -> bool
    requires planned { IsPlanned (reading at) plan least.old }
    requires pair { (pair.x.0 < length at.marks.now) × (pair.y.0 < length at.marks.now) }
    ensures lessened { AreLessened least.old least.new result }
    ensures lowered { (n : ℕ) (p : Part) → slice_get plan.entry.parts.now n ≡ Some p →
        slice_index least.new n ≤ pair_number (reading at.entry) p pair.x.0 pair.y.0 }
{
    let xs = leaves_at(at, pair.x);
    let ys = leaves_at(at, pair.y);
    let one = view_at(at, &xs, pair.x);
    let other = view_at(at, &ys, pair.y);
    let fell = lower_all(plan, one, other, least);
    if pair.x == pair.y {
        return fell;
    }
    let turned = lower_all(plan, other, one, least);
    either(turned, fell)
}

/// Lets the number of each part in the row `least` fall to what each of a class's pairs gives, and
/// says whether one fell. `renewing` puts the row back into the table.
pub(crate) fn lower_by_all(at: Numbers, plan: Plan, pairs: &[Pair], least: &mut [u64]) -> bool
    requires planned { IsPlanned (reading at) plan least.old }
    requires pairs { (i : ℕ) (q : Pair) → slice_get pairs.now i ≡ Some q →
        (q.x.0 < length at.marks.now) × (q.y.0 < length at.marks.now) }
    ensures lessened { AreLessened least.old least.new result }
    ensures lowered { (i : ℕ) (q : Pair) (n : ℕ) (p : Part) → slice_get pairs.now i ≡ Some q →
        slice_get plan.entry.parts.now n ≡ Some p →
        slice_index least.new n ≤ pair_number (reading at.entry) p q.x.0 q.y.0 }
{
    let mut fell = false;
    for pair in pairs {
        let one_fell = lower_by(at, plan, *pair, least);
        fell = either(one_fell, fell);
    }
    fell
}
