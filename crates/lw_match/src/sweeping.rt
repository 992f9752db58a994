// Hunts by all patterns at a class: those alone are searched whose roots have numbers low enough.
ghost use Rattle.std.specs.Prelude.{ℕ, ◌↔◌, IsTrue, IsFalse};
ghost use Rattle.lw_bounds.specs.Places.{IsFar};
ghost use Rattle.lw_match.specs.Queries.{IsQuery, IsQueryBy, AreRootsIn, HasRootsListed};
ghost use Rattle.lw_match.specs.Hunts.{HuntsOn, HasNoneAtAll, HasNoneByRoot, HasNoneInList};
ghost use Rattle.lw_match.specs.Hunts.{HasNoneLeft, IsNewHunt, IsWholeHunt};

use crate::hunting::find_better_by;
use crate::query::Query;
use crate::scratch::Scratch;
use crate::target::Target;
use crate::want::{Want, target_after, target_of};
use lw_bounds::{Root, list_at, shifted};
use lw_cost::{Best, Cost};
use lw_pool::PatId;

/// What was found so far, what a match has to be before that is better, and the binding that
/// searches begin with.
#[derive(Drop)]
pub(crate) struct Hunt {
    pub(crate) target: Target,
    pub(crate) found: Option<Best>,
    pub(crate) scratch: Scratch,
}

impl Hunt {
    /// A hunt that has found nothing.
    #[inline(always)]
    pub(crate) fn new(want: Want, scratch: Scratch) -> Self
        ensures { IsNewHunt want result }
    {
        Hunt {
            target: target_of(want),
            found: None,
            scratch,
        }
    }

    /// Whether nothing was found or marks count, so that nothing better was left behind.
    pub(crate) fn is_whole(&self) -> bool
        ensures { IsTrue result ↔ IsWholeHunt self.now }
    {
        self.target.by_marks || self.found.is_none()
    }
}

/// Whether the number of a root in the list `numbers`, with its shift, is below `top`: only then is
/// its pattern searched.
pub(crate) fn is_near(numbers: &[u64], root: Root, top: u64) -> bool
    ensures { IsFalse result → IsFar numbers.now root.place root.shift top }
{
    let place = root.place as usize;
    if place >= numbers.len() {
        return false;
    }
    let number = numbers[place];
    number < top && shifted(number, root.shift) < top
}

/// Whether a list is empty, as the row of a class without pairs is, so that no number in it is
/// below `top`, which the contract alone names.
pub(crate) fn is_bare(numbers: &[u64], top: u64) -> bool
    ensures { IsTrue result → (place shift : ℕ) → IsFar numbers.now place shift top }
{
    // An empty list has no number below the top, whatever it is: the clause alone names it.
    let _ = top;
    numbers.is_empty()
}

/// Goes on with a hunt by one pattern: a better match becomes what was found, and the target what
/// is before it.
pub(crate) fn hunt_by<C: Cost>(query: &Query<C>, pat: PatId, hunt: &mut Hunt)
    requires { IsQueryBy C.CAP C.costs query.now pat.0 }
    ensures goes_on { HuntsOn C.costs query.now hunt.old hunt.new }
    ensures none { IsWholeHunt hunt.new → HasNoneLeft C.costs query.now hunt.new pat.0 }
{
    if let Some(best) = find_better_by(query, pat, hunt.target, &mut hunt.scratch) {
        hunt.target = target_after(hunt.target, best.mark);
        hunt.found = Some(best);
    }
}

/// Goes on with a hunt by the pattern of a root, where its number in the list `numbers` is below
/// the target's top.
fn hunt_root<C: Cost>(query: &Query<C>, numbers: &[u64], root: Root, hunt: &mut Hunt)
    requires { IsQuery C.CAP C.costs query.now }
    ensures goes_on { HuntsOn C.costs query.now hunt.old hunt.new }
    ensures none { HasNoneByRoot C.costs query.now hunt.new numbers.now root }
{
    if root.pattern >= query.site.pats.len() {
        return;
    }
    if is_near(numbers, root, hunt.target.top) {
        hunt_by(query, PatId(root.pattern), hunt);
    }
}

/// Goes on with a hunt by the patterns of these roots, whose numbers stand in the list with this
/// index.
fn hunt_list<C: Cost>(query: &Query<C>, list: u8, roots: &[Root], hunt: &mut Hunt)
    requires query { IsQuery C.CAP C.costs query.now }
    requires listed { AreRootsIn query.now list roots.now }
    ensures goes_on { HuntsOn C.costs query.now hunt.old hunt.new }
    ensures none { HasNoneInList C.costs query.now hunt.new list }
{
    let numbers = list_at(query.view, list);
    if is_bare(numbers, hunt.target.top) {
        return;
    }
    for number in 0..roots.len() {
        hunt_root(query, numbers, roots[number], hunt);
    }
}

/// Goes on with a hunt by all patterns, one after the other.
fn hunt_all<C: Cost>(query: &Query<C>, hunt: &mut Hunt)
    requires { IsQuery C.CAP C.costs query.now }
    ensures goes_on { HuntsOn C.costs query.now hunt.old hunt.new }
    ensures none { HasNoneAtAll C.costs query.now hunt.new }
{
    for number in 0..query.site.pats.len() {
        hunt_by(query, PatId(number), hunt);
    }
}

/// Goes on with a hunt by all patterns whose roots are near, list by list as `pick_near` does, or
/// by all if the table lacks a root.
pub(crate) fn hunt_near<C: Cost>(query: &Query<C>, hunt: &mut Hunt)
    requires query { IsQuery C.CAP C.costs query.now }
    requires listed { HasRootsListed query.now }
    ensures goes_on { HuntsOn C.costs query.now hunt.old hunt.new }
    ensures none { HasNoneAtAll C.costs query.now hunt.new }
{
    if query.site.cuts.roots.len() < query.site.pats.len() as usize {
        hunt_all(query, hunt);
        return;
    }
    hunt_list(query, 0, query.site.cuts.leaf_roots, hunt);
    hunt_list(query, 1, query.site.cuts.row_roots, hunt);
    hunt_list(query, 2, query.site.cuts.other_roots, hunt);
}
