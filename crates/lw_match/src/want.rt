// What is sought, and the targets that stand for it.
ghost use Rattle.std.specs.Prelude.{◌≡◌, Some, true, false};
ghost use Rattle.lw_cost.specs.Values.{plain_mark};
ghost use Rattle.lw_cost.specs.Least.{IsWithin};
ghost use Rattle.lw_match.specs.Cutting.{IsSharper};
ghost use Rattle.lw_match.specs.Hunts.{IsCheaper, IsTargetOf, IsTargetAfter, IsUnlimited};
ghost use Rattle.lw_match.specs.Hunts.{any_before, lowest_before};

use crate::target::{Target, sharpened, top_of};
use lw_cost::Mark;

/// What is sought: a match before the bound, where there is one, and one with the least mark where
/// marks count.
#[derive(Clone, Copy)]
pub struct Want {
    pub by_marks: bool,
    pub bound: Option<Mark>,
}

impl Want {
    /// Any match before the bound.
    pub(crate) fn any(bound: Option<Mark>) -> Want
        ensures { result ≡ any_before bound }
    {
        Want {
            by_marks: false,
            bound,
        }
    }

    /// A match with the least mark, where that is before the bound.
    pub(crate) fn least(bound: Option<Mark>) -> Want
        ensures { result ≡ lowest_before bound }
    {
        Want {
            by_marks: true,
            bound,
        }
    }
}

/// The target of a hunt for this, with its bound sharpened and the top of that.
pub(crate) fn target_of(want: Want) -> Target
    ensures { IsTargetOf want result }
{
    let bound = sharpened(want.bound);
    let top = top_of(bound);
    Target {
        bound,
        top,
        by_marks: want.by_marks,
    }
}

/// The target after a match was found with a mark before it: what is before that mark. Where marks
/// count the top stays, so that what was passed over at it needs no other certificate.
pub(crate) fn target_after(target: Target, mark: Mark) -> Target
    requires within { IsWithin target.bound (plain_mark mark) }
    ensures sharper { IsSharper (Some mark) result.bound }
    ensures goes_on { IsTargetAfter target result }
{
    if target.by_marks {
        return Target {
            bound: Some(mark),
            top: target.top,
            by_marks: true,
        };
    }
    target_of(Want::any(Some(mark)))
}

/// Any match before the bound, with no cost from which on sides are passed over. `improving` hunts
/// by it for a pattern whose gaps are not certified, so only sides that stand nowhere are cut.
pub(crate) fn unlimited(bound: Option<Mark>) -> Target
    ensures { IsUnlimited bound result }
{
    Target {
        bound,
        top: u64::MAX,
        by_marks: false,
    }
}

/// The target of a hunt for any match that costs less than a number, which is its top.
/// `find_at_number_by` hunts by it.
pub(crate) fn cheaper(number: u64) -> Target
    ensures { IsCheaper number result }
{
    Target {
        bound: Some(Mark {
            cost: number,
            height: 0,
        }),
        top: number,
        by_marks: false,
    }
}
