// Targets: what a match has to be before.
ghost use Rattle.std.specs.Prelude.{◌≡◌, false};
ghost use Rattle.lw_match.specs.Cutting.{IsSharper, IsTopOf};

use lw_cost::Mark;

/// What a match has to be before, none if any will do; the cost from which on no match is,
/// `u64::MAX` if none is known. If marks count, the least mark is sought and not any before the
/// bound.
#[derive(Clone, Copy)]
pub struct Target {
    pub bound: Option<Mark>,
    pub top: u64,
    pub by_marks: bool,
    ghost is_top: { IsTopOf bound top },
}

/// The bound with height 0 in place of height 1. No match has height 0, so the matches before the
/// two are alike, but `top_of` is one lower.
pub(crate) fn sharpened(bound: Option<Mark>) -> Option<Mark>
    ensures { IsSharper bound result }
{
    let mark = bound?;
    let height = if mark.height == 1 { 0 } else { mark.height };
    Some(Mark {
        cost: mark.cost,
        height,
    })
}

/// The cost from which on no match is before a bound: its own if its height is 0, and else one
/// more; `u64::MAX` if there is no bound.
pub(crate) fn top_of(bound: Option<Mark>) -> u64
    ensures { IsTopOf bound result }
{
    match bound {
        None => u64::MAX,
        Some(mark) if mark.height == 0 => mark.cost,
        Some(mark) => mark.cost.saturating_add(1),
    }
}

/// The target of a hunt for any match before a bound, as the bound stands. `find_first` hunts by
/// it.
pub(crate) fn before(bound: Option<Mark>) -> Target
    ensures bound { result.bound ≡ bound }
    ensures by_marks { result.by_marks ≡ false }
{
    Target {
        bound,
        top: top_of(bound),
        by_marks: false,
    }
}
