// Costs at which the gaps of all patterns may be trusted, remembered over many searches.
ghost use Rattle.std.specs.Prelude.{◌≡◌, ◌<◌, ◌≤◌, ◌≢◌, IfOk, IsTrue, ℕ, length};
ghost use Rattle.lw_cost.specs.Least.{AreOfCells};
ghost use Rattle.lw_bounds.specs.Numbers.{never};
ghost use Rattle.lw_match.specs.Queries.{AreCertifiedFor, AreKnownFor, HasPatternsOfCells};
ghost use Rattle.lw_match.specs.Cutting.{AreCertified, AreKnown, IsLikeLast, most_tops};

use crate::query::Query;
use crate::scratch::Scratch;
use lw_bounds::{Bounds, gaps_at, is_certified_by, known_of};
use lw_cost::Cost;
use lw_pattern::Patterns;
use lw_pool::PatId;
use std::alloc::{AllocError, Global};
use std::marker::Model;
use std::mem;

/// How many costs are remembered at most, besides the one up to which all are known.
const PLACES: usize = 4096;

/// Whether the pattern with the index `number` has the cell and the gaps of the one before it, so
/// that it needs no test of its own. The patterns of a cell stand together.
fn is_like_last(pats: &Patterns, gaps: &[[u64; 16]], number: u32) -> bool
    requires { number < length pats.now }
    ensures { IsTrue result → IsLikeLast pats.now gaps.now number }
{
    if number == 0 {
        return false;
    }
    let pattern = pats.get(PatId(number));
    let last = pats.get(PatId(number - 1));
    pattern.cell == last.cell && gaps_at(gaps, PatId(number)) == gaps_at(gaps, PatId(number - 1))
}

/// Whether the gaps of all patterns are certified at the cost `top`, with one test for each cell.
/// `gaps` has 16 numbers for each pattern.
fn are_certified<C: Cost>(pats: &Patterns, cost: &C, gaps: &[[u64; 16]], top: u64) -> bool
    requires { AreOfCells (C.costs cost.now).pin_counts pats.now }
    ensures { IsTrue result → AreCertified (C.costs cost.now) pats.now gaps.now top }
{
    for number in 0..pats.len() {
        if is_like_last(pats, gaps, number) {
            continue;
        }
        if !is_certified_by(pats, cost, gaps, PatId(number), top) {
            return false;
        }
    }
    true
}

/// The cost up to which the gaps of all patterns are known to be certified without a call of
/// `value`, in units of `cost`: 0 where nothing is known. `gaps` has 16 numbers for each pattern.
fn known_up_to<C: Cost>(pats: &Patterns, cost: &C, gaps: &[[u64; 16]]) -> u64
    requires { AreOfCells (C.costs cost.now).pin_counts pats.now }
    ensures { (top : ℕ) → top ≤ result → AreCertified (C.costs cost.now) pats.now gaps.now top }
{
    let mut known = u64::MAX;
    for number in 0..pats.len() {
        if is_like_last(pats, gaps, number) {
            continue;
        }
        known = known.min(known_of(pats, cost, gaps, PatId(number)));
    }
    known
}

/// The place in `tops` at which a cost is remembered. Costs that lie close together mostly have
/// different places.
fn place_of(top: u64) -> usize
    ensures { result < most_tops }
{
    (top.wrapping_mul(0x9e37_79b9_7f4a_7c15) >> 32) as usize % PLACES
}

/// Costs at which the gaps of all patterns are certified: all up to `known`, and those in `tops`.
/// There each place has the last of those that belong there, or `u64::MAX` if none was found.
#[derive(Drop)]
pub struct Tops {
    known: u64,
    tops: [u64; PLACES],
    scratch: Scratch,
}

impl Model for Tops {
    ghost use Rattle.std.specs.Prelude.{◌≡◌, length};
    ghost use Rattle.lw_match.specs.Cutting.{TopsState, most_tops};

    ghost Value = { TopsState };

    ghost view = { λ t. record { known = t.known; tops = t.tops } };

    ghost invariant = { λ t. length t.tops ≡ most_tops };
}

impl Tops {
    /// What is known of the patterns' gaps by the cost alone, without a call of `value`.
    pub fn new<C: Cost>(
        alloc: Global,
        pats: &Patterns,
        cost: &C,
        bounds: &Bounds,
    ) -> Result<Self, AllocError>
        requires { AreOfCells (C.costs cost.now).pin_counts pats.now }
        ensures { IfOk result (AreKnown (C.costs cost.now) pats.now bounds.now.gaps) }
    {
        Ok(Tops {
            known: known_up_to(pats, cost, bounds.cuts().gaps),
            tops: [u64::MAX; PLACES],
            scratch: Scratch::with_room(alloc)?,
        })
    }

    /// Lends what searches use, until it is given back.
    pub(crate) fn lent(&mut self) -> Scratch
        ensures { self.new ≡ self.old }
    {
        mem::replace(&mut self.scratch, Scratch::new())
    }

    /// Takes back what searches use.
    pub(crate) fn give_back(&mut self, scratch: Scratch)
        ensures { self.new ≡ self.old }
    {
        drop(mem::replace(&mut self.scratch, scratch));
    }

    /// Whether the gaps of all patterns are certified at the cost `top`, so that a search that
    /// passed over sides from there on missed nothing. A yes is remembered; at `u64::MAX` it says
    /// no.
    pub(crate) fn are_sure_at<C: Cost>(&mut self, query: &Query<C>, top: u64) -> bool
        requires of_cells { HasPatternsOfCells C.costs query.now }
        requires known { AreKnownFor C.costs query.now self.old }
        ensures known { AreKnownFor C.costs query.now self.new }
        ensures some { IsTrue result → top ≢ never }
        ensures sure { IsTrue result → AreCertifiedFor C.costs query.now top }
    {
        if top == u64::MAX {
            return false;
        }
        if top <= self.known {
            return true;
        }
        let place = place_of(top);
        if self.tops[place] == top {
            return true;
        }
        if !are_certified(query.site.pats, query.site.cost, query.site.cuts.gaps, top) {
            return false;
        }
        self.tops[place] = top;
        true
    }
}
