// Rounds that unify forms, until one changes nothing.
ghost use Rattle.std.specs.Prelude.{◌≡◌, ◌^◌, ◌<◌, length, map, All, IfOk, OnOk};
ghost use Rattle.lw_facts.specs.Sorting.{AreSortedFrom};
ghost use Rattle.lw_reduce.specs.Representatives.{LinkAgrees, Represent, Unifies};
ghost use Rattle.lw_reduce.specs.Settling.{AgreesAll, AgreesAt, AreSettledFrom, CanUnifyAt};
ghost use Rattle.lw_reduce.specs.Settling.{HaveCanonical, IsRoundOutcome, TellsSettled, fact_key};
ghost use Rattle.lw_reduce.specs.Settling.{canonical_fact};

use crate::distinct_operands::have_distinct_operands;
use crate::facts::{Fact, Facts};
use crate::known_facts::{KnownFact, KnownFacts};
use crate::propagate::propagate;
use crate::representatives::{flatten, rep_of, unify};
use std::alloc::{AllocError, Global};

// What a round gives: the canonical facts sorted by their operands, and whether the round unified
// some forms.
#[derive(Drop)]
struct RoundOutcome {
    canonical: Vec<Fact>,
    changed: bool,
}

// Unifies linked forms, and says whether some had two representatives.
fn unify_linked(reps: &mut [u32], facts: &Facts) -> bool
    requires { Represent facts.now reps.old }
    ensures { Unifies facts.now reps.old reps.new result
        (All (LinkAgrees reps.old) facts.now.links.now) }
{
    let mut changed = false;
    for link in facts.links {
        if unify(reps, facts, link.left, link.right) {
            changed = true;
        }
    }
    changed
}

/// A fact over representatives, the lower operand first.
pub(crate) fn canonical_fact(known: &KnownFact) -> Fact
    ensures { result ≡ canonical_fact known.now.reps.now known.now.fact }
{
    let KnownFact { reps, fact } = *known;
    let left = rep_of(reps, fact.left);
    let right = rep_of(reps, fact.right);
    Fact {
        form: rep_of(reps, fact.form),
        left: left.min(right),
        right: left.max(right),
    }
}

// The canonical forms of all facts.
fn canonical_facts(alloc: Global, facts: &KnownFacts) -> Result<Vec<Fact>, AllocError>
    ensures { IfOk result (λ canonical.
        canonical.items ≡ map (canonical_fact facts.now.reps.now) facts.now.nands.now) }
{
    let mut canonical = Vec::with_capacity(alloc, facts.nands.len())?;
    let reps = facts.reps;
    for fact in facts.nands {
        let known = KnownFact { reps, fact: *fact };
        canonical.push(canonical_fact(&known))?;
    }
    Ok(canonical)
}

// Sorts facts by their operands.
fn sort_by_operands(canonical: &mut Vec<Fact>)
    ensures { AreSortedFrom fact_key canonical.old.items canonical.new.items }
{
    canonical.sort_unstable_by_key(|fact| fact.left as u64 * 0x1_0000_0000 + fact.right as u64);
}

// The canonical facts, sorted by their operands.
fn sorted_facts(alloc: Global, facts: &KnownFacts) -> Result<Vec<Fact>, AllocError>
    ensures { IfOk result (λ canonical. AreSortedFrom fact_key
        (map (canonical_fact facts.now.reps.now) facts.now.nands.now) canonical.items) }
{
    let mut canonical = canonical_facts(alloc, facts)?;
    sort_by_operands(&mut canonical);
    Ok(canonical)
}

// Unifies the form of the fact at an index with that of the fact before it, where their operands
// are the same.
fn unify_at(reps: &mut [u32], facts: &Facts, canonical: &[Fact], place: usize) -> bool
    requires { CanUnifyAt facts.now reps.old canonical.now place }
    ensures { Unifies facts.now reps.old reps.new result (AgreesAt reps.old canonical.now place) }
{
    let first = canonical[place - 1];
    let second = canonical[place];
    if first.left != second.left || first.right != second.right {
        return false;
    }
    unify(reps, facts, first.form, second.form)
}

// Unifies forms with the same operands, and says whether some had two representatives.
fn unify_equal(reps: &mut [u32], facts: &Facts, canonical: &[Fact]) -> bool
    requires { HaveCanonical facts.now reps.old canonical.now }
    ensures { Unifies facts.now reps.old reps.new result (AgreesAll reps.old canonical.now) }
{
    let mut changed = false;
    for place in 1..canonical.len() {
        if unify_at(reps, facts, canonical, place) {
            changed = true;
        }
    }
    changed
}

// One round over links and facts.
fn run_round(alloc: Global, reps: &mut [u32], facts: &Facts) -> Result<RoundOutcome, AllocError>
    requires { Represent facts.now reps.old }
    ensures { IfOk result (IsRoundOutcome facts.now reps.old reps.new) }
{
    flatten(reps, facts);
    let linked = unify_linked(reps, facts);
    let nands = facts.nands;
    let canonical = sorted_facts(alloc, &KnownFacts { reps, nands })?;
    let equal = unify_equal(reps, facts, &canonical);
    Ok(RoundOutcome {
        canonical,
        changed: linked || equal,
    })
}

// Flattens the representatives and says whether they are settled without sorting the facts: linked
// forms have one representative, and all facts have different operands.
fn are_settled(alloc: Global, reps: &mut [u32], facts: &Facts) -> Result<bool, AllocError>
    requires { Represent facts.now reps.old }
    ensures { IfOk result (TellsSettled facts.now reps.old reps.new) }
{
    flatten(reps, facts);
    if unify_linked(reps, facts) {
        return Ok(false);
    }
    let nands = facts.nands;
    let own = have_distinct_operands(alloc, &KnownFacts { reps, nands })?;
    Ok(own)
}

/// Runs rounds until one unifies nothing: the congruence closure.
pub(crate) fn settle(alloc: Global, reps: &mut [u32], facts: &Facts) -> Result<(), AllocError>
    requires valid { Represent facts.now reps.old }
    requires few { length reps.old < 2 ^ 31 }
    ensures { OnOk result (AreSettledFrom facts.now reps.old reps.new) }
{
    let _linked = unify_linked(reps, facts);
    if are_settled(alloc, reps, facts)? {
        return Ok(());
    }
    'rounds: loop {
        let outcome = run_round(alloc, reps, facts)?;
        if !outcome.changed {
            return Ok(());
        }
        propagate(alloc, reps, facts, &outcome.canonical)?;
    }
}
