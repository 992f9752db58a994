// Passes over the facts whose operands have new representatives, with a hash table of facts by the
// representatives of their operands.
ghost use Rattle.std.specs.Prelude.{◌<◌, ◌≤◌, ◌≡◌, length, slice_index_or, All, IfOk, IfSome};
ghost use Rattle.lw_reduce.specs.Representatives.{CanFindOperands, ComparesOperands, FindsOperands};
ghost use Rattle.lw_reduce.specs.Representatives.{StillRepresent};
ghost use Rattle.lw_reduce.specs.Lookups.{AreFreeSlots, CanInsert, CanVisit, CanVisitAll};
ghost use Rattle.lw_reduce.specs.Lookups.{HaveSlots, KeepSlots, LooksUp, StandAt, entry_fact};
ghost use Rattle.lw_reduce.specs.Settling.{HaveCanonical};

use crate::facts::{Fact, Facts};
use crate::known_facts::KnownFact;
use crate::representatives::{find, rep_of, unify};
use std::alloc::{AllocError, Global};

// The representatives of a fact's two operands, the lower one first.
#[derive(Clone, Copy)]
struct Operands {
    low: u32,
    high: u32,
}

// What the table has for these operands.
enum Lookup {
    // The form of a fact with these operands.
    Form(u32),
    // The first free slot.
    Free(usize),
    // No slot is free.
    Full,
}

// The roots of a fact's operands.
fn operands_of(reps: &mut [u32], facts: &Facts, fact: Fact) -> Operands
    requires { CanFindOperands facts.now reps.old fact }
    ensures { FindsOperands facts.now reps.old reps.new fact result.low result.high }
{
    let left = find(reps, facts, fact.left);
    let right = find(reps, facts, fact.right);
    Operands {
        low: left.min(right),
        high: left.max(right),
    }
}

// Whether a fact's operands have these roots.
fn has_operands(reps: &mut [u32], facts: &Facts, fact: Fact, operands: Operands) -> bool
    requires { CanFindOperands facts.now reps.old fact }
    ensures { ComparesOperands facts.now reps.old reps.new fact operands.low operands.high result }
{
    let own = operands_of(reps, facts, fact);
    own.low == operands.low && own.high == operands.high
}

// The slot where the search for these operands starts, up to the last slot.
#[tactic(auto, using(std::proofs::lemmas::Nat::and_le_r))]
fn slot_of(operands: Operands, last: usize) -> usize
    ensures { result ≤ last }
{
    let key = ((operands.low as u64) << 32) | operands.high as u64;
    let mixed = key.wrapping_mul(0x9E37_79B9_7F4A_7C15) >> 32;
    mixed as usize & last
}

// The slot after this one; after the last comes the first.
#[tactic(auto, using(std::proofs::lemmas::Nat::and_le_r))]
fn next_slot(slot: usize, last: usize) -> usize
    ensures { result ≤ last }
{
    slot.wrapping_add(1) & last
}

// The fact of a slot, where it has one.
fn fact_in(facts: &Facts, slots: &[u32], slot: usize) -> Option<Fact>
    requires places { All (λ e. e ≤ length facts.now.nands.now) slots.now }
    requires within { slot < length slots.now }
    ensures { result ≡ entry_fact facts.now.nands.now (slice_index_or slots.now slot 0) }
{
    let entry = slots[slot];
    if entry == 0 {
        return None;
    }
    Some(facts.nands[entry as usize - 1])
}

// Looks up a fact with these operands.
fn look_up(reps: &mut [u32], facts: &Facts, slots: &[u32], operands: Operands) -> Lookup
    requires { HaveSlots facts.now reps.old slots.now }
    ensures { LooksUp facts.now reps.old reps.new slots.now operands result }
{
    let last = slots.len() - 1;
    let mut slot = slot_of(operands, last);
    for _step in 0..slots.len() {
        let Some(fact) = fact_in(facts, slots, slot) else {
            return Lookup::Free(slot);
        };
        if has_operands(reps, facts, fact, operands) {
            return Lookup::Form(fact.form);
        }
        slot = next_slot(slot, last);
    }
    Lookup::Full
}

// Whether a fact's operands are their own representatives.
fn has_root_operands(known: &KnownFact) -> bool {
    let KnownFact { reps, fact } = *known;
    rep_of(reps, fact.left) == fact.left && rep_of(reps, fact.right) == fact.right
}

// Where these operands stand among canonical facts that are sorted by their operands.
fn find_canonical(canonical: &[Fact], operands: Operands) -> Option<usize>
    ensures { IfSome result (StandAt canonical.now operands) }
{
    let place = canonical.partition_point(|found| {
        found.left < operands.low || (found.left == operands.low && found.right < operands.high)
    });
    if place >= canonical.len() {
        return None;
    }
    let found = canonical[place];
    if found.left != operands.low || found.right != operands.high {
        return None;
    }
    Some(place)
}

// Inserts a fact into the table, or unifies its form with that of a fact there with the same
// operands.
fn insert_fact(reps: &mut [u32], facts: &Facts, slots: &mut [u32], place: usize, operands: Operands)
    requires { CanInsert facts.now reps.old slots.old place operands }
    ensures { KeepSlots facts.now reps.old reps.new slots.old slots.new }
{
    let fact = facts.nands[place];
    match look_up(reps, facts, slots, operands) {
        Lookup::Form(form) => {
            let _changed = unify(reps, facts, fact.form, form);
        }
        Lookup::Free(slot) => slots[slot] = place as u32 + 1,
        Lookup::Full => {}
    }
}

// Unifies the form of a fact, whose operands have new representatives, with that of a fact with the
// same operands.
fn visit(reps: &mut [u32], facts: &Facts, canonical: &[Fact], slots: &mut [u32], place: usize)
    requires { CanVisit facts.now reps.old slots.old canonical.now place }
    ensures { KeepSlots facts.now reps.old reps.new slots.old slots.new }
{
    let fact = facts.nands[place];
    let known = KnownFact { reps, fact };
    if has_root_operands(&known) {
        return;
    }
    let operands = operands_of(reps, facts, fact);
    if let Some(found) = find_canonical(canonical, operands) {
        let _changed = unify(reps, facts, fact.form, canonical[found].form);
        return;
    }
    insert_fact(reps, facts, slots, place, operands);
}

// Visits all facts in their order, and then in reverse.
fn visit_all(reps: &mut [u32], facts: &Facts, canonical: &[Fact], slots: &mut [u32])
    requires { CanVisitAll facts.now reps.old slots.old canonical.now }
    ensures { StillRepresent facts.now reps.old reps.new }
{
    let count = facts.nands.len();
    for step in 0..count {
        visit(reps, facts, canonical, slots, step);
    }
    for step in 0..count {
        visit(reps, facts, canonical, slots, count - 1 - step);
    }
}

// How many slots the table of this many facts has: a power of two, at least twice as many.
fn slot_count(facts: usize) -> usize
    ensures { 0 < result }
{
    let mut slots: usize = 2;
    for _bit in 1..40u32 {
        if slots / 2 < facts {
            slots = slots.saturating_mul(2);
        }
    }
    slots
}

// A table without facts.
fn empty_slots(alloc: Global, facts: usize) -> Result<Vec<u32>, AllocError>
    ensures { IfOk result (λ slots. AreFreeSlots slots.items) }
{
    let slots = vec![in alloc; 0; slot_count(facts)]?;
    Ok(slots)
}

/// Unifies forms along chains of facts: where a round gave operands new representatives, the forms
/// of their facts may become equivalent in turn. The first pass goes in the order of the facts, so
/// that where operands come before their forms one pass carries a whole chain; the second goes in
/// reverse.
pub(crate) fn propagate(
    alloc: Global,
    reps: &mut [u32],
    facts: &Facts,
    canonical: &[Fact],
) -> Result<(), AllocError>
    requires { HaveCanonical facts.now reps.old canonical.now }
    ensures { StillRepresent facts.now reps.old reps.new }
{
    if facts.nands.len() > 0xFFFF_FFFF {
        return Ok(());
    }
    let mut slots = empty_slots(alloc, facts.nands.len())?;
    visit_all(reps, facts, canonical, &mut slots);
    Ok(())
}
