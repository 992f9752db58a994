// An index of the pairs of all classes, and the class that holds a pair, by the index or without
// it.
ghost use Rattle.std.specs.Prelude.{◌≡◌, ◌↔◌, ◌++◌, ℕ, [], map, Contains, slice_index_or};
ghost use Rattle.std.specs.Prelude.{MatchOption, IsTrue, OnOk};
ghost use Rattle.std.specs.List.Sorted.{IsNonDecreasingBy};
ghost use Rattle.lw_facts.specs.Sorting.{AreSortedFrom};
ghost use Rattle.lw_pool.specs.declared.id.ClassId.{ClassId};
ghost use Rattle.lw_graph.specs.Index.{IsIndex, entry_key, entry_of, pair_key};
ghost use Rattle.lw_graph.specs.Rows.{rows_from};
ghost use Rattle.lw_graph.specs.declared.index.Entry.{Entry};

use crate::Pair;
use crate::parts::Parts;
use lw_pool::ClassId;
use std::alloc::AllocError;

// A pair, with the class that holds it.
#[derive(Clone, Copy)]
pub(crate) struct Entry {
    pair: Pair,
    class: ClassId,
}

// The two classes of a pair as one number.
fn key(pair: Pair) -> u64
    ensures { result ≡ pair_key pair }
{
    pair.x.0 as u64 * 0x1_0000_0000 + pair.y.0 as u64
}

// Adds the pairs of a class.
fn add_row(entries: &mut Vec<Entry>, class: ClassId, row: &[Pair]) -> Result<(), AllocError>
    ensures { OnOk result (entries.new.items ≡ entries.old.items ++ map (entry_of class) row.now) }
{
    for pair in row {
        entries.push(Entry { pair: *pair, class })?;
    }
    Ok(())
}

// Sorts entries by their pairs.
fn sort(entries: &mut Vec<Entry>)
    ensures { AreSortedFrom entry_key entries.old.items entries.new.items }
{
    entries.sort_unstable_by_key(|entry| key(entry.pair));
}

// Fills an index with the pairs of all classes.
pub(crate) fn fill(entries: &mut Vec<Entry>, parts: &Parts) -> Result<(), AllocError>
    ensures { OnOk result
        (IsIndex (rows_from parts.now.pairs.now.items 0 parts.now.ends.now) entries.new.items) }
{
    entries.clear();
    entries.reserve(parts.pairs.len() as usize)?;
    for class in 0..parts.ends.len() {
        add_row(entries, ClassId(class as u32), parts.row(class))?;
    }
    sort(entries);
    Ok(())
}

// The class that holds a pair, by an index.
pub(crate) fn found(entries: &[Entry], pair: Pair) -> Option<ClassId>
    requires { IsNonDecreasingBy entry_key entries.now }
    ensures { MatchOption result ((c : ClassId) → Contains entries.now (entry_of c pair) → ⊥)
        (λ c. Contains entries.now (entry_of c pair)) }
{
    let wanted = key(pair);
    let place = entries.partition_point(|entry| key(entry.pair) < wanted);
    if place >= entries.len() {
        return None;
    }
    let entry = entries[place];
    if entry.pair.x.0 != pair.x.0 || entry.pair.y.0 != pair.y.0 {
        return None;
    }
    Some(entry.class)
}

// Whether a pair is among some.
fn is_among(row: &[Pair], pair: Pair) -> bool
    ensures { IsTrue result ↔ Contains row.now pair }
{
    for at in row {
        if at.x.0 == pair.x.0 && at.y.0 == pair.y.0 {
            return true;
        }
    }
    false
}

// The class that holds a pair, by a look at each class.
pub(crate) fn sought(parts: &Parts, pair: Pair) -> Option<ClassId>
    ensures { let rows = rows_from parts.now.pairs.now.items 0 parts.now.ends.now in
        MatchOption result ((c : ℕ) → Contains (slice_index_or rows c []) pair → ⊥)
        (λ c. Contains (slice_index_or rows c.0 []) pair) }
{
    for class in 0..parts.ends.len() {
        if is_among(parts.row(class), pair) {
            return Some(ClassId(class as u32));
        }
    }
    None
}
