// Sorts the pairs of each class and drops repeats.
ghost use Rattle.std.specs.Prelude.{◌≡◌, ◌+◌, ◌-◌, ◌^◌, ◌<◌, ◌++◌, [], length, slice_index, IfOk};
ghost use Rattle.std.specs.Prelude.{OnOk};
ghost use Rattle.std.specs.List.{slice_range};
ghost use Rattle.lw_facts.specs.Sorting.{AreSortedFrom};
ghost use Rattle.lw_graph.specs.Index.{pair_key};
ghost use Rattle.lw_graph.specs.Rows.{AreEnds, start_at};
ghost use Rattle.lw_reduce.specs.Rows.{HasRowMore, AreSortedRows, IsFilledRow};

use lw_graph::Pair;
use lw_pool::{Numbers, PairId, Pool};
use std::alloc::{AllocError, Global};

// Sorts pairs by their classes.
fn sort_pairs(row: &mut Vec<Pair>)
    ensures { AreSortedFrom pair_key row.old.items row.new.items }
{
    row.sort_unstable_by_key(|pair| pair.x.0 as u64 * 0x1_0000_0000 + pair.y.0 as u64);
}

// Fills a row with the pairs of a class, sorted and without repeats.
fn fill_row(row: &mut Vec<Pair>, pairs: &[Pair]) -> Result<(), AllocError>
    ensures { OnOk result (IsFilledRow pairs.now row.new.items) }
{
    row.clear();
    row.extend_from_slice(pairs)?;
    sort_pairs(row);
    row.dedup();
    Ok(())
}

// The pairs of a class, as they stand in the array: they start where those of the class before it
// end.
fn pairs_at<'a>(pairs: &'a [Pair], ends: &[u32], class: usize) -> &'a [Pair]
    requires ends { AreEnds (length pairs.now) 0 ends.now }
    requires within { class < length ends.now }
    ensures pairs { result.now ≡ slice_range pairs.now (start_at 0 ends.now class)
        (slice_index ends.now class) }
    ensures size { start_at 0 ends.now class + length result.now ≡ slice_index ends.now class }
{
    let start = if class == 0 {
        0
    } else {
        ends[class - 1] as usize
    };
    &pairs[start..ends[class] as usize]
}

/// The pairs of all classes, sorted within each class, and where those of each class end.
#[derive(Drop)]
pub(crate) struct Rows {
    pub(crate) pairs: Pool<PairId, Pair>,
    pub(crate) ends: Numbers,
}

// Appends pairs to a pool.
fn append(pool: &mut Pool<PairId, Pair>, row: &[Pair]) -> Result<(), AllocError>
    requires { length pool.old.items + length row.now < 2 ^ 32 - 1 }
    ensures { OnOk result (pool.new.items ≡ pool.old.items ++ row.now) }
{
    for pair in row {
        if pool.push(*pair).is_err() {
            return Err(AllocError);
        }
    }
    Ok(())
}

// Appends the row of the next class.
fn add_row(rows: &mut Rows, row: &[Pair]) -> Result<(), AllocError>
    requires ends { AreEnds (length rows.old.pairs.items) 0 rows.old.ends }
    requires few { length rows.old.pairs.items + length row.now < 2 ^ 32 - 1 }
    ensures { OnOk result (HasRowMore rows.old.pairs.items rows.old.ends row.now
        rows.new.pairs.items rows.new.ends) }
{
    append(&mut rows.pairs, row)?;
    rows.ends.push(rows.pairs.len())?;
    Ok(())
}

// No rows, with room for this many pairs.
fn no_rows(alloc: Global, pairs: usize) -> Result<Rows, AllocError>
    ensures { IfOk result (λ r. (r.pairs.items ≡ []) × (r.ends ≡ [])) }
{
    let mut pool = Pool::new(alloc);
    pool.reserve(pairs)?;
    Ok(Rows {
        pairs: pool,
        ends: Numbers::empty(alloc),
    })
}

/// The pairs of each class, sorted and without repeats.
pub(crate) fn sorted_rows(alloc: Global, pairs: &[Pair], ends: &[u32]) -> Result<Rows, AllocError>
    requires ends { AreEnds (length pairs.now) 0 ends.now }
    requires few { length pairs.now < 2 ^ 32 - 1 }
    ensures { IfOk result (λ r. AreSortedRows pairs.now ends.now r.pairs.items r.ends) }
{
    let mut rows = no_rows(alloc, pairs.len())?;
    let mut row = Vec::new(alloc);
    for class in 0..ends.len() {
        fill_row(&mut row, pairs_at(pairs, ends, class))?;
        add_row(&mut rows, &row)?;
    }
    Ok(rows)
}
