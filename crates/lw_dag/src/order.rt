// Lists by depth.
ghost use Rattle.std.specs.Prelude.{◌≡◌, ◌≤◌, ℕ, map, length, IfOk, All};
ghost use Rattle.std.specs.List.{zip};
ghost use Rattle.std.specs.List.Sorted.{IsPermutation, IsNonDecreasingBy};
ghost use Rattle.lw_dag.specs.Ordering.{AreKeys, by_key, Sorts};

use std::alloc::{AllocError, Global};

// An entry with its depth.
#[derive(Drop)]
struct Deep<T> {
    depth: u32,
    item: T,
}

// The entries with their depths, by place.
fn with_depths<T: Drop>(
    alloc: Global,
    items: Vec<T>,
    depths: &[u32],
) -> Result<Vec<Deep<T>>, AllocError>
    ensures { IfOk result (λ deep. deep.items
        ≡ map (λ p. record { depth = p.1; item = p.0 }) (zip items.items depths.now)) }
{
    let mut deep = Vec::with_capacity(alloc, depths.len())?;
    let mut left = items.into_iter();
    for &depth in depths {
        let Some(item) = left.next() else {
            return Ok(deep);
        };
        deep.push(Deep { depth, item })?;
    }
    Ok(deep)
}

// The entries without their depths.
fn without_depths<T: Drop>(alloc: Global, deep: Vec<Deep<T>>) -> Result<Vec<T>, AllocError>
    ensures { IfOk result (λ items. items.items ≡ map (λ d. d.item) deep.items) }
{
    deep.into_iter().map(|d| d.item).collect(alloc)
}

// Sorts by depth, and leaves entries of one depth as they stand.
fn sort<T: Drop>(deep: &mut Vec<Deep<T>>) -> Result<(), AllocError>
    ensures { Sorts (λ d. d.depth) result deep.old.items deep.new.items }
{
    deep.sort_by_key(|d| d.depth)?;
    Ok(())
}

/// The entries by depth, and at one depth as they stand. Depths are 1 at least.
pub fn in_order<T: Drop>(alloc: Global, items: Vec<T>, depths: &[u32]) -> Result<Vec<T>, AllocError>
    requires same { length items.items ≡ length depths.now }
    requires least { All (λ d. 1 ≤ d) depths.now }
    ensures permutation { IfOk result (λ order. IsPermutation items.items order.items) }
    ensures rising { IfOk result (λ order. (depth : T → ℕ) → AreKeys depths.now items.items depth →
        IsNonDecreasingBy depth order.items) }
    ensures order { IfOk result (λ order. (depth : T → ℕ) → AreKeys depths.now items.items depth →
        order.items ≡ by_key depth items.items) }
{
    let mut deep = with_depths(alloc, items, depths)?;
    sort(&mut deep)?;
    without_depths(alloc, deep)
}
