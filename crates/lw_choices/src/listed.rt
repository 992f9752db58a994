// A list of matches, of which those that are alike are listed once.
ghost use Rattle.std.specs.Prelude.{◌≡◌, ◌≤◌, ◌++◌, ◌∷◌, [], IfOk, IsTrue, OnOk, length};
ghost use Rattle.lw_choices.specs.PinUses.{HasLikeRow, IsLikeRow, bucket_count, plain_uses};
ghost use Rattle.lw_choices.specs.Rows.{IsListedMore, IsNoneListed};
ghost use Rattle.lw_choices.specs.Stands.{choice_of, plain_row};

use crate::chains::Chains;
use crate::pin_uses::{BUCKETS, PinUse, are_same, bucket_of, delays_in, hash_of, list_uses};
use crate::rows::{Gate, ListedChoice, Listing, Stand};
use lw_genlib::Library;
use lw_pool::{CellId, ClassId};
use std::alloc::{AllocError, Global};

/// A list of matches, of which those that are alike are listed once.
#[derive(Drop)]
pub(crate) struct Listed<'a> {
    /// The library of the cells.
    pub lib: &'a Library,
    /// The matches.
    pub rows: Listing,
    /// The hash of each.
    pub hashes: Vec<u64>,
    /// The matches, linked by a part of their hashes.
    pub chains: Chains,
    /// The pins of the match that comes next.
    pub uses: Vec<PinUse>,
    /// The pins of one that is listed.
    pub others: Vec<PinUse>,
    /// The number of the first match at the class of the last one.
    pub first: usize,
}

/// A match that is looked for among those that are listed.
#[derive(Drop)]
struct Sought<'a> {
    lib: &'a Library,
    class: ClassId,
    cell: CellId,
    uses: &'a [PinUse],
    hash: u64,
    // the number of the first match at the class
    first: usize,
}

/// Nothing is listed yet.
pub(crate) fn none_listed(alloc: Global, lib: &Library) -> Result<Listed, AllocError>
    ensures { IfOk result (IsNoneListed lib.now) }
{
    Ok(Listed {
        lib,
        rows: Listing::new(alloc),
        hashes: Vec::new(alloc),
        chains: Chains::new(alloc, BUCKETS)?,
        uses: Vec::new(alloc),
        others: Vec::new(alloc),
        first: 0,
    })
}

/// Lists a match at a class, unless one that is alike is listed. The matches at a class come one
/// after another.
pub(crate) fn add_gate(to: &mut Listed, class: ClassId, gate: Gate) -> Result<(), AllocError>
    requires count { to.old.chains.count ≡ bucket_count }
    requires few { length gate.pins.now ≤ 16 }
    ensures { OnOk result (IsListedMore to.old to.new (choice_of class gate.entry)) }
{
    to.first = first_at(to, class);
    list_uses(&mut to.uses, delays_in(to.lib, gate.cell), gate.pins)?;
    let hash = hash_of(class, gate.cell, &to.uses);
    let sought = Sought {
        lib: to.lib,
        class,
        cell: gate.cell,
        uses: &to.uses,
        hash,
        first: to.first,
    };
    if has_like(&sought, &to.chains, &to.hashes, &to.rows, &mut to.others)? {
        return Ok(());
    }
    push_gate(to, class, gate, hash)
}

// The number of the first match at a class, if the last one is of that class. Otherwise it is the
// number of the next match.
fn first_at(to: &Listed, class: ClassId) -> usize {
    let count = to.rows.len();
    if count > 0 && to.rows.at(count - 1).class.0 == class.0 {
        return to.first;
    }
    count
}

// Whether a match that is listed is like the one that is looked for.
fn is_like(
    sought: &Sought,
    row: &ListedChoice,
    others: &mut Vec<PinUse>,
) -> Result<bool, AllocError>
    ensures { IfOk result (λ is. IsTrue is → IsLikeRow sought.now.lib.now (plain_row row.now)
        sought.now.class.0 sought.now.cell.0 (plain_uses sought.now.uses.now)) }
{
    let Stand::Gate(gate) = &row.stand else {
        return Ok(false);
    };
    if row.class.0 != sought.class.0 || gate.cell.0 != sought.cell.0 {
        return Ok(false);
    }
    list_uses(others, delays_in(sought.lib, gate.cell), gate.pins)?;
    Ok(are_same(sought.uses, others))
}

// Whether one that is like the match that is looked for is listed. Matches at other classes are not
// looked at.
fn has_like(
    sought: &Sought,
    chains: &Chains,
    hashes: &[u64],
    rows: &Listing,
    others: &mut Vec<PinUse>,
) -> Result<bool, AllocError>
    requires { chains.now.count ≡ bucket_count }
    ensures { IfOk result (λ is. IsTrue is → HasLikeRow sought.now.lib.now rows.now
        sought.now.class.0 sought.now.cell.0 (plain_uses sought.now.uses.now)) }
{
    let mut next = chains.last(bucket_of(sought.hash));
    while let Some(place) = next {
        let at = place as usize;
        if at < sought.first {
            return Ok(false);
        }
        if at < hashes.len()
            && at < rows.len()
            && hashes[at] == sought.hash
            && is_like(sought, &rows.at(at), others)?
        {
            return Ok(true);
        }
        next = chains.before(place);
    }
    Ok(false)
}

// Appends a match with its hash.
fn push_gate(to: &mut Listed, class: ClassId, gate: Gate, hash: u64) -> Result<(), AllocError>
    requires count { to.old.chains.count ≡ bucket_count }
    requires few { length gate.pins.now ≤ 16 }
    ensures count { to.new.chains.count ≡ to.old.chains.count }
    ensures lib { to.new.lib.now ≡ to.old.lib.now }
    ensures rows { OnOk result (to.new.rows ≡ to.old.rows ++ choice_of class gate.entry ∷ []) }
{
    to.chains.push(bucket_of(hash))?;
    to.hashes.push(hash)?;
    to.rows.push_gate(class, gate)?;
    Ok(())
}
