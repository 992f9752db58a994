// The listed forms by their numbers in the list.
ghost use Rattle.std.specs.Prelude.{◌≡◌, ◌/◌, ◌^◌, ◌<◌, ◌≤◌, ℕ, List, Some, slice_get, map, length};
ghost use Rattle.std.specs.Prelude.{IfOk};
ghost use Rattle.lw_laws.specs.Numbering.{numbered_base};
ghost use Rattle.lw_form.specs.Bases.{plain_base};
ghost use Rattle.lw_form.specs.Limits.{most_operands};
ghost use Rattle.lw_form.specs.Listed.{place_of, bases_of, IsListed};
ghost use Rattle.lw_form.specs.Renumbered.{renumber, ArePlaced, IsBaseOf, AreOfListing};
ghost use Rattle.lw_form.specs.Tables.{made, spelled, AreBelow};

use crate::listing::Listing;
use crate::table::FormTable;
use crate::{Base, FormIds};
use indexmap::IndexSet;
use lw_pool::FormId;
use std::alloc::{AllocError, Global};

// The number in the list of a form of the table.
fn renumbered(listing: &Listing, form: u32) -> u32
    requires { place_of listing.now.places.items (form / 2) < 2 ^ 31 }
    ensures { result ≡ renumber listing.now.places.items form }
{
    2 * listing.place(form / 2) + form % 2
}

// The numbers of some operands.
fn renumbered_ids(alloc: Global, listing: &Listing, ids: &[u32]) -> FormIds
    requires few { length ids.now ≤ most_operands }
    requires placed { ArePlaced listing.now.places.items ids.now }
    ensures { result ≡ map (renumber listing.now.places.items) ids.now }
{
    let mut numbers = FormIds::new(alloc);
    for place in 0..ids.len() {
        numbers.push(FormId(renumbered(listing, ids[place])));
    }
    numbers
}

// The numbers of some forms.
pub(crate) fn renumbered_all(
    alloc: Global,
    listing: &Listing,
    forms: &[u32],
) -> Result<Vec<u32>, AllocError>
    requires { ArePlaced listing.now.places.items forms.now }
    ensures { IfOk result (λ numbers. numbers.items
        ≡ map (renumber listing.now.places.items) forms.now) }
{
    let mut numbers = Vec::with_capacity(alloc, forms.len())?;
    for place in 0..forms.len() {
        numbers.push(renumbered(listing, forms[place]))?;
    }
    Ok(numbers)
}

// The base form at a place of the table.
fn base_of(alloc: Global, table: &FormTable, listing: &Listing, b: u32) -> Base
    requires within { b < length (made table.now) }
    requires placed { (ids : List ℕ) →
        slice_get (made table.now) b ≡ Some (spelled (made table.now) ids) →
        AreBelow (length (made table.now)) ids → ArePlaced listing.now.places.items ids }
    ensures { IsBaseOf (made table.now) listing.now.places.items b (plain_base result) }
{
    match table.operands(b) {
        Some(ids) => Base::And(renumbered_ids(alloc, listing, ids.as_slice())),
        None => {
            if b == 0 {
                Base::True
            } else {
                Base::Input(b - 1)
            }
        }
    }
}

// The listed base forms.
pub(crate) fn numbered_bases(
    alloc: Global,
    table: &FormTable,
    listing: &Listing,
) -> Result<IndexSet<Base>, AllocError>
    requires listed { IsListed (made table.now) listing.now.listed.items listing.now.places.items }
    requires listing { AreOfListing (made table.now) listing.now.listed.items }
    ensures { IfOk result (λ bases. map plain_base bases.keys
        ≡ map (numbered_base (bases_of (made table.now) listing.now.listed.items))
        (bases_of (made table.now) listing.now.listed.items)) }
{
    let _count = table.len();
    let mut bases = IndexSet::with_capacity(alloc, listing.listed.len())?;
    for place in 0..listing.listed.len() {
        bases.insert(base_of(alloc, table, listing, listing.listed[place]))?;
    }
    Ok(bases)
}
