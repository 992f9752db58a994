// Names that are found by their order, with their places. Nothing hangs on which names these are:
// they are those that chains would be long with.
ghost use Rattle.std.specs.Prelude.{◌≡◌, ◌≤◌, true, length, Some};
ghost use Rattle.lw_named_netlist.specs.Chains.{FindsSome, KeepsOthers, apart_at};

use crate::SpelledNames;
use std::alloc::{AllocError, Global};
use std::collections::BTreeMap;

/// The places of names, by the bytes of the names.
pub(crate) type Apart = BTreeMap<Vec<u8>, u32>;

/// Whether a name is set apart at a place.
pub(crate) fn is_apart(apart: &Apart, name: &[u8], place: usize) -> bool
    ensures { result ≡ true → apart_at apart.now.entries name.now ≡ Some place }
{
    match apart.get(name) {
        Some(own) => *own as usize == place,
        None => false,
    }
}

/// The place at which a name is set apart, among the first so many.
pub(crate) fn place_apart(
    names: &SpelledNames,
    count: usize,
    apart: &Apart,
    name: &[u8],
) -> Option<usize>
    requires { count ≤ length names.now }
    ensures { FindsSome names.now count (λ k. apart_at apart.now.entries name.now ≡ Some k) name.now
        result }
{
    let Some(own) = apart.get(name) else {
        return None;
    };
    let place = *own as usize;
    if place >= count {
        return None;
    }
    if names.get(place) == name {
        return Some(place);
    }
    None
}

/// Sets a name apart.
pub(crate) fn set_apart(
    alloc: Global,
    apart: &mut Apart,
    name: &[u8],
    place: u32,
) -> Result<(), AllocError>
    ensures { KeepsOthers name.now apart.old.entries apart.new.entries }
{
    let key = Vec::from_slice(alloc, name)?;
    // The place that the name had is not asked.
    let _before = apart.insert(key, place)?;
    Ok(())
}
