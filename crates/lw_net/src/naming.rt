// Names, and their numbers.
ghost use Rattle.std.specs.Prelude.{◌≡◌, ◌<◌, ◌++◌, length, map, All, IfOk, IsTrue, ◌↔◌};
ghost use Rattle.std.specs.List.{IsDistinct};
ghost use Rattle.std.specs.Str.{bytes_eq};
ghost use Rattle.lw_net.specs.Closing.{out_of};
ghost use Rattle.lw_net.specs.Written.{name_at, names_in, IsLonger};

use crate::DraftNodes;
use indexmap::IndexSet;
use lw_pool::{Name, Names};
use std::alloc::{AllocError, Global};

// The number of a name: that which it has, or the next.
#[tactic(auto, using(crate::proofs::Writing::longer_insert, crate::proofs::Writing::longer_same))]
pub(crate) fn number(names: &mut IndexSet<Name>, name: Name) -> Result<u32, AllocError>
    ensures longer { IsLonger names.old.keys names.new.keys }
    ensures within { IfOk result (λ n. n < length names.new.keys) }
    ensures named { IfOk result (λ n. name_at names.new.keys n ≡ name) }
{
    let (place, _) = names.insert_full(name)?;
    let Ok(number) = u32::try_from(place) else {
        return Err(AllocError);
    };
    Ok(number)
}

// The numbers of some names.
pub(crate) fn numbers(
    alloc: Global,
    names: &mut IndexSet<Name>,
    list: Names,
) -> Result<Vec<u32>, AllocError>
    ensures longer { IsLonger names.old.keys names.new.keys }
    ensures within { IfOk result (λ ns. All (λ n. n < length names.new.keys) ns.items) }
    ensures named { IfOk result (λ ns. names_in names.new.keys ns.items ≡ list) }
{
    let mut numbers = Vec::with_capacity(alloc, list.len())?;
    let mut left = list.into_vec().into_iter();
    'names: while let Some(name) = left.next() {
        numbers.push(number(names, name)?)?;
    }
    Ok(numbers)
}

// Copies the names of inputs and then those that the nodes drive.
pub(crate) fn signals(
    alloc: Global,
    inputs: &[Name],
    nodes: &DraftNodes,
) -> Result<Vec<Name>, AllocError>
    ensures { IfOk result (λ names. names.items ≡ inputs.now ++ map out_of nodes.now) }
{
    let mut names = Vec::with_capacity(alloc, inputs.len().saturating_add(nodes.len()))?;
    for name in inputs {
        names.push(Name::from_slice(alloc, name.as_bytes())?)?;
    }
    for j in 0..nodes.len() {
        names.push(Name::from_slice(alloc, nodes.out(j).as_bytes())?)?;
    }
    Ok(names)
}

// Whether names differ.
pub(crate) fn differ(alloc: Global, names: &[Name]) -> Result<bool, AllocError>
    ensures { IfOk result (λ b. IsTrue b ↔ IsDistinct bytes_eq names.now) }
{
    let mut set = IndexSet::new(alloc);
    let differ = are_new(alloc, &mut set, names);
    drop(set);
    differ
}

// Adds names to a set, up to the first that is there already. Whether all were new.
fn are_new(alloc: Global, set: &mut IndexSet<Name>, names: &[Name]) -> Result<bool, AllocError>
    ensures { IfOk result (λ b. IsTrue b ↔ IsDistinct bytes_eq (set.old.keys ++ names.now)) }
{
    for name in names {
        let copy = Name::from_slice(alloc, name.as_bytes())?;
        let fresh = set.insert(copy)?;
        if !fresh {
            return Ok(false);
        }
    }
    let _count = set.len();
    Ok(true)
}
