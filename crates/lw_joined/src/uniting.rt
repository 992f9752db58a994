// The network of all nodes.
ghost use Rattle.std.specs.Prelude.{◌≡◌, ◌≤◌, ◌++◌, ◌∷◌, [], ℕ, List, length, All, IfOk, IfSome};
ghost use Rattle.lw_net.specs.Networks.{NetworkParts};
ghost use Rattle.lw_net.specs.Unions.{ArePlacesIn, joined_to};
ghost use Rattle.lw_joined.specs.Unions.{FitsOther, IsUnion, IsUnionOf};
ghost use Rattle.lw_joined.specs.Unions.{end_of, first_of, own_places, with_taken};

use lw_net::Network;
use std::alloc::{AllocError, Global};

/// A network over inputs of another: which of these each of its inputs is.
#[derive(Clone, Copy)]
pub struct Other<'a> {
    pub net: &'a Network,
    pub places: &'a [u32],
}

/// A network with the nodes of several, and how many nets there are behind each.
#[derive(Drop)]
pub(crate) struct Union {
    pub(crate) net: Network,
    pub(crate) ends: Vec<u32>,
}

// The most signals of a network.
const MOST_SIGNALS: u32 = 262_144;

// Each input at its own place.
fn own_places(alloc: Global, inputs: u32) -> Result<Vec<u32>, AllocError>
    ensures { IfOk result (λ places. places.items ≡ own_places inputs) }
{
    let mut places = Vec::new(alloc);
    for place in 0..inputs {
        places.push(place)?;
    }
    Ok(places)
}

// A union with one network more, or none where there are too many signals.
fn with_other(
    union: Union,
    alloc: Global,
    net: &Network,
    places: &[u32],
) -> Result<Option<Union>, AllocError>
    requires { ArePlacesIn union.net.inputs net.now places.now }
    ensures { IfOk result (IsUnionOf (joined_to union.net net.now places.now)
        (union.ends.items ++ length (joined_to union.net net.now places.now).names ∷ [])) }
{
    let signals = union.net.nets() + (net.nets() - net.inputs());
    if signals > MOST_SIGNALS {
        drop(union);
        return Ok(None);
    }
    let Union {
        net: before,
        mut ends,
    } = union;
    let joined = before.joined(alloc, net, places)?;
    ends.push(joined.nets())?;
    Ok(Some(Union { net: joined, ends }))
}

// The union of a network alone.
fn first_union(alloc: Global, net: &Network) -> Result<Option<Union>, AllocError>
    ensures { IfOk result (IsUnionOf (first_of net.now) (length (first_of net.now).names ∷ [])) }
{
    let places = own_places(alloc, net.inputs())?;
    let bare = Network::bare(alloc, net)?;
    let ends = Vec::new(alloc);
    with_other(Union { net: bare, ends }, alloc, net, &places)
}

// A union with another network where that is taken.
fn with_taken(
    union: Option<Union>,
    alloc: Global,
    other: &Other,
    taken: bool,
) -> Result<Option<Union>, AllocError>
    requires { IfSome union (λ u. FitsOther u.net other.now) }
    ensures { (net : NetworkParts) (ends : List ℕ) → IsUnionOf net ends union →
        IfOk result (IsUnionOf (with_taken net other.now taken)
        (ends ++ end_of (with_taken net other.now taken) taken)) }
{
    if !taken {
        return Ok(union);
    }
    match union {
        Some(union) => with_other(union, alloc, other.net, other.places),
        None => Ok(None),
    }
}

/// The union of a network and of those others that are taken, or none where there are too many
/// signals. Behind the end of `taken` none is.
pub(crate) fn union_of(
    alloc: Global,
    net: &Network,
    others: &[Other],
    taken: &[bool],
) -> Result<Option<Union>, AllocError>
    requires others { All (FitsOther net.now) others.now }
    requires few { length taken.now ≤ length others.now }
    ensures { IfOk result (IsUnion net.now others.now taken.now) }
{
    let mut union = first_union(alloc, net)?;
    for k in 0..taken.len() {
        union = with_taken(union, alloc, &others[k], taken[k])?;
    }
    Ok(union)
}
