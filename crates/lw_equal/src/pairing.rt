// The nets of both sides at each point.
ghost use Rattle.std.specs.Prelude.{List, ℕ, Contains, IfOk, OnOk};
ghost use Rattle.lw_equal.specs.Known.{IsKnown};
ghost use Rattle.lw_equal.specs.Pairs.{AreAllPairs, Covers, Grows};

use crate::known::Known;
use crate::{Kind, Point, PortKind};
use lw_pool::{Name, NetId};
use std::alloc::{AllocError, Global};

// A point at which both sides have a net, and both nets.
#[derive(Drop)]
pub(crate) struct Pair {
    pub(crate) point: Point,
    pub(crate) left: NetId,
    pub(crate) right: NetId,
}

// Adds the pair of a point, if both sides have a net there.
fn add_pair(
    alloc: Global,
    one: &Known,
    other: &Known,
    kind: Kind,
    name: &Name,
    pairs: &mut Vec<Pair>,
) -> Result<(), AllocError>
    requires one { IsKnown one.now }
    requires other { IsKnown other.now }
    ensures grows { OnOk result (Grows one.now.side.now other.now.side.now pairs.old.items
        pairs.new.items) }
    ensures covers { OnOk result (Covers one.now.side.now other.now.side.now kind name.now
        pairs.new.items) }
{
    let Some(left) = one.net(kind, name) else {
        return Ok(());
    };
    let Some(right) = other.net(kind, name) else {
        return Ok(());
    };
    let name = Name::from_slice(alloc, name.as_bytes())?;
    let point = Point { kind, name };
    pairs.push(Pair { point, left, right })?;
    Ok(())
}

// Adds the pairs of points of a kind with these names.
fn add_pairs(
    alloc: Global,
    one: &Known,
    other: &Known,
    kind: Kind,
    names: &[Name],
    pairs: &mut Vec<Pair>,
) -> Result<(), AllocError>
    requires one { IsKnown one.now }
    requires other { IsKnown other.now }
    ensures grows { OnOk result (Grows one.now.side.now other.now.side.now pairs.old.items
        pairs.new.items) }
    ensures covers { OnOk result ((name : List ℕ) → Contains names.now name →
        Covers one.now.side.now other.now.side.now kind name pairs.new.items) }
{
    for name in names {
        add_pair(alloc, one, other, kind, name, pairs)?;
    }
    Ok(())
}

// The pairs of all points: of the outputs, of what latches store, and of their controls.
pub(crate) fn all_pairs(alloc: Global, one: &Known, other: &Known) -> Result<Vec<Pair>, AllocError>
    requires one { IsKnown one.now }
    requires other { IsKnown other.now }
    ensures { IfOk result (λ pairs. AreAllPairs one.now.side.now other.now.side.now pairs.items) }
{
    let mut pairs = Vec::new(alloc);
    let latches = one.names(PortKind::Latch);
    let outputs = one.names(PortKind::Output);
    add_pairs(alloc, one, other, Kind::Output, outputs, &mut pairs)?;
    add_pairs(alloc, one, other, Kind::Data, latches, &mut pairs)?;
    add_pairs(alloc, one, other, Kind::Control, latches, &mut pairs)?;
    Ok(pairs)
}
