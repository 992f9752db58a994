// Sides whose names are looked up.
ghost use Rattle.std.specs.Prelude.{◌≡◌, IfOk, option_copied, option_to_list};
ghost use Rattle.std.specs.List.{IsDistinct, list_any, slice_range};
ghost use Rattle.std.specs.Str.{bytes_eq};
ghost use Rattle.lw_frame.specs.Frames.{control_among};
ghost use Rattle.lw_equal.specs.Sides.{root_names};

use crate::{Kind, Logic, PortKind, Side};
use indexmap::IndexSet;
use lw_pool::{Latch, Name, NetId};
use std::alloc::{AllocError, Global};

const NO_CONTROL: &[u8] = b"NIL";

// A side with the names of its inputs and of its roots.
#[derive(Drop)]
pub(crate) struct Known<'a> {
    pub(crate) side: &'a Side<'a>,
    pub(crate) inputs: IndexSet<Name>,
    pub(crate) roots: IndexSet<Name>,
}

// Names as a set.
fn set_of(alloc: Global, names: &[Name]) -> Result<IndexSet<Name>, AllocError>
    requires { IsDistinct bytes_eq names.now }
    ensures { IfOk result (λ set. set.keys ≡ names.now) }
{
    let mut set = IndexSet::new(alloc);
    for name in names {
        set.insert(Name::from_slice(alloc, name.as_bytes())?)?;
    }
    Ok(set)
}

// The names of the roots as a set.
fn root_set(alloc: Global, logic: &Logic) -> Result<IndexSet<Name>, AllocError>
    requires { IsDistinct bytes_eq (root_names logic.now) }
    ensures { IfOk result (λ set. set.keys ≡ root_names logic.now) }
{
    let mut set = IndexSet::new(alloc);
    for place in 0..logic.roots() {
        set.insert(Name::from_slice(alloc, logic.root(place).name.as_bytes())?)?;
    }
    Ok(set)
}

// Whether a name is among those from one place to another.
fn is_among(set: &IndexSet<Name>, from: usize, to: usize, name: &Name) -> bool
    requires { IsDistinct bytes_eq set.now.keys }
    ensures { result ≡ list_any (bytes_eq name.now) (slice_range set.now.keys from to) }
{
    let Some(place) = set.get_index_of(name) else {
        return false;
    };
    if place < from {
        return false;
    }
    if place >= to {
        return false;
    }
    true
}

// The control of a latch, where it has one.
fn control_of(latch: &Latch) -> Option<&Name>
    ensures { option_to_list (option_copied result) ≡ control_among latch.now.rest }
{
    match latch.rest.as_slice() {
        [_, control, ..] if control.as_bytes() != NO_CONTROL => Some(control),
        _ => None,
    }
}

impl<'a> Known<'a> {
    ghost use Rattle.std.specs.Prelude.{◌≡◌, IfOk, MatchOption};
    ghost use Rattle.std.specs.List.{list_any};
    ghost use Rattle.std.specs.Str.{bytes_eq};
    ghost use Rattle.lw_equal.specs.Known.{HasNoLatch, HasNoNet, IsKnown, IsLatchOf, IsOnlyNet};
    ghost use Rattle.lw_equal.specs.Known.{IsOnlyRoot, HasNoRoot};
    ghost use Rattle.lw_equal.specs.Ports.{names_of};
    ghost use Rattle.lw_equal.specs.Sides.{IsSide};
    ghost use Rattle.lw_equal.specs.declared.point.Kind.TheVariants as kinds;

    pub(crate) fn of(alloc: Global, side: &'a Side<'a>) -> Result<Known<'a>, AllocError>
        requires { IsSide side.now }
        ensures known { IfOk result IsKnown }
        ensures side { IfOk result (λ known. known.side.now ≡ side.now) }
    {
        let inputs = set_of(alloc, side.logic.inputs())?;
        let Ok(roots) = root_set(alloc, &side.logic) else {
            drop(inputs);
            return Err(AllocError);
        };
        Ok(Known {
            side,
            inputs,
            roots,
        })
    }

    // The names of the ports of a kind.
    pub(crate) fn names(&self, kind: PortKind) -> &[Name]
        requires { IsKnown self.now }
        ensures { result.now ≡ names_of kind self.now.side.now }
    {
        let inputs = self.side.frame.inputs as usize;
        match kind {
            PortKind::Input => &self.inputs.as_slice()[..inputs],
            PortKind::Output => &self.roots.as_slice()[..self.side.frame.outputs as usize],
            PortKind::Latch => &self.inputs.as_slice()[inputs..],
        }
    }

    // Whether there is a port of a kind with a name.
    pub(crate) fn has(&self, kind: PortKind, name: &Name) -> bool
        requires { IsKnown self.now }
        ensures { result ≡ list_any (bytes_eq name.now) (names_of kind self.now.side.now) }
    {
        let inputs = self.side.frame.inputs as usize;
        match kind {
            PortKind::Input => is_among(&self.inputs, 0, inputs, name),
            PortKind::Output => is_among(&self.roots, 0, self.side.frame.outputs as usize, name),
            PortKind::Latch => is_among(&self.inputs, inputs, self.inputs.len(), name),
        }
    }

    // The latch whose output has a name.
    fn latch(&self, name: &Name) -> Option<&Latch>
        requires { IsKnown self.now }
        ensures { MatchOption result (HasNoLatch self.now.side.now name.now)
            (λ latch. IsLatchOf self.now.side.now name.now latch.now) }
    {
        let place = self.inputs.get_index_of(name)?;
        let inputs = self.side.frame.inputs as usize;
        if place < inputs {
            return None;
        }
        self.side.frame.latches.as_slice().get(place - inputs)
    }

    // The net of the root of a name.
    fn root(&self, name: &Name) -> Option<NetId>
        requires { IsKnown self.now }
        ensures { MatchOption result (HasNoRoot self.now.side.now name.now)
            (λ net. IsOnlyRoot self.now.side.now name.now net.0) }
    {
        let place = self.roots.get_index_of(name)?;
        Some(self.side.logic.root(place).net)
    }

    // The net of the output of a name.
    fn output(&self, name: &Name) -> Option<NetId>
        requires { IsKnown self.now }
        ensures { MatchOption result (HasNoNet kinds.Output self.now.side.now name.now)
            (λ net. IsOnlyNet kinds.Output self.now.side.now name.now net.0) }
    {
        let place = self.roots.get_index_of(name)?;
        if place >= self.side.frame.outputs as usize {
            return None;
        }
        Some(self.side.logic.root(place).net)
    }

    // What the latch whose output has a name stores.
    fn stored(&self, name: &Name) -> Option<NetId>
        requires { IsKnown self.now }
        ensures { MatchOption result (HasNoNet kinds.Data self.now.side.now name.now)
            (λ net. IsOnlyNet kinds.Data self.now.side.now name.now net.0) }
    {
        let latch = self.latch(name)?;
        self.root(&latch.input)
    }

    // The control of the latch whose output has a name.
    fn control(&self, name: &Name) -> Option<NetId>
        requires { IsKnown self.now }
        ensures { MatchOption result (HasNoNet kinds.Control self.now.side.now name.now)
            (λ net. IsOnlyNet kinds.Control self.now.side.now name.now net.0) }
    {
        let latch = self.latch(name)?;
        let control = control_of(latch)?;
        self.root(control)
    }

    // The net at a point.
    pub(crate) fn net(&self, kind: Kind, name: &Name) -> Option<NetId>
        requires { IsKnown self.now }
        ensures { MatchOption result (HasNoNet kind self.now.side.now name.now)
            (λ net. IsOnlyNet kind self.now.side.now name.now net.0) }
    {
        match kind {
            Kind::Output => self.output(name),
            Kind::Data => self.stored(name),
            Kind::Control => self.control(name),
        }
    }
}
