// What a walk goes by, and what its roots and pins ask for.
ghost use Rattle.std.specs.Prelude.{◌≡◌, ◌<◌, IfOk, IfSome, length};
ghost use Rattle.lw_backtrace.specs.SecondLook.{IsDemand, IsPinWant, root_want};

use crate::trail::Node;
use lw_choices::Stand;
use lw_curves::Curves;
use lw_fixed::Micro;
use lw_genlib::Library;
use lw_pool::{CellId, ClassId};
use std::alloc::AllocError;

/// What a walk goes by.
#[derive(Drop)]
pub(crate) struct Plan<'a> {
    pub curves: &'a Curves,
    /// The input of each class that has one.
    pub inputs: &'a [Option<u32>],
    /// How many inputs there are.
    pub count: u32,
    pub lib: &'a Library,
    /// The class of each output.
    pub roots: &'a [ClassId],
    /// The time by which each output has to arrive.
    pub times: &'a [Micro],
}

/// What a pin or a root asks for: a class by a time.
#[derive(Clone, Copy)]
pub(crate) struct Want {
    pub class: ClassId,
    /// The delay of the pin, or 0 of a root.
    pub delay: u64,
    /// The time by which the cell of the pin, or the root, arrives.
    pub time: u64,
    /// Whether the gate has to be exact. Else it may be shared.
    pub exact: bool,
}

/// A cell, and what its pins ask for.
#[derive(Drop)]
pub(crate) struct Demand<'a> {
    pub cell: CellId,
    /// The class of each pin.
    pub pins: &'a [ClassId],
    /// The delay of each pin.
    pub delays: &'a [Micro],
    /// The time by which the cell arrives.
    pub time: u64,
    /// Whether the gates of the pins have to be exact.
    pub exact: bool,
}

/// What a root asks for: its class by a time, without a delay.
pub(crate) fn root_want(root: ClassId, time: Micro, exact: bool) -> Want
    ensures { result ≡ root_want root time exact }
{
    Want {
        class: root,
        delay: 0,
        time: time.0,
        exact,
    }
}

/// What the pin with this number asks for: its class by the time of the cell, less its delay.
pub(crate) fn pin_want(demand: &Demand, pin: usize) -> Want
    requires pin { pin < length demand.now.pins.now }
    requires delay { pin < length demand.now.delays.now }
    ensures { IsPinWant demand.now pin result }
{
    Want {
        class: demand.pins[pin],
        delay: demand.delays[pin].0,
        time: demand.time,
        exact: demand.exact,
    }
}

/// The cell of a node, and what its pins ask for; none if no cell stands at its point.
pub(crate) fn demand_of<'a>(plan: &Plan<'a>, node: Node) -> Option<Demand<'a>>
    ensures { IfSome result (IsDemand plan.now node) }
{
    let point = *plan.curves.get(node.class)?.get(node.place as usize)?;
    let Some(Stand::Gate(gate)) = plan.curves.stand(node.class, node.place) else {
        return None;
    };
    if gate.cell.0 >= plan.lib.len() {
        return None;
    }
    Some(Demand {
        cell: gate.cell,
        pins: gate.pins,
        delays: plan.lib.cell(gate.cell).delays(),
        time: point.time.0,
        exact: node.exact,
    })
}

/// A number as one of 32 bits. For a greater one it says that memory is out.
pub(crate) fn to_u32(number: usize) -> Result<u32, AllocError>
    ensures { IfOk result (λ n. n ≡ number) }
{
    u32::try_from(number).ok().ok_or(AllocError)
}
