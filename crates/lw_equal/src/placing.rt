// Sides over the inputs of the first, in one graph.
ghost use Rattle.std.specs.Prelude.{◌≡◌, ◌<◌, length, All, IfOk, IfSome};
ghost use Rattle.lw_aig.specs.Aigs.{IsBelow};
ghost use Rattle.lw_sweep.specs.Sweeps.{IsExtended};
ghost use Rattle.lw_equal.specs.Known.{IsKnown};
ghost use Rattle.lw_equal.specs.Laid.{ArePlaces, BeginsWith, HaveValuesOf, IsLaid};
ghost use Rattle.lw_equal.specs.Sides.{CanBeEvaluated, inputs_of};

use crate::cells::netlist_literals;
use crate::known::Known;
use crate::{Logic, Side};
use indexmap::IndexSet;
use lw_aig::Literal;
use lw_joint::{input_literals, net_literals};
use lw_pool::Name;
use lw_sweep::Sweep;
use std::alloc::{AllocError, Global};

// A network over the inputs of a side: by input, which of them it is, and by net, its literal.
#[derive(Drop)]
pub(crate) struct Laid {
    pub(crate) places: Vec<u32>,
    pub(crate) literals: Vec<Literal>,
}

// By name, its place among others, or none where a name is not among them.
fn places_in(
    alloc: Global,
    all: &IndexSet<Name>,
    names: &[Name],
) -> Result<Option<Vec<u32>>, AllocError>
    ensures { IfOk result (λ places. IfSome places (λ found.
        ArePlaces all.now.keys names.now found.items)) }
{
    let mut places = Vec::new(alloc);
    for name in names {
        let Some(place) = all.get_index_of(name) else {
            return Ok(None);
        };
        let Ok(place) = u32::try_from(place) else {
            return Ok(None);
        };
        places.push(place)?;
    }
    Ok(Some(places))
}

// The literals of the nets of a network whose inputs have these literals, or none where there is no
// room for a node of the graph.
fn logic_literals(
    sweep: &mut Sweep,
    alloc: Global,
    logic: &Logic,
    inputs: &[Literal],
) -> Result<Option<Vec<Literal>>, AllocError>
    requires evaluated { CanBeEvaluated logic.now }
    requires one_each { length inputs.now ≡ length (inputs_of logic.now) }
    requires within { All (IsBelow (length sweep.old)) inputs.now }
    ensures grows { IsExtended sweep.old sweep.new }
    ensures values { IfOk result (λ lits. IfSome lits (λ found.
        HaveValuesOf sweep.new logic.now inputs.now found.items)) }
{
    let _ = logic.inputs();
    match logic {
        Logic::Rows(net) => net_literals(sweep, alloc, net, inputs),
        Logic::Cells(netlist, lib) => netlist_literals(sweep, alloc, netlist, lib, inputs),
    }
}

// Lays a network over the inputs of a side. There is none where it has another input, or where
// there is no room for a node of the graph.
pub(crate) fn lay(
    sweep: &mut Sweep,
    alloc: Global,
    one: &Known,
    side: &Side,
) -> Result<Option<Laid>, AllocError>
    requires known { IsKnown one.now }
    requires evaluated { CanBeEvaluated side.now.logic }
    requires inputs { BeginsWith sweep.old (length (inputs_of one.now.side.now.logic)) }
    ensures grows { IsExtended sweep.old sweep.new }
    ensures laid { IfOk result (λ laid. IfSome laid
        (IsLaid sweep.new (inputs_of one.now.side.now.logic) side.now)) }
{
    let Some(places) = places_in(alloc, &one.inputs, side.logic.inputs())? else {
        return Ok(None);
    };
    let inputs = input_literals(alloc, sweep.aig().gates(), &places)?;
    let Some(literals) = logic_literals(sweep, alloc, &side.logic, &inputs)? else {
        return Ok(None);
    };
    Ok(Some(Laid { places, literals }))
}
