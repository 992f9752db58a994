// Looks at assignments: whether both sides differ under one, as they were read.
ghost use Rattle.std.specs.Prelude.{◌≡◌, ◌<◌, List, IfOk, IsTrue, length, map, slice_index_or};
ghost use Rattle.std.specs.Prelude.{false, All};
ghost use Rattle.lw_laws.specs.Networks.{given};
ghost use Rattle.lw_equal.specs.Answers.{IsDifference};
ghost use Rattle.lw_equal.specs.Known.{IsKnown};
ghost use Rattle.lw_equal.specs.Laid.{ArePlaces};
ghost use Rattle.lw_equal.specs.Pairs.{IsPair};
ghost use Rattle.lw_equal.specs.Sides.{AreValuesOf, CanBeEvaluated, IsSide, input_count, inputs_of};

use crate::known::Known;
use crate::pairing::Pair;
use crate::{Logic, Side};
use std::alloc::{AllocError, Global};

// The values of the nets at these values of the inputs.
fn net_values(alloc: Global, logic: &Logic, x: &[bool]) -> Result<Vec<bool>, AllocError>
    requires evaluated { CanBeEvaluated logic.now }
    requires one_each { length x.now ≡ length (inputs_of logic.now) }
    ensures values { IfOk result (λ values. AreValuesOf logic.now (given x.now) values.items) }
    ensures count { length (inputs_of logic.now) ≡ input_count logic.now }
{
    let _ = logic.inputs();
    let mut values = vec![in alloc; false; logic.nets()]?;
    match logic {
        Logic::Rows(net) => net.eval(x, &mut values),
        Logic::Cells(netlist, lib) => netlist.value(lib, x, &mut values),
    }
    Ok(values)
}

// The values at these places.
fn chosen(alloc: Global, values: &[bool], places: &[u32]) -> Result<Vec<bool>, AllocError>
    requires { All (λ place. place < length values.now) places.now }
    ensures { IfOk result (λ found. found.items
        ≡ map (λ place. slice_index_or values.now place false) places.now) }
{
    places
        .iter()
        .map(|place| values[*place as usize])
        .collect(alloc)
}

// Whether the sides differ at a point, at these values of the inputs of the first.
pub(crate) fn differ(
    alloc: Global,
    one: &Known,
    other: &Side,
    places: &[u32],
    pair: &Pair,
    inputs: &[bool],
) -> Result<bool, AllocError>
    requires known { IsKnown one.now }
    requires other { IsSide other.now }
    requires one_each { length inputs.now ≡ length (inputs_of one.now.side.now.logic) }
    requires places { ArePlaces (inputs_of one.now.side.now.logic) (inputs_of other.now.logic)
        places.now }
    requires pair { IsPair one.now.side.now other.now pair.now }
    ensures { IfOk result (λ yes. IsTrue yes →
        IsDifference one.now.side.now other.now pair.now.point inputs.now) }
{
    let lefts = net_values(alloc, &one.side.logic, inputs)?;
    let theirs = chosen(alloc, inputs, places)?;
    let rights = net_values(alloc, &other.logic, &theirs)?;
    let left = lefts.get(pair.left.0 as usize).copied().unwrap_or(false);
    let right = rights.get(pair.right.0 as usize).copied().unwrap_or(false);
    Ok(left != right)
}
