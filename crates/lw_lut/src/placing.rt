// Places of nets.
ghost use Rattle.std.specs.Prelude.{IfOk};
ghost use Rattle.lw_lut.specs.Placed.{ArePlaceable, ArePlacesOf};

use crate::table::Table;
use lw_pool::ClassId;
use std::alloc::{AllocError, Global};

// At each class of an input or a table its place among the inputs and then the tables, which have
// different classes.
pub(crate) fn places_of(
    alloc: Global,
    classes: usize,
    inputs: &[ClassId],
    tables: &[Table],
) -> Result<Vec<u32>, AllocError>
    requires { ArePlaceable classes inputs.now tables.now }
    ensures { IfOk result (λ places. ArePlacesOf inputs.now tables.now places.items) }
{
    let mut places = vec![in alloc; 0; classes]?;
    for input in 0..inputs.len() {
        places[inputs[input].0 as usize] = input as u32;
    }
    for k in 0..tables.len() {
        places[tables[k].out.0 as usize] = (inputs.len() + k) as u32;
    }
    Ok(places)
}
