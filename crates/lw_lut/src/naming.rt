// The names of nets.
ghost use Rattle.std.specs.Prelude.{◌≡◌, ◌+◌, ◌<◌, ◌^◌, All, IfOk, length};
ghost use Rattle.lw_lut.specs.Nets.{table_classes, table_names};
ghost use Rattle.lw_lut.specs.Placed.{HaveRootsBelow};
ghost use Rattle.lw_pool.specs.Numbers.{numbers};

use crate::TablePorts;
use crate::table::Table;
use lw_naming::gate_names;
use lw_pool::{ClassId, Names};
use std::alloc::{AllocError, Global};

// The classes of tables.
fn classes_of(alloc: Global, tables: &[Table]) -> Result<Vec<ClassId>, AllocError>
    ensures { IfOk result (λ classes. numbers classes.items ≡ table_classes tables.now) }
{
    let mut classes = Vec::with_capacity(alloc, tables.len())?;
    for x in tables {
        classes.push(x.out)?;
    }
    Ok(classes)
}

// The names of the tables: that of the first output of the table's class, or the next of n1, n2
// and so on that no port has.
pub(crate) fn names_of(
    alloc: Global,
    classes: usize,
    ports: &TablePorts,
    tables: &[Table],
) -> Result<Names, AllocError>
    requires few { length ports.now.inputs + length ports.now.outputs + length tables.now < 2 ^ 63 }
    requires roots { HaveRootsBelow classes ports.now }
    requires tables { All (λ x. x.out.0 < classes) tables.now }
    ensures { IfOk result (λ names. names ≡ table_names ports.now tables.now) }
{
    let gates = classes_of(alloc, tables)?;
    let (inputs, outputs, roots) = (&ports.inputs, &ports.outputs, ports.roots.as_slice());
    gate_names(alloc, inputs, outputs, roots, classes, &gates)
}
