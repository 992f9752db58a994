// The classes that are needed, each with its table.
ghost use Rattle.std.specs.Prelude.{◌<◌, ◌^◌, IfOk, length, reverse};
ghost use Rattle.lw_lut.specs.Choosing.{AreByDepth, AreChosen, AreListed, AreRootsIn};

use crate::found::Depths;
use crate::table::Table;
use lw_needed::{Place, need, needed_by, sort_places};
use lw_pool::ClassId;
use std::alloc::{AllocError, Global};

// The depths of classes, which numbers of 32 bits count.
#[derive(Clone, Copy)]
struct ClassDepths<'a> {
    depths: &'a [Option<u32>],
    ghost few: { length depths.now < 2 ^ 32 },
}

// The depths of classes, and some of the classes, which are to have tables.
#[derive(Clone, Copy)]
struct Wanted<'a> {
    depths: &'a Depths,
    roots: &'a [ClassId],
}

// The classes that have a depth other than 0, in the order of their numbers.
fn listed(alloc: Global, of: &ClassDepths) -> Result<Vec<Place>, AllocError>
    ensures { IfOk result (λ places. AreListed of.now.depths.now places.items) }
{
    let depths = of.depths;
    let mut places = Vec::new(alloc);
    for (number, depth) in depths.iter().enumerate() {
        if let Some(depth) = depth {
            if *depth > 0 {
                places.push(Place {
                    depth: *depth,
                    class: ClassId(number as u32),
                })?;
            }
        }
    }
    Ok(places)
}

// The classes that have a depth other than 0, by depth and then class.
fn by_depth(alloc: Global, of: &ClassDepths) -> Result<Vec<Place>, AllocError>
    ensures { IfOk result (λ places. AreByDepth of.now.depths.now places.items) }
{
    let mut places = listed(alloc, of)?;
    sort_places(&mut places);
    Ok(places)
}

// The tables of the needed classes that are no input's, from the deepest down. A class is less
// deep than each whose table has it as a fan-in.
fn choose_down(alloc: Global, of: &Wanted, places: &[Place]) -> Result<Vec<Table>, AllocError>
    requires roots { AreRootsIn of.now.depths.now of.now.roots.now }
    requires places { AreByDepth of.now.depths.now.depths places.now }
    ensures { IfOk result (λ tables.
        AreChosen of.now.depths.now of.now.roots.now (reverse tables.items)) }
{
    let mut needed = needed_by(alloc, of.roots, of.depths.len())?;
    let mut tables = Vec::new(alloc);
    for k in (0..places.len()).rev() {
        let class = places[k].class;
        if needed[class.0 as usize] {
            let table = Table::of(alloc, class, of.depths.cut(class))?;
            need(&mut needed, table.fanins.as_slice());
            tables.push(table)?;
        }
    }
    Ok(tables)
}

// The tables of the needed classes that are no input's, by depth and then class.
pub(crate) fn choose(
    alloc: Global,
    depths: &Depths,
    roots: &[ClassId],
) -> Result<Vec<Table>, AllocError>
    requires few { length depths.now.depths < 2 ^ 32 }
    requires roots { AreRootsIn depths.now roots.now }
    ensures { IfOk result (λ tables. AreChosen depths.now roots.now tables.items) }
{
    let all = ClassDepths {
        depths: depths.depths(),
    };
    let places = by_depth(alloc, &all)?;
    let mut tables = choose_down(alloc, &Wanted { depths, roots }, &places)?;
    tables.reverse();
    Ok(tables)
}
