// The classes that may have a gate, by height.
ghost use Rattle.std.specs.Prelude.{◌≡◌, ◌<◌, ◌^◌, IfOk, length};
ghost use Rattle.lw_extract.specs.Orders.{AreByHeight};

use lw_cost::Mark;
use lw_needed::{Place, sort_places};
use lw_pool::{ClassId, NetId};
use std::alloc::{AllocError, Global};

// The classes with marks that are no input's, so that `nets` has none for them, by height and then
// class.
pub(crate) fn by_height(
    alloc: Global,
    nets: &[Option<NetId>],
    marks: &[Option<Mark>],
) -> Result<Vec<Place>, AllocError>
    requires same { length nets.now ≡ length marks.now }
    requires few { length marks.now < 2 ^ 32 }
    ensures { IfOk result (λ places. AreByHeight nets.now marks.now places.items) }
{
    let mut places = Vec::new(alloc);
    for (number, mark) in marks.iter().enumerate() {
        if let Some(mark) = mark {
            if nets[number].is_none() {
                places.push(Place {
                    depth: mark.height,
                    class: ClassId(number as u32),
                })?;
            }
        }
    }
    sort_places(&mut places);
    Ok(places)
}
