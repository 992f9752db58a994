// Classes by their depth.
ghost use Rattle.std.specs.Prelude.{◌<◌, ◌^◌, All};
ghost use Rattle.std.specs.List.Sorted.{IsNonDecreasingBy, IsPermutation};
ghost use Rattle.lw_needed.specs.Places.{AreInClassOrder, AreInDepthOrder, place_key};

use lw_pool::ClassId;

/// A class and its depth.
#[derive(Clone, Copy, Drop)]
pub struct Place {
    pub depth: u32,
    pub class: ClassId,
}

/// Sorts places by depth, and then by class.
pub fn sort_places(places: &mut Vec<Place>)
    ensures permutation { IsPermutation places.old.items places.new.items }
    ensures keys { IsNonDecreasingBy place_key places.new.items }
    ensures sorted { All (λ place. place.class.0 < 2 ^ 32) places.old.items →
        AreInClassOrder places.old.items → AreInDepthOrder places.new.items }
{
    places.sort_unstable_by_key(|place| place.depth as u64 * 0x1_0000_0000 + place.class.0 as u64);
}
