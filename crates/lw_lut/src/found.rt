// The depths that a search has found, and the cuts for them.
ghost use Rattle.std.specs.Prelude.{◌≡◌, ◌<◌, ◌/◌, Some, None, length, slice_get, slice_index_or};

use crate::cut::Cut;
use lw_pool::ClassId;
use std::marker::Model;

/// The least depths of the classes of a graph, in lookup tables, and a table for each class that
/// needs one.
#[derive(Drop)]
pub struct Depths {
    pub(crate) depths: Vec<Option<u32>>,
    pub(crate) cuts: Vec<Cut>,
}

impl Model for Depths {
    ghost use Rattle.lw_lut.specs.Depths.{DepthLists};

    ghost Value = { DepthLists };

    ghost view = { λ d. record { depths = d.depths.items; cuts = d.cuts.items } };
}

impl Depths {
    /// The least depth of a class: the number of tables on the longest path of the shallowest
    /// cover of one of its trees. None where no tree unfolds at the class.
    pub fn depth(&self, class: ClassId) -> Option<u32>
        requires { class.0 < length self.now.depths }
        ensures { result ≡ slice_index_or self.now.depths class.0 None }
    {
        self.depths[class.0 as usize]
    }

    // The number of classes.
    pub(crate) fn len(&self) -> usize
        ensures { result ≡ length self.now.depths }
    {
        self.depths.len()
    }

    // The depths of the classes, in the order of their numbers.
    pub(crate) fn depths(&self) -> &[Option<u32>]
        ensures { result.now ≡ self.now.depths }
    {
        &self.depths
    }

    // The cut of the pair of a class.
    pub(crate) fn cut(&self, class: ClassId) -> &Cut
        requires { class.0 / 2 < length self.now.cuts }
        ensures { slice_get self.now.cuts (class.0 / 2) ≡ Some result.now }
    {
        &self.cuts[(class.0 / 2) as usize]
    }
}
