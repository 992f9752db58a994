// What labels are found by, and what is found so far.
ghost use Rattle.std.specs.Prelude.{◌≡◌, ◌<◌, None, length, slice_index_or};

use crate::visits::Visits;
use lw_bounds::Bounds;
use lw_cost::Mark;
use lw_graph::Graph;
use lw_match::Tops;
use lw_pattern::Patterns;
use lw_pool::ClassId;

/// A graph, the patterns of cells, and what inputs and cells cost.
#[derive(Drop)]
pub(crate) struct Task<'a, C> {
    pub graph: &'a Graph,
    pub pats: &'a Patterns,
    pub cost: &'a C,
}

/// Labels that fall: the table of bounds by which searches are cut, the costs at which its gaps are
/// certified, and the labels so far as marks of height 0.
#[derive(Drop)]
pub(crate) struct Labelling<'a> {
    pub bounds: Bounds,
    pub tops: &'a mut Tops,
    pub marks: Vec<Option<Mark>>,
}

/// Labels that fall, and the visits of places by which they do.
#[derive(Drop)]
pub(crate) struct LabelRounds<'a> {
    pub visits: Visits,
    pub labelling: Labelling<'a>,
}

impl Labelling<'_> {
    /// The label of a class, its least cost so far, as a mark of height 0; none while it has no
    /// label.
    pub(crate) fn mark(&self, class: ClassId) -> Option<Mark>
        requires { class.0 < length self.now.marks.items }
        ensures { result ≡ slice_index_or self.now.marks.items class.0 None }
    {
        self.marks[class.0 as usize]
    }
}
