// What is asked at a class, with the numbers of sides there.
ghost use Rattle.std.specs.Prelude.{◌≡◌, length};
ghost use Rattle.lw_bounds.specs.Cuts.{cuts_state, cuts_reading};
ghost use Rattle.lw_bounds.specs.Places.{HasSides};

use crate::site::Site;
use lw_bounds::View;

/// A site, and the numbers of sides at its class.
#[derive(Drop)]
pub struct Query<'a, C> {
    /// The class, and what a search there reads.
    pub site: Site<'a, C>,
    /// The numbers of sides at the class.
    pub view: View<'a>,
    ghost leaves: { length view.leaves.now ≡ 5 },
    ghost sides: { HasSides (cuts_reading (cuts_state site.cuts.now) site.graph.now site.marks.now)
        site.class.0 view },
}
