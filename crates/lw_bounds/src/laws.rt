// Laws of bounds, which other crates cite.
ghost use Rattle.lw_bounds.specs.Bounds.{SettledBoundsAreBounds, BoundsOfFewer};

/// A law: a table of these patterns and this graph that is settled at each class is one of bounds.
pub fn settled_bounds_are_bounds()
    ensures { SettledBoundsAreBounds }
{}

/// A law: bounds stay bounds where marks are taken away.
pub fn bounds_of_fewer()
    ensures { BoundsOfFewer }
{}
