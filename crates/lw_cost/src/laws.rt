// Laws of matches, which other crates cite.
ghost use Rattle.lw_cost.specs.Matching.{MatchesHaveCells, LibraryPatternsAreOfCells};

/// A law: where the patterns are of cells with these numbers of pins, a match has one class for
/// each pin of its cell.
pub fn matches_have_cells()
    ensures { MatchesHaveCells }
{}

/// A law: where each cell of a library has its number of pins, and its patterns have a leaf for
/// each of these, the patterns are of cells with these numbers of pins.
pub fn library_patterns_are_of_cells()
    ensures { LibraryPatternsAreOfCells }
{}
