//! Theorems on labels by time: functions with empty bodies, whose clauses are the theorems.
ghost use Rattle.std.specs.Prelude.{ℕ, ◌≡◌, ◌≤◌, ◌<◌, ◌+◌, ◌*◌, List, Option, Some, All, length};
ghost use Rattle.std.specs.Prelude.{map};
ghost use Rattle.lw_fixed.specs.declared.micro.Micro.{Micro};
ghost use Rattle.lw_laws.specs.Covers.{ArePatterns, Pattern};
ghost use Rattle.lw_laws.specs.Graphs.{Graph, most_classes};
ghost use Rattle.lw_laws.specs.Laws.{IsTimingUpTo};
ghost use Rattle.lw_laws.specs.Netlists.{HaveCellTruths};
ghost use Rattle.lw_laws.specs.Rounds.{labels_in};
ghost use Rattle.lw_genlib.specs.Cells.{CellParts, IsLibrary, IsSmall};
ghost use Rattle.lw_genlib.specs.Tables.{delays_of_cells, timing_of, truth_of_cells};
ghost use Rattle.lw_pattern.specs.Libraries.{library_patterns, library_truth, pin_counts};
ghost use Rattle.lw_graph.specs.Graphs.{IsGraph};
ghost use Rattle.lw_cost.specs.declared.mark.Mark.{Mark};
ghost use Rattle.lw_cost.specs.Least.{AreOfCells};
ghost use Rattle.lw_label.specs.Delays.{most_time, time_cost};
ghost use Rattle.lw_cost.specs.Labels.{AreLeastMarks, costs_of};

/// The patterns of a library are of its cells, each with the pins of its cell.
pub fn library_patterns_are_of_cells()
    ensures cells { (cells : List CellParts) (starts : List Micro) (pats : List Pattern) →
        IsLibrary cells → pats ≡ library_patterns cells → ArePatterns (pin_counts cells) pats →
        AreOfCells (time_cost cells starts).pin_counts pats }
    ensures patterns { (cells : List CellParts) (pats : List Pattern) → IsLibrary cells →
        ArePatterns (pin_counts cells) pats →
        ArePatterns (map length (delays_of_cells cells)) pats }
    ensures truths { (cells : List CellParts) (pats : List Pattern) → IsLibrary cells →
        HaveCellTruths (pin_counts cells) (library_truth cells) pats →
        HaveCellTruths (map length (delays_of_cells cells)) (truth_of_cells cells) pats }
{}

/// No delay of a library and no start is above a million units, where each start is below that.
pub fn library_times_are_low()
    ensures { (cells : List CellParts) (starts : List Micro) → IsLibrary cells →
        All IsSmall starts → IsTimingUpTo (1000000 * 1000000) (timing_of cells starts) }
{}

/// Labels of times stay below a million units for each class and one more, and below the greatest
/// time in a graph of so many classes.
pub fn times_stay_low()
    ensures low { (g : Graph) (cells : List CellParts) (starts : List Micro) (pats : List Pattern)
        (marks : List (Option Mark)) → IsGraph g → IsLibrary cells → All IsSmall starts →
        AreOfCells (time_cost cells starts).pin_counts pats →
        AreLeastMarks g (time_cost cells starts) pats marks → (c l : ℕ) →
        labels_in (costs_of marks) c ≡ Some l → l < (length g.pairs + 1) * (1000000 * 1000000) }
    ensures cap { (g : Graph) (cells : List CellParts) (starts : List Micro) (pats : List Pattern)
        (marks : List (Option Mark)) → IsGraph g → IsLibrary cells → All IsSmall starts →
        AreOfCells (time_cost cells starts).pin_counts pats → length g.pairs ≤ most_classes →
        AreLeastMarks g (time_cost cells starts) pats marks → (c l : ℕ) →
        labels_in (costs_of marks) c ≡ Some l → l < most_time }
{}
