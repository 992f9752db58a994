//! Theorems: functions with empty bodies, whose clauses are the theorems.
ghost use Rattle.std.specs.Prelude.{ℕ, ◌≤◌, List, Option, All};
ghost use Rattle.lw_fixed.specs.declared.micro.Micro.{Micro};
ghost use Rattle.lw_laws.specs.Modes.{Mode};
ghost use Rattle.lw_laws.specs.Networks.{Network};
ghost use Rattle.lw_laws.specs.Listings.{listing_of};
ghost use Rattle.lw_laws.specs.Classes.{IsGraphOf};
ghost use Rattle.lw_laws.specs.Graphs.{Graph};
ghost use Rattle.lw_laws.specs.Covers.{Pattern};
ghost use Rattle.lw_laws.specs.Extracts.{HaveLeafLabels};
ghost use Rattle.lw_genlib.specs.Cells.{CellParts, IsLibrary, IsSmall};
ghost use Rattle.lw_graph.specs.Graphs.{IsGraph};
ghost use Rattle.lw_cost.specs.declared.mark.Mark.{Mark};
ghost use Rattle.lw_cost.specs.Least.{AreOfCells};
ghost use Rattle.lw_label.specs.Delays.{time_cost};
ghost use Rattle.lw_cost.specs.Labels.{AreLeastMarks};
ghost use Rattle.lw_extract.specs.declared.ports.Ports.{Ports};
ghost use Rattle.lw_extract.specs.declared.ports.Cover.{Cover};
ghost use Rattle.lw_extract.specs.Choosing.{labels};
ghost use Rattle.lw_extract.specs.Covers.{AreFit, IsExtractedCover, ArriveAtLabels};

/// Where the cost is the time, each net of a cover arrives at the label of its class.
pub fn nets_arrive_at_their_labels()
    ensures { (g : Graph) (cells : List CellParts) (starts : List Micro) (pats : List Pattern)
        (marks : List (Option Mark)) (ports : Ports) (cover : Cover) → IsGraph g → IsLibrary cells →
        All IsSmall starts → AreOfCells (time_cost cells starts).pin_counts pats →
        AreLeastMarks g (time_cost cells starts) pats marks →
        HaveLeafLabels g (time_cost cells starts) (labels marks) → AreFit g ports →
        IsExtractedCover g (time_cost cells starts) pats marks ports cover →
        ArriveAtLabels g cells starts marks cover }
{}

/// In the graph of a network's forms the label of each input's class is the start of the input,
/// where the cost is the time.
pub fn inputs_keep_their_starts()
    ensures { (mode : Mode) (width : ℕ) (net : Network) (g : Graph) → 2 ≤ width →
        IsGraphOf mode net.inputs (listing_of width net) g →
        (cells : List CellParts) (starts : List Micro) (pats : List Pattern)
        (marks : List (Option Mark)) → AreOfCells (time_cost cells starts).pin_counts pats →
        AreLeastMarks g (time_cost cells starts) pats marks →
        HaveLeafLabels g (time_cost cells starts) (labels marks) }
{}
