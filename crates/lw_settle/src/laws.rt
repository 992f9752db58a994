//! Theorems: functions with empty bodies, whose clauses are the theorems.
ghost use Rattle.std.specs.Prelude.{◌≡◌, ◌≤◌, ◌+◌, ℕ, List, Option, Some, length, slice_get};
ghost use Rattle.lw_graph.specs.Graphs.{IsGraph};
ghost use Rattle.lw_laws.specs.Costs.{Cost, IsCost};
ghost use Rattle.lw_laws.specs.Covers.{Pattern};
ghost use Rattle.lw_laws.specs.Graphs.{Graph};
ghost use Rattle.lw_laws.specs.Matches.{IsLeastCover};
ghost use Rattle.lw_cost.specs.declared.mark.Mark.{Mark};
ghost use Rattle.lw_cost.specs.Least.{AreOfCells};
ghost use Rattle.lw_cost.specs.Values.{marks_in};
ghost use Rattle.lw_cost.specs.Labels.{AreLeastMarks};
ghost use Rattle.lw_settle.specs.Settled.{AreSettledMarks, HaveLeafCosts, settle_steps};
ghost use Rattle.lw_settle.specs.Steps.{AreSteps};
ghost use Rattle.lw_settle.specs.Stores.{AreOfStoredCells, IsStoreOf, Stored, pin_total, placed};
ghost use Rattle.lw_laws.specs.Choices.{Labels};

/// Marks that are settled by a store of a graph and patterns are the least marks of these.
pub fn settled_marks_are_least()
    ensures { (g : Graph) (cost : Cost) (pats : List Pattern) (lists : List (List Stored)) →
        IsGraph g → IsCost cost → AreOfCells cost.pin_counts pats → IsStoreOf g pats lists →
        (marks : List (Option Mark)) → AreSettledMarks g cost lists marks →
        AreLeastMarks g cost pats marks }
{}

/// All least marks of a graph and patterns are the same.
pub fn least_marks_are_one()
    ensures { (g : Graph) (cost : Cost) (pats : List Pattern)
        (marks others : List (Option Mark)) → AreLeastMarks g cost pats marks →
        AreLeastMarks g cost pats others → (c : ℕ) → marks_in marks c ≡ marks_in others c }
{}

/// Where the patterns are of cells with these numbers of pins, so are the matches of a store of
/// them.
pub fn stores_are_of_cells()
    ensures { (g : Graph) (pats : List Pattern) (pin_counts : List ℕ) (lists : List (List Stored)) →
        AreOfCells pin_counts pats → IsStoreOf g pats lists → AreOfStoredCells pin_counts lists }
{}

/// Where no cover of an input's class costs less than the input, none that is made of stored
/// matches does.
pub fn leaf_costs_are_least()
    ensures { (g : Graph) (cost : Cost) (pats : List Pattern) (lists : List (List Stored)) →
        IsGraph g → IsCost cost → AreOfCells cost.pin_counts pats → IsStoreOf g pats lists →
        ((i c : ℕ) → slice_get g.leaves i ≡ Some c →
        IsLeastCover g pats cost c (Some (cost.leaf i))) → HaveLeafCosts g cost lists }
{}

/// All stores of a graph and patterns are read as often, so that there is one count of steps at
/// most.
pub fn steps_are_one()
    ensures { (g : Graph) (pats : List Pattern) (labels : Labels) (steps others : Option ℕ) →
        AreSteps g pats labels steps →
        AreSteps g pats labels others → steps ≡ others }
{}

/// Settling reads a store no more often than its matches have pins, and once more for each match.
pub fn steps_are_few()
    ensures { (labels : Labels) (lists : List (List Stored)) →
        settle_steps labels lists ≤ pin_total (placed lists) + length (placed lists) }
{}
