//! Laws about graphs of classes and about patterns. Each function has an empty body; its clauses
//! are the law.
ghost use Rattle.lw_laws.specs.Cells.{AreCells};
ghost use Rattle.lw_laws.specs.Classes.{IsGraphOf};
ghost use Rattle.lw_laws.specs.Covers.{ArePatterns};
ghost use Rattle.lw_laws.specs.Drafts.{AreKnown, Draft, HaveSameFacts, IsReduced, facts_of};
ghost use Rattle.lw_laws.specs.Encodings.{Encodes};
ghost use Rattle.lw_laws.specs.Expressions.{Expr, MentionsPin, expr_value};
ghost use Rattle.lw_laws.specs.Extracts.{AreDistinctLeaves};
ghost use Rattle.lw_laws.specs.Graphs.{Graph, IsWritten, PairsInOneClass};
ghost use Rattle.lw_laws.specs.Laws.{ClassesAreSharedTrees, ClassesHaveValue, HasNumberedTrees};
ghost use Rattle.lw_laws.specs.Laws.{HasNumberedTruth, HasTheTrees, TreesUnfoldOnce};
ghost use Rattle.lw_laws.specs.Listings.{IsListing, Listing, listing_of};
ghost use Rattle.lw_laws.specs.Mapped.{forms_of};
ghost use Rattle.lw_laws.specs.Modes.{Mode};
ghost use Rattle.lw_laws.specs.Netlists.{CellTruth, HaveCellTruths};
ghost use Rattle.lw_laws.specs.Networks.{Network};
ghost use Rattle.lw_laws.specs.NumberedForms.{AreNumberedForms, NumberedForms, family_of};
ghost use Rattle.lw_laws.specs.Numbering.{numbered};
ghost use Rattle.lw_laws.specs.Occurring.{occurring_forms};
ghost use Rattle.lw_laws.specs.Patterns.{patterns_of, trees_of_expr};
ghost use Rattle.lw_laws.specs.Trees.{HasLeaf, Tree, tree_value};
ghost use Rattle.lw_laws.specs.Truth.{IsValuation};
ghost use Rattle.std.specs.Prelude.{◌≡◌, ◌≤◌, ◌↔◌, ◌<◌, ◌+◌, ◌*◌, ℕ, List, Bool, Some, length};
ghost use Rattle.std.specs.Prelude.{slice_get, Contains};

// Graphs of classes

/// In a graph with each unordered pair in one class at most, a tree unfolds at one class at most.
pub fn tree_unfolds_once()
    ensures { (g : Graph) → PairsInOneClass g → TreesUnfoldOnce g }
{}

/// In an encoding each unordered pair stands in one class at most.
pub fn encodings_hold_pairs_once()
    ensures { (mode : Mode) (forms : NumberedForms) (g : Graph) → AreNumberedForms forms →
        Encodes (family_of mode forms) g → PairsInOneClass g }
{}

/// The trees of the classes of an encoding are those that the rules over numbers derive.
pub fn classes_have_the_numbered_trees()
    ensures { (mode : Mode) (forms : NumberedForms) (g : Graph) → AreNumberedForms forms →
        Encodes (family_of mode forms) g → HasNumberedTrees mode forms g }
{}

/// The trees of the classes of an encoding are those that the rules give the forms.
pub fn classes_have_the_trees()
    ensures { (mode : Mode) (inputs : ℕ) (o : Listing) (g : Graph) → IsListing o →
        Encodes (family_of mode (numbered inputs o)) g → HasTheTrees mode o g }
{}

/// Two occurring forms are of one class of an encoding exactly where they have a common tree.
pub fn classes_are_shared_trees()
    ensures { (mode : Mode) (inputs : ℕ) (o : Listing) (g : Graph) → IsListing o →
        Encodes (family_of mode (numbered inputs o)) g → ClassesAreSharedTrees mode o g }
{}

/// All trees of a numbered form's class have the form's truth value.
pub fn classes_have_numbered_truth()
    ensures { (mode : Mode) (forms : NumberedForms) (g : Graph) (x value : ℕ → Bool) →
        AreNumberedForms forms → Encodes (family_of mode forms) g →
        IsValuation (family_of mode forms) x value → HasNumberedTruth mode forms g x value }
{}

/// All trees of the class of a form of a network have one truth value, the form's.
pub fn classes_have_the_value()
    ensures { (mode : Mode) (width : ℕ) (net : Network) (g : Graph) (x : ℕ → Bool) → 2 ≤ width →
        Encodes (family_of mode (forms_of width net)) g →
        ClassesHaveValue (listing_of width net) g x }
{}

/// A graph that encodes the forms of a network, numbered by their first base forms, is the graph of
/// the forms.
pub fn encodings_are_the_graph()
    ensures { (mode : Mode) (width : ℕ) (net : Network) (g : Graph) → 2 ≤ width →
        Encodes (family_of mode (forms_of width net)) g →
        IsWritten (length (occurring_forms width net)) net.inputs g →
        IsGraphOf mode net.inputs (listing_of width net) g }
{}

/// The graph of the listed forms is one.
pub fn graphs_are_one()
    ensures { (mode : Mode) (inputs : ℕ) (o : Listing) → IsListing o → (g h : Graph) →
        IsGraphOf mode inputs o g → IsGraphOf mode inputs o h → g ≡ h }
{}

/// A graph that encodes the facts of a draft encodes every family of the same facts.
pub fn same_facts_have_one_encoding()
    ensures { (mode : Mode) (forms : NumberedForms) (d : Draft) (g : Graph) →
        HaveSameFacts (family_of mode forms) (facts_of d) → IsReduced d g →
        Encodes (family_of mode forms) g }
{}

/// The graph of a network's forms encodes them.
pub fn graphs_encode()
    ensures { (mode : Mode) (width : ℕ) (net : Network) (g : Graph) → 2 ≤ width →
        IsGraphOf mode net.inputs (listing_of width net) g →
        Encodes (family_of mode (forms_of width net)) g }
{}

/// In the graph of a network's forms class 0 is true, and the inputs in order have the classes 2,
/// 4, 6 and so on.
pub fn inputs_have_the_first_classes()
    ensures { (mode : Mode) (width : ℕ) (net : Network) (g : Graph) → 2 ≤ width →
        IsGraphOf mode net.inputs (listing_of width net) g →
        (g.one ≡ 0) × ((i : ℕ) → i < net.inputs → slice_get g.leaves i ≡ Some (2 + 2 * i)) }
{}

/// In the graph of a network's forms the inputs' classes differ.
pub fn input_classes_differ()
    ensures { (mode : Mode) (width : ℕ) (net : Network) (g : Graph) → 2 ≤ width →
        IsGraphOf mode net.inputs (listing_of width net) g → AreDistinctLeaves g }
{}

/// In the graph of a network's forms each unordered pair stands in one class at most.
pub fn graphs_hold_pairs_once()
    ensures { (mode : Mode) (width : ℕ) (net : Network) (g : Graph) → 2 ≤ width →
        IsGraphOf mode net.inputs (listing_of width net) g → PairsInOneClass g }
{}

/// The trees of the classes of the graph of a network's forms are those that the rules give the
/// forms.
pub fn graphs_have_the_trees()
    ensures { (mode : Mode) (width : ℕ) (net : Network) (g : Graph) → 2 ≤ width →
        IsGraphOf mode net.inputs (listing_of width net) g →
        HasTheTrees mode (listing_of width net) g }
{}

/// All trees of a class of the graph of a network's forms have one truth value, that of its forms.
pub fn graphs_have_the_values()
    ensures { (mode : Mode) (width : ℕ) (net : Network) (g : Graph) (x : ℕ → Bool) → 2 ≤ width →
        IsGraphOf mode net.inputs (listing_of width net) g →
        ClassesHaveValue (listing_of width net) g x }
{}

/// What the reduction of a draft gives is one graph.
pub fn reductions_are_one()
    ensures { (d : Draft) (g h : Graph) → IsReduced d g → IsReduced d h → g ≡ h }
{}

/// In what the reduction of a draft gives each unordered pair stands in one class at most, where
/// the facts speak of base forms of the draft.
pub fn reductions_hold_pairs_once()
    ensures { (d : Draft) (g : Graph) → AreKnown d → IsReduced d g → PairsInOneClass g }
{}

/// What the reduction of a draft gives, where the draft has the facts of a network's forms, is the
/// graph of the forms.
pub fn reductions_are_graphs()
    ensures { (mode : Mode) (width : ℕ) (net : Network) (d : Draft) (g : Graph) → 2 ≤ width →
        HaveSameFacts (family_of mode (forms_of width net)) (facts_of d) → IsReduced d g →
        IsGraphOf mode net.inputs (listing_of width net) g }
{}

// Patterns

/// Each tree of an expression has its value.
pub fn patterns_have_the_function()
    ensures { (y : ℕ → Bool) (e : Expr) (t : Tree) → Contains (trees_of_expr e) t →
        tree_value y t ≡ expr_value y e }
{}

/// Each tree of an expression has the pins that the expression mentions as leaves, and no other
/// leaf.
pub fn patterns_have_the_pins()
    ensures { (k : ℕ) (e : Expr) (t : Tree) → Contains (trees_of_expr e) t → HasLeaf t k ↔
        MentionsPin e k }
{}

/// The patterns of a library have a leaf for each pin of their cells.
pub fn library_patterns_are_patterns()
    ensures { (pin_counts : List ℕ) (truth : CellTruth) (cells : List (List Expr)) →
        AreCells pin_counts truth cells → ArePatterns pin_counts (patterns_of cells) }
{}

/// The patterns of a library have the truth of their cells.
pub fn library_patterns_have_the_truth()
    ensures { (pin_counts : List ℕ) (truth : CellTruth) (cells : List (List Expr)) →
        AreCells pin_counts truth cells → HaveCellTruths pin_counts truth (patterns_of cells) }
{}
