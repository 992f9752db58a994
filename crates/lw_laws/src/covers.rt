//! Laws about covers, labels, heights and rounds. Each function has an empty body and is never run;
//! its clauses are the law.
ghost use Rattle.lw_laws.specs.Choices.{AreHeights, HasLabelAtMost, HaveLabels, IsHeight};
ghost use Rattle.lw_laws.specs.Choices.{IsInputClass};
ghost use Rattle.lw_laws.specs.Classes.{IsGraphOf};
ghost use Rattle.lw_laws.specs.Costs.{Cost, IsCost, cost_of};
ghost use Rattle.lw_laws.specs.Covers.{Timing, ArePatterns, Cover, Pattern, time_of};
ghost use Rattle.lw_laws.specs.Listings.{listing_of};
ghost use Rattle.lw_laws.specs.Delays.{delay_cost};
ghost use Rattle.lw_laws.specs.Extracts.{IsChosen, IsLeafClass, Match, Supports};
ghost use Rattle.lw_laws.specs.Graphs.{Graph};
ghost use Rattle.lw_laws.specs.HeightRounds.{IsHeightRound};
ghost use Rattle.lw_laws.specs.Laws.{AreBoundedIn, AreHeightsClosed, AreHeightsUpToIn};
ghost use Rattle.lw_laws.specs.Laws.{AreLeafLabels, AreSoundIn, BoundsCovers, HasClasses};
ghost use Rattle.lw_laws.specs.Laws.{IsAttainedIn, IsCoverProblem, IsLeafCost, IsTimingUpTo};
ghost use Rattle.lw_laws.specs.Mapped.{IsPotentialOf};
ghost use Rattle.lw_laws.specs.Marks.{HasMarkAtMost, Mark, heights_of, labels_of};
ghost use Rattle.lw_laws.specs.Matches.{IsLeastCover, IsMatchAt, choices_of};
ghost use Rattle.lw_laws.specs.Modes.{Mode};
ghost use Rattle.lw_laws.specs.Networks.{Network};
ghost use Rattle.lw_laws.specs.Priced.{AreMarks, IsPriced, IsPricedAtMost};
ghost use Rattle.lw_laws.specs.Rounds.{label_weight, labels_in, total_weight};
ghost use Rattle.std.specs.Prelude.{◌≡◌, ◌≤◌, ◌↔◌, ◌<◌, ◌+◌, ◌*◌, ℕ, List, Option, Some, map};
ghost use Rattle.std.specs.Prelude.{length, slice_get, slice_set, min};

// Covers and labels

/// The time of a cell, cut at the cap, is a cost.
pub fn delay_costs_are_costs()
    ensures { (timing : Timing) (cap : ℕ) → IsCost (delay_cost timing cap) }
{}

/// The cost of a cover that the delays give is its time, cut at the cap.
pub fn costs_are_times()
    ensures { (timing : Timing) (cap : ℕ) (k : Cover) →
        cost_of (delay_cost timing cap) k ≡ min cap (time_of timing k) }
{}

/// Each label of a potential is at most the cost of every cover of its class. A potential is labels
/// that no match and no input would lower. No code calls this; `check` rests on it.
pub fn potential_bounds_covers()
    ensures { (g : Graph) (pats : List Pattern) (cost : Cost) (labels : List (Option ℕ)) →
        IsCoverProblem g pats cost → IsPotentialOf g pats cost labels →
        BoundsCovers g pats cost labels }
{}

/// A potential whose labels are costs of covers has the least costs, and no label exactly where
/// there is no cover.
pub fn labels_are_least_covers()
    ensures { (g : Graph) (pats : List Pattern) (cost : Cost) (labels : List (Option ℕ)) →
        IsCoverProblem g pats cost → IsPotentialOf g pats cost labels →
        IsAttainedIn g pats cost labels → (c : ℕ) →
        IsLeastCover g pats cost c (labels_in labels c) }
{}

/// Two lists of labels that are potentials of costs of covers are one.
pub fn labels_are_one()
    ensures { (g : Graph) (pats : List Pattern) (cost : Cost) (rounds settled : List (Option ℕ)) →
        IsCoverProblem g pats cost → IsPotentialOf g pats cost rounds →
        IsAttainedIn g pats cost rounds → IsPotentialOf g pats cost settled →
        IsAttainedIn g pats cost settled → (c : ℕ) → labels_in rounds c ≡ labels_in settled c }
{}

/// A class has one least cost, or none.
pub fn least_costs_are_one()
    ensures { (g : Graph) (pats : List Pattern) (cost : Cost) (c : ℕ) (o p : Option ℕ) →
        IsLeastCover g pats cost c o → IsLeastCover g pats cost c p → o ≡ p }
{}

/// The least costs of the classes are a potential of costs of covers.
pub fn least_costs_are_a_potential()
    ensures { (g : Graph) (pats : List Pattern) (cost : Cost) (labels : List (Option ℕ)) →
        IsCoverProblem g pats cost → ((c : ℕ) → IsLeastCover g pats cost c (labels_in labels c)) →
        IsPotentialOf g pats cost labels × IsAttainedIn g pats cost labels }
{}

/// A class has one height.
pub fn heights_are_one()
    ensures { (g : Graph) (pats : List Pattern) (cost : Cost) (labels : ℕ → Option ℕ) (c h k : ℕ) →
        IsHeight (choices_of g cost.pin_counts pats) cost labels c h →
        IsHeight (choices_of g cost.pin_counts pats) cost labels c k → h ≡ k }
{}

/// Each labelled class has a height, where the labels are the least costs.
pub fn labelled_classes_have_heights()
    ensures { (g : Graph) (pats : List Pattern) (cost : Cost) (labels : List (Option ℕ)) →
        IsCoverProblem g pats cost → IsPotentialOf g pats cost labels →
        IsAttainedIn g pats cost labels → (c l : ℕ) → labels_in labels c ≡ Some l →
        (h : ℕ) × IsHeight (choices_of g cost.pin_counts pats) cost (labels_in labels) c h }
{}

/// Numbers that are 0 at inputs and elsewhere 1 more than the least greatest of an attaining match
/// are the heights.
pub fn heights_are_found_locally()
    ensures { (g : Graph) (pats : List Pattern) (cost : Cost) (labels : List (Option ℕ))
        (heights : ℕ → ℕ) →
        AreHeights (choices_of g cost.pin_counts pats) cost (labels_in labels) heights → (c l : ℕ) →
        labels_in labels c ≡ Some l →
        IsHeight (choices_of g cost.pin_counts pats) cost (labels_in labels) c (heights c) }
{}

/// Covers along heights end, and cost what the labels say.
pub fn covers_along_heights_attain()
    ensures { (g : Graph) (pats : List Pattern) (cost : Cost) (labels : List (Option ℕ))
        (heights : ℕ → ℕ) →
        AreHeights (choices_of g cost.pin_counts pats) cost (labels_in labels) heights →
        AreLeafLabels g cost labels → IsAttainedIn g pats cost labels }
{}

/// The labelled classes have heights that a local test finds, where the labels are the least costs.
pub fn some_heights_are_found()
    ensures { (g : Graph) (pats : List Pattern) (cost : Cost) (labels : List (Option ℕ)) →
        IsCoverProblem g pats cost → IsPotentialOf g pats cost labels →
        IsAttainedIn g pats cost labels →
        (heights : ℕ → ℕ) ×
        AreHeights (choices_of g cost.pin_counts pats) cost (labels_in labels) heights }
{}

/// Labels of times stay below the number of classes times the largest delay.
pub fn labels_stay_low()
    ensures { (g : Graph) (pats : List Pattern) (timing : Timing) (cap : ℕ)
        (labels : List (Option ℕ)) (delay : ℕ) →
        IsCoverProblem g pats (delay_cost timing cap) →
        IsPotentialOf g pats (delay_cost timing cap) labels →
        IsAttainedIn g pats (delay_cost timing cap) labels → IsTimingUpTo delay timing → 0 < delay →
        (c l : ℕ) → labels_in labels c ≡ Some l → l < (length labels + 1) * delay }
{}

// Rounds of labels and of heights

/// The costs of the inputs at their classes, and no other labels, are sound.
pub fn first_labels_are_sound()
    ensures { (g : Graph) (pats : List Pattern) (cost : Cost) (labels : List (Option ℕ)) →
        ((c l : ℕ) → labels_in labels c ≡ Some l → IsLeafCost g cost c l) →
        ((c i : ℕ) → slice_get g.leaves i ≡ Some c →
        HasLabelAtMost (labels_in labels) c (cost.leaf i)) →
        AreSoundIn g pats cost labels }
{}

/// A class that takes the value of a match with labelled pins, lower than its own label, leaves
/// labels sound.
pub fn lowered_labels_are_sound()
    ensures { (g : Graph) (pats : List Pattern) (cost : Cost) (labels : List (Option ℕ))
        (c cell : ℕ) (ps ls : List ℕ) →
        AreSoundIn g pats cost labels → c < length labels →
        IsMatchAt g cost.pin_counts pats c cell ps → HaveLabels (labels_in labels) ps ls →
        cost.value cell ls < label_weight cost.cap (labels_in labels c) →
        AreSoundIn g pats cost (slice_set labels c (Some (cost.value cell ls))) }
{}

/// A label that is set to a lower one lowers the weight of all labels.
pub fn weights_fall()
    ensures { (cap : ℕ) (labels : List (Option ℕ)) (c d : ℕ) → c < length labels →
        d < label_weight cap (labels_in labels c) →
        total_weight cap (slice_set labels c (Some d)) < total_weight cap labels }
{}

/// Labels that are costs of covers are not above the cap, and no more are the values of matches
/// with labelled pins.
pub fn sound_labels_are_capped()
    ensures { (g : Graph) (pats : List Pattern) (cost : Cost) (labels : List (Option ℕ)) →
        IsCoverProblem g pats cost → IsAttainedIn g pats cost labels →
        ((c l : ℕ) → labels_in labels c ≡ Some l → l ≤ cost.cap) ×
        ((c cell : ℕ) (ps ls : List ℕ) → IsMatchAt g cost.pin_counts pats c cell ps →
        HaveLabels (labels_in labels) ps ls → cost.value cell ls ≤ cost.cap) }
{}

/// A match whose pins all have labels stands at a class of the graph.
pub fn labelled_matches_are_in_range()
    ensures { (g : Graph) (pats : List Pattern) (cost : Cost) (labels : List (Option ℕ)) →
        HasClasses g (length labels) → (c cell : ℕ) (ps ls : List ℕ) →
        IsMatchAt g cost.pin_counts pats c cell ps → HaveLabels (labels_in labels) ps ls →
        c < length labels }
{}

/// Sound labels that no match would lower are a potential of costs of covers, and the least costs.
pub fn sound_and_bounded_labels_are_least()
    ensures { (g : Graph) (pats : List Pattern) (cost : Cost) (labels : List (Option ℕ)) →
        IsCoverProblem g pats cost → AreSoundIn g pats cost labels →
        AreBoundedIn g pats cost labels →
        IsPotentialOf g pats cost labels × IsAttainedIn g pats cost labels ×
        ((c : ℕ) → IsLeastCover g pats cost c (labels_in labels c)) }
{}

/// In the graph of a network's forms the least time of an input's class is the start of the input,
/// since each tree of the class
/// has the input as a leaf.
pub fn input_labels_are_starts()
    ensures { (mode : Mode) (width : ℕ) (net : Network) (g : Graph) → 2 ≤ width →
        IsGraphOf mode net.inputs (listing_of width net) g →
        (pats : List Pattern) (timing : Timing) (cap : ℕ) →
        ArePatterns (map length timing.delays) pats → (i c : ℕ) (o : Option ℕ) →
        slice_get g.leaves i ≡ Some c → IsLeastCover g pats (delay_cost timing cap) c o →
        o ≡ Some ((delay_cost timing cap).leaf i) }
{}

/// Heights of 0 at the inputs' classes, and no others, are the heights up to 0.
pub fn first_heights_are_right()
    ensures { (g : Graph) (pats : List Pattern) (cost : Cost) (labels : List (Option ℕ))
        (heights : ℕ → Option ℕ) →
        ((c i : ℕ) → slice_get g.leaves i ≡ Some c → heights c ≡ Some 0) →
        ((c k : ℕ) → heights c ≡ Some k → IsInputClass (choices_of g cost.pin_counts pats) c ×
        (k ≡ 0)) →
        AreHeightsUpToIn g pats cost labels heights 0 }
{}

/// A round of heights gives the heights up to one more.
pub fn next_heights_are_right()
    ensures { (g : Graph) (pats : List Pattern) (cost : Cost) (labels : List (Option ℕ))
        (heights next : ℕ → Option ℕ) (h : ℕ) →
        AreHeightsUpToIn g pats cost labels heights h →
        IsHeightRound (choices_of g cost.pin_counts pats) cost (labels_in labels) heights next h →
        AreHeightsUpToIn g pats cost labels next (h + 1) }
{}

/// Where a round of heights would add nothing, each labelled class has its height.
pub fn last_heights_are_all()
    ensures { (g : Graph) (pats : List Pattern) (cost : Cost) (labels : List (Option ℕ))
        (heights : ℕ → Option ℕ) (h : ℕ) →
        IsCoverProblem g pats cost → IsPotentialOf g pats cost labels →
        IsAttainedIn g pats cost labels → AreHeightsUpToIn g pats cost labels heights h →
        AreHeightsClosed g pats cost labels heights → (c l : ℕ) → labels_in labels c ≡ Some l →
        (k : ℕ) × (heights c ≡ Some k) ×
        IsHeight (choices_of g cost.pin_counts pats) cost (labels_in labels) c k }
{}

/// No match is priced by the marks of its pins below the mark of its class.
pub fn priced_matches_are_above_marks()
    ensures { (g : Graph) (cost : Cost) (pats : List Pattern) (marks : ℕ → Option Mark) →
        AreMarks g cost pats marks → (c : ℕ) (m : Match) (p : Pattern) (k : Mark) →
        IsPriced g cost pats marks c m p k → HasMarkAtMost marks c k }
{}

/// At a class that is no input's, the matches that attain the label and the height are those priced
/// at the mark of the class.
pub fn supports_are_priced()
    ensures { (g : Graph) (cost : Cost) (pats : List Pattern) (marks : ℕ → Option Mark) →
        AreMarks g cost pats marks → (c : ℕ) (m : Match) (p : Pattern) (k : Mark) →
        (IsLeafClass g c → ⊥) → marks c ≡ Some k →
        Supports g cost pats (labels_of marks) (heights_of marks) c m p ↔
        IsPriced g cost pats marks c m p k }
{}

/// A marked class that is no input's has a match that attains its label and its height.
pub fn marked_classes_have_supports()
    ensures { (g : Graph) (cost : Cost) (pats : List Pattern) (marks : ℕ → Option Mark) →
        AreMarks g cost pats marks → (c : ℕ) (k : Mark) → (IsLeafClass g c → ⊥) → marks c ≡ Some k →
        (m : Match) × (p : Pattern) × Supports g cost pats (labels_of marks)
        (heights_of marks) c m p }
{}

/// At a class that is no input's, the least match by the marks of its pins is the chosen one, and
/// its price is the mark of the class.
pub fn least_priced_matches_are_chosen()
    ensures { (g : Graph) (cost : Cost) (pats : List Pattern) (marks : ℕ → Option Mark) →
        AreMarks g cost pats marks → (c : ℕ) (m : Match) (p : Pattern) (k j : Mark) →
        (IsLeafClass g c → ⊥) → marks c ≡ Some j → IsPriced g cost pats marks c m p k →
        ((n : Match) (q : Pattern) (i : Mark) → IsPriced g cost pats marks c n q i →
        IsPricedAtMost k m i n) →
        (k ≡ j) × IsChosen g cost pats (labels_of marks) (heights_of marks) c m p }
{}
