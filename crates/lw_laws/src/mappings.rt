//! Laws about netlists and about the headline. Each function has an empty body; its clauses are the
//! law.
ghost use Rattle.lw_laws.specs.Costs.{Cost};
ghost use Rattle.lw_laws.specs.Covers.{Timing, ArePatterns, Pattern};
ghost use Rattle.lw_laws.specs.Classes.{class_in};
ghost use Rattle.lw_laws.specs.Delays.{delay_cost};
ghost use Rattle.lw_laws.specs.Encodings.{Encodes};
ghost use Rattle.lw_laws.specs.Extracts.{AreDistinctLeaves, AreGateClasses, HaveLeafLabels};
ghost use Rattle.lw_laws.specs.Extracts.{IsChosen, IsExtracted, IsNetOf, Match, class_at};
ghost use Rattle.lw_laws.specs.Forms.{Form, form_value};
ghost use Rattle.lw_laws.specs.Graphs.{Graph};
ghost use Rattle.lw_laws.specs.Headline.{CoversForms, HasLeastArrival, HasLeastTime, HasNoCover};
ghost use Rattle.lw_laws.specs.Headline.{HasNoCoverOf, IsMapping, MapsForms, Ports, StandsForCover};
ghost use Rattle.lw_laws.specs.Headline.{StandsForCoverOf};
ghost use Rattle.lw_laws.specs.Listings.{IsListed, IsListing, Listing};
ghost use Rattle.lw_laws.specs.InTime.{AreLeastTimes, ArriveBy, CoversNetwork};
ghost use Rattle.lw_laws.specs.Mapped.{AreAtForms, AreRooted, AreRootedAtForms, IsAtForm, IsAtNet};
ghost use Rattle.lw_laws.specs.Mapped.{IsCoverAt, IsCoveredOver, IsCoveredOverForms};
ghost use Rattle.lw_laws.specs.Mapped.{IsLabelledOver, IsLabelledOverForms, IsMapped, IsMappedOver};
ghost use Rattle.lw_laws.specs.Mapped.{IsMappedOverForms, IsRootedAt, IsRootedAtForm, forms_of};
ghost use Rattle.lw_laws.specs.Mapped.{root_class};
ghost use Rattle.lw_laws.specs.MatchLists.{AreMatchesInOrder, Gated, IsMadeOf, IsMatchNetlist};
ghost use Rattle.lw_laws.specs.MatchLists.{gated_classes};
ghost use Rattle.lw_laws.specs.MappedNetlists.{AreNetNames, ArePortNames, HasPorts};
ghost use Rattle.lw_laws.specs.MappedNetlists.{IsMatchNetlistOf, IsNetlistOf, IsNetlistOfForms};
ghost use Rattle.lw_laws.specs.Matches.{IsLeastCover};
ghost use Rattle.lw_laws.specs.Modes.{Mode};
ghost use Rattle.lw_laws.specs.Names.{AreDifferent, AreNameable, net_names};
ghost use Rattle.lw_laws.specs.Netlists.{AreArrivals, AreByDepth, AreNetCosts, AreNetDepths};
ghost use Rattle.lw_laws.specs.Netlists.{AreNetlistValues, AreOrdered, CellTruth, HaveCellTruths};
ghost use Rattle.lw_laws.specs.Netlists.{Netlist};
ghost use Rattle.lw_laws.specs.Networks.{AreValues, IsInOrder, Network};
ghost use Rattle.lw_laws.specs.NumberedForms.{family_of};
ghost use Rattle.lw_laws.specs.Numbering.{numbered};
ghost use Rattle.lw_laws.specs.Rounds.{labels_in};
ghost use Rattle.lw_laws.specs.SignalValues.{AreNetForms, IsSoundListing};
ghost use Rattle.lw_laws.specs.Signals.{Signal};
ghost use Rattle.std.specs.Prelude.{◌++◌, ◌≡◌, ◌≤◌, ◌<◌, ◌^◌, ◌+◌, ℕ, List, Option, Bool, Some};
ghost use Rattle.std.specs.Prelude.{None, map, length, slice_get, slice_index_or, min};

// Netlists

/// A netlist in order has a right assignment of values for all values of its inputs.
pub fn some_netlist_values_are_right()
    ensures { (n : Netlist) → AreOrdered n → (truth : CellTruth) (x : ℕ → Bool) →
        (values : List Bool) × AreNetlistValues truth n x values }
{}

/// A netlist in order has no second right assignment.
pub fn netlist_values_are_one()
    ensures { (n : Netlist) → AreOrdered n →
        (truth : CellTruth) (x : ℕ → Bool) (values others : List Bool) →
        AreNetlistValues truth n x values → AreNetlistValues truth n x others → values ≡ others }
{}

/// A netlist in order has arrivals.
pub fn some_arrivals_are_right()
    ensures { (n : Netlist) → AreOrdered n → (timing : Timing) →
        (arrivals : List ℕ) × AreArrivals timing n arrivals }
{}

/// A netlist in order has no second list of arrivals.
pub fn arrivals_are_one()
    ensures { (n : Netlist) → AreOrdered n → (timing : Timing) (arrivals others : List ℕ) →
        AreArrivals timing n arrivals → AreArrivals timing n others → arrivals ≡ others }
{}

/// A netlist in order has costs of its nets.
pub fn some_net_costs_are_right()
    ensures { (n : Netlist) → AreOrdered n → (cost : Cost) → (costs : List ℕ) ×
        AreNetCosts cost n costs }
{}

/// A netlist in order has no second list of costs of its nets.
pub fn net_costs_are_one()
    ensures { (n : Netlist) → AreOrdered n → (cost : Cost) (costs others : List ℕ) →
        AreNetCosts cost n costs → AreNetCosts cost n others → costs ≡ others }
{}

/// A netlist in order has depths of its nets.
pub fn some_net_depths_are_right()
    ensures { (n : Netlist) → AreOrdered n → (depths : List ℕ) × AreNetDepths n depths }
{}

/// A netlist in order has no second list of depths of its nets.
pub fn net_depths_are_one()
    ensures { (n : Netlist) → AreOrdered n → (depths others : List ℕ) → AreNetDepths n depths →
        AreNetDepths n others → depths ≡ others }
{}

/// A net of a netlist whose gates are matches stands for a cover of its class, has the value of the
/// cover's tree, and arrives at the cover's time.
pub fn mapped_nets_stand_for_covers()
    ensures { (g : Graph) (pats : List Pattern) (timing : Timing) (truth : CellTruth) (n : Netlist)
        (class : ℕ → ℕ) →
        ArePatterns (map length timing.delays) pats →
        HaveCellTruths (map length timing.delays) truth pats → AreOrdered n →
        IsMapped g (map length timing.delays) pats n class → (net : ℕ) →
        net < n.inputs + length n.gates → IsCoverAt g pats timing truth n class net }
{}

/// The chosen match of a class is one.
pub fn chosen_matches_are_one()
    ensures { (g : Graph) (cost : Cost) (pats : List Pattern) (labels : ℕ → Option ℕ)
        (heights : ℕ → ℕ) (c : ℕ) (m k : Match) (p q : Pattern) →
        IsChosen g cost pats labels heights c m p → IsChosen g cost pats labels heights c k q →
        m ≡ k }
{}

/// The list of the classes with a gate is one.
pub fn gate_classes_are_one()
    ensures { (g : Graph) (cost : Cost) (pats : List Pattern) (labels : ℕ → Option ℕ)
        (heights : ℕ → ℕ) (roots gates others : List ℕ) →
        AreGateClasses g cost pats labels heights roots gates →
        AreGateClasses g cost pats labels heights roots others → gates ≡ others }
{}

/// The netlist of the chosen matches is one, where the inputs' classes differ.
pub fn extracted_netlists_are_one()
    ensures { (g : Graph) (cost : Cost) (pats : List Pattern) (labels : ℕ → Option ℕ)
        (heights : ℕ → ℕ) (roots gates : List ℕ) →
        AreGateClasses g cost pats labels heights roots gates → AreDistinctLeaves g →
        (n m : Netlist) → IsExtracted g cost pats labels heights gates n →
        IsExtracted g cost pats labels heights gates m → n ≡ m }
{}

/// The netlist of the chosen matches is in order, and each gate is a match of its class with the
/// classes of its pins. No class has two gates, and no input's class has one.
pub fn extracted_netlists_are_mapped()
    ensures { (g : Graph) (cost : Cost) (pats : List Pattern) (labels : ℕ → Option ℕ)
        (heights : ℕ → ℕ) (roots gates : List ℕ) →
        AreGateClasses g cost pats labels heights roots gates → (n : Netlist) →
        IsExtracted g cost pats labels heights gates n →
        IsMatchNetlist g cost.pin_counts pats gates n }
{}

/// The netlist that any list of matches makes is in order, and each gate is a match of its class
/// with the classes of its pins, where each pin's class is an input's or stands earlier in the
/// list, and no class stands twice.
pub fn made_netlists_are_mapped()
    ensures { (g : Graph) (pin_counts : List ℕ) (pats : List Pattern) (xs : List Gated)
        (n : Netlist) → AreMatchesInOrder g pin_counts pats xs → IsMadeOf g pats xs n →
        IsMatchNetlist g pin_counts pats (gated_classes xs) n }
{}

/// Each net of the netlist of the chosen matches costs the label of its class, where each input's
/// class has its leaf's cost as its
/// label.
pub fn extracted_costs_are_labels()
    ensures { (g : Graph) (cost : Cost) (pats : List Pattern) (labels : ℕ → Option ℕ)
        (heights : ℕ → ℕ) (roots gates : List ℕ) (n : Netlist) (costs : List ℕ) →
        AreGateClasses g cost pats labels heights roots gates →
        IsExtracted g cost pats labels heights gates n → AreNetCosts cost n costs →
        HaveLeafLabels g cost labels → (c net : ℕ) → IsNetOf g gates c net →
        labels c ≡ Some (slice_index_or costs net 0) }
{}

/// The costs of nets under the delay cost are their arrivals, cut at the cap.
pub fn net_costs_are_arrivals()
    ensures { (timing : Timing) (cap : ℕ) (n : Netlist) (arrivals : List ℕ) →
        AreArrivals timing n arrivals →
        AreNetCosts (delay_cost timing cap) n (map (min cap) arrivals) }
{}

/// Each net of the netlist of the chosen matches arrives at the label of its class, where no label
/// reaches the cap.
pub fn extracted_arrivals_are_labels()
    ensures { (g : Graph) (pats : List Pattern) (timing : Timing) (cap : ℕ) (labels : ℕ → Option ℕ)
        (heights : ℕ → ℕ) (roots gates : List ℕ) (n : Netlist) (arrivals : List ℕ) →
        AreGateClasses g (delay_cost timing cap) pats labels heights roots gates →
        IsExtracted g (delay_cost timing cap) pats labels heights gates n →
        AreArrivals timing n arrivals → HaveLeafLabels g (delay_cost timing cap) labels →
        ((c l : ℕ) → labels c ≡ Some l → l < cap) → (c net : ℕ) → IsNetOf g gates c net →
        labels c ≡ Some (slice_index_or arrivals net 0) }
{}

/// The names of the nets of a mapped netlist differ.
pub fn net_names_differ()
    ensures { (inputs outputs : List (List ℕ)) (leaves roots gates : List ℕ) →
        AreNameable inputs outputs leaves roots gates →
        AreDifferent (net_names inputs outputs roots gates) }
{}

/// A net with an output's name is at the output's class.
pub fn outputs_own_their_names()
    ensures { (inputs outputs : List (List ℕ)) (leaves roots gates : List ℕ) →
        AreNameable inputs outputs leaves roots gates → length leaves ≡ length inputs →
        (j k : ℕ) (name : List ℕ) → slice_get (net_names inputs outputs roots gates) j ≡ Some name →
        slice_get outputs k ≡ Some name → slice_get (leaves ++ gates) j ≡ slice_get roots k }
{}

// The headline for any listing whose linked forms have one value

/// The arrival of a net that is rooted at a form is the least time of a library cover of a tree
/// that the rules derive for the form.
pub fn rooted_nets_are_least()
    ensures { (mode : Mode) (inputs : ℕ) (o : Listing) (g : Graph) (pats : List Pattern)
        (timing : Timing) (cap : ℕ) (labels : List (Option ℕ)) (n : Netlist) (class : ℕ → ℕ)
        (arrivals : List ℕ) →
        IsSoundListing inputs o → IsMappedOverForms mode inputs o g pats timing cap labels n class →
        AreArrivals timing n arrivals → (f : Form) (k : ℕ) → IsListed o f →
        IsRootedAtForm o g labels n class arrivals f k →
        HasLeastTime mode o.width o.signals pats timing f (slice_index_or arrivals k 0) }
{}

/// A net at the class of a form has the form's value, whatever it arrives at.
pub fn nets_at_forms_have_values()
    ensures { (mode : Mode) (inputs : ℕ) (o : Listing) (g : Graph) (pats : List Pattern)
        (timing : Timing) (n : Netlist) (class : ℕ → ℕ) (truth : CellTruth) →
        IsSoundListing inputs o → IsCoveredOverForms mode inputs o g pats timing n class →
        HaveCellTruths (map length timing.delays) truth pats →
        (x : ℕ → Bool) (mapped : List Bool) → AreNetlistValues truth n x mapped →
        (f : Form) (k : ℕ) → IsListed o f → IsAtForm o g n class f k →
        slice_get mapped k ≡ Some (form_value x f) }
{}

/// A net at the class of a form stands for a cover of a tree that the rules derive for the form,
/// and arrives at the cover's time.
pub fn nets_at_forms_stand_for_covers()
    ensures { (mode : Mode) (inputs : ℕ) (o : Listing) (g : Graph) (pats : List Pattern)
        (timing : Timing) (n : Netlist) (class : ℕ → ℕ) (arrivals : List ℕ) →
        IsSoundListing inputs o → IsCoveredOverForms mode inputs o g pats timing n class →
        AreArrivals timing n arrivals → (f : Form) (k : ℕ) → IsListed o f →
        IsAtForm o g n class f k →
        StandsForCoverOf mode o.width o.signals pats timing n f k (slice_index_or arrivals k 0) }
{}

/// A netlist whose gates are matches, with each output at the class of its form, covers the forms:
/// it computes the network's outputs, each as a cover of its form.
pub fn covered_netlists_cover_forms()
    ensures { (mode : Mode) (o : Listing) (form : ℕ → Form) (net : Network) (g : Graph)
        (pats : List Pattern) (timing : Timing) (n : Netlist) (class : ℕ → ℕ) (truth : CellTruth)
        (ports mapped : Ports) →
        IsSoundListing net.inputs o → AreNetForms net o form → HasPorts net ports →
        IsCoveredOverForms mode net.inputs o g pats timing n class →
        HaveCellTruths (map length timing.delays) truth pats →
        AreAtForms net.inputs o form g n class ports mapped →
        CoversForms mode o.width o.signals form net ports pats timing truth n mapped }
{}

/// Where the class of a form has no label, no cover is of a tree that the rules derive for it.
pub fn unlabelled_forms_have_no_cover()
    ensures { (mode : Mode) (inputs : ℕ) (o : Listing) (g : Graph) (pats : List Pattern)
        (timing : Timing) (cap : ℕ) (labels : List (Option ℕ)) →
        IsListing o → IsLabelledOverForms mode inputs o g pats timing cap labels → (f : Form) →
        IsListed o f → labels_in labels (class_in o g f) ≡ None →
        HasNoCoverOf mode o.width o.signals pats timing f }
{}

/// A netlist whose gates are matches, with each output at the class of its form and arriving at its
/// label, maps the forms: it computes the network's outputs, each at the least time of its form.
pub fn rooted_netlists_map_forms()
    ensures { (mode : Mode) (o : Listing) (form : ℕ → Form) (net : Network) (g : Graph)
        (pats : List Pattern) (timing : Timing) (cap : ℕ) (labels : List (Option ℕ)) (n : Netlist)
        (class : ℕ → ℕ) (arrivals : List ℕ) (truth : CellTruth) (ports mapped : Ports) →
        IsSoundListing net.inputs o → AreNetForms net o form → HasPorts net ports →
        IsMappedOverForms mode net.inputs o g pats timing cap labels n class →
        HaveCellTruths (map length timing.delays) truth pats → AreArrivals timing n arrivals →
        AreRootedAtForms net.inputs o form g labels n class arrivals ports mapped →
        MapsForms mode o.width o.signals form net ports pats timing truth n mapped }
{}

/// The least cost at the class of a form, where it is below the cap, is the form's least time.
pub fn least_labels_are_least_times()
    ensures { (mode : Mode) (inputs : ℕ) (o : Listing) (g : Graph) (pats : List Pattern)
        (timing : Timing) (cap : ℕ) →
        IsListing o → Encodes (family_of mode (numbered inputs o)) g → (f : Form) → IsListed o f →
        (d : ℕ) → d < cap → IsLeastCover g pats (delay_cost timing cap) (class_in o g f) (Some d) →
        HasLeastTime mode o.width o.signals pats timing f d }
{}

/// Where no cover stands at the class of a form, the form has none.
pub fn uncovered_forms_have_no_cover()
    ensures { (mode : Mode) (inputs : ℕ) (o : Listing) (g : Graph) (pats : List Pattern)
        (timing : Timing) (cap : ℕ) →
        IsListing o → Encodes (family_of mode (numbered inputs o)) g → (f : Form) → IsListed o f →
        IsLeastCover g pats (delay_cost timing cap) (class_in o g f) None →
        HasNoCoverOf mode o.width o.signals pats timing f }
{}

/// The netlist that forms of a network's nets are mapped to has the network's ports and values, and
/// the least times of the forms.
pub fn netlists_map_forms()
    ensures { (mode : Mode) (o : Listing) (form : ℕ → Form) (net : Network) (ports : Ports)
        (pats : List Pattern) (timing : Timing) (cap : ℕ) (truth : CellTruth) (n : Netlist)
        (names : List (List ℕ)) (mapped : Ports) →
        IsSoundListing net.inputs o → AreNetForms net o form → net.inputs < 2 ^ 32 →
        HasPorts net ports → ArePatterns (map length timing.delays) pats →
        HaveCellTruths (map length timing.delays) truth pats →
        (is : IsNetlistOfForms mode net.inputs o form ports pats timing cap n names mapped) →
        ((c l : ℕ) → labels_in is.labels c ≡ Some l → l < cap) →
        MapsForms mode o.width o.signals form net ports pats timing truth n mapped }
{}

/// The netlist that forms are mapped to is one, and so are the names of its nets and its ports.
pub fn netlists_of_forms_are_one()
    ensures { (mode : Mode) (inputs : ℕ) (o : Listing) (form : ℕ → Form) (ports : Ports)
        (pats : List Pattern) (timing : Timing) (cap : ℕ) (n m : Netlist)
        (names others : List (List ℕ)) (mapped also : Ports) →
        IsSoundListing inputs o →
        IsNetlistOfForms mode inputs o form ports pats timing cap n names mapped →
        IsNetlistOfForms mode inputs o form ports pats timing cap m others also →
        (n ≡ m) × (names ≡ others) × (mapped ≡ also) }
{}

// The headline

/// The arrival of an output of a mapped netlist is the least time of a library cover of a tree that
/// the rules derive for it.
pub fn mapped_outputs_are_least()
    ensures { (mode : Mode) (width : ℕ) (net : Network) (g : Graph) (pats : List Pattern)
        (timing : Timing) (cap : ℕ) (labels : List (Option ℕ)) (n : Netlist) (class : ℕ → ℕ)
        (arrivals : List ℕ) →
        IsMappedOver mode width net g pats timing cap labels n class →
        AreArrivals timing n arrivals → (s k : ℕ) →
        IsRootedAt width net g labels n class arrivals s k →
        HasLeastArrival mode width net pats timing s (slice_index_or arrivals k 0) }
{}

/// An output of a netlist of matches has the network's value for all values of the inputs.
pub fn mapped_outputs_have_values()
    ensures { (mode : Mode) (width : ℕ) (net : Network) (g : Graph) (pats : List Pattern)
        (timing : Timing) (n : Netlist) (class : ℕ → ℕ) (truth : CellTruth) →
        IsInOrder net → IsCoveredOver mode width net g pats timing n class →
        HaveCellTruths (map length timing.delays) truth pats →
        (x : ℕ → Bool) (values mapped : List Bool) → AreValues net x values →
        AreNetlistValues truth n x mapped → (s k : ℕ) →
        IsAtNet width net g n class s k →
        slice_get values s ≡ slice_get mapped k }
{}

/// The net of an output of a netlist of matches stands for a cover of a tree that the rules derive
/// for the output, and arrives at the cover's time.
pub fn mapped_outputs_stand_for_covers()
    ensures { (mode : Mode) (width : ℕ) (net : Network) (g : Graph) (pats : List Pattern)
        (timing : Timing) (n : Netlist) (class : ℕ → ℕ) (arrivals : List ℕ) →
        IsCoveredOver mode width net g pats timing n class →
        AreArrivals timing n arrivals → (s k : ℕ) →
        IsAtNet width net g n class s k →
        StandsForCover mode width net pats timing n s k (slice_index_or arrivals k 0) }
{}

/// Where the class of an output's sum of products has no label, no cover is of a tree that the laws
/// derive for it.
pub fn unlabelled_outputs_have_no_cover()
    ensures { (mode : Mode) (width : ℕ) (net : Network) (g : Graph) (pats : List Pattern)
        (timing : Timing) (cap : ℕ) (labels : List (Option ℕ)) →
        IsLabelledOver mode width net g pats timing cap labels → (s : ℕ) →
        s < net.inputs + length net.nodes → labels_in labels (root_class width net g s) ≡ None →
        HasNoCover mode width net pats timing s }
{}

/// A netlist whose gates are matches, with each output at the class of the network's output and
/// arriving at its label, is a mapping: it computes the network's outputs, each at the least time.
pub fn rooted_netlists_are_mappings()
    ensures { (mode : Mode) (width : ℕ) (net : Network) (g : Graph) (pats : List Pattern)
        (timing : Timing) (cap : ℕ) (labels : List (Option ℕ)) (n : Netlist) (class : ℕ → ℕ)
        (arrivals : List ℕ) (truth : CellTruth) (ports mapped : Ports) →
        IsInOrder net → IsMappedOver mode width net g pats timing cap labels n class →
        HaveCellTruths (map length timing.delays) truth pats → AreArrivals timing n arrivals →
        AreRooted width net g labels n class arrivals ports mapped →
        IsMapping mode width net ports pats timing truth n mapped }
{}

/// The least cost at the class of an output's sum of products, where it is below the cap, is the
/// output's least arrival.
pub fn least_labels_are_least_arrivals()
    ensures { (mode : Mode) (width : ℕ) (net : Network) (g : Graph) (pats : List Pattern)
        (timing : Timing) (cap : ℕ) →
        2 ≤ width → Encodes (family_of mode (forms_of width net)) g → (s : ℕ) →
        s < net.inputs + length net.nodes → (d : ℕ) → d < cap →
        IsLeastCover g pats (delay_cost timing cap) (root_class width net g s) (Some d) →
        HasLeastArrival mode width net pats timing s d }
{}

/// Where no cover stands at the class of an output's sum of products, the output has none.
pub fn uncovered_classes_have_no_cover()
    ensures { (mode : Mode) (width : ℕ) (net : Network) (g : Graph) (pats : List Pattern)
        (timing : Timing) (cap : ℕ) →
        2 ≤ width → Encodes (family_of mode (forms_of width net)) g → (s : ℕ) →
        s < net.inputs + length net.nodes →
        IsLeastCover g pats (delay_cost timing cap) (root_class width net g s) None →
        HasNoCover mode width net pats timing s }
{}

/// The netlist that a network is mapped to has its ports and values, and the least arrivals.
pub fn netlists_are_mappings()
    ensures { (mode : Mode) (width : ℕ) (net : Network) (ports : Ports) (pats : List Pattern)
        (timing : Timing) (cap : ℕ) (truth : CellTruth) (n : Netlist) (names : List (List ℕ))
        (mapped : Ports) →
        2 ≤ width → IsInOrder net → net.inputs < 2 ^ 32 → HasPorts net ports →
        ArePatterns (map length timing.delays) pats →
        HaveCellTruths (map length timing.delays) truth pats →
        (is : IsNetlistOf mode width net ports pats timing cap n names mapped) →
        ((c l : ℕ) → labels_in is.labels c ≡ Some l → l < cap) →
        IsMapping mode width net ports pats timing truth n mapped }
{}

/// The names of the nets of the netlist that a network is mapped to differ, and a net with an
/// output's name is that output's, where
/// the names of the network's inputs and outputs tell them apart.
pub fn mapped_nets_have_names()
    ensures { (mode : Mode) (width : ℕ) (net : Network) (ports : Ports) (pats : List Pattern)
        (timing : Timing) (cap : ℕ) (n : Netlist) (names : List (List ℕ)) (mapped : Ports) →
        2 ≤ width → IsNetlistOf mode width net ports pats timing cap n names mapped →
        ArePortNames net ports →
        1 + (length n.gates + (length ports.inputs + length ports.outputs)) < 2 ^ 64 →
        AreNetNames n names mapped }
{}

/// The gates of the netlist that a network is mapped to stand by depth.
pub fn mapped_gates_are_by_depth()
    ensures { (mode : Mode) (width : ℕ) (net : Network) (ports : Ports) (pats : List Pattern)
        (timing : Timing) (cap : ℕ) (n : Netlist) (names : List (List ℕ)) (mapped : Ports) →
        2 ≤ width → ArePatterns (map length timing.delays) pats →
        IsNetlistOf mode width net ports pats timing cap n names mapped → AreByDepth n }
{}

/// The netlist that a network is mapped to is one of matches over the same graph, with gates of the
/// same classes.
pub fn mapped_netlists_are_match_netlists()
    ensures { (mode : Mode) (width : ℕ) (net : Network) (ports : Ports) (pats : List Pattern)
        (timing : Timing) (cap : ℕ) (n : Netlist) (names : List (List ℕ)) (mapped : Ports) →
        (is : IsNetlistOf mode width net ports pats timing cap n names mapped) →
        (also : IsMatchNetlistOf mode width net ports pats
        (map length timing.delays) n names mapped)
        × (also.graph ≡ is.graph) × (also.gates ≡ is.gates) }
{}

/// A netlist of matches over the graph of a network's forms covers the network: it has its ports
/// and values, and each output stands for a cover of a tree that the rules derive for it, whose
/// time is its arrival.
pub fn match_netlists_cover_networks()
    ensures { (mode : Mode) (width : ℕ) (net : Network) (ports : Ports) (pats : List Pattern)
        (timing : Timing) (truth : CellTruth) (n : Netlist) (names : List (List ℕ))
        (mapped : Ports) →
        2 ≤ width → IsInOrder net → HasPorts net ports →
        ArePatterns (map length timing.delays) pats →
        HaveCellTruths (map length timing.delays) truth pats →
        IsMatchNetlistOf mode width net ports pats (map length timing.delays) n names mapped →
        CoversNetwork mode width net ports pats timing truth n mapped }
{}

/// The names of its nets differ, and a net with an output's name is that output's, where the names
/// of the network's inputs and outputs tell them apart.
pub fn match_nets_have_names()
    ensures { (mode : Mode) (width : ℕ) (net : Network) (ports : Ports) (pats : List Pattern)
        (pin_counts : List ℕ) (n : Netlist) (names : List (List ℕ)) (mapped : Ports) →
        2 ≤ width → IsMatchNetlistOf mode width net ports pats pin_counts n names mapped →
        ArePortNames net ports →
        1 + (length n.gates + (length ports.inputs + length ports.outputs)) < 2 ^ 64 →
        AreNetNames n names mapped }
{}

/// A netlist that covers a network with each output no later than its least time is a mapping of
/// it.
pub fn covers_in_time_are_mappings()
    ensures { (mode : Mode) (width : ℕ) (net : Network) (ports : Ports) (pats : List Pattern)
        (timing : Timing) (truth : CellTruth) (n : Netlist) (mapped : Ports) (times : List ℕ) →
        CoversNetwork mode width net ports pats timing truth n mapped →
        AreLeastTimes mode width net pats timing ports times → ArriveBy timing n mapped times →
        IsMapping mode width net ports pats timing truth n mapped }
{}

/// A form has one least time.
pub fn least_times_are_one()
    ensures { (mode : Mode) (width : ℕ) (signals : List Signal) (pats : List Pattern)
        (timing : Timing) (f : Form) (d e : ℕ) →
        HasLeastTime mode width signals pats timing f d →
        HasLeastTime mode width signals pats timing f e → d ≡ e }
{}

/// The netlist that a network is mapped to is one, and so are the names of its nets and its ports.
pub fn netlists_are_one()
    ensures { (mode : Mode) (width : ℕ) (net : Network) (ports : Ports) (pats : List Pattern)
        (timing : Timing) (cap : ℕ) (n m : Netlist) (names others : List (List ℕ))
        (mapped also : Ports) →
        2 ≤ width → IsNetlistOf mode width net ports pats timing cap n names mapped →
        IsNetlistOf mode width net ports pats timing cap m others also →
        (n ≡ m) × (names ≡ others) × (mapped ≡ also) }
{}
