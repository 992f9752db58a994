//! Laws about networks, their forms and the numbers of these forms. Each function has an empty
//! body; its clauses are the law.
ghost use Rattle.lw_laws.specs.Forms.{Form, conjunction, form_value, has_clash, joined, kept};
ghost use Rattle.lw_laws.specs.Laws.{ListsTheOccurring, TreesHaveValue};
ghost use Rattle.lw_laws.specs.Listings.{IsListing, Listing, listing_of};
ghost use Rattle.lw_laws.specs.Modes.{Mode};
ghost use Rattle.lw_laws.specs.Networks.{AreDepths, AreValues, IsInOrder, Network};
ghost use Rattle.lw_laws.specs.NumberedForms.{AreNumberedForms};
ghost use Rattle.lw_laws.specs.NumberedValues.{AreNumberedValues};
ghost use Rattle.lw_laws.specs.Numbering.{HasSameTrees, numbered};
ghost use Rattle.lw_laws.specs.Occurring.{HasInputsFirst, occurring_forms, part, sublists};
ghost use Rattle.lw_laws.specs.SignalValues.{AreNetForms, IsLinkOf, IsSoundListing, SignalsAgree};
ghost use Rattle.lw_laws.specs.SignalValues.{number_value, with_links};
ghost use Rattle.lw_laws.specs.Signals.{Signal, factored, factored_by, shared_literal, signals_of};
ghost use Rattle.lw_laws.specs.Signals.{sop_at};
ghost use Rattle.std.specs.Prelude.{◌≡◌, ◌≤◌, ◌<◌, ◌^◌, ℕ, Contains, List, Option, Bool, Some, map};
ghost use Rattle.std.specs.Prelude.{length, slice_get};

// Networks

/// A network in order has a right assignment of values for all values of its inputs.
pub fn some_assignment_is_right()
    ensures { (net : Network) → IsInOrder net → (x : ℕ → Bool) →
        (values : List Bool) × AreValues net x values }
{}

/// A network in order has no second right assignment.
pub fn right_assignments_are_one()
    ensures { (net : Network) → IsInOrder net → (x : ℕ → Bool) (values others : List Bool) →
        AreValues net x values → AreValues net x others → values ≡ others }
{}

/// A network in order has depths.
pub fn some_depths_are_right()
    ensures { (net : Network) → IsInOrder net → (depths : List ℕ) × AreDepths net depths }
{}

/// A network in order has no second list of depths.
pub fn depths_are_one()
    ensures { (net : Network) → IsInOrder net → (depths others : List ℕ) → AreDepths net depths →
        AreDepths net others → depths ≡ others }
{}

// Forms

/// The sum of products of each net has the net's value.
pub fn sums_of_products_have_the_values()
    ensures { (net : Network) → IsInOrder net → (x : ℕ → Bool) (width : ℕ) (values : List Bool) →
        AreValues net x values → map (λ s. form_value x s.sop) (signals_of width net) ≡ values }
{}

/// The sum of products and the factored form of each net have one value.
pub fn factored_forms_have_the_values()
    ensures { (width : ℕ) (net : Network) (x : ℕ → Bool) → SignalsAgree (signals_of width net) x }
{}

/// The And of some forms in terms of Ands alone: the bound on the depth does not matter.
pub fn conjunction_in_steps()
    ensures { (width : ℕ) (fs : List Form) → 2 ≤ width →
        conjunction width fs ≡ joined (conjunction width) width (kept fs) (has_clash (kept fs)) }
{}

/// The factored form in terms of factored forms alone: the bound on the depth does not matter.
pub fn factored_in_steps()
    ensures { (width : ℕ) (fs : List Form) (rows : List (List (Option Bool))) →
        factored width fs rows ≡ factored_by (factored width fs) width fs rows
        (shared_literal (length fs) rows) }
{}

/// The sub-list at place m of the sub-lists is the one whose mask is m.
pub fn sublists_stand_by_mask()
    ensures { (fs : List Form) (mask : ℕ) → mask < 2 ^ length fs →
        slice_get (sublists fs) mask ≡ Some (part fs mask) }
{}

/// The occurring forms of a network are base forms, each once, with each And's operands and shorter
/// parts before it.
pub fn occurring_forms_are_listed()
    ensures { (width : ℕ) (net : Network) → 2 ≤ width → IsListing (listing_of width net) }
{}

/// The list of forms of a network has exactly the forms that occur, as they are or by their
/// complements.
pub fn occurring_forms_are_those_that_occur()
    ensures { (width : ℕ) (net : Network) → 2 ≤ width → ListsTheOccurring (listing_of width net) }
{}

/// True is listed first, then the inputs in order, and no other input.
pub fn true_and_inputs_come_first()
    ensures { (width : ℕ) (net : Network) → 2 ≤ width →
        HasInputsFirst net.inputs (occurring_forms width net) }
{}

/// The forms of a network are a listing in which linked forms have one value.
pub fn networks_have_sound_listings()
    ensures { (width : ℕ) (net : Network) → 2 ≤ width →
        IsSoundListing net.inputs (listing_of width net) }
{}

/// Further links of listed forms with one value keep a listing sound.
pub fn links_keep_listings_sound()
    ensures { (inputs : ℕ) (o : Listing) (links : List Signal) → IsSoundListing inputs o →
        ((x : Signal) → Contains links x → IsLinkOf o x) →
        IsSoundListing inputs (with_links o links) }
{}

/// The sums of products of a network's nets are listed, and have the nets' values.
pub fn sums_of_products_are_net_forms()
    ensures { (width : ℕ) (net : Network) → 2 ≤ width → IsInOrder net →
        AreNetForms net (listing_of width net) (sop_at (signals_of width net)) }
{}

/// Each tree of an occurring form has the form's value, where linked forms have one.
pub fn occurring_trees_have_the_value()
    ensures { (mode : Mode) (o : Listing) (x : ℕ → Bool) → IsListing o → SignalsAgree o.signals x →
        TreesHaveValue mode o x }
{}

/// Each tree of an occurring form of a network has the form's value.
pub fn trees_have_the_value()
    ensures { (mode : Mode) (width : ℕ) (net : Network) (x : ℕ → Bool) → 2 ≤ width →
        TreesHaveValue mode (listing_of width net) x }
{}

// Numbers of forms

/// the rules over numbers derive for each occurring form the trees that the rules over plain forms
/// give it.
pub fn numbers_have_the_same_trees()
    ensures { (mode : Mode) (inputs : ℕ) (o : Listing) → IsListing o → HasSameTrees mode inputs o }
{}

/// The numbered forms of a listing have each And's operands and parts listed before it.
pub fn numbered_forms_are_forms()
    ensures { (inputs : ℕ) (o : Listing) → IsListing o → AreNumberedForms (numbered inputs o) }
{}

/// The numbers of forms have the values of the forms.
pub fn numbers_have_the_values()
    ensures { (inputs : ℕ) (o : Listing) (x : ℕ → Bool) → IsListing o → SignalsAgree o.signals x →
        AreNumberedValues (numbered inputs o) x (number_value o x) }
{}
