//! Laws about networks that are joined. Each function has an empty body; its clauses are the law.
ghost use Rattle.std.specs.Prelude.{◌++◌, ◌≤◌, ◌≡◌, ◌+◌, ◌<◌, ℕ, [], Contains, List, length, map};
ghost use Rattle.lw_laws.specs.Covers.{ArePatterns, Pattern, Timing};
ghost use Rattle.lw_laws.specs.Forms.{Form};
ghost use Rattle.lw_laws.specs.Headline.{HasLeastTime};
ghost use Rattle.lw_laws.specs.Listings.{listing_of};
ghost use Rattle.lw_laws.specs.Modes.{Mode};
ghost use Rattle.lw_laws.specs.Networks.{IsInOrder, Network};
ghost use Rattle.lw_laws.specs.SignalValues.{AreNetForms, IsSoundListing};
ghost use Rattle.lw_laws.specs.Signals.{Signal, signals_of};
ghost use Rattle.lw_net.specs.Networks.{IsNetwork, NetworkParts, plain};
ghost use Rattle.lw_joined.specs.Joins.{ArriveTogether, BeginsWith, HasTheForms, HasTheValues};
ghost use Rattle.lw_joined.specs.Joins.{IsJoin, IsNoEarlier, joined_listing, own_form};
ghost use Rattle.lw_joined.specs.Renaming.{Holds, net_at, starting};
ghost use Rattle.lw_joined.specs.Unions.{united};

/// A union has the values of the network that it begins with.
pub fn unions_have_the_values()
    ensures { (net union : Network) → BeginsWith net union → IsInOrder union →
        HasTheValues net union }
{}

/// The forms of the network's nets are the same in the union.
pub fn unions_have_the_forms()
    ensures { (width : ℕ) (net union : Network) → BeginsWith net union →
        HasTheForms width net union }
{}

/// The forms of a union with pairs of one value are a listing in which linked forms have one value,
/// and the network's own forms have the values of its nets.
pub fn joins_are_sound()
    ensures { (width : ℕ) (net union : Network) (links : List Signal) → 2 ≤ width → IsInOrder net →
        IsJoin width net union links →
        IsSoundListing net.inputs (joined_listing width union links)
        × AreNetForms net (joined_listing width union links) (own_form width net) }
{}

/// More pairs of forms, by links or by one network more, make no form later.
pub fn more_pairs_never_delay()
    ensures { (mode : Mode) (width : ℕ) (signals others : List Signal) (pats : List Pattern)
        (timing : Timing) (f : Form) →
        ((x : Signal) → Contains signals x → Contains others x) →
        IsNoEarlier mode width signals others pats timing f }
{}

/// Linked forms arrive together.
pub fn linked_forms_arrive_together()
    ensures { (mode : Mode) (width : ℕ) (signals : List Signal) (pats : List Pattern)
        (timing : Timing) (x : Signal) → Contains signals x →
        ArriveTogether mode width signals pats timing x }
{}

/// A form that is linked to one of a further network is no later than that network alone.
pub fn linked_forms_are_no_later_than_alone()
    ensures { (mode : Mode) (width : ℕ) (net union : Network) (places : List ℕ) (first : ℕ)
        (links : List Signal) (pats : List Pattern) (timing : Timing) (x : Signal) (s d e : ℕ) →
        IsInOrder net → Holds union net places first →
        ArePatterns (map length timing.delays) pats → Contains links x →
        s < net.inputs + length net.nodes →
        x.fac ≡ own_form width union (net_at net places first s) →
        HasLeastTime mode width (signals_of width net) pats (starting places timing)
        (own_form width net s) d →
        HasLeastTime mode width (signals_of width union ++ links) pats timing x.sop e → e ≤ d }
{}

/// Alone and without links a network is mapped over its own forms.
pub fn unlinked_networks_are_themselves()
    ensures { (width : ℕ) (net : NetworkParts) → IsNetwork net →
        joined_listing width (plain (united net [] [])) [] ≡ listing_of width (plain net) }
{}
