//! Laws about depths and about networks of tables: functions whose clauses are the laws.
ghost use Rattle.std.specs.Prelude.{◌≡◌, ◌≤◌, ℕ, All};
ghost use Rattle.std.specs.Prelude.{Option, Some};
ghost use Rattle.lw_laws.specs.Classes.{IsGraphOf, class_in};
ghost use Rattle.lw_laws.specs.Listings.{IsListed, listing_of};
ghost use Rattle.lw_laws.specs.Forms.{Form};
ghost use Rattle.lw_laws.specs.Graphs.{Graph};
ghost use Rattle.lw_laws.specs.Modes.{Mode};
ghost use Rattle.lw_laws.specs.Networks.{Network};
ghost use Rattle.lw_laws.specs.Signals.{signals_of};
ghost use Rattle.lw_lut.specs.Covers.{HasLeastDepth, IsLeastDepth};
ghost use Rattle.lw_lut.specs.Depths.{DepthLists, AreLeastDepths};
ghost use Rattle.lw_lut.specs.Nets.{PlainTableNet, AreFit, IsTableNetOf, IsTableNet};
ghost use Rattle.lw_lut.specs.Searches.{IsKnown};
ghost use Rattle.lw_lut.specs.declared.ports.TablePorts.{TablePorts};

use lw_laws::graphs::graphs_have_the_trees;

/// In the graph of a network's forms the depth of the class of a form is the least of any cover
/// by tables of any tree that the rules derive for the form, and the class of each form that
/// occurs has a depth.
pub fn class_depths_are_form_depths()
    ensures least { (mode : Mode) (width : ℕ) (net : Network) (g : Graph) → 2 ≤ width →
        IsGraphOf mode net.inputs (listing_of width net) g → (most : ℕ) (f : Form) (d : ℕ) →
        IsListed (listing_of width net) f →
        IsLeastDepth g most (class_in (listing_of width net) g f) (Some d) →
        HasLeastDepth mode width (signals_of width net) most f d }
    ensures some { (mode : Mode) (width : ℕ) (net : Network) (g : Graph) → 2 ≤ width →
        IsGraphOf mode net.inputs (listing_of width net) g → (most : ℕ) (f : Form) (o : Option ℕ) →
        IsListed (listing_of width net) f →
        IsLeastDepth g most (class_in (listing_of width net) g f) o → (d : ℕ) × (o ≡ Some d) }
{
    graphs_have_the_trees();
}

/// The inputs and tables of a network of tables have one class each, and each root and each fan-in
/// is the class of one of them.
pub fn table_nets_are_kept()
    ensures { (g : Graph) (most : ℕ) (lists : DepthLists) (ports : TablePorts)
        (n : PlainTableNet) → AreLeastDepths g most lists → AreFit g ports →
        All (λ root. IsKnown lists.depths root.0) ports.roots →
        IsTableNetOf g most lists.depths ports n → IsTableNet n }
{}
