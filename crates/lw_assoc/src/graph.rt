ghost use Rattle.std.specs.Prelude.{◌≡◌, ◌<◌, ◌≤◌, ◌↔◌, ℕ, Bool, length, Err, IfOk};
ghost use Rattle.lw_laws.specs.Networks.{Network};
ghost use Rattle.lw_laws.specs.Graphs.{IsWritten, PairsInOneClass, most_classes};
ghost use Rattle.lw_laws.specs.Encodings.{Encodes};
ghost use Rattle.lw_laws.specs.NumberedForms.{family_of};
ghost use Rattle.lw_laws.specs.NumberedValues.{AreNumberedValues};
ghost use Rattle.lw_laws.specs.Laws.{HasNumberedTrees, HasNumberedTruth};
ghost use Rattle.lw_laws.specs.Classes.{IsGraphOf};
ghost use Rattle.lw_laws.specs.Listings.{listing_of};
ghost use Rattle.lw_laws.specs.Occurring.{occurring_forms, split_count};
ghost use Rattle.lw_laws.specs.Mapped.{forms_of};
ghost use Rattle.lw_assoc.specs.Modes.{law_mode};
ghost use Rattle.lw_assoc.specs.Splits.{most_splits, numbered_splits};
ghost use Rattle.lw_assoc.specs.declared.fault.GraphFault.TheVariants.{Limit};

use crate::drafting::draft_of;
use crate::splits::{MOST_SPLITS, split_count};
use crate::{GraphFault, Mode};
use lw_form::Forms;
use lw_graph::Graph;
use lw_reduce::reduce;
use std::alloc::Global;

/// The graph of the classes of some listed forms, in which the trees of each form's class are those
/// that the rules of decomposition derive for the form in a mode. `Limit` comes exactly where there
/// are more than 16,777,216 splits of the mode, before memory is taken for them.
pub fn build(alloc: Global, forms: &Forms, mode: Mode) -> Result<Graph, GraphFault>
    ensures limit { (result ≡ Err Limit) ↔
        (most_splits < numbered_splits (law_mode mode) forms.now) }
    ensures limit_of_network { (width : ℕ) (net : Network) → forms.now ≡ forms_of width net →
        (result ≡ Err Limit) ↔ (most_splits < split_count (law_mode mode)
        (occurring_forms width net)) }
    ensures graph { IfOk result (λ g. (width : ℕ) (net : Network) → 2 ≤ width →
        forms.now ≡ forms_of width net →
        IsGraphOf (law_mode mode) net.inputs (listing_of width net) g) }
    ensures written { IfOk result (λ g. IsWritten (length forms.now.bases) forms.now.inputs g) }
    ensures few { IfOk result (λ g. length g.pairs ≤ most_classes) }
    ensures encodes { IfOk result (λ g. Encodes (family_of (law_mode mode) forms.now) g) }
    ensures trees { IfOk result (λ g. HasNumberedTrees (law_mode mode) forms.now g) }
    ensures values { IfOk result (λ g. (x value : ℕ → Bool) → AreNumberedValues forms.now x value →
        HasNumberedTruth (law_mode mode) forms.now g x value) }
    ensures once { IfOk result (λ g. PairsInOneClass g) }
{
    if split_count(forms, mode) > MOST_SPLITS {
        return Err(GraphFault::Limit);
    }
    let draft = draft_of(alloc, forms, mode)?;
    Ok(reduce(alloc, draft)?)
}
