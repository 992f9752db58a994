//! Laws about what networks of tables and their texts mean: functions whose clauses are the laws.
ghost use Rattle.std.specs.Prelude.{◌≡◌, ◌≤◌, ◌<◌, ◌+◌, ◌^◌, ◌++◌, ℕ, All, List, [], length};
ghost use Rattle.std.specs.Prelude.{Option, Some, None};
ghost use Rattle.lw_blif.specs.declared.fault.BlifKind.TheVariants.{LimitSignals};
ghost use Rattle.lw_blif.specs.LineFaults.{FaultAt, first_fault};
ghost use Rattle.lw_laws.specs.Classes.{IsGraphOf};
ghost use Rattle.lw_laws.specs.Listings.{listing_of};
ghost use Rattle.lw_laws.specs.Graphs.{Graph};
ghost use Rattle.lw_laws.specs.Headline.{Ports};
ghost use Rattle.lw_laws.specs.MappedNetlists.{ArePortNames, HasPorts, root_classes};
ghost use Rattle.lw_laws.specs.Modes.{Mode};
ghost use Rattle.lw_laws.specs.Networks.{Network, IsInOrder};
ghost use Rattle.lw_net.specs.Closing.{IsClosed};
ghost use Rattle.lw_net.specs.Networks.{NetworkParts};
ghost use Rattle.lw_net.specs.Plain.{plain};
ghost use Rattle.lw_lut.specs.Depths.{DepthLists, AreLeastDepths};
ghost use Rattle.lw_lut_text.specs.Meaning.{AreNamedApart, ArePortsApart, ArePortsOf, HaveRoots};
ghost use Rattle.lw_lut_text.specs.Meaning.{IsDraftOfAnySize, IsTableMapping, IsTableNetwork};
ghost use Rattle.lw_lut.specs.Nets.{PlainTableNet, AreFit, IsTableNetOf, IsTableNet};
ghost use Rattle.lw_lut_text.specs.Readable.{AreSayablePorts, AreUnlimited, IsSayable};
ghost use Rattle.lw_lut_text.specs.Readable.{IsTablesRead};
ghost use Rattle.lw_lut.specs.Searches.{IsKnown};
ghost use Rattle.lw_lut_text.specs.Said.{AreTableDepths, draft_said};
ghost use Rattle.lw_lut.specs.Texts.{tables_text};
ghost use Rattle.lw_lut.specs.declared.ports.TablePorts.{TablePorts};
ghost use Rattle.lw_pool.specs.declared.latch.Frame.{Frame};
ghost use Rattle.lw_words.specs.Lines.{LogicalLine};
ghost use Rattle.lw_pool.specs.Numbers.{numbers};

use lw_laws::graphs::{graphs_have_the_values, input_classes_differ};
use lw_lut::{class_depths_are_form_depths, table_nets_are_kept};

/// Where the ports are those of a network, and the graph is that of its forms, the ports fit the
/// graph, their names tell them apart, and each root has a depth.
pub fn network_ports_fit()
    ensures fit { (mode : Mode) (width : ℕ) (from : Network) (outer : Ports) (g : Graph)
        (ports : TablePorts) → 2 ≤ width → ArePortNames from outer →
        IsGraphOf mode from.inputs (listing_of width from) g →
        ArePortsOf width from outer g ports → length ports.outputs < 2 ^ 32 →
        All (λ root. root.0 < length g.pairs) ports.roots → AreFit g ports }
    ensures apart { (mode : Mode) (width : ℕ) (from : Network) (outer : Ports) (g : Graph)
        (ports : TablePorts) → 2 ≤ width → ArePortNames from outer →
        IsGraphOf mode from.inputs (listing_of width from) g →
        ArePortsOf width from outer g ports → ArePortsApart g ports }
    ensures known { (mode : Mode) (width : ℕ) (from : Network) (outer : Ports) (g : Graph)
        (most : ℕ) (lists : DepthLists) (ports : TablePorts) → 2 ≤ width → HasPorts from outer →
        IsGraphOf mode from.inputs (listing_of width from) g → AreLeastDepths g most lists →
        ArePortsOf width from outer g ports →
        All (λ root. IsKnown lists.depths root.0) ports.roots }
{
    class_depths_are_form_depths();
    input_classes_differ();
}

/// The names of a network of tables tell its nets apart, where those of the ports do and no number
/// of names reaches its end.
pub fn table_nets_are_named_apart()
    ensures { (g : Graph) (most : ℕ) (lists : DepthLists) (ports : TablePorts)
        (n : PlainTableNet) → AreLeastDepths g most lists → AreFit g ports →
        ArePortsApart g ports → IsTableNetOf g most lists.depths ports n → IsTableNet n →
        1 + (length g.pairs + (length ports.inputs + length ports.outputs)) < 2 ^ 64 →
        AreNamedApart n }
{}

/// What the text of a network of tables says is a draft with no fault: it is closed to a network.
pub fn tables_close()
    ensures draft { (n : PlainTableNet) → IsTableNet n → AreNamedApart n →
        IsDraftOfAnySize (draft_said n) }
    ensures closed { (g : Graph) (most : ℕ) (depths : List (Option ℕ)) (ports : TablePorts)
        (n : PlainTableNet) → IsTableNetOf g most depths ports n → IsTableNet n → AreNamedApart n →
        (net : NetworkParts) × IsClosed (draft_said n) net }
{}

/// The network that the text of a network of tables says has the ports' names, no node of it has
/// more fan-ins than a table may have, and each output has the value of its root's class under
/// every assignment, and the class's depth.
pub fn tables_compute_classes()
    ensures { (g : Graph) (most : ℕ) (lists : DepthLists) (ports : TablePorts) (n : PlainTableNet)
        (net : NetworkParts) → 1 ≤ most → AreLeastDepths g most lists →
        IsTableNetOf g most lists.depths ports n → IsTableNet n → AreNamedApart n →
        IsClosed (draft_said n) net → IsTableNetwork g most lists.depths ports net }
{}

/// A network in order has no second list of the depths that count all nodes but wires.
pub fn table_depths_are_one()
    ensures { (net : NetworkParts) → IsInOrder (plain net) → (depths others : List ℕ) →
        AreTableDepths net depths → AreTableDepths net others → depths ≡ others }
{}

/// Where the graph is that of a network's forms, and the roots are the classes of the sums of
/// products of its outputs, each output of the network of tables has the network's value under
/// every assignment, and the least depth of any cover by tables.
pub fn tables_have_least_depths()
    ensures { (mode : Mode) (width : ℕ) (from : Network) (outer : Ports) (g : Graph) (most : ℕ)
        (lists : DepthLists) (ports : TablePorts) (net : NetworkParts) → 2 ≤ width →
        IsInOrder from → HasPorts from outer →
        IsGraphOf mode from.inputs (listing_of width from) g → AreLeastDepths g most lists →
        numbers ports.roots ≡ root_classes width from g outer.outputs →
        IsTableNetwork g most lists.depths ports net → HaveRoots mode width from most outer net }
{
    class_depths_are_form_depths();
    graphs_have_the_values();
}

/// The text of a network of tables is read as the draft of its tables and wires, with the frame
/// that it was written with and each start at 0, and its lines break no rule but, where there are
/// many of them, the limit on the number of signals.
pub fn written_tables_are_read()
    ensures { (n : PlainTableNet) (frame : Frame) → IsSayable n frame →
        IsTablesRead (tables_text n frame) (draft_said n) frame }
{}

/// Lines without a fault break no rule, and the first fault of lines that break none but the limit
/// on the number of signals is that of this limit.
pub fn the_limit_alone_is_left_out()
    ensures unbroken { (lines : List LogicalLine) → first_fault [] lines ≡ None →
        AreUnlimited lines }
    ensures limited { (lines : List LogicalLine) (fault : FaultAt) → AreUnlimited lines →
        first_fault [] lines ≡ Some fault → fault.kind ≡ LimitSignals }
{}

/// The network of tables that is made of a graph and ports can be said where the ports' names allow
/// it.
pub fn made_tables_are_sayable()
    ensures { (g : Graph) (most : ℕ) (depths : List (Option ℕ)) (ports : TablePorts)
        (n : PlainTableNet) (frame : Frame) → most ≤ 6 → AreFit g ports →
        AreSayablePorts ports g.leaves frame → IsTableNetOf g most depths ports n → IsTableNet n →
        1 + (length n.tables + length (ports.inputs ++ ports.outputs)) < 2 ^ 64 →
        IsSayable n frame }
{}

/// The text of a network of tables of least depths, over the graph of a network's forms, says a
/// network, and each that it says is a mapping of the network.
pub fn table_texts_are_mappings()
    ensures some { (mode : Mode) (width : ℕ) (from : Network) (outer : Ports) (g : Graph)
        (most : ℕ) (lists : DepthLists) (ports : TablePorts) (n : PlainTableNet) → 2 ≤ width →
        HasPorts from outer → ArePortNames from outer →
        IsGraphOf mode from.inputs (listing_of width from) g → AreLeastDepths g most lists →
        ArePortsOf width from outer g ports → AreFit g ports →
        1 + (length g.pairs + (length ports.inputs + length ports.outputs)) < 2 ^ 64 →
        IsTableNetOf g most lists.depths ports n →
        (net : NetworkParts) × IsClosed (draft_said n) net }
    ensures each { (mode : Mode) (width : ℕ) (from : Network) (outer : Ports) (g : Graph)
        (most : ℕ) (lists : DepthLists) (ports : TablePorts) (n : PlainTableNet)
        (net : NetworkParts) → 2 ≤ width → 1 ≤ most → IsInOrder from → HasPorts from outer →
        ArePortNames from outer → IsGraphOf mode from.inputs (listing_of width from) g →
        AreLeastDepths g most lists → ArePortsOf width from outer g ports → AreFit g ports →
        1 + (length g.pairs + (length ports.inputs + length ports.outputs)) < 2 ^ 64 →
        IsTableNetOf g most lists.depths ports n → IsClosed (draft_said n) net →
        IsTableMapping mode width from outer ports.model most net }
{
    network_ports_fit();
    table_nets_are_kept();
    table_nets_are_named_apart();
    tables_close();
    tables_compute_classes();
    tables_have_least_depths();
}
