//! Laws over definitions: functions with empty bodies, whose clauses are the laws.
ghost use Rattle.lw_exists.specs.Weakly.{Weakly};
ghost use Rattle.lw_files.specs.Steps.{Files};
ghost use Rattle.lw_laws.specs.Classes.{IsGraphOf};
ghost use Rattle.lw_laws.specs.Graphs.{Graph};
ghost use Rattle.lw_laws.specs.Listings.{listing_of};
ghost use Rattle.lw_laws.specs.Modes.{Mode};
ghost use Rattle.lw_laws.specs.Networks.{Network};
ghost use Rattle.lw_map.specs.Options.{Options};
ghost use Rattle.lw_top.specs.Answers.{IsAnswer, status_in};
ghost use Rattle.lw_top.specs.Mappings.{AsksForMapping, AsksForCheck, AsksForTables};
ghost use Rattle.lw_top.specs.Words.{command_of, counting, simulation, drawing};
ghost use Rattle.lw_top.specs.Words.{timing, gate_simulation, to_verilog, from_verilog};
ghost use Rattle.lw_top.specs.declared.refusal.Refusal.{Refusal};
ghost use Rattle.std.specs.Prelude.{◌≡◌, ◌≢◌, ◌≤◌, ℕ, List, Result, Some};

/// The graph of a network's forms cannot fail to be there.
pub fn graphs_exist()
    ensures { (mode : Mode) (width : ℕ) (net : Network) → 2 ≤ width →
        Weakly ((g : Graph) × IsGraphOf mode net.inputs (listing_of width net) g) }
{}

/// Where words ask for a mapping, whatever the files are, an answer cannot fail to be there: some
/// text of a mapping, or some refusal. None is that memory ran out.
pub fn mappings_have_answers()
    ensures answer { (words : List (List ℕ)) (files : Files) → AsksForMapping words →
        Weakly ((a : Result (List ℕ) Refusal) × IsAnswer words files a) }
    ensures status { (words : List (List ℕ)) (files : Files) (a : Result (List ℕ) Refusal) →
        AsksForMapping words → IsAnswer words files a → status_in a ≢ 8 }
{}

/// So is an answer to words that ask for the size of a graph, or for the values of a network.
pub fn counts_and_values_have_answers()
    ensures counts { (words : List (List ℕ)) (files : Files) (options : Options)
        (network : List ℕ) → command_of words ≡ Some (counting options network) →
        Weakly ((a : Result (List ℕ) Refusal) × IsAnswer words files a) }
    ensures values { (words : List (List ℕ)) (files : Files) (network vectors : List ℕ) →
        command_of words ≡ Some (simulation network vectors) →
        Weakly ((a : Result (List ℕ) Refusal) × IsAnswer words files a) }
{}

/// So is an answer to words that ask for the sizes of a drawn network.
pub fn sizes_have_answers()
    ensures { (words : List (List ℕ)) (files : Files) (seed count : ℕ) (library : List ℕ) →
        command_of words ≡ Some (drawing seed count library) →
        Weakly ((a : Result (List ℕ) Refusal) × IsAnswer words files a) }
{}

/// So is an answer to words that ask for lookup tables.
pub fn tables_have_answers()
    ensures { (words : List (List ℕ)) (files : Files) → AsksForTables words →
        Weakly ((a : Result (List ℕ) Refusal) × IsAnswer words files a) }
{}

/// So is an answer to words that ask for the check of a mapped netlist: that it is accepted, the
/// first test that it fails, or why there is no verdict.
pub fn checks_have_answers()
    ensures { (words : List (List ℕ)) (files : Files) → AsksForCheck words →
        Weakly ((a : Result (List ℕ) Refusal) × IsAnswer words files a) }
{}

/// So is an answer to words that ask for the times or the values of a mapped netlist, for its text
/// in Verilog, or for the mapped text of a netlist in Verilog.
pub fn netlists_have_answers()
    ensures times { (words : List (List ℕ)) (files : Files) (library mapped : List ℕ) →
        command_of words ≡ Some (timing library mapped) →
        Weakly ((a : Result (List ℕ) Refusal) × IsAnswer words files a) }
    ensures values { (words : List (List ℕ)) (files : Files)
        (library mapped vectors : List ℕ) →
        command_of words ≡ Some (gate_simulation library mapped vectors) →
        Weakly ((a : Result (List ℕ) Refusal) × IsAnswer words files a) }
    ensures verilog { (words : List (List ℕ)) (files : Files) (library mapped : List ℕ) →
        command_of words ≡ Some (to_verilog library mapped) →
        Weakly ((a : Result (List ℕ) Refusal) × IsAnswer words files a) }
    ensures mapped { (words : List (List ℕ)) (files : Files) (library verilog : List ℕ) →
        command_of words ≡ Some (from_verilog library verilog) →
        Weakly ((a : Result (List ℕ) Refusal) × IsAnswer words files a) }
{}

/// No answer to any words is that memory ran out.
pub fn answers_want_no_memory()
    ensures { (words : List (List ℕ)) (files : Files) (a : Result (List ℕ) Refusal) →
        IsAnswer words files a → status_in a ≢ 8 }
{}
