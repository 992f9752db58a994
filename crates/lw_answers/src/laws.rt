//! Laws over definitions: functions with empty bodies, whose clauses are the laws.
ghost use Rattle.std.specs.Prelude.{◌≡◌, ◌⊎◌, ◌↔◌, ℕ, Bool, List, Option, None, Result, Ok};
ghost use Rattle.std.specs.Prelude.{Contains};
ghost use Rattle.lw_fixed.specs.declared.micro.Micro.{Micro};
ghost use Rattle.lw_pool.specs.declared.id.NetId.{NetId};
ghost use Rattle.lw_genlib.specs.Cells.{CellParts};
ghost use Rattle.lw_blif.specs.declared.parsed.Parsed.{Parsed};
ghost use Rattle.lw_files.specs.Steps.{Files};
ghost use Rattle.lw_map.specs.Options.{Options};
ghost use Rattle.lw_map.specs.Mapped.{IsWithinLimits, IsUncovered};
ghost use Rattle.lw_map.specs.Mapped.{HasTooManyForms, HasTooManySplits};
ghost use Rattle.lw_top.specs.Answers.{AreAlike, IsAnswer, status_in};
ghost use Rattle.lw_answers.specs.Backs.{IsBackOf, ComesBack};
ghost use Rattle.lw_top.specs.Checks.{yes_text};
ghost use Rattle.lw_answers.specs.Checked.{IsCheckOf};
ghost use Rattle.lw_answers.specs.Trades.{AreReadToTrade};
ghost use Rattle.lw_answers.specs.ReadsBack.{ReadsBack};
ghost use Rattle.lw_top.specs.Translated.{AsksForVerilog, LacksVerilog};
ghost use Rattle.lw_verilog.specs.declared.reason.NoVerilog.{NoVerilog};
ghost use Rattle.lw_top.specs.Trades.{LacksPoints};
ghost use Rattle.lw_top.specs.Mappings.{AsksForMapping, AsksForTables, AreRead, IsMappingText};
ghost use Rattle.lw_top.specs.Traded.{AsksForTrade, IsTrade};
ghost use Rattle.lw_top.specs.declared.refusal.Refusal.{Refusal};

/// Words over known files come to one answer at most. Only where they ask for lookup tables, or for
/// the least area by a deadline, may there be several texts, and even there one refusal at most,
/// and then no text.
pub fn answers_are_one()
    ensures one { (words : List (List ℕ)) (files : Files) (a b : Result (List ℕ) Refusal) →
        (AsksForTables words → ⊥) → (AsksForTrade words → ⊥) →
        IsAnswer words files a → IsAnswer words files b → a ≡ b }
    ensures refusal { (words : List (List ℕ)) (files : Files) (a b : Result (List ℕ) Refusal) →
        IsAnswer words files a → IsAnswer words files b → AreAlike (λ text other. Unit {0}) a b }
{}

/// Where a mapping is asked for, an answer with a text is the text of a mapping.
pub fn answers_are_mappings()
    ensures { (words : List (List ℕ)) (files : Files) (text : List ℕ) → AsksForMapping words →
        IsAnswer words files (Ok text) → IsMappingText words files text }
{}

/// Where the least area by a deadline is asked for, an answer with a text is the text of a netlist
/// that computes the roots of the network that was read, each in time and at its least area.
pub fn answers_are_trades()
    ensures { (words : List (List ℕ)) (files : Files) (text : List ℕ) → AsksForTrade words →
        IsAnswer words files (Ok text) → IsTrade words files text }
{}

/// Where the words ask for a mapping of a network that is within the limits, the answer is that
/// there is no cover exactly where some root has none: no tree that the rules derive for it has a
/// cover by the library's cells.
pub fn uncovered_roots_are_refused()
    ensures { (words : List (List ℕ)) (files : Files) (options : Options) (certified : Bool)
        (cells : List CellParts) (model : Parsed) (a : Result (List ℕ) Refusal)
        → AreRead words files options certified cells model → IsWithinLimits options model.network →
        IsAnswer words files a
        → (status_in a ≡ 6) ↔ ((root : NetId) × Contains model.network.outputs root ×
        IsUncovered options cells model.network model.starts root) }
{}

/// Where the words ask for the least area by a deadline, or without one, the answer is that there
/// is no cover exactly where some root has none, if the network is within the limits. A limit is
/// passed exactly where there are too many forms, or else splits, or where each root has a cover
/// and up to the deadline the classes have too many points.
pub fn trades_are_refused()
    ensures cover { (words : List (List ℕ)) (files : Files) (deadline : Option Micro)
        (options : Options) (cells : List CellParts) (model : Parsed)
        (a : Result (List ℕ) Refusal) →
        AreReadToTrade words files deadline options cells model →
        IsWithinLimits options model.network → IsAnswer words files a
        → (status_in a ≡ 6) ↔ ((root : NetId) × Contains model.network.outputs root ×
        IsUncovered options cells model.network model.starts root) }
    ensures limit { (words : List (List ℕ)) (files : Files) (deadline : Option Micro)
        (options : Options) (cells : List CellParts) (model : Parsed)
        (a : Result (List ℕ) Refusal) →
        AreReadToTrade words files deadline options cells model → IsAnswer words files a
        → (status_in a ≡ 5) ↔ (HasTooManyForms options model.network
        ⊎ (HasTooManySplits options model.network
        ⊎ LacksPoints options cells model.network model.starts deadline)) }
{}

/// What a mapping wrote with its certificate is accepted by a check over the same library and
/// network, by the same options.
pub fn written_mappings_are_accepted()
    ensures { (words checks : List (List ℕ)) (files others : Files) (text : List ℕ)
        → IsCheckOf words files text checks others → IsAnswer words files (Ok text) →
        IsAnswer checks others (Ok yes_text) }
{}

/// What a mapping or a trade wrote reads back: where no cell of the library has an output with the
/// name of one of its pins, each file with the text is read as the netlist that it was written of,
/// with its latches, its starts and its certificate.
pub fn written_netlists_read_back()
    ensures mapping { (words : List (List ℕ)) (files : Files) (text : List ℕ) →
        AsksForMapping words → IsAnswer words files (Ok text)
        → (is : IsMappingText words files text) ×
        ReadsBack is.cells is.netlist is.model.frame is.model.starts is.certificate text }
    ensures trade { (words : List (List ℕ)) (files : Files) (text : List ℕ)
        → (is : IsTrade words files text) →
        ReadsBack is.cells is.netlist is.model.frame is.model.starts None text }
{}

/// Where a mapped netlist is asked for in Verilog, status 11 is that of the netlist that was read
/// and that one of the tests refuses, and only of such a one.
pub fn unsayable_netlists_are_refused()
    ensures { (words : List (List ℕ)) (files : Files) (a : Result (List ℕ) Refusal) →
        AsksForVerilog words → IsAnswer words files a
        → (status_in a ≡ 11) ↔ ((why : NoVerilog) × LacksVerilog words files why) }
{}

/// What was written in Verilog is read back: where a text in Verilog was written of a mapped
/// netlist, the mapped text of that netlist is the answer to the text, over the same library.
pub fn verilog_reads_back()
    ensures { (words backs : List (List ℕ)) (files others : Files) (text : List ℕ) →
        IsBackOf words files text backs others → IsAnswer words files (Ok text) →
        ComesBack words files backs others }
{}
